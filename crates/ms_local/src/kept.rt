//! What a client keeps from command to command.

use ms_base::Name;

/// A member of the chain, from 0 to 4,294,967,294: where it stands, its name, and its version.
#[derive(Clone, Copy, Debug, PartialEq, Eq)]
pub struct Base {
    pub position: u32,
    pub entry: Name,
    pub version: Name,
}

/// A change of the folder that was begun: the member that it leads to, and the roots of the folder before and after it.
#[derive(Clone, Copy, Debug, PartialEq, Eq)]
pub struct Todo {
    pub target: Base,
    pub before: Name,
    pub after: Name,
}

/// What a client keeps: its last round and its last number, both from 0 to 4,294,967,294, the member that its folder follows,
/// its newest version, and perhaps a change of the folder that was begun.
#[derive(Clone, Copy, Debug, PartialEq, Eq)]
pub struct Kept {
    pub round: u32,
    pub number: u32,
    pub base: Base,
    pub head: Name,
    pub todo: Option<Todo>,
}
