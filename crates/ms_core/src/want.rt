//! What a name is to name.

use ms_base::Name;

/// What a name is to name.
#[derive(Clone, Copy, Debug, PartialEq, Eq, PartialOrd, Ord)]
pub enum Wanted {
    Blob,
    File,
    Directory,
    Version,
}

/// A name, and what it is to name.
#[derive(Clone, Copy, Debug, PartialEq, Eq, PartialOrd, Ord)]
pub struct Want {
    pub name: Name,
    pub wanted: Wanted,
}
