//! What a client keeps texts under.

use ms_base::Name;

/// What a text is kept under.
#[derive(Clone, Copy, Debug, PartialEq, Eq)]
pub enum Key {
    /// The state.
    State,
    /// An object, by the SHA-256 of its bytes.
    Object { name: Name },
}
