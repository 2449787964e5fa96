//! What may happen to a call.

/// What happens to one call of a `FaultLink`. To a call that a fault does not speak of, nothing does.
#[derive(Clone, Copy, Debug, PartialEq, Eq)]
pub enum Fault {
    /// The call is passed on.
    Pass,
    /// Nothing is done, and the answer is `Failed`.
    Lose,
    /// The call is done, and the answer is `Failed`.
    ActThenFail,
    /// A change is done twice.
    Repeat,
    /// The answer to a change is `Failed`. It is done before the `after`-th later call, with what the caller knew when it was
    /// sent; 0 counts as 1. Where it then finds no memory it is lost.
    Late { after: u32 },
    /// `get` gives the text with the lowest bit of its last byte flipped, and one zero byte for an empty text.
    Alter,
    /// `get` gives nothing, and `has` says no.
    Gone,
}
