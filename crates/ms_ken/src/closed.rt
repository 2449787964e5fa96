//! What every pass's view is to be.

ghost use Rattle.std.specs.Prelude.{◌≡◌, ℕ, List, [], length, replicate};
ghost use Rattle.ms_ken.specs.Lists.{Agree, longer_lists};

/// A fact of views, which have one list for each owner.
pub trait Closed {
    /// What is told.
    type Event;

    ghost closed: { List (List Self.Event) → Type 0 };

    /// It holds of empty lists.
    ghost of_nothing: { (n : ℕ) → closed (replicate n []) };

    /// Where it holds of two views, and of each owner's two lists one begins the other, it holds of
    /// the longer lists.
    ghost of_longer: { (xs ys : List (List Self.Event)) → length xs ≡ length ys
        → closed xs → closed ys → Agree xs ys → closed (longer_lists xs ys) };
}
