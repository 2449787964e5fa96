//! The views that services and clients share: what each item rests on, and what holds of every closed view.
#![tactic(auto)]

pub mod closing;
pub mod item_law;
pub mod log_law;
pub mod view_law;
pub mod want;

pub use closing::{Common, FoldClosed, Know};
pub use want::{Want, Wanted};
