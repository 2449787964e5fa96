//! The views that services and clients share.

use ms_ken::{Board, Closed, Pass};
use ms_record::Item;

/// Views in which nothing is told, or nothing is claimed, or a setting is told and each item is supported by the view
/// (`docs/PROTOCOL.md`, closed views). A board of them has 33 owners: services, clients and the configuration.
pub struct FoldClosed;

impl Closed for FoldClosed {
    type Event = Item;

    ghost use Rattle.ms_core.specs.Views.{IsClosed};
    ghost use Rattle.ms_core.specs.Closing.{closed_of_nothing, closed_of_longer};

    ghost closed = { IsClosed };

    ghost of_nothing = { closed_of_nothing };

    ghost of_longer = { closed_of_longer };
}

/// The board of services and clients.
pub type Common = Board<FoldClosed>;

/// What one of them knows.
pub type Know = Pass<FoldClosed>;
