//! The words that reports are told in.

ghost use Rattle.std.specs.Prelude.{◌≡◌, ◌≤◌, length};
ghost use Rattle.ms_words.specs.Texts.{kind_word, place_word, quantity_word, text_word, why_word};

use ms_base::Quantity;
use ms_record::{Entry, Place, Why};

/// Where a fault is.
pub fn place_word(place: Place) -> &'static [u8]
    ensures is { result.now ≡ place_word place }
    ensures short { length result.now ≤ 10 }
{
    match place {
        Place::Config => b"config",
        Place::Input => b"input",
        Place::Desk => b"desk",
        Place::Work => b"work",
        Place::Keep => b"keep",
    }
}

/// What text has a wrong line: the configuration or an input.
pub fn text_word(place: Place) -> &'static [u8]
    ensures is { result.now ≡ text_word place }
    ensures short { length result.now ≤ 10 }
{
    match place {
        Place::Config => b"config",
        _ => b"input",
    }
}

/// What passes a limit.
pub fn quantity_word(what: Quantity) -> &'static [u8]
    ensures is { result.now ≡ quantity_word what }
    ensures short { length result.now ≤ 10 }
{
    match what {
        Quantity::Service => b"service",
        Quantity::Clients => b"clients",
        Quantity::Path => b"path",
        Quantity::Part => b"part",
        Quantity::Levels => b"levels",
        Quantity::File => b"file",
        Quantity::Files => b"files",
        Quantity::Total => b"total",
        Quantity::Object => b"object",
        Quantity::Position => b"position",
        Quantity::Round => b"round",
        Quantity::Number => b"number",
        Quantity::Generation => b"generation",
        Quantity::Input => b"input",
        Quantity::Events => b"events",
        Quantity::Asked => b"asked",
    }
}

/// The condition of an event that fails.
pub fn why_word(why: Why) -> &'static [u8]
    ensures is { result.now ≡ why_word why }
    ensures short { length result.now ≤ 10 }
{
    match why {
        Why::Client => b"client",
        Why::On => b"on",
        Why::Off => b"off",
        Why::Position => b"position",
        Why::Round => b"round",
        Why::Placed => b"placed",
        Why::Plan => b"plan",
        Why::Request => b"request",
        Why::Service => b"service",
        Why::Prefix => b"prefix",
        Why::Bid => b"bid",
        Why::Promises => b"promises",
        Why::Nothing => b"nothing",
        Why::Chosen => b"chosen",
        Why::Generation => b"generation",
        Why::Turned => b"turned",
    }
}

/// Whether an entry brings a plan, between spaces.
#[tactic(auto, unfolding(crate::specs::Texts::kind_word))]
pub fn kind_word(entry: &Entry) -> &'static [u8]
    ensures { result.now ≡ kind_word entry.now.plan }
{
    match &entry.plan {
        None => b" push ",
        Some(_) => b" plan ",
    }
}
