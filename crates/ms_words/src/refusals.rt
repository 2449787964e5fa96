//! The lines of refusals, each by a function of its own.

ghost use Rattle.std.specs.Prelude.{◌≡◌, ◌+◌, ◌≤◌, ◌++◌, length, IfSome, IfNone};
ghost use Rattle.ms_words.specs.Texts.{bad_line, fault_line, split_line, limit_line, event_line, refusal_text, no_majority_line, service_words, unlisted_line, damaged_line, collected_line, too_few_line, broken_line, HasManyLines};

use crate::line::Line;
use crate::reasons::{place_word, quantity_word, text_word, why_word};
use ms_base::{Name, Quantity, ServiceId};
use ms_record::{Key, Place, Refusal, ServiceSet, Why};

/// A line that is always the same.
fn fixed(text: &'static [u8]) -> Line
    requires { length text.now ≤ 20 }
    ensures { result ≡ text.now }
{
    let mut line = Line::new();
    line.text(text);
    line
}

#[tactic(auto, unfolding(crate::specs::Texts::bad_line))]
fn bad(place: Place, number: u32) -> Line
    ensures { result ≡ bad_line place number }
{
    let mut line = Line::new();
    line.text(b"bad ");
    line.text(text_word(place));
    line.text(b" ");
    line.number(u64::from(number));
    line.text(b"\n");
    line
}

#[tactic(auto, unfolding(crate::specs::Texts::fault_line))]
fn fault(place: Place) -> Line
    ensures { result ≡ fault_line place }
{
    let mut line = Line::new();
    line.text(b"fault ");
    line.text(place_word(place));
    line.text(b"\n");
    line
}

/// The numbers of services go on the line, each behind a space.
fn add_services(line: &mut Line, services: &ServiceSet)
    requires { length line.old ≤ 80 }
    ensures is { line.new ≡ line.old ++ service_words services.now }
    ensures long { length line.new ≤ length line.old + 336 }
{
    let services = services.as_slice();
    for i in 0..services.len() {
        line.text(b" ");
        line.number(u64::from(services[i].0));
    }
}

#[tactic(auto, unfolding(crate::specs::Texts::no_majority_line))]
fn no_majority(failed: &ServiceSet) -> Line
    ensures { result ≡ no_majority_line failed.now }
{
    let mut line = Line::new();
    line.text(b"no majority");
    add_services(&mut line, failed);
    line.text(b"\n");
    line
}

#[tactic(auto, unfolding(crate::specs::Texts::damaged_line))]
fn damaged(key: &Key) -> Line
    ensures { result ≡ damaged_line key.now }
{
    let mut line = Line::new();
    match key {
        Key::State => line.text(b"damaged state\n"),
        Key::Object { name } => {
            line.text(b"damaged ");
            line.name(name);
            line.text(b"\n");
        }
    }
    line
}

#[tactic(auto, unfolding(crate::specs::Texts::split_line))]
fn split(position: u32, first: &Name, second: &Name) -> Line
    ensures { result ≡ split_line position first.now second.now }
{
    let mut line = Line::new();
    line.text(b"split ");
    line.number(u64::from(position));
    line.text(b" ");
    line.name(first);
    line.text(b" ");
    line.name(second);
    line.text(b"\n");
    line
}

#[tactic(auto, unfolding(crate::specs::Texts::limit_line))]
fn limit(what: Quantity, value: u64) -> Line
    ensures { result ≡ limit_line what value }
{
    let mut line = Line::new();
    line.text(b"limit ");
    line.text(quantity_word(what));
    line.text(b" ");
    line.number(value);
    line.text(b"\n");
    line
}

#[tactic(auto, unfolding(crate::specs::Texts::collected_line))]
fn collected(floor: u32) -> Line
    ensures { result ≡ collected_line floor }
{
    let mut line = Line::new();
    line.text(b"collected ");
    line.number(u64::from(floor));
    line.text(b"\n");
    line
}

#[tactic(auto, unfolding(crate::specs::Texts::too_few_line))]
fn too_few(name: &Name, failed: &ServiceSet) -> Line
    ensures { result ≡ too_few_line name.now failed.now }
{
    let mut line = Line::new();
    line.text(b"too few ");
    line.name(name);
    add_services(&mut line, failed);
    line.text(b"\n");
    line
}

#[tactic(auto, unfolding(crate::specs::Texts::event_line))]
fn event(number: u64, why: Why) -> Line
    ensures { result ≡ event_line number why }
{
    let mut line = Line::new();
    line.text(b"event ");
    line.number(number);
    line.text(b" ");
    line.text(why_word(why));
    line.text(b"\n");
    line
}

#[tactic(auto, unfolding(crate::specs::Texts::unlisted_line))]
fn unlisted(service: ServiceId) -> Line
    ensures { result ≡ unlisted_line service.0 }
{
    let mut line = Line::new();
    line.text(b"unlisted ");
    line.number(u64::from(service.0));
    line.text(b"\n");
    line
}

#[tactic(auto, unfolding(crate::specs::Texts::broken_line))]
fn broken(name: &Name) -> Line
    ensures { result ≡ broken_line name.now }
{
    let mut line = Line::new();
    line.text(b"broken ");
    line.name(name);
    line.text(b"\n");
    line
}

/// The line of a refusal, which takes no memory; none where it has many lines.
pub fn refusal_line(refusal: &Refusal) -> Option<Line>
    ensures some { IfSome result (λ line. line ≡ refusal_text refusal.now) }
    ensures none { IfNone result (HasManyLines refusal.now) }
{
    let line = match refusal {
        Refusal::Usage => fixed(b"usage\n"),
        Refusal::BadInput { place, line } => bad(*place, *line),
        Refusal::OutsideFault { place } => fault(*place),
        Refusal::NoMajority { failed } => no_majority(failed),
        Refusal::Contended { .. } | Refusal::LostObject { .. } => return None,
        Refusal::NoMemory => fixed(b"no memory\n"),
        Refusal::LocalDamaged { key } => damaged(key),
        Refusal::Split {
            position,
            first,
            second,
        } => split(*position, first, second),
        Refusal::Limit { what, value } => limit(*what, *value),
        Refusal::Collected { floor } => collected(*floor),
        Refusal::TooFew { name, failed } => too_few(name, failed),
        Refusal::NotEnabled { event: number, why } => event(*number, *why),
        Refusal::Unlisted { service, .. } => unlisted(*service),
        Refusal::Broken { name } => broken(name),
    };
    Some(line)
}
