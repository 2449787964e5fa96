//! Drills: a setting, and events in their order.

ghost use Rattle.std.specs.Prelude.{◌≡◌, ◌≤◌, ℕ, All, length, Err, IfOk};
ghost use Rattle.ms_drill.specs.Drills.{drill_at, events_at, most_events, setting_of, IsHead, IsWrongLine, ReadsDrill, ReadsEvents};
ghost use Rattle.ms_record.specs.Settings.{IsSetting};
ghost use Rattle.ms_record.specs.declared.refusal.Refusal.TheVariants as refusals;
ghost use Rattle.ms_record.specs.declared.refusal.Place.TheVariants as places;
ghost use Rattle.ms_text.specs.Lines.{lines_of};
ghost use Rattle.ms_world.specs.Steps.{IsEvent};

use crate::event::read_event;
use crate::head::{Head, read_head};
use ms_base::limits::EVENTS;
use ms_base::{Items, Quantity};
use ms_object::{empty_version, name_of};
use ms_record::{Place, Plan, Refusal, Setting, wrong_line};
use ms_text::next_line;
use ms_world::Event;
use ms_world::world::event_ranges;
use std::alloc::Global;

/// A list of events.
pub type Events = Items<Event>;

/// A setting, and events in their order.
#[derive(Drop)]
pub struct Drill {
    pub setting: Setting,
    pub events: Events,
}

/// The drill that the text spells: `docs/FORMATS.md`, drill.
pub fn read_drill(alloc: Global, text: &[u8]) -> Result<Drill, Refusal>
    ensures exact { ReadsDrill (drill_at text.now) result }
    ensures first { (line : ℕ) → drill_at text.now ≡ Err (refusals.BadInput places.Input line) → IsWrongLine (lines_of text.now) line }
    ensures setting { IfOk result (λ d. IsSetting d.setting) }
    ensures ranges { IfOk result (λ d. All IsEvent d.events) }
{
    if text.is_empty() {
        return Err(wrong_line(Place::Input, 1));
    }
    let (first, rest) = next_line(text);
    let Some(head) = read_head(first) else {
        return Err(wrong_line(Place::Input, 1));
    };
    let count = count_lines(rest);
    if count > EVENTS {
        return Err(Refusal::Limit {
            what: Quantity::Events,
            value: count,
        });
    }
    let events = read_events(alloc, rest)?;
    Ok(Drill {
        setting: setting(first, head),
        events,
    })
}

/// How many lines a text has.
fn count_lines(text: &[u8]) -> u64
    ensures { result ≡ length (lines_of text.now) }
{
    let mut rest = text;
    let mut count: u64 = 0;
    while !rest.is_empty() {
        let (_, after) = next_line(rest);
        rest = after;
        count += 1;
    }
    count
}

/// The events of the lines behind the head.
fn read_events(alloc: Global, text: &[u8]) -> Result<Events, Refusal>
    requires { length (lines_of text.now) ≤ most_events }
    ensures read { ReadsEvents (events_at (lines_of text.now)) result }
    ensures ranges { IfOk result (λ events. All IsEvent events) }
{
    let mut events = Items::new(alloc);
    let mut rest = text;
    let mut line = 2;
    while !rest.is_empty() {
        let (first, after) = next_line(rest);
        match read_event(alloc, first)? {
            Some(event) => {
                event_ranges(&event);
                events.push(event)?
            }
            None => return Err(wrong_line(Place::Input, line)),
        }
        rest = after;
        line += 1;
    }
    Ok(events)
}

/// The setting that the first line gives.
fn setting(line: &[u8], head: Head) -> Setting
    requires { IsHead head }
    ensures is { result ≡ setting_of line.now head }
    ensures fits { IsSetting result }
{
    let before = name_of(line);
    let plan = Plan::even(head.services, head.replicas);
    Setting::first(head.services, head.clients, before, empty_version(), plan)
}
