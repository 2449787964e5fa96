//! What somebody has read of the logs.

ghost use Rattle.std.specs.Prelude.{◌≡◌};

use ms_record::LogEvent;
use std::marker::Model;

/// The front of a service's log: its first events, in order.
#[derive(Drop)]
pub(crate) struct Front<'a> {
    events: &'a [LogEvent],
}

impl<'a> Model for Front<'a> {
    ghost use Rattle.std.specs.Prelude.{List};
    ghost use Rattle.ms_record.specs.declared.log.LogEvent.{LogEvent};

    ghost Value = { List LogEvent };

    ghost view = { λ front. front.events.now };
}

impl<'a> Front<'a> {
    pub(crate) fn new(events: &'a [LogEvent]) -> Front<'a>
        ensures { result ≡ events.now }
    {
        Front { events }
    }

    pub(crate) fn as_slice(&self) -> &[LogEvent]
        ensures { result.now ≡ self.now }
    {
        self.events
    }
}
