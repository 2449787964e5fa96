//! What the logs have of a generation, by name.

ghost use Rattle.std.specs.Prelude.{◌≡◌, ◌<◌, ◌==◌, ◌||◌, ◌∷◌, ◌++◌, [], ℕ, true, false, List, OnOk, IfOk, length, count_by, replicate, slice_index_or};
ghost use Rattle.ms_base.specs.declared.limits.TheConstants.{SERVICES};
ghost use Rattle.ms_world.specs.PutTexts.{text_put_by};
ghost use Rattle.ms_world.specs.Puts.{AddsTexts, Knows, text_under};
ghost use Rattle.ms_record.specs.declared.log.LogEvent.{LogEvent};

use crate::service::Log;
use ms_base::limits::SERVICES;
use ms_base::{Name, NoMemory, ServiceId};
use ms_record::{LogEvent, PlanRow};
use std::alloc::Global;
use std::collections::BTreeMap;

/// The greatest number of services of a plan.
const MOST_SERVICES: usize = SERVICES as usize;

/// What was put under a name in a generation.
#[derive(Clone, Copy)]
pub(crate) struct Found<'a> {
    /// The first text, by the numbers of the services and then by the order of the log.
    pub(crate) text: &'a [u8],
    /// Whether each service was given one.
    services: [bool; MOST_SERVICES],
}

/// What was put under each name in a generation.
pub(crate) type Puts<'a> = BTreeMap<Name, Found<'a>>;

impl<'a> Found<'a> {
    fn new(text: &'a [u8]) -> Found<'a>
        ensures text { result.text.now ≡ text.now }
        ensures services { result.services ≡ replicate SERVICES false }
    {
        Found {
            text,
            services: [false; MOST_SERVICES],
        }
    }

    /// Marks a service, if a plan can name it.
    fn mark(&mut self, service: usize)
        ensures text { self.new.text.now ≡ self.old.text.now }
        ensures services { (s : ℕ) → s < SERVICES → slice_index_or self.new.services s false ≡ (slice_index_or self.old.services s false || (s == service)) }
    {
        if service < MOST_SERVICES {
            self.services[service] = true;
        }
    }

    /// Whether the service was given a text.
    fn is_on(&self, service: ServiceId) -> bool
        ensures { result ≡ slice_index_or self.now.services service.0 false }
    {
        self.services
            .get(service.0 as usize)
            .copied()
            .unwrap_or(false)
    }

    /// How many services of these rows were given a text.
    pub(crate) fn copies(&self, rows: &[PlanRow]) -> usize
        ensures { result ≡ count_by (λ row. slice_index_or self.now.services row.service.0 false) rows.now }
    {
        rows.iter().filter(|row| self.is_on(row.service)).count()
    }
}

/// Adds a text that a service was given under this name.
fn add_text<'a>(
    puts: &mut Puts<'a>,
    service: usize,
    name: Name,
    text: &'a [u8],
) -> Result<(), NoMemory>
    ensures { OnOk result (AddsTexts (text_under name text.now) service puts.old.entries puts.new.entries) }
{
    let mut found = puts.get(&name).copied().unwrap_or(Found::new(text));
    found.mark(service);
    puts.insert(name, found)?;
    Ok(())
}

/// Adds an event of a service.
fn add_event<'a>(
    puts: &mut Puts<'a>,
    generation: u32,
    service: usize,
    event: &'a LogEvent,
) -> Result<(), NoMemory>
    ensures { OnOk result (AddsTexts (λ name. text_put_by generation name event.now) service puts.old.entries puts.new.entries) }
{
    match event {
        LogEvent::Put {
            generation: of,
            name,
            text,
        } if *of == generation => add_text(puts, service, *name, text.as_slice()),
        _ => Ok(()),
    }
}

/// Adds the log of the next service.
fn add_log<'a>(
    puts: &mut Puts<'a>,
    generation: u32,
    service: usize,
    log: &'a Log,
) -> Result<(), NoMemory>
    ensures { (logs : List (List LogEvent)) → length logs ≡ service → Knows logs generation puts.old.entries
        → OnOk result (Knows (logs ++ log.now ∷ []) generation puts.new.entries) }
{
    for event in log.as_slice() {
        add_event(puts, generation, service, event)?;
    }
    Ok(())
}

/// What was put under each name in a generation, by the logs of the services.
pub(crate) fn puts_in(alloc: Global, logs: &[Log], generation: u32) -> Result<Puts<'_>, NoMemory>
    ensures { IfOk result (λ puts. Knows logs.now generation puts.entries) }
{
    let mut puts = BTreeMap::new(alloc);
    for (service, log) in logs.iter().enumerate() {
        add_log(&mut puts, generation, service, log)?;
    }
    Ok(puts)
}
