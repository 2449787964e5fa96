//! A configuration of which some lines were read.

ghost use Rattle.std.specs.Prelude.{◌≡◌, ◌+◌, ◌≤◌, ◌<◌, bytes_eq, length, Some, IfOk, IfSome};
ghost use Rattle.std.specs.List.{list_any};
ghost use Rattle.ms_plan.specs.Drafts.{begun, has_copies as fits, with_service, with_client, with_line, lines_in};
ghost use Rattle.ms_plan.specs.declared.config_line.ServiceLine.{ServiceLine};

use crate::config_line::{Line, ServiceLine};
use ms_base::NoMemory;
use ms_base::limits::{CLIENTS, COPIES, SERVICES};
use ms_text::Label;
use std::alloc::Global;
use std::marker::Model;

/// The most services, and replicas.
pub(crate) const MOST: usize = SERVICES as usize;

/// What the lines so far say.
#[derive(Drop)]
pub(crate) struct Draft {
    pub(crate) replicas: u32,
    pub(crate) unit: u64,
    pub(crate) services: Vec<ServiceLine>,
    pub(crate) clients: Vec<Label>,
}

impl Model for Draft {
    ghost use Rattle.ms_plan.specs.Drafts.{DraftView, IsDraft};

    ghost Value = { DraftView };

    ghost use Rattle.ms_plan.specs.DraftInside.{seen, IsKept};

    ghost view = { seen };

    ghost invariant = { IsKept };
}

impl Draft {
    /// What the first line says, where its numbers are in their ranges.
    pub(crate) fn begin(alloc: Global, replicas: u64, unit: u64) -> Option<Draft>
        ensures { result ≡ begun replicas unit }
    {
        if replicas < 1 || replicas > MOST as u64 || unit < 1 {
            return None;
        }
        Some(Draft {
            replicas: replicas as u32,
            unit,
            services: Vec::new(alloc),
            clients: Vec::new(alloc),
        })
    }

    /// With one service more, where it is right there.
    fn with_service(mut self, service: ServiceLine) -> Result<Option<Draft>, NoMemory>
        ensures { IfOk result (λ o. o ≡ with_service self service) }
    {
        if !self.clients.is_empty()
            || self.services.len() >= MOST
            || !has_copies(self.unit, service.capacity)
            || has_service(&self.services, service.label.as_str())
        {
            return Ok(None);
        }
        self.services.push(service)?;
        Ok(Some(self))
    }

    /// With one client more, where it is right there.
    fn with_client(mut self, label: Label) -> Result<Option<Draft>, NoMemory>
        ensures { IfOk result (λ o. o ≡ with_client self label) }
    {
        if (self.replicas as usize) > self.services.len()
            || self.clients.len() >= CLIENTS as usize
            || has_label(&self.clients, label.as_str())
        {
            return Ok(None);
        }
        self.clients.push(label)?;
        Ok(Some(self))
    }

    /// On with a line behind the first, where it is right in its place.
    pub(crate) fn with_line(self, line: Line) -> Result<Option<Draft>, NoMemory>
        ensures is { IfOk result (λ o. o ≡ with_line (Some self) line) }
        ensures more { IfOk result (λ o. IfSome o (λ d. lines_in d ≡ lines_in self + 1)) }
        ensures few { IfOk result (λ o. IfSome o (λ d. lines_in d ≤ 33)) }
    {
        match line {
            Line::Head { .. } => Ok(None),
            Line::Service { service } => self.with_service(service),
            Line::Client { label } => self.with_client(label),
        }
    }
}

/// Whether the capacity is 1 to 16 units, rounded down.
fn has_copies(unit: u64, capacity: u64) -> bool
    requires { 1 ≤ unit }
    ensures { result ≡ fits unit capacity }
{
    let copies = capacity / unit;
    copies >= 1 && copies <= COPIES
}

fn has_service(services: &[ServiceLine], label: &str) -> bool
    ensures { result ≡ list_any (λ (s : ServiceLine). bytes_eq s.label label.now) services.now }
{
    services
        .iter()
        .any(|service| service.label.as_str() == label)
}

fn has_label(labels: &[Label], label: &str) -> bool
    ensures { result ≡ list_any (λ l. bytes_eq l label.now) labels.now }
{
    labels.iter().any(|other| other.as_str() == label)
}
