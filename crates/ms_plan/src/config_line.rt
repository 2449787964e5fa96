//! The lines of a configuration.

ghost use Rattle.std.specs.Prelude.{◌≡◌, IfOk, codes};
ghost use Rattle.std.specs.Option.{option_map};
ghost use Rattle.serde_json.specs.View.{view};
ghost use Rattle.ms_plan.specs.ConfigLines.{json_of, key_count, number_in, label_in, head_in, service_in, client_in, line_in, line_at};

use ms_base::NoMemory;
use ms_text::Label;
use serde_json::{Category, Value};
use std::alloc::Global;

/// A service: its label, and its capacity in bytes.
#[derive(Drop)]
pub struct ServiceLine {
    pub label: Label,
    pub capacity: u64,
}

/// What a line says.
#[derive(Drop)]
pub enum Line {
    /// The first line: how many services are to hold each object, and the bytes of a copy.
    Head { replicas: u64, unit: u64 },
    Service { service: ServiceLine },
    Client { label: Label },
}

/// The JSON value of a line, where it is UTF-8 and JSON.
fn read_json(alloc: Global, line: &[u8]) -> Result<Option<Value>, NoMemory>
    ensures { IfOk result (λ o. option_map view o ≡ json_of line.now) }
{
    match Value::from_slice(alloc, line) {
        Ok(value) => Ok(Some(value)),
        Err(error) => match error.classify() {
            Category::Memory => Err(NoMemory),
            _ => Ok(None),
        },
    }
}

/// How many keys an object has; 0 of any other value.
fn count_keys(value: &Value) -> usize
    ensures { result ≡ key_count (view value.now) }
{
    match value.as_object() {
        Some(members) => members.len(),
        None => 0,
    }
}

/// The whole number at a key.
fn read_number(value: &Value, key: &str) -> Option<u64>
    ensures { result ≡ number_in (view value.now) key.now }
{
    value.get(key).and_then(Value::as_u64)
}

/// The label at a key.
fn read_label(alloc: Global, value: &Value, key: &str) -> Result<Option<Label>, NoMemory>
    ensures { IfOk result (λ o. o ≡ label_in (view value.now) key.now) }
{
    match value.get(key).and_then(Value::as_str) {
        Some(text) => Label::of(alloc, text),
        None => Ok(None),
    }
}

/// `{"metasync":1,"replicas":R,"unit":U}`, and no other key.
#[tactic(auto, unfolding(crate::specs::ConfigLines::head_in))]
fn read_head(value: &Value) -> Option<Line>
    ensures { result ≡ head_in (view value.now) }
{
    let version = read_number(value, "metasync")?;
    let replicas = read_number(value, "replicas")?;
    let unit = read_number(value, "unit")?;
    if count_keys(value) == 3 && version == 1 {
        Some(Line::Head { replicas, unit })
    } else {
        None
    }
}

/// `{"service":LABEL,"capacity":C}`, and no other key.
#[tactic(auto, unfolding(crate::specs::ConfigLines::service_in))]
fn read_service(alloc: Global, value: &Value) -> Result<Option<Line>, NoMemory>
    ensures { IfOk result (λ o. o ≡ service_in (view value.now)) }
{
    let Some(label) = read_label(alloc, value, "service")? else {
        return Ok(None);
    };
    let Some(capacity) = read_number(value, "capacity") else {
        return Ok(None);
    };
    if count_keys(value) != 2 {
        return Ok(None);
    }
    Ok(Some(Line::Service {
        service: ServiceLine { label, capacity },
    }))
}

/// `{"client":LABEL}`, and no other key.
#[tactic(auto, unfolding(crate::specs::ConfigLines::client_in))]
fn read_client(alloc: Global, value: &Value) -> Result<Option<Line>, NoMemory>
    ensures { IfOk result (λ o. o ≡ client_in (view value.now)) }
{
    let Some(label) = read_label(alloc, value, "client")? else {
        return Ok(None);
    };
    if count_keys(value) != 1 {
        return Ok(None);
    }
    Ok(Some(Line::Client { label }))
}

/// The form that the value has.
fn read_form(alloc: Global, value: &Value) -> Result<Option<Line>, NoMemory>
    ensures { IfOk result (λ o. o ≡ line_in (view value.now)) }
{
    if let Some(head) = read_head(value) {
        return Ok(Some(head));
    }
    if let Some(service) = read_service(alloc, value)? {
        return Ok(Some(service));
    }
    read_client(alloc, value)
}

/// What a line says, where it has one of the forms.
pub(crate) fn read_line(alloc: Global, text: &[u8]) -> Result<Option<Line>, NoMemory>
    ensures { IfOk result (λ o. o ≡ line_at text.now) }
{
    match read_json(alloc, text)? {
        Some(value) => read_form(alloc, &value),
        None => Ok(None),
    }
}
