//! The configuration, which is the same for all clients.

ghost use Rattle.std.specs.Prelude.{◌≡◌, ◌+◌, ◌<◌, ◌≤◌, ℕ, List, bytes_eq, length, position, slice_get, None, Some, Ok, Err, IfOk, IfSome};
ghost use Rattle.std.specs.Option.{option_map};
ghost use Rattle.ms_record.specs.Plans.{IsPlan};
ghost use Rattle.ms_record.specs.Settings.{IsSetting};
ghost use Rattle.ms_record.specs.declared.refusal.Refusal.TheVariants as refusals;
ghost use Rattle.ms_record.specs.declared.refusal.Place.TheVariants as places;
ghost use Rattle.ms_text.specs.Lines.{lines_of, read_lines};
ghost use Rattle.ms_text.specs.Firsts.{IsFirstWrong};
ghost use Rattle.ms_plan.specs.declared.config_line.Line.{Line};
ghost use Rattle.ms_plan.specs.ConfigLines.{HasLabel, data_of, json_of, line_at};
ghost use Rattle.ms_plan.specs.Grammar.{Says};
ghost use Rattle.ms_plan.specs.Drafts.{DraftView, lines_in};
ghost use Rattle.ms_plan.specs.Configuration.{ConfigView, client_of, config_at, config_of, config_if, config_line, draft_after, first_plan, setting_of, whole, IsConfig, ReadsConfig};

use crate::config_line::{Line, ServiceLine, read_line};
use crate::draft::{Draft, MOST};
use ms_base::{ClientId, Name, NoMemory, ServiceId};
use ms_object::{empty_version, name_of};
use ms_record::{Place, Plan, PlanRow, Refusal, Setting, wrong_line};
use ms_text::{Label, first_wrong_lines, next_line};
use std::alloc::Global;
use std::marker::Model;

/// The setting that a configuration gives, and the labels of its services and clients.
#[derive(Drop)]
pub struct Config {
    setting: Setting,
    services: Vec<ServiceLine>,
    clients: Vec<Label>,
}

impl Model for Config {
    ghost use Rattle.ms_plan.specs.Configuration.{ConfigView};

    ghost Value = { ConfigView };

    ghost use Rattle.ms_plan.specs.ConfigInside.{seen, IsKept};

    ghost view = { seen };

    ghost invariant = { IsKept };
}

impl Config {
    /// The numbers of services and clients, 1 to 16 each, and the genesis.
    pub fn setting(&self) -> &Setting
        ensures is { result.now ≡ self.now.setting }
        ensures rules { IsConfig self.now }
    {
        &self.setting
    }

    /// The client of this label.
    pub fn client(&self, label: &str) -> Option<ClientId>
        ensures found { IfSome result (λ c. slice_get self.now.clients c.0 ≡ Some label.now) }
        ensures only { (number : ℕ) → slice_get self.now.clients number ≡ Some label.now → result ≡ Some (client_of number) }
    {
        let at = place_of(&self.clients, label)?;
        Some(ClientId(at as u32))
    }

    /// The label of the client of this number.
    pub fn client_label(&self, client: ClientId) -> Option<&str>
        ensures { option_map (λ l. l.now) result ≡ slice_get self.now.clients client.0 }
    {
        self.clients.get(client.0 as usize).map(Label::as_str)
    }

    /// The label of the service of this number.
    pub fn service_label(&self, service: ServiceId) -> Option<&str>
        ensures { option_map (λ l. l.now) result ≡ slice_get self.now.services service.0 }
    {
        self.services
            .get(service.0 as usize)
            .map(|service| service.label.as_str())
    }
}

/// The first place of a label.
fn place_of(labels: &[Label], label: &str) -> Option<usize>
    ensures { result ≡ position (λ l. bytes_eq l label.now) labels.now }
{
    labels.iter().position(|other| other.as_str() == label)
}

/// The configuration that the text says: `docs/FORMATS.md`, configuration.
///
/// `BadInput` names the first wrong line, counted from 1; a fault that only the end shows is that of the line after
/// the last.
pub fn read_config(alloc: Global, text: &[u8]) -> Result<Config, Refusal>
    ensures exact { ReadsConfig (config_at text.now) result }
    ensures rules { IfOk result IsConfig }
    ensures first { (line : ℕ) → result ≡ Err (refusals.BadInput places.Config line) → IsFirstWrong config_line (whole text.now) None (lines_of text.now) line }
{
    first_wrong_lines::<Option<Draft>, Config>();
    read_whole(alloc, text)
}

/// As `read_config`.
fn read_whole(alloc: Global, text: &[u8]) -> Result<Config, Refusal>
    ensures exact { ReadsConfig (config_at text.now) result }
    ensures rules { IfOk result IsConfig }
{
    if text.is_empty() {
        return Err(wrong_line(Place::Config, 1));
    }
    let (first, rest) = next_line(text);
    let Some(draft) = read_head(alloc, first)? else {
        return Err(wrong_line(Place::Config, 1));
    };
    read_parties(alloc, text, draft, rest)
}

/// A line says something exactly where its JSON value is the one object that says it: no key more, and none less.
/// And a configuration is read exactly where the whole text says it.
pub fn config_laws()
    ensures line { (text : List ℕ) (line : Line) → line_at text ≡ Some line → HasLabel line × (json_of text ≡ Some (data_of line)) }
    ensures line_again { (text : List ℕ) (line : Line) → HasLabel line → json_of text ≡ Some (data_of line) → line_at text ≡ Some line }
    ensures whole { (text : List ℕ) (config : ConfigView) → config_at text ≡ Ok config → (draft : DraftView) × Says text draft × (config ≡ config_of text draft) }
    ensures whole_again { (text : List ℕ) (draft : DraftView) → Says text draft → config_at text ≡ Ok (config_of text draft) }
{}

/// What the first line says.
fn read_head(alloc: Global, line: &[u8]) -> Result<Option<Draft>, NoMemory>
    ensures is { IfOk result (λ o. o ≡ draft_after None line.now) }
    ensures first { IfOk result (λ o. IfSome o (λ d. lines_in d ≡ 1)) }
{
    match read_line(alloc, line)? {
        Some(Line::Head { replicas, unit }) => Ok(Draft::begin(alloc, replicas, unit)),
        _ => Ok(None),
    }
}

/// The services and the clients, from line 2 on.
fn read_parties(
    alloc: Global,
    text: &[u8],
    mut draft: Draft,
    lines: &[u8],
) -> Result<Config, Refusal>
    requires { lines_in draft ≡ 1 }
    ensures rules { IfOk result IsConfig }
    ensures exact { ReadsConfig (read_lines config_line (whole text.now) 2 (Some draft) (lines_of lines.now)) result }
{
    let mut rest = lines;
    let mut line = 2;
    while !rest.is_empty() {
        let (first, after) = next_line(rest);
        let Some(next) = read_party(alloc, draft, first)? else {
            return Err(wrong_line(Place::Config, line));
        };
        draft = next;
        rest = after;
        line += 1;
    }
    match finish(text, draft) {
        Some(config) => Ok(config),
        None => Err(wrong_line(Place::Config, line)),
    }
}

/// On with the line of a service or a client.
fn read_party(alloc: Global, draft: Draft, text: &[u8]) -> Result<Option<Draft>, NoMemory>
    ensures is { IfOk result (λ o. o ≡ draft_after (Some draft) text.now) }
    ensures more { IfOk result (λ o. IfSome o (λ d. lines_in d ≡ lines_in draft + 1)) }
    ensures few { IfOk result (λ o. IfSome o (λ d. lines_in d ≤ 33)) }
{
    match read_line(alloc, text)? {
        Some(line) => draft.with_line(line),
        None => Ok(None),
    }
}

/// The configuration, where there is a client.
fn finish(text: &[u8], draft: Draft) -> Option<Config>
    ensures is { result ≡ config_if text.now draft }
    ensures rules { IfSome result IsConfig }
{
    if draft.clients.is_empty() {
        return None;
    }
    let setting = setting(text, &draft);
    let Draft {
        services,
        clients,
        ..
    } = draft;
    Some(Config {
        setting,
        services,
        clients,
    })
}

/// The setting that the text gives.
fn setting(text: &[u8], draft: &Draft) -> Setting
    requires { 0 < length draft.now.clients }
    ensures is { result ≡ setting_of text.now draft.now }
    ensures fits { IsSetting result }
{
    let services = draft.services.len() as u32;
    let clients = draft.clients.len() as u32;
    let plan = first_plan(draft);
    Setting::first(services, clients, name_of(text), empty_version(), plan)
}

/// The first plan: all services in their order.
fn first_plan(draft: &Draft) -> Plan
    requires { 0 < length draft.now.clients }
    ensures is { result ≡ first_plan draft.now }
    ensures keeps { IsPlan result }
{
    let mut rows = [PlanRow {
        service: ServiceId(0),
        capacity: 0,
    }; MOST];
    for (i, service) in draft.services.iter().enumerate() {
        rows[i] = PlanRow {
            service: ServiceId(i as u32),
            capacity: service.capacity,
        };
    }
    match Plan::new(
        1,
        1,
        draft.replicas,
        draft.unit,
        &rows[..draft.services.len()],
    ) {
        Some(plan) => plan,
        None => unreachable!(),
    }
}
