//! A board on which a setting is told, so that an event may follow only where the view supports it.

ghost use Rattle.std.specs.Prelude.{◌≡◌, [], ◌∷◌, ℕ, replicate, Some, IfOk, IfSome, IsTrue};
ghost use Rattle.std.specs.Arc.{arc_value};
ghost use Rattle.link_tests.specs.Told.{IsMember, KnowsTold};
ghost use Rattle.ms_ken.specs.Known.{ArePasses, known};
ghost use Rattle.ms_ken.specs.Lists.{list_at};
ghost use Rattle.ms_record.specs.declared.ballot.Ballot.{Ballot as BallotData};
ghost use Rattle.ms_record.specs.declared.entry.Entry.{Entry as EntryData};
ghost use Rattle.ms_record.specs.declared.item.Item.TheVariants.{Told};
ghost use Rattle.ms_record.specs.declared.record.Record.TheVariants.{Accept};
ghost use Rattle.ms_record.specs.Reading.{record_at};
ghost use Rattle.ms_record.specs.Settings.{IsSetting};

use ms_base::limits::OBJECT_BYTES;
use ms_base::{ClientId, Name, ServiceId};
use ms_core::item_law::may_follow;
use ms_core::{Common, FoldClosed, Know};
use ms_fault::{Fault, FaultLink};
use ms_ken::{Board, Naming};
use ms_link::{Link, LinkError};
use ms_memory::{MemoryLink, MemoryService};
use ms_object::names::name_of;
use ms_record::record::parse_record;
use ms_record::writing::write_record;
use ms_record::{Ballot, Entry, Item, ListId, Plan, Record, Setting};
use std::alloc::Global;
use std::marker::Brand;
use std::sync::{Arc, Wait};
use std::test::*;

const VOTES: ListId = ListId(0);

const REFS: ListId = ListId(1);

const ZEROS: Name = Name([0; 32]);

/// The empty directory.
const DIRECTORY: &[u8] = b"D\x00\x00\x00\x00";

const PREPARE: Record = Record::Prepare {
    position: 1,
    ballot: Ballot {
        round: 1,
        client: ClientId(0),
    },
};

/// One service and one client; the genesis has one copy on the service.
fn small_setting() -> Setting
    ensures ranges { IsSetting result }
    ensures services { result.services ≡ 1 }
{
    Setting {
        services: 1,
        clients: 1,
        genesis: Entry {
            before: ZEROS,
            client: ClientId(0),
            number: 0,
            version: ZEROS,
            plan: Some(Plan::even(1, 1)),
        },
    }
}

/// The configuration tells the setting.
fn tell_setting(board: &Common, pass: &mut Know, setting: Setting)
    requires first { pass.old ≡ known board.now (Some 32) (replicate 33 []) }
    requires ranges { IsSetting setting }
    ensures board { pass.new.board ≡ board.now }
    ensures told { list_at pass.new.lists 32 ≡ Told setting ∷ [] }
{
    may_follow();
    let item = Item::Told { setting };
    board.tell(pass, &item);
}

/// The passes of the configuration, which tells the setting, and of service 0, which knows it.
fn begun(board: &Common, mut passes: Vec<Know>, setting: Setting) -> Option<(Know, Know)>
    requires passes { ArePasses board.now 33 passes.items }
    requires ranges { IsSetting setting }
    ensures configuration { IfSome result (λ r. (r.0.board ≡ board.now) × KnowsTold setting r.0.lists) }
    ensures service { IfSome result (λ r. (r.1.board ≡ board.now) × (r.1.word ≡ Some 0) × (list_at r.1.lists 0 ≡ [])) }
    ensures told { IfSome result (λ r. KnowsTold setting r.1.lists) }
{
    let mut configuration = passes.pop()?;
    passes.truncate(1);
    let mut service = passes.pop()?;
    tell_setting(board, &mut configuration, setting);
    board.take(&mut service, board.note(&mut configuration));
    Some((configuration, service))
}

/// Service 0 behind its lock, and a pass of a client.
fn home<J: Naming>(
    alloc: Global,
    board: &Common,
    passes: Vec<Know>,
    setting: Setting,
) -> Result<(Arc<MemoryService<J>, Global>, Know), Fail>
    requires board { board.now ≡ J.board }
    requires passes { ArePasses board.now 33 passes.items }
    requires ranges { IsSetting setting }
    requires services { setting.services ≡ 1 }
    ensures service { IfOk result (λ r. arc_value r.0 ≡ 0) }
    ensures pass { IfOk result (λ r. IsMember J.board 0 setting r.1) }
{
    let (pass, service) = begun(board, passes, setting).ok_or("two passes")?;
    service.recall();
    let service = MemoryService::<J>::new(alloc, ServiceId(0), service)?;
    Ok((Arc::new(alloc, service)?, pass))
}

/// Whether the text is a Prepare, and so no Accept.
fn is_prepare(text: &[u8]) -> bool
    ensures { IsTrue result → (k : ℕ) (b : BallotData) (e : EntryData) → record_at text.now ≡ Some (Accept k b e) → ⊥ }
{
    match parse_record(text) {
        Some(Record::Prepare { .. }) => true,
        _ => false,
    }
}

/// Appends a text to the vote list, where it is a Prepare.
fn prepare<L: Link<FoldClosed>>(
    alloc: Global,
    board: &Common,
    pass: &mut Know,
    link: &mut L,
    setting: &Setting,
    text: &[u8],
) -> Result<(), LinkError>
    requires board { board.now ≡ (L.sees link.old).board }
    requires member { IsMember (L.sees link.old).board (L.sees link.old).service setting.now pass.old }
    ensures member { IsMember (L.sees link.new).board (L.sees link.new).service setting.now pass.new }
    ensures board { (L.sees link.new).board ≡ (L.sees link.old).board }
{
    if text.len() > OBJECT_BYTES as usize || !is_prepare(text) {
        return Err(LinkError::NoMemory);
    }
    pass.recall();
    may_follow();
    link.append(alloc, board, pass, VOTES, text)
}

/// Appends a text to a list that has no votes.
fn append_ref<L: Link<FoldClosed>>(
    alloc: Global,
    board: &Common,
    pass: &mut Know,
    link: &mut L,
    setting: &Setting,
    byte: u8,
) -> Result<(), LinkError>
    requires board { board.now ≡ (L.sees link.old).board }
    requires member { IsMember (L.sees link.old).board (L.sees link.old).service setting.now pass.old }
    ensures member { IsMember (L.sees link.new).board (L.sees link.new).service setting.now pass.new }
    ensures board { (L.sees link.new).board ≡ (L.sees link.old).board }
{
    pass.recall();
    may_follow();
    link.append(alloc, board, pass, REFS, &[byte])
}

/// Puts a text under its SHA-256 in generation 1.
fn put<L: Link<FoldClosed>>(
    alloc: Global,
    board: &Common,
    pass: &mut Know,
    link: &mut L,
    setting: &Setting,
    text: &[u8],
) -> Result<(), LinkError>
    requires board { board.now ≡ (L.sees link.old).board }
    requires member { IsMember (L.sees link.old).board (L.sees link.old).service setting.now pass.old }
    ensures member { IsMember (L.sees link.new).board (L.sees link.new).service setting.now pass.new }
    ensures board { (L.sees link.new).board ≡ (L.sees link.old).board }
{
    if text.len() > OBJECT_BYTES as usize {
        return Err(LinkError::NoMemory);
    }
    let name = name_of(text);
    pass.recall();
    may_follow();
    link.put(alloc, board, pass, 1, &name, text)
}

/// Drops what lies below generation 1, for which no turn is needed.
fn drop_first<L: Link<FoldClosed>>(
    alloc: Global,
    board: &Common,
    pass: &mut Know,
    link: &mut L,
    setting: &Setting,
) -> Result<(), LinkError>
    requires board { board.now ≡ (L.sees link.old).board }
    requires member { IsMember (L.sees link.old).board (L.sees link.old).service setting.now pass.old }
    ensures member { IsMember (L.sees link.new).board (L.sees link.new).service setting.now pass.new }
    ensures board { (L.sees link.new).board ≡ (L.sees link.old).board }
{
    pass.recall();
    may_follow();
    link.drop_below(alloc, board, pass, 1)
}

/// Asks for one event of each kind.
fn ask_all<L: Link<FoldClosed>>(
    alloc: Global,
    board: &Common,
    pass: &mut Know,
    link: &mut L,
    setting: &Setting,
) -> Result<(), LinkError>
    requires board { board.now ≡ (L.sees link.old).board }
    requires member { IsMember (L.sees link.old).board (L.sees link.old).service setting.now pass.old }
    ensures member { IsMember (L.sees link.new).board (L.sees link.new).service setting.now pass.new }
    ensures board { (L.sees link.new).board ≡ (L.sees link.old).board }
{
    let mut text = Vec::new(alloc);
    write_record(&PREPARE, &mut text)?;
    put(alloc, board, pass, link, setting, DIRECTORY)?;
    prepare(alloc, board, pass, link, setting, text.as_slice())?;
    append_ref(alloc, board, pass, link, setting, 7)?;
    drop_first(alloc, board, pass, link, setting)
}

/// The texts of the vote list, and whether the directory is kept.
fn kept<L: Link<FoldClosed>>(
    alloc: Global,
    board: &Common,
    pass: &mut Know,
    link: &mut L,
    setting: &Setting,
) -> Result<(u64, bool), LinkError>
    requires board { board.now ≡ (L.sees link.old).board }
    requires member { IsMember (L.sees link.old).board (L.sees link.old).service setting.now pass.old }
{
    let votes = link.list(alloc, board, pass, VOTES, 0)?;
    let has = link.has(alloc, board, pass, 1, &name_of(DIRECTORY))?;
    Ok((votes.len(), has))
}

fn told_on<J: Naming, R: Wait + Drop + Copy>(
    rt: R,
    alloc: Global,
    board: &Common,
    passes: Vec<Know>,
) -> Result<(u64, bool), Fail>
    requires board { board.now ≡ J.board }
    requires passes { ArePasses board.now 33 passes.items }
{
    let setting = small_setting();
    let (home, mut pass) = home::<J>(alloc, board, passes, setting)?;
    let mut link = FaultLink::new(
        alloc,
        MemoryLink::new(rt, home),
        Vec::new(alloc),
        Fault::Repeat,
    );
    ask_all(alloc, board, &mut pass, &mut link, &setting)?;
    Ok(kept(alloc, board, &mut pass, &mut link, &setting)?)
}

#[test]
fn events_where_a_setting_is_told(rt: HostRuntime) -> Result<(), Fail> {
    let (board, passes) = Board::<FoldClosed>::new(rt.alloc(), 33)?;
    let kept = told_on::<Brand, _>(rt, rt.alloc(), &board, passes)?;
    assert_eq!(&rt; kept, (2, true));
    Ok(())
}
