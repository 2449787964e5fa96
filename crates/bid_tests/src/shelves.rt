//! Desks over services of the tests' own, which hold their lists and objects in memory, on a board on which nothing is claimed.

ghost use Rattle.std.specs.Prelude.{◌≡◌, ◌<◌, IfOk, IfSome, IsTrue, length, map};
ghost use Rattle.std.specs.Arc.{arc_value};
ghost use Rattle.ms_base.specs.Counts.{Causes};
ghost use Rattle.ms_ken.specs.Known.{ArePasses};
ghost use Rattle.ms_local.specs.Desks.{desk_view};
ghost use Rattle.bid_tests.specs.Shelves.{AreLinks, IsOneLane, IsReady, IsUntoldDesk, Reaches, shelf_view};

use ms_base::{Bytes, ClientId, Items, Name, NoMemory, Script, ServiceId};
use ms_core::{Common, FoldClosed, Know};
use ms_ken::Naming;
use ms_link::{Link, LinkError, Texts};
use ms_local::{Desk, Keeper, Lane, MemoryKeeper, MemoryWork, Work};
use ms_record::record::parse_record;
use ms_record::writing::write_record;
use ms_record::{Ballot, Item, ListId, Record};
use ms_tree::Files;
use std::alloc::Global;
use std::marker::PhantomData;
use std::sync::Arc;

/// A text in one of the lists.
#[derive(Drop)]
struct Listed {
    list: ListId,
    text: Bytes,
}

/// An object.
#[derive(Drop)]
struct Object {
    generation: u32,
    name: Name,
    text: Bytes,
}

/// What befalls a service.
#[derive(Clone, Copy)]
pub(crate) struct Fate<'a> {
    /// The calls of these numbers, counted from 0, fail and do nothing.
    pub(crate) fails: &'a [u64],
    /// Each listing shows so many texts of a list more than the one before it; 0: all at once.
    pub(crate) step: u64,
    /// What lies below this floor is dropped before the call of the number `drops_at`, counted from 0.
    pub(crate) floor: u32,
    pub(crate) drops_at: u64,
}

/// Nothing befalls it.
pub(crate) const WELL: Fate<'static> = Fate {
    fails: &[],
    step: 0,
    floor: 0,
    drops_at: 0,
};

/// Its first ten calls fail.
pub(crate) const LOST: Fate<'static> = Fate {
    fails: &[0, 1, 2, 3, 4, 5, 6, 7, 8, 9],
    step: 0,
    floor: 0,
    drops_at: 0,
};

/// What comes of an append that does not fail by the fate of its service.
#[derive(Clone, Copy)]
pub(crate) enum Course {
    /// It is done.
    Done,
    /// It is done, and answered as one that failed.
    Unheard,
    /// It is done twice.
    Twice,
    /// It is answered as one that is done, and is not.
    Skipped,
    /// It is done; before an Accept a Prepare of the next round of another client is appended.
    Outbid,
}

/// What a service holds, and what befalls it.
#[derive(Drop)]
pub(crate) struct Shelf {
    listed: Vec<Listed>,
    objects: Vec<Object>,
    script: Script,
    /// What comes of an append, by the number of the call, and what of one behind these.
    courses: Vec<Course>,
    rest: Course,
    step: u64,
    shown: u64,
    floor: u32,
    drops_at: u64,
    calls: u64,
}

impl Shelf {
    /// It holds nothing.
    pub(crate) fn new(alloc: Global, fate: Fate<'_>) -> Result<Shelf, NoMemory> {
        Ok(Shelf {
            listed: Vec::new(alloc),
            objects: Vec::new(alloc),
            script: Script::new(Vec::from_slice(alloc, fate.fails)?),
            courses: Vec::new(alloc),
            rest: Course::Done,
            step: fate.step,
            shown: 0,
            floor: fate.floor,
            drops_at: fate.drops_at,
            calls: 0,
        })
    }

    /// This comes of appends, by the numbers of calls, counted from 0, and what `rest` says of those behind them.
    pub(crate) fn bend(&mut self, courses: Vec<Course>, rest: Course) {
        self.courses = courses;
        self.rest = rest;
    }

    /// What comes of the next call, where it is an append.
    fn course(&self) -> Course {
        match self.courses.get(self.calls as usize) {
            Some(course) => *course,
            None => self.rest,
        }
    }

    /// An append comes to this.
    fn append(
        &mut self,
        alloc: Global,
        course: Course,
        list: ListId,
        text: &[u8],
    ) -> Result<(), NoMemory>
        ensures { self.new.script ≡ self.old.script }
    {
        if let Course::Skipped = course {
            return Ok(());
        }
        if let Course::Twice = course {
            self.add(list, Bytes::of(alloc, text)?)?;
        }
        if let Course::Outbid = course {
            if let Some(rival) = rival_of(text) {
                self.add(list, text_of(alloc, &rival)?)?;
            }
        }
        self.add(list, Bytes::of(alloc, text)?)
    }

    /// The list of this number goes on by a text.
    pub(crate) fn add(&mut self, list: ListId, text: Bytes) -> Result<(), NoMemory>
        ensures { self.new.script ≡ self.old.script }
    {
        self.listed.push(Listed { list, text })?;
        Ok(())
    }

    /// The text is held under the name in the generation.
    pub(crate) fn keep(&mut self, generation: u32, name: Name, text: Bytes) -> Result<(), NoMemory>
        ensures { self.new.script ≡ self.old.script }
    {
        self.objects.push(Object {
            generation,
            name,
            text,
        })?;
        Ok(())
    }

    /// The texts of the list from a place on, as many as are shown.
    pub(crate) fn texts(&self, alloc: Global, list: ListId, from: u64) -> Result<Texts, NoMemory> {
        let mut texts = Vec::new(alloc);
        let mut place = 0u64;
        for held in &self.listed {
            if held.list == list {
                if place >= from && (self.step == 0 || place < self.shown) {
                    texts.push(Bytes::of(alloc, held.text.as_slice())?)?;
                }
                place = place.saturating_add(1);
            }
        }
        Ok(Items::from_vec(texts))
    }

    /// The text of the name in the generation.
    fn held(&self, generation: u32, name: &Name) -> Option<&Bytes> {
        for object in &self.objects {
            if object.generation == generation && object.name == *name {
                return Some(&object.text);
            }
        }
        None
    }

    /// What lies below it is dropped by now.
    fn floor(&self) -> u32 {
        if self.calls > self.drops_at {
            self.floor
        } else {
            0
        }
    }

    /// One call more: whether it fails.
    fn fails(&mut self) -> bool
        ensures { Causes (IsTrue result) self.old.script.faults self.new.script.faults }
    {
        self.calls = self.calls.saturating_add(1);
        self.script.call()
    }

    /// One call more on this generation.
    fn reach(&mut self, generation: u32) -> Result<(), LinkError>
        ensures { Reaches generation self.old.script.faults self.new.script.faults result }
    {
        if self.fails() {
            return Err(LinkError::Failed);
        }
        let floor = self.floor();
        if generation < floor {
            return Err(LinkError::Stale { floor });
        }
        Ok(())
    }
}

/// A Prepare of the next round of another client, where the text is an Accept.
fn rival_of(text: &[u8]) -> Option<Record> {
    match parse_record(text) {
        Some(
            Record::Accept {
                position,
                ballot,
                ..
            },
        ) => Some(Record::Prepare {
            position,
            ballot: Ballot {
                round: ballot.round.saturating_add(1),
                client: ClientId(1 - ballot.client.0.min(1)),
            },
        }),
        _ => None,
    }
}

/// The bytes of a record.
pub(crate) fn text_of(alloc: Global, record: &Record) -> Result<Bytes, NoMemory> {
    let mut text = Vec::new(alloc);
    write_record(record, &mut text)?;
    Ok(Bytes::from_vec(text))
}

/// A link to a service that holds what its shelf has. On its board nothing is told of that.
#[derive(Drop)]
pub(crate) struct ShelfLink<J: Naming> {
    service: ServiceId,
    shelf: Shelf,
    of: PhantomData<J>,
}

impl<J: Naming> Link<FoldClosed> for ShelfLink<J> {
    ghost sees = { λ l. shelf_view J.board l.service.0 l.shelf.script.faults };

    fn service(&self) -> ServiceId {
        self.service
    }

    fn faults(&self) -> u64 {
        self.shelf.script.faults()
    }

    fn append(
        &mut self,
        alloc: Global,
        _board: &Common,
        _pass: &mut Know,
        list: ListId,
        text: &[u8],
    ) -> Result<(), LinkError> {
        let course = self.shelf.course();
        if self.shelf.fails() {
            return Err(LinkError::Failed);
        }
        self.shelf.append(alloc, course, list, text)?;
        if let Course::Unheard = course {
            self.shelf.script.fail();
            return Err(LinkError::Failed);
        }
        Ok(())
    }

    fn list(
        &mut self,
        alloc: Global,
        _board: &Common,
        _pass: &mut Know,
        list: ListId,
        from: u64,
    ) -> Result<Texts, LinkError> {
        if self.shelf.fails() {
            return Err(LinkError::Failed);
        }
        self.shelf.shown = self.shelf.shown.saturating_add(self.shelf.step);
        Ok(self.shelf.texts(alloc, list, from)?)
    }

    fn put(
        &mut self,
        alloc: Global,
        _board: &Common,
        _pass: &mut Know,
        generation: u32,
        name: &Name,
        text: &[u8],
    ) -> Result<(), LinkError> {
        self.shelf.reach(generation)?;
        let text = Bytes::of(alloc, text)?;
        Ok(self.shelf.keep(generation, *name, text)?)
    }

    fn has(
        &mut self,
        _alloc: Global,
        _board: &Common,
        _pass: &mut Know,
        generation: u32,
        name: &Name,
    ) -> Result<bool, LinkError> {
        self.shelf.reach(generation)?;
        Ok(self.shelf.held(generation, name).is_some())
    }

    fn get(
        &mut self,
        alloc: Global,
        _board: &Common,
        _pass: &mut Know,
        generation: u32,
        name: &Name,
    ) -> Result<Option<Bytes>, LinkError> {
        self.shelf.reach(generation)?;
        match self.shelf.held(generation, name) {
            Some(text) => Ok(Some(Bytes::of(alloc, text.as_slice())?)),
            None => Ok(None),
        }
    }

    fn drop_below(
        &mut self,
        _alloc: Global,
        _board: &Common,
        _pass: &mut Know,
        _generation: u32,
    ) -> Result<(), LinkError> {
        if self.shelf.fails() {
            return Err(LinkError::Failed);
        }
        Ok(())
    }
}

/// Links to services 0, 1 and so on, which hold what these shelves have; `NoMemory` where they are more than sixteen.
fn links<J: Naming>(alloc: Global, shelves: Vec<Shelf>) -> Result<Vec<ShelfLink<J>>, NoMemory>
    ensures { IfOk result (λ links. AreLinks J.board (map (λ l. shelf_view J.board l.service.0 l.shelf.script.faults) links.items)) }
{
    let mut links = Vec::new(alloc);
    for shelf in shelves {
        if links.len() >= 16 {
            return Err(NoMemory);
        }
        let link = ShelfLink {
            service: ServiceId(links.len() as u32),
            shelf,
            of: PhantomData,
        };
        links.push(link)?;
    }
    Ok(links)
}

/// One lane of such links; `NoMemory` where they are none or more than sixteen.
fn lane<J: Naming>(alloc: Global, shelves: Vec<Shelf>) -> Result<Vec<Lane<ShelfLink<J>>>, NoMemory>
    ensures { IfOk result (λ lanes. IsOneLane J.board (length shelves.items) (map (λ lane. map (λ l. shelf_view J.board l.service.0 l.shelf.script.faults) lane.links.items) lanes.items)) }
{
    let many = shelves.len();
    let links = links::<J>(alloc, shelves)?;
    if many == 0 || links.len() != many {
        return Err(NoMemory);
    }
    let mut lanes = Vec::new(alloc);
    lanes.push(Lane { links })?;
    Ok(lanes)
}

/// The pass of the client, who knows that nothing is claimed.
fn seat(board: &Common, mut passes: Vec<Know>, client: u32) -> Option<Know>
    requires passes { ArePasses board.now 33 passes.items }
    requires client { client < 16 }
    ensures { IfSome result (IsReady board.now client) }
{
    let mut configuration = passes.pop()?;
    passes.truncate(17 + client as usize);
    let mut client = passes.pop()?;
    client.recall();
    board.tell(&mut configuration, &Item::Untold);
    board.take(&mut client, board.note(&mut configuration));
    Some(client)
}

/// The desk of client 0 over services of these shelves, which are at least one and at most sixteen; else none.
pub(crate) fn desk_on<J: Naming>(
    alloc: Global,
    board: Common,
    passes: Vec<Know>,
    shelves: Vec<Shelf>,
) -> Option<Desk<MemoryWork, MemoryKeeper, ShelfLink<J>>>
    requires board { board ≡ J.board }
    requires passes { ArePasses board 33 passes.items }
    ensures desk { IfSome result (λ desk. IsUntoldDesk (desk_view ⟦<MemoryWork as Work>⟧.sees ⟦<MemoryKeeper as Keeper>⟧.sees ⟦<ShelfLink<J> as Link<FoldClosed>>⟧.sees desk)) }
    ensures client { IfSome result (λ desk. desk.client.0 ≡ 0) }
{
    let keep = MemoryKeeper::new(alloc, Vec::new(alloc));
    desk_of::<J>(alloc, board, passes, shelves, 0, keep)
}

/// The desk of a client with its keeper, over services of these shelves, which are at least one and at most sixteen; else none.
pub(crate) fn desk_of<J: Naming>(
    alloc: Global,
    board: Common,
    passes: Vec<Know>,
    shelves: Vec<Shelf>,
    client: u32,
    keep: MemoryKeeper,
) -> Option<Desk<MemoryWork, MemoryKeeper, ShelfLink<J>>>
    requires board { board ≡ J.board }
    requires passes { ArePasses board 33 passes.items }
    requires client { client < 16 }
    ensures desk { IfSome result (λ desk. IsUntoldDesk (desk_view ⟦<MemoryWork as Work>⟧.sees ⟦<MemoryKeeper as Keeper>⟧.sees ⟦<ShelfLink<J> as Link<FoldClosed>>⟧.sees desk)) }
    ensures client { IfSome result (λ desk. desk.client.0 ≡ client) }
    ensures keep { IfSome result (λ desk. desk.keep ≡ keep) }
    ensures services { IfSome result (λ desk. desk.services ≡ length shelves.items) }
{
    let services = shelves.len();
    if services > 16 {
        return None;
    }
    let Some(pass) = seat(&board, passes, client) else {
        return None;
    };
    let Ok(lanes) = lane::<J>(alloc, shelves) else {
        return None;
    };
    let Ok(board) = Arc::new(alloc, board) else {
        return None;
    };
    Some(seated::<J>(alloc, board, pass, lanes, client, keep, services as u32))
}

/// The desk of these parts.
fn seated<J: Naming>(
    alloc: Global,
    board: Arc<Common, Global>,
    pass: Know,
    lanes: Vec<Lane<ShelfLink<J>>>,
    client: u32,
    keep: MemoryKeeper,
    services: u32,
) -> Desk<MemoryWork, MemoryKeeper, ShelfLink<J>>
    requires board { arc_value board ≡ J.board }
    requires pass { IsReady J.board client pass }
    requires lanes { IsOneLane J.board services (map (λ lane. map (λ l. shelf_view J.board l.service.0 l.shelf.script.faults) lane.links.items) lanes.items) }
    requires client { client < 16 }
    ensures desk { IsUntoldDesk (desk_view ⟦<MemoryWork as Work>⟧.sees ⟦<MemoryKeeper as Keeper>⟧.sees ⟦<ShelfLink<J> as Link<FoldClosed>>⟧.sees result) }
    ensures client { result.client.0 ≡ client }
    ensures keep { result.keep ≡ keep }
    ensures services { result.services ≡ services }
{
    Desk {
        client: ClientId(client),
        board,
        pass,
        work: MemoryWork::new(Files::new(alloc), Vec::new(alloc)),
        keep,
        lanes,
        services,
        deeds: Items::new(alloc),
    }
}

/// What the services of the desk's first lane hold in the end.
pub(crate) fn shelves_of<J: Naming>(
    alloc: Global,
    desk: Desk<MemoryWork, MemoryKeeper, ShelfLink<J>>,
) -> Option<Vec<Shelf>> {
    let Desk { mut lanes, .. } = desk;
    let Lane { links } = lanes.pop()?;
    let mut shelves = Vec::new(alloc);
    for link in links {
        shelves.push(link.shelf).ok()?;
    }
    Some(shelves)
}
