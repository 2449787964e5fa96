//! Learning at a desk: a chain reads the vote lists on, and gains what they show.

ghost use Rattle.std.specs.Prelude.{◌≡◌, ◌<◌, ℕ, IfOk, IfErr, length};
ghost use Rattle.ms_chain.specs.Readings.{DeskGoes, ListsGoOn, ReadsOne, ReadsUpTo, TakesTexts};
ghost use Rattle.ms_local.specs.Desks.{IsDesk, desk_view};
ghost use Rattle.ms_local.specs.Learning.{IsOfDesk, ReadsSome, texts_read};

use crate::chain::Chain;
use ms_base::{NoMemory, ServiceId};
use ms_core::FoldClosed;
use ms_core::item_law::views_grow;
use ms_core::view_law::told_views;
use ms_link::{Link, Texts};
use ms_local::{Desk, Keeper, Learner, Learnt, Work, desks_stay, list_noted, tellings_stay};
use ms_record::law::one_chain;
use ms_record::{Entry, ListId, Refusal, ServiceSet};
use std::alloc::Global;

/// The list of the votes.
const VOTES: ListId = ListId(0);

impl Chain {
    /// The service's vote list goes on by these texts. Without memory a front of them is taken.
    fn take_texts(&mut self, service: ServiceId, texts: Texts) -> Result<(), NoMemory>
        requires { service.0 < length self.old.lists }
        ensures { TakesTexts self.old self.new service.0 texts result }
    {
        for text in texts.into_vec() {
            self.take_text(service, text)?;
        }
        Ok(())
    }

    /// Reads the service's vote list from where the chain left off. Whether the link did not fail.
    fn read_one<W: Work + Drop, K: Keeper + Drop, L: Link<FoldClosed> + Drop>(
        &mut self,
        alloc: Global,
        desk: &mut Desk<W, K, L>,
        service: ServiceId,
    ) -> Result<bool, NoMemory>
        requires desk { IsDesk (desk_view W.sees K.sees L.sees desk.old) }
        requires chain { IsOfDesk self.old (desk_view W.sees K.sees L.sees desk.old) }
        requires service { service.0 < self.old.setting.services }
        ensures reads { ReadsOne self.old self.new (desk_view W.sees K.sees L.sees desk.old) (desk_view W.sees K.sees L.sees desk.new) service.0 result }
        ensures others { (x : ℕ) → (x ≡ service.0 → ⊥) → texts_read self.new x ≡ texts_read self.old x }
        ensures lists { ListsGoOn self.old self.new }
        ensures effect { DeskGoes (desk_view W.sees K.sees L.sees desk.old) (desk_view W.sees K.sees L.sees desk.new) }
        ensures desk { IsDesk (desk_view W.sees K.sees L.sees desk.new) }
        ensures chain { IsOfDesk self.new (desk_view W.sees K.sees L.sees desk.new) }
    {
        tellings_stay();
        views_grow();
        let from = self.count(service);
        match list_noted(alloc, desk, service, VOTES, from)? {
            Some(texts) => {
                self.take_texts(service, texts)?;
                Ok(true)
            }
            None => Ok(false),
        }
    }

    /// Reads each vote list from where the chain left off, in the order of the services. The services whose link failed.
    fn read_all<W: Work + Drop, K: Keeper + Drop, L: Link<FoldClosed> + Drop>(
        &mut self,
        alloc: Global,
        desk: &mut Desk<W, K, L>,
    ) -> Result<ServiceSet, NoMemory>
        requires desk { IsDesk (desk_view W.sees K.sees L.sees desk.old) }
        requires chain { IsOfDesk self.old (desk_view W.sees K.sees L.sees desk.old) }
        ensures all { IfOk result (λ failed. ReadsUpTo self.old self.new (desk_view W.sees K.sees L.sees desk.old) (desk_view W.sees K.sees L.sees desk.new) desk.old.services failed) }
        ensures some { IfErr result (λ _. ReadsSome self.old self.new (desk_view W.sees K.sees L.sees desk.old) (desk_view W.sees K.sees L.sees desk.new)) }
        ensures lists { ListsGoOn self.old self.new }
        ensures effect { DeskGoes (desk_view W.sees K.sees L.sees desk.old) (desk_view W.sees K.sees L.sees desk.new) }
        ensures desk { IsDesk (desk_view W.sees K.sees L.sees desk.new) }
        ensures chain { IsOfDesk self.new (desk_view W.sees K.sees L.sees desk.new) }
    {
        desks_stay();
        tellings_stay();
        views_grow();
        let mut failed = ServiceSet::none();
        for service in 0..desk.services {
            desk.pass.recall();
            if !self.read_one(alloc, desk, ServiceId(service))? {
                failed.add(ServiceId(service));
            }
        }
        Ok(failed)
    }
}

impl<W: Work + Drop, K: Keeper + Drop, L: Link<FoldClosed> + Drop> Learner<W, K, L> for Chain {
    ghost sees = { λ chain. chain };

    fn learn(&mut self, alloc: Global, desk: &mut Desk<W, K, L>) -> Result<Learnt, Refusal> {
        tellings_stay();
        told_views();
        one_chain();
        let failed = self.read_all(alloc, desk)?;
        let behind = self.extend()?;
        desk.pass.recall();
        self.answer(&failed, behind)
    }

    fn add(&mut self, decided: &Entry) -> Result<bool, NoMemory> {
        Chain::add(self, decided)
    }

    fn end(&self) -> u32 {
        Chain::end(self)
    }

    fn voters(&self) -> ServiceSet {
        Chain::voters(self)
    }
}
