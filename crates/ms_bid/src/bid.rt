//! What a bidder knows of its bid, and what follows from it.

ghost use Rattle.std.specs.Prelude.{◌≡◌, ◌≢◌, ℕ, ◌+◌, ◌-◌, ◌≤◌, ◌<◌, ◌↔◌, List, Option, Contains, IsTrue, IsOk, IfSome, IfNone, OnOk, OnErr, None, Some, length, replicate, slice_set, true, false};
ghost use Rattle.ms_bid.specs.declared.act.Act.TheVariants.{End};
ghost use Rattle.ms_bid.specs.declared.act.Outcome.TheVariants.{KeepFault};
ghost use Rattle.ms_record.specs.declared.sight.Sight.{Sight};
ghost use Rattle.ms_bid.specs.declared.sight.Sought.TheVariants.{Promise};
ghost use Rattle.ms_bid.specs.Shown.{Most, GreatestUpTo, sight_at};
ghost use Rattle.ms_bid.specs.Ends.{AllSent, AllSeen, flag_at};
ghost use Rattle.ms_bid.specs.Bids.{IsFramed, IsBid, IsPending, IsOfferOf, HasNothing, IsLooked, Lacks, IsUnseen, NoSecond, NoneSeenFrom, MayFault, message_of, sought_of, seen_of, with_sight, fits, noted, acts_left, left_at, rounds_left};

use crate::act::{Act, Answer, Outcome, WrongAnswer};
use crate::flags::Flags;
use crate::judging::{end_without_majority, least_greater, most_show, next_free};
use crate::offer::greatest_best;
use crate::sight::{Sights, Sought};
use ms_base::ServiceId;
use ms_record::{Ballot, Entry, Record, ServiceSet, Sight};

/// One bid: which act is pending, and what came of those before it.
#[derive(Drop)]
pub struct Bid {
    pub ballot: Ballot,
    pub position: u32,
    /// Those that vote at the position.
    pub voters: ServiceSet,
    /// The bidder's own entry; a settling bid has none.
    pub want: Option<Entry>,
    /// What is pending.
    pub act: Act,
    /// The entry that was declared, when it was.
    pub offer: Option<Entry>,
    /// Which voters were sent the Prepare, and when the offer was declared, the Accept.
    pub sent: Flags,
    /// Which voters failed.
    pub failed: Flags,
    /// What was seen before the declaration.
    pub first_looks: Sights,
    /// What was seen after it.
    pub second_looks: Sights,
}

/// The message of a bid's sends.
fn message(position: u32, ballot: Ballot, offer: &Option<Entry>) -> Record
    ensures { result ≡ message_of position ballot offer.now }
{
    match offer {
        None => Record::Prepare { position, ballot },
        Some(entry) => Record::Accept {
            position,
            ballot,
            entry: *entry,
        },
    }
}

impl Bid {
    /// What is offered: the entry of the greatest Best, or the bid's own where there is none.
    fn found(&self) -> Option<Entry>
        requires framed { IsFramed self.now }
        requires most { Most Promise self.now.first_looks self.now.voters }
        ensures offer { IfSome result (IsOfferOf self.now.first_looks self.now.voters self.now.want) }
        ensures nothing { IfNone result ((self.now.want ≡ None) × GreatestUpTo self.now.first_looks (length self.now.first_looks) None) }
    {
        match greatest_best(self.first_looks.as_slice()) {
            Some(vote) => Some(vote.entry),
            None => self.want,
        }
    }

    /// What follows where there is nothing to settle.
    fn settled(&self) -> Act
        requires framed { IsFramed self.now }
        requires looked { IsLooked self.now }
        requires nothing { HasNothing self.now }
        ensures pending { IsPending self.now result }
        ensures left { left_at self.now.offer result ≡ 0 }
        ensures kept { result ≢ End KeepFault }
    {
        let outcome = match least_greater(&self.first_looks, self.ballot) {
            Some((service, top)) => Outcome::Outbid { service, top },
            None => Outcome::Nothing,
        };
        Act::End { outcome }
    }

    /// What follows a round of looks without a majority.
    fn lacking(&self, sought: Sought, sights: &Sights) -> Act
        requires framed { IsFramed self.now }
        requires sought { sought ≡ sought_of self.now.offer }
        requires sights { sights.now ≡ seen_of self.now.offer self.now.first_looks self.now.second_looks }
        requires looked { IsLooked self.now }
        requires lacks { Lacks self.now }
        ensures pending { IsPending self.now result }
        ensures left { left_at self.now.offer result ≡ 0 }
        ensures kept { result ≢ End KeepFault }
    {
        let outcome = end_without_majority(
            sought,
            sights,
            &self.voters,
            &self.sent,
            &self.failed,
            self.ballot,
        );
        Act::End { outcome }
    }

    /// What follows the last of the first looks.
    fn after_first(&self) -> Act
        requires framed { IsFramed self.now }
        requires before { self.now.offer ≡ None }
        requires no_second { self.now.second_looks ≡ replicate 16 None }
        requires looked { IsLooked self.now }
        ensures pending { IsPending self.now result }
        ensures left { left_at self.now.offer result ≤ 33 }
        ensures kept { result ≢ End KeepFault }
    {
        if !most_show(Sought::Promise, &self.first_looks, &self.voters) {
            return self.lacking(Sought::Promise, &self.first_looks);
        }
        match self.found() {
            Some(entry) => Act::Declare {
                offer: Record::Accept {
                    position: self.position,
                    ballot: self.ballot,
                    entry,
                },
            },
            None => self.settled(),
        }
    }

    /// What follows the last of the second looks.
    fn after_second(&self, entry: Entry) -> Act
        requires framed { IsFramed self.now }
        requires offer { self.now.offer ≡ Some entry }
        requires looked { IsLooked self.now }
        ensures pending { IsPending self.now result }
        ensures left { left_at self.now.offer result ≡ 0 }
        ensures kept { result ≢ End KeepFault }
    {
        if most_show(Sought::Taken, &self.second_looks, &self.voters) {
            Act::End {
                outcome: Outcome::Decided { entry },
            }
        } else {
            self.lacking(Sought::Taken, &self.second_looks)
        }
    }

    /// What follows the last look.
    fn judged(&self) -> Act
        requires framed { IsFramed self.now }
        requires looked { IsLooked self.now }
        requires no_second { NoSecond self.now.offer self.now.second_looks }
        ensures pending { IsPending self.now result }
        ensures left { left_at self.now.offer result ≤ rounds_left self.now.offer }
        ensures kept { result ≢ End KeepFault }
    {
        match self.offer {
            None => self.after_first(),
            Some(entry) => self.after_second(entry),
        }
    }

    /// What follows when each voter was sent to, and each below this number was looked at.
    fn looks_from(&mut self, from: u32)
        requires framed { IsFramed self.old }
        requires within { from ≤ 16 }
        requires sent { AllSent self.old.sent self.old.failed self.old.voters 16 }
        requires seen { AllSeen (seen_of self.old.offer self.old.first_looks self.old.second_looks) self.old.failed self.old.voters from }
        requires no_second { NoSecond self.old.offer self.old.second_looks }
        requires unseen { NoneSeenFrom (seen_of self.old.offer self.old.first_looks self.old.second_looks) from }
        ensures same { self.new ≡ record self.old { act = self.new.act } }
        ensures bid { IsBid self.new }
        ensures left { acts_left self.new ≤ rounds_left self.old.offer + (16 - from) }
        ensures kept { self.new.act ≢ End KeepFault }
    {
        let act = match next_free(&self.failed, &self.voters, from) {
            Some(service) => Act::Look { service },
            None => self.judged(),
        };
        self.act = act;
    }

    /// What follows when each voter below this number was sent to, and no other.
    fn sends_from(&mut self, from: u32)
        requires framed { IsFramed self.old }
        requires within { from ≤ 16 }
        requires sent { AllSent self.old.sent self.old.failed self.old.voters from }
        requires unseen { IsUnseen self.old.offer self.old.first_looks self.old.second_looks }
        ensures same { self.new ≡ record self.old { act = self.new.act } }
        ensures bid { IsBid self.new }
        ensures left { acts_left self.new ≤ rounds_left self.old.offer + 16 + (16 - from) }
        ensures kept { self.new.act ≢ End KeepFault }
    {
        match next_free(&self.failed, &self.voters, from) {
            Some(service) => {
                self.act = Act::Send {
                    service,
                    message: message(self.position, self.ballot, &self.offer),
                };
            }
            None => self.looks_from(0),
        }
    }

    /// Notes that the voter failed.
    fn note_failed(&mut self, service: ServiceId)
        requires framed { IsFramed self.old }
        requires votes { Contains self.old.voters service.0 }
        requires unseen { sight_at (seen_of self.old.offer self.old.first_looks self.old.second_looks) service.0 ≡ None }
        ensures is { self.new ≡ record self.old { failed = slice_set self.old.failed service.0 true } }
        ensures framed { IsFramed self.new }
        ensures sent { (n : ℕ) → AllSent self.old.sent self.old.failed self.old.voters n → AllSent self.old.sent self.new.failed self.old.voters n }
        ensures sends { AllSent self.old.sent self.old.failed self.old.voters service.0 → AllSent self.old.sent self.new.failed self.old.voters (service.0 + 1) }
        ensures looks { (sights : List (Option Sight)) → AllSeen sights self.old.failed self.old.voters service.0 → AllSeen sights self.new.failed self.old.voters (service.0 + 1) }
    {
        self.failed.add(service);
    }

    /// Notes that the voter was sent the message.
    fn note_sent(&mut self, service: ServiceId)
        requires framed { IsFramed self.old }
        requires votes { Contains self.old.voters service.0 }
        ensures is { self.new ≡ record self.old { sent = slice_set self.old.sent service.0 true } }
        ensures framed { IsFramed self.new }
        ensures sends { AllSent self.old.sent self.old.failed self.old.voters service.0 → AllSent self.new.sent self.old.failed self.old.voters (service.0 + 1) }
    {
        self.sent.add(service);
    }

    /// Notes what was seen of the voter.
    fn note_sight(&mut self, service: ServiceId, sight: Sight)
        requires framed { IsFramed self.old }
        requires votes { Contains self.old.voters service.0 }
        requires free { flag_at self.old.failed service.0 ≡ false }
        ensures is { self.new ≡ with_sight self.old self.old.offer service.0 sight }
        ensures framed { IsFramed self.new }
        ensures looks { AllSeen (seen_of self.old.offer self.old.first_looks self.old.second_looks) self.old.failed self.old.voters service.0
            → AllSeen (seen_of self.old.offer self.new.first_looks self.new.second_looks) self.old.failed self.old.voters (service.0 + 1) }
        ensures unseen { NoneSeenFrom (seen_of self.old.offer self.old.first_looks self.old.second_looks) service.0
            → NoneSeenFrom (seen_of self.old.offer self.new.first_looks self.new.second_looks) (service.0 + 1) }
        ensures no_second { NoSecond self.old.offer self.old.second_looks → NoSecond self.old.offer self.new.second_looks }
    {
        match self.offer {
            None => self.first_looks.add(service, sight),
            Some(_) => self.second_looks.add(service, sight),
        }
    }

    /// Notes that the offer was declared.
    fn note_offer(&mut self, entry: Entry)
        requires framed { IsFramed self.old }
        requires unseen { self.old.second_looks ≡ replicate 16 None }
        ensures is { self.new ≡ record self.old { offer = Some entry; sent = replicate 16 false } }
        ensures framed { IsFramed self.new }
    {
        self.offer = Some(entry);
        self.sent = Flags::none();
    }

    /// Takes the answer to what is pending.
    pub(crate) fn take(&mut self, answer: Answer) -> Result<(), WrongAnswer>
        requires { IsBid self.old }
        ensures bid { IsBid self.new }
        ensures ok { IsOk result ↔ IsTrue (fits self.old.act answer) }
        ensures noted { OnOk result (self.new ≡ record (noted self.old self.old.act answer) { act = self.new.act }) }
        ensures left { OnOk result (acts_left self.new < acts_left self.old) }
        ensures fault { OnOk result (MayFault self.old.act answer self.new.act) }
        ensures err { OnErr result (self.new ≡ self.old) }
    {
        match (self.act, answer) {
            (Act::Keep { .. }, Answer::Kept) => self.sends_from(0),
            (Act::Keep { .. }, Answer::Failed) => {
                self.act = Act::End {
                    outcome: Outcome::KeepFault,
                };
            }
            (Act::Send { service, .. }, Answer::Sent) => {
                self.note_sent(service);
                self.sends_from(service.0 + 1);
            }
            (Act::Send { service, .. }, Answer::Failed) => {
                self.note_failed(service);
                self.sends_from(service.0 + 1);
            }
            (Act::Look { service }, Answer::Seen { sight }) => {
                self.note_sight(service, sight);
                self.looks_from(service.0 + 1);
            }
            (Act::Look { service }, Answer::Failed) => {
                self.note_failed(service);
                self.looks_from(service.0 + 1);
            }
            (
                Act::Declare {
                    offer: Record::Accept { entry, .. },
                },
                Answer::Declared,
            ) => {
                self.note_offer(entry);
                self.sends_from(0);
            }
            _ => return Err(WrongAnswer),
        }
        Ok(())
    }
}
