//! What a bidder may offer.

ghost use Rattle.std.specs.Prelude.{◌≡◌, ◌+◌, ◌^◌, ◌<◌, ◌++◌, ◌∷◌, [], ℕ, List, Some, IsSomeAnd, length, true, false};
ghost use Rattle.ms_world.specs.Rulings.{IsRuling, votes_at};
ghost use Rattle.ms_world.specs.Passes.{ArePromises, IsGreatestSeen};
ghost use Rattle.ms_record.specs.declared.ballot.Ballot.{Ballot};
ghost use Rattle.ms_record.specs.declared.ballot.Vote.{Vote};
ghost use Rattle.ms_record.specs.declared.record.Record.{Record};
ghost use Rattle.ms_record.specs.declared.sight.Sight.{Sight};
ghost use Rattle.ms_record.specs.Ballots.{IsAtMost, IsBelow};
ghost use Rattle.ms_record.specs.Sights.{IsSight};
ghost use Rattle.ms_record.specs.Votes.{services_below};

use crate::front::Front;
use crate::shown::shown;
use ms_record::{Ballot, Entry, Sight, Vote};

/// What a bidder may offer.
#[derive(Clone, Copy, Debug, PartialEq, Eq)]
pub enum Ruling {
    /// No majority has promised.
    Unpromised,
    /// A majority has promised, and there is neither a Best nor an own entry.
    Nothing,
    Offer { entry: Entry },
}

/// What the logs show that were looked at so far.
#[derive(Clone, Copy)]
struct Promises {
    /// How many show a promised Prepare of the ballot.
    count: usize,
    /// The greatest of their Bests, at the least service of several.
    greatest: Option<Vote>,
}

impl Promises {
    /// Goes on by what one more log shows.
    fn add(&mut self, seen: &Sight)
        requires { self.old.count < 2 ^ 63 }
        ensures { (votes : ℕ → List Record) (position : ℕ) (ballot : Ballot) (n : ℕ) → IsSight (votes n) position ballot seen.now
            → ArePromises votes position ballot n self.old.count self.old.greatest
            → ArePromises votes position ballot (n + 1) self.new.count self.new.greatest }
    {
        self.greatest = greater(&self.greatest, &seen.best);
        if seen.promised {
            self.count += 1;
        }
    }
}

/// The greater of what was found so far and the Best of one more log.
fn greater(found: &Option<Vote>, best: &Option<Vote>) -> Option<Vote>
    ensures { (seen : List Sight) (sight : Sight) → sight.best ≡ best.now → IsGreatestSeen seen found.now → IsGreatestSeen (seen ++ sight ∷ []) result }
{
    match best {
        Some(vote) => {
            if is_greater(vote, found) {
                *best
            } else {
                *found
            }
        }
        None => *found,
    }
}

/// Whether a Best is greater than what was found so far.
fn is_greater(best: &Vote, found: &Option<Vote>) -> bool
    ensures yes { result ≡ true → (v : Vote) → found.now ≡ Some v → IsBelow v.ballot best.now.ballot }
    ensures no { result ≡ false → IsSomeAnd found.now (λ v. IsAtMost best.now.ballot v.ballot) }
{
    match found {
        Some(vote) => vote.ballot.is_below(best.ballot),
        None => true,
    }
}

/// What the logs allow the bidder of the ballot to offer; `want` is its own entry.
pub(crate) fn rule(
    logs: &[Front<'_>],
    position: u32,
    ballot: Ballot,
    want: &Option<Entry>,
) -> Ruling
    ensures { IsRuling (votes_at logs.now) (services_below (length logs.now)) position ballot want.now result }
{
    let mut promises = Promises {
        count: 0,
        greatest: None,
    };
    for log in logs {
        promises.add(&shown(log.as_slice(), position, ballot));
    }
    if promises.count <= logs.len() - promises.count {
        return Ruling::Unpromised;
    }
    match (promises.greatest, want) {
        (Some(vote), _) => Ruling::Offer { entry: vote.entry },
        (None, Some(entry)) => Ruling::Offer { entry: *entry },
        (None, None) => Ruling::Nothing,
    }
}

#[cfg(test)]
mod tests;
