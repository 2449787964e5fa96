//! Which entry the rule gives to offer.

ghost use Rattle.std.specs.Prelude.{◌≡◌, ℕ, ◌+◌, List, Option, Some, None, IfSome, IfNone, IsSomeAnd, true, false, length};
ghost use Rattle.ms_record.specs.declared.ballot.Vote.{Vote};
ghost use Rattle.ms_record.specs.Ballots.{IsBelow, IsAtMost};
ghost use Rattle.ms_record.specs.declared.sight.Sight.{Sight};
ghost use Rattle.ms_bid.specs.Shown.{shown_best, sight_at, GreatestUpTo};

use ms_record::{Sight, Vote};

/// The Best before the promised Prepare.
fn best_shown(sight: &Option<Sight>) -> Option<Vote>
    ensures { result ≡ shown_best sight.now }
{
    match sight {
        Some(seen) => { if seen.promised { seen.best } else { None } }
        None => None,
    }
}

/// Whether a Best is greater than what was found so far.
fn is_greater(best: &Vote, found: &Option<Vote>) -> bool
    ensures yes { result ≡ true → (v : Vote) → found.now ≡ Some v → IsBelow v.ballot best.now.ballot }
    ensures no { result ≡ false → IsSomeAnd found.now (λ v. IsAtMost best.now.ballot v.ballot) }
{
    match found {
        Some(vote) => vote.ballot.is_below(best.ballot),
        None => true,
    }
}

/// The greater of what was found so far and the Best of one more service.
fn greater(found: Option<Vote>, sight: &Option<Sight>) -> Option<Vote>
    ensures { (sights : List (Option Sight)) (n : ℕ) → sight_at sights n ≡ sight.now → GreatestUpTo sights n found → GreatestUpTo sights (n + 1) result }
{
    match best_shown(sight) {
        Some(best) => {
            if is_greater(&best, &found) {
                Some(best)
            } else {
                found
            }
        }
        None => found,
    }
}

/// The Best of greatest ballot, at the least service of several.
pub(crate) fn greatest_best(sights: &[Option<Sight>]) -> Option<Vote>
    ensures { GreatestUpTo sights.now (length sights.now) result }
{
    let mut found = None;
    for service in 0..sights.len() {
        found = greater(found, &sights[service]);
    }
    found
}
