//! What sights and failures say of a bid.

ghost use Rattle.std.specs.Prelude.{◌≡◌, ℕ, ◌+◌, ◌*◌, ◌<◌, ◌≤◌, ◌↔◌, IfSome, IfNone, IsTrue, Contains, length, count_by, true, false};
ghost use Rattle.ms_record.specs.declared.ballot.Ballot.{Ballot};
ghost use Rattle.ms_record.specs.Ballots.{IsBelow};
ghost use Rattle.std.specs.Prelude.{Some};
ghost use Rattle.ms_bid.specs.Shown.{shows, sight_at, Most};
ghost use Rattle.ms_bid.specs.Ends.{flag_at, IsHalf, ShowsGreater, NoneGreater, LeastGreater, IsMissing, LeastMissing, IsNextFree, AllSent, AreBelow, IsLackEnd};

use crate::act::Outcome;
use crate::flags::{Flags, MOST_SERVICES};
use crate::sight::{Sights, Sought};
use ms_base::ServiceId;
use ms_record::{Ballot, ServiceSet, Sight};

/// How many voters show it.
fn count_showing(sought: Sought, sights: &Sights, voters: &ServiceSet) -> usize
    ensures is { result ≡ count_by (λ (s : ℕ). shows sought (sight_at sights.now s)) voters.now }
    ensures few { result ≤ 16 }
{
    let mut count = 0;
    for voter in voters.as_slice() {
        if sights.show(sought, *voter) {
            count += 1;
        }
    }
    count
}

/// How many voters failed.
fn count_failed(failed: &Flags, voters: &ServiceSet) -> usize
    ensures is { result ≡ count_by (flag_at failed.now) voters.now }
    ensures few { result ≤ 16 }
{
    let mut count = 0;
    for voter in voters.as_slice() {
        if failed.has(*voter) {
            count += 1;
        }
    }
    count
}

/// Whether a majority of the voters shows it.
pub(crate) fn most_show(sought: Sought, sights: &Sights, voters: &ServiceSet) -> bool
    ensures { IsTrue result ↔ Most sought sights.now voters.now }
{
    voters.len() < 2 * count_showing(sought, sights, voters)
}

/// Whether half of the voters failed, or more.
fn is_half(failed: &Flags, voters: &ServiceSet) -> bool
    ensures { IsTrue result ↔ IsHalf failed.now voters.now }
{
    voters.len() <= 2 * count_failed(failed, voters)
}

/// The least voter from this number on that did not fail.
pub(crate) fn next_free(failed: &Flags, voters: &ServiceSet, from: u32) -> Option<ServiceId>
    ensures { IsNextFree failed.now voters.now from result }
{
    for number in from..MOST_SERVICES as u32 {
        let service = ServiceId(number);
        if voters.has(service) && !failed.has(service) {
            return Some(service);
        }
    }
    None
}

/// The greater ballot that the sight shows.
fn greater_top(sight: &Option<Sight>, ballot: Ballot) -> Option<Ballot>
    ensures some { IfSome result (λ top. ShowsGreater ballot sight.now top) }
    ensures none { IfNone result ((top : Ballot) → ShowsGreater ballot sight.now top → ⊥) }
{
    match sight {
        Some(seen) => top_above(seen.top, ballot),
        None => None,
    }
}

/// The ballot, where there is one above the other.
fn top_above(top: Option<Ballot>, ballot: Ballot) -> Option<Ballot>
    ensures some { IfSome result (λ t. (top ≡ Some t) × IsBelow ballot t) }
    ensures none { IfNone result ((t : Ballot) → top ≡ Some t → IsBelow ballot t → ⊥) }
{
    match top {
        Some(top) => {
            if ballot.is_below(top) {
                Some(top)
            } else {
                None
            }
        }
        None => None,
    }
}

/// The least service whose sight shows a greater ballot, and that ballot.
pub(crate) fn least_greater(sights: &Sights, ballot: Ballot) -> Option<(ServiceId, Ballot)>
    ensures some { IfSome result (λ r. LeastGreater sights.now ballot r.0.0 r.1) }
    ensures none { IfNone result (NoneGreater sights.now ballot) }
{
    let sights = sights.as_slice();
    for place in 0..sights.len() {
        if let Some(top) = greater_top(&sights[place], ballot) {
            return Some((ServiceId(place as u32), top));
        }
    }
    None
}

/// The least voter that was sent the message, did not fail and does not show it.
fn least_missing(
    sought: Sought,
    sights: &Sights,
    voters: &ServiceSet,
    sent: &Flags,
    failed: &Flags,
) -> Option<ServiceId>
    ensures some { IfSome result (λ s. LeastMissing sought sights.now voters.now sent.now failed.now s.0) }
    ensures none { IfNone result ((s : ℕ) → s < 16 → IsMissing sought sights.now voters.now sent.now failed.now s → ⊥) }
{
    for number in 0..MOST_SERVICES as u32 {
        let service = ServiceId(number);
        if voters.has(service)
            && sent.has(service)
            && !failed.has(service)
            && !sights.show(sought, service)
        {
            return Some(service);
        }
    }
    None
}

/// The end after a round of looks without a majority.
pub(crate) fn end_without_majority(
    sought: Sought,
    sights: &Sights,
    voters: &ServiceSet,
    sent: &Flags,
    failed: &Flags,
    ballot: Ballot,
) -> Outcome
    requires sent { AllSent sent.now failed.now voters.now 16 }
    requires below { AreBelow voters.now 16 }
    requires lacks { Most sought sights.now voters.now → ⊥ }
    ensures { IsLackEnd sought sights.now voters.now sent.now failed.now ballot result }
{
    if is_half(failed, voters) {
        return Outcome::NoMajority { failed: *failed };
    }
    if let Some((service, top)) = least_greater(sights, ballot) {
        return Outcome::Outbid { service, top };
    }
    if let Some(service) = least_missing(sought, sights, voters, sent, failed) {
        return Outcome::Unlisted { service };
    }
    unreachable!()
}
