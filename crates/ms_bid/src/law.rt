//! Laws over all bids.

ghost use Rattle.std.specs.Prelude.{◌≡◌, ℕ, List, ◌∷◌};
ghost use Rattle.ms_bid.specs.declared.act.Answer.{Answer};
ghost use Rattle.ms_bid.specs.declared.act.Answer.TheVariants.{Failed};
ghost use Rattle.ms_bid.specs.declared.bid.Bid.{Bid};
ghost use Rattle.ms_bid.specs.Bids.{IsBid};
ghost use Rattle.ms_bid.specs.Steps.{Asks, Leads};
ghost use Rattle.ms_bid.specs.Truths.{IsOfferJustified, IsDecidedTaken};

/// A bid over any lists of which its answers are the sights: its offer is justified by these lists, with the voters
/// handed in; where it is decided, a majority of the voters has taken the offer. Whatever is answered, a service whose
/// call failed is not asked again.
pub fn true_bids()
    ensures justified { (b : Bid) → IsBid b → IsOfferJustified b }
    ensures decided { (b : Bid) → IsBid b → IsDecidedTaken b }
    ensures not_again { (b c : Bid) (answers : List Answer) (service : ℕ) → IsBid b → Asks b.act service
        → Leads b (Failed ∷ answers) c → Asks c.act service → ⊥ }
{}
