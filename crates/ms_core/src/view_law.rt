//! What holds of every closed view that tells a setting, and so of what every thread of such a board knows.

ghost use Rattle.std.specs.Prelude.{◌≡◌, ◌≢◌, ◌+◌, ◌<◌, ◌≤◌, ◌⊎◌, ◌++◌, ◌∷◌, [], ℕ, Bool, false, List, Some, Contains, count_by, length, slice_get, take};
ghost use Rattle.sha2.specs.Sha256.{sha256};
ghost use Rattle.ms_base.specs.declared.names.Name.{Name};
ghost use Rattle.ms_core.specs.FirstBids.{IsBid, IsCollected, MayDrop, MayNotDrop, MayNotOffer, with_drop, with_offer, with_put, with_vote};
ghost use Rattle.ms_core.specs.Valid.{IsBacked, IsLive, IsValid, plan_at};
ghost use Rattle.ms_core.specs.Views.{View, configuration, owner_of_client, log_in, offers_told, votes_told, IsNextMaster, IsWholeMaster, StaysWhole, SupportsOffer, IsSupported, Tells};
ghost use Rattle.ms_ken.specs.Lists.{list_at, Agree};
ghost use Rattle.ms_record.specs.declared.ballot.Ballot.{Ballot};
ghost use Rattle.ms_record.specs.declared.entry.Entry.{Entry};
ghost use Rattle.ms_record.specs.declared.item.Item.{Item};
ghost use Rattle.ms_record.specs.declared.log.LogEvent.{LogEvent};
ghost use Rattle.ms_record.specs.declared.log.LogEvent.TheVariants.{Put, Drop};
ghost use Rattle.ms_record.specs.Logs.{Stands};
ghost use Rattle.ms_record.specs.declared.plan.PlanRow.{PlanRow};
ghost use Rattle.ms_record.specs.declared.record.Record.{Record};
ghost use Rattle.ms_record.specs.declared.record.Record.TheVariants.{Accept};
ghost use Rattle.ms_record.specs.declared.setting.Setting.{Setting};
ghost use Rattle.ms_record.specs.Chains.{Agrees, Begins, IsChain, IsChosen, IsLinked, generation_in, plan_in, voters_behind};
ghost use Rattle.ms_record.specs.Offers.{IsJustified, IsOffered, JustifiedBy};
ghost use Rattle.ms_record.specs.Plans.{PlanView};
ghost use Rattle.ms_record.specs.Settings.{IsSetting, genesis_plan, origin_of};
ghost use Rattle.ms_record.specs.Votes.{ChosenBy};

use ms_object::object::one_spelling as objects_have_one;
use ms_record::law::{chain_laws, one_chain};
use ms_record::record::one_spelling;

/// For every closed view that tells a setting, which is what every pass of such a board has (`Pass::recall`).
pub fn told_views()
    // Two entries chosen at one position are one.
    ensures one_master { (view : View) (setting : Setting) → Tells view setting → Agrees (votes_told view) (origin_of setting) }
    // A chosen entry links on to the members before it, and its version is placed, by texts whose files are something.
    ensures valid { (view : View) (setting : Setting) → Tells view setting
        → (k : ℕ) (e : Entry) → IsChosen (votes_told view) (origin_of setting) k e → IsWholeMaster setting (log_in view) k e }
    // A chosen entry ends a linked list.
    ensures linked { (view : View) (setting : Setting) → Tells view setting
        → (i : ℕ) (e : Entry) → IsChosen (votes_told view) (origin_of setting) (i + 1) e
        → (members : List Entry) × (length members ≡ i) × IsLinked (votes_told view) (origin_of setting) (members ++ e ∷ []) }
    // There is a chain.
    ensures chain { (view : View) (setting : Setting) → Tells view setting
        → (chain : List Entry) × IsChain (votes_told view) (origin_of setting) chain }
    // A chosen entry stands in the chain at its position.
    ensures stands { (view : View) (setting : Setting) (chain : List Entry) → Tells view setting
        → IsChain (votes_told view) (origin_of setting) chain
        → (i : ℕ) (e : Entry) → IsChosen (votes_told view) (origin_of setting) (i + 1) e → slice_get chain i ≡ Some e }
    // A live master stays placed by puts that stand, whatever was dropped.
    ensures live { (view : View) (setting : Setting) (chain : List Entry) → Tells view setting
        → IsChain (votes_told view) (origin_of setting) chain
        → (i : ℕ) (e : Entry) → IsLive setting chain i e → StaysWhole (log_in view) (plan_at setting chain i) e.version }
    // Of the linked lists of two views that agree, as any two passes' do, one begins the other.
    ensures one_list { (one other : View) (setting : Setting) (c d : List Entry) → length one ≡ length other → Tells one setting → Tells other setting → Agree one other
        → IsLinked (votes_told one) (origin_of setting) c
        → IsLinked (votes_told other) (origin_of setting) d → Begins c d ⊎ Begins d c }
{
    chain_laws();
}

/// What each item of such a view rests on: what has no support is in no view.
pub fn supports()
    // Each item of a service or client is supported, behind the items before it.
    ensures items { (view : View) (setting : Setting) → Tells view setting
        → (owner : ℕ) (before : List Item) (item : Item) (after : List Item) → owner ≢ configuration → before ++ item ∷ after ≡ list_at view owner → IsSupported setting view owner before item }
    // The setting is in its ranges.
    ensures ranges { (view : View) (setting : Setting) → Tells view setting → IsSetting setting }
    // No vote is invented: each Accept in a vote list was offered.
    ensures votes { (view : View) (setting : Setting) → Tells view setting
        → (service place k : ℕ) (b : Ballot) (e : Entry) → slice_get (votes_told view service) place ≡ Some (Accept k b e) → IsOffered (offers_told view) k b e }
    // Each offer follows the rule at a majority of the voters, and its entry is valid with a version that is placed and whole.
    ensures offers { (view : View) (setting : Setting) → Tells view setting
        → (k : ℕ) (b : Ballot) (e : Entry) → IsOffered (offers_told view) k b e
        → IsJustified (votes_told view) (origin_of setting) k b e × IsWholeMaster setting (log_in view) k e }
    // Each ballot has one offer at a position.
    ensures one_offer { (view : View) (setting : Setting) → Tells view setting
        → (k : ℕ) (b : Ballot) (e f : Entry) → IsOffered (offers_told view) k b e → IsOffered (offers_told view) k b f → e ≡ f }
    // Each put is of the SHA-256 of its text.
    ensures puts { (view : View) (setting : Setting) → Tells view setting
        → (service generation : ℕ) (name : Name) (text : List ℕ) → Contains (log_in view service) (Put generation name text) → name.0 ≡ sha256 text }
    // A drop above generation 1 has a linked list with a plan of at least its generation.
    ensures drops { (view : View) (setting : Setting) → Tells view setting
        → (service floor : ℕ) → Contains (log_in view service) (Drop floor) → IsBacked setting (log_in view) floor }
    // None but the setting's services, its clients and the configuration tell anything.
    ensures owners { (view : View) (setting : Setting) → Tells view setting
        → (owner place : ℕ) (item : Item) → slice_get (list_at view owner) place ≡ Some item → owner ≢ configuration
        → (owner < setting.services) ⊎ ((client : ℕ) × (owner ≡ owner_of_client client) × (client < setting.clients)) }
{}

/// Of every closed view that tells a setting: linked lists, and who votes behind them.
pub fn linked_lists()
    // Of one length there is one.
    ensures one { (view : View) (setting : Setting) → Tells view setting → (c d : List Entry) → IsLinked (votes_told view) (origin_of setting) c
        → IsLinked (votes_told view) (origin_of setting) d → length c ≡ length d → c ≡ d }
    // A linked list begins the chain.
    ensures begins { (view : View) (setting : Setting) (chain c : List Entry) → Tells view setting → IsChain (votes_told view) (origin_of setting) chain
        → IsLinked (votes_told view) (origin_of setting) c → Begins c chain }
    // What is chosen behind a linked list makes a linked list with it.
    ensures goes_on { (view : View) (setting : Setting) (c : List Entry) (e : Entry) → Tells view setting → IsLinked (votes_told view) (origin_of setting) c
        → ChosenBy (votes_told view) (voters_behind (origin_of setting) c) (length c + 1) e → IsLinked (votes_told view) (origin_of setting) (c ++ e ∷ []) }
    // The members that a valid entry names are the linked list of that length.
    ensures members { (view : View) (setting : Setting) (c : List Entry) (e : Entry) → Tells view setting → IsLinked (votes_told view) (origin_of setting) c
        → (valid : IsValid setting (log_in view) (length c + 1) e) → valid.next.members ≡ c }
    // Services of the setting vote.
    ensures voters { (view : View) (setting : Setting) (c : List Entry) (service : ℕ) → Tells view setting → IsLinked (votes_told view) (origin_of setting) c
        → Contains (voters_behind (origin_of setting) c) service → service < setting.services }
{
    chain_laws();
}

/// Of every closed view that tells a setting: no floor is above the generation in force at the chain's end; and neither
/// generations nor formats fall along a linked list.
pub fn floors_told()
    ensures floors { (view : View) (setting : Setting) (chain : List Entry) → Tells view setting → IsChain (votes_told view) (origin_of setting) chain
        → (service floor : ℕ) → Contains (log_in view service) (Drop floor) → floor ≤ generation_in (genesis_plan setting) chain }
    // Generations rise along linked lists.
    ensures rises { (votes : ℕ → List Record) (setting : Setting) (c : List Entry) → IsLinked votes (origin_of setting) c
        → (i more : ℕ) → generation_in (genesis_plan setting) (take i c) ≤ generation_in (genesis_plan setting) (take (i + more) c) }
    // So do formats: none falls.
    ensures formats { (votes : ℕ → List Record) (setting : Setting) (c : List Entry) → IsLinked votes (origin_of setting) c
        → (i more : ℕ) → (plan_in (genesis_plan setting) (take i c)).format ≤ (plan_in (genesis_plan setting) (take (i + more) c)).format }
    ensures begins { (votes : ℕ → List Record) (setting : Setting) (a c : List Entry) → IsLinked votes (origin_of setting) c → Begins a c
        → generation_in (genesis_plan setting) a ≤ generation_in (genesis_plan setting) c }
{
    chain_laws();
}

/// Of every closed view that tells a setting: what comes next behind a linked list.
pub fn next_behind()
    // What was offered there links on, with a version that is whole.
    ensures offered { (view : View) (setting : Setting) (c : List Entry) (b : Ballot) (e : Entry) → Tells view setting → IsLinked (votes_told view) (origin_of setting) c
        → IsOffered (offers_told view) (length c + 1) b e → IsNextMaster setting (log_in view) c e }
    // So does each vote there, and so what is chosen.
    ensures voted { (view : View) (setting : Setting) (c : List Entry) (service place : ℕ) (b : Ballot) (e : Entry) → Tells view setting → IsLinked (votes_told view) (origin_of setting) c
        → slice_get (votes_told view service) place ≡ Some (Accept (length c + 1) b e) → IsNextMaster setting (log_in view) c e }
    ensures chosen { (view : View) (setting : Setting) (c : List Entry) (e : Entry) → Tells view setting → IsLinked (votes_told view) (origin_of setting) c
        → ChosenBy (votes_told view) (voters_behind (origin_of setting) c) (length c + 1) e → IsNextMaster setting (log_in view) c e }
    // A client may offer what follows the rule there, links on and is whole, in a round above those of its earlier offers.
    ensures supported { (view : View) (setting : Setting) (c : List Entry) (client : ℕ) (before : List Record) (b : Ballot) (e : Entry) → IsLinked (votes_told view) (origin_of setting) c
        → b.client.0 ≡ client → ((k : ℕ) (a : Ballot) (f : Entry) → Contains before (Accept k a f) → a.round < b.round)
        → JustifiedBy (votes_told view) (voters_behind (origin_of setting) c) (length c + 1) b e → IsNextMaster setting (log_in view) c e
        → SupportsOffer setting (log_in view) client before (length c + 1) b e }
{
    chain_laws();
}

/// While fewer services of the plan than its replicas lose what they had, each object of a version that is whole by puts
/// that stand has such a put at another one.
pub fn some_left()
    ensures { (logs : ℕ → List LogEvent) (plan : PlanView) (version : Name) (lost : ℕ → Bool) → (whole : StaysWhole logs plan version)
        → count_by (λ (row : PlanRow). lost row.service.0) plan.rows < plan.replicas → (name : Name) (text : List ℕ) → whole.placed.store name.0 ≡ Some text
        → (row : PlanRow) × Contains plan.rows row × Stands (logs row.service.0) plan.generation name × (lost row.service.0 ≡ false) }
{}

/// Closed views with masters are there: the first bids for each setting of one service.
pub fn first_bids()
    // A service keeps two texts, and a client bids for position 1. Without the texts the offer has no support, and before the bid a drop below
    // generation 2 has none.
    ensures first { (setting : Setting) → IsSetting setting → setting.services ≡ 1
        → (view : View) × (directory version : List ℕ) × (ballot : Ballot) × (entry : Entry) × (prepare accept : List ℕ)
        × IsBid setting (with_put (with_put view 1 directory) 1 version) 1 ballot entry prepare accept
        × MayNotOffer view 1 ballot entry prepare × MayNotDrop (with_put (with_put view 1 directory) 1 version) 2 }
    // It then bids for position 2, with a plan of generation 2. Once that is chosen, the drop may follow. Behind the drop the
    // master at 2 is live, and no put of generation 1 stands.
    ensures second { (setting : Setting) → IsSetting setting → setting.services ≡ 1
        → (view : View) × (ballot : Ballot) × (entry : Entry) × (prepare accept : List ℕ) × IsBid setting view 2 ballot entry prepare accept
        × MayDrop (with_vote (with_offer (with_vote view prepare) 2 ballot entry) accept) 2
        × IsCollected setting (with_drop (with_vote (with_offer (with_vote view prepare) 2 ballot entry) accept) 2) entry }
{
    one_chain();
    objects_have_one();
    one_spelling();
}
