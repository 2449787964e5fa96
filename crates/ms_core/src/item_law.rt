//! What items say, what stays of them when lists grow, and what may be told next.

ghost use Rattle.std.specs.Prelude.{◌≡◌, ◌≢◌, ◌<◌, ◌⊎◌, ◌++◌, ◌∷◌, [], ℕ, List, Some, Contains, length, replicate, slice_get};
ghost use mathlib.Core.List.{IsPrefix};
ghost use Rattle.ms_core.specs.Asking.{MayAsk, MayOffer};
ghost use Rattle.ms_core.specs.Views.{View, configuration, owner_of_client, log_in, offers_told, votes_told, IsNextMaster, IsWholeMaster, SupportsEvent, SupportsOffer, IsSupported, IsClosed, Tells};
ghost use Rattle.ms_ken.specs.Lists.{list_at, Agree, Begins as BeginsView, MayFollow, longer_lists, with_item};
ghost use Rattle.ms_record.specs.declared.ballot.Ballot.{Ballot};
ghost use Rattle.ms_record.specs.declared.entry.Entry.{Entry};
ghost use Rattle.ms_record.specs.declared.item.Item.{Item};
ghost use Rattle.ms_record.specs.declared.item.Item.TheVariants.{Log, Offer, Told, Untold};
ghost use Rattle.ms_record.specs.declared.log.ListId.{ListId};
ghost use Rattle.ms_record.specs.declared.log.LogEvent.{LogEvent};
ghost use Rattle.ms_record.specs.declared.log.LogEvent.TheVariants.{Rec};
ghost use Rattle.ms_record.specs.declared.record.Record.{Record};
ghost use Rattle.ms_record.specs.declared.record.Record.TheVariants.{Accept};
ghost use Rattle.ms_record.specs.declared.setting.Setting.{Setting};
ghost use Rattle.ms_record.specs.Chains.{IsChosen, IsLinked};
ghost use Rattle.ms_record.specs.Growing.{LogsGrow};
ghost use Rattle.ms_record.specs.Logs.{texts_in};
ghost use Rattle.ms_record.specs.Offers.{GrowsTo, IsOffered};
ghost use Rattle.ms_record.specs.Reading.{record_at};
ghost use Rattle.ms_record.specs.Settings.{IsSetting, origin_of};

/// Every support stays when lists grow; so nothing told is closed, and of two closed views that agree the longer lists.
pub fn supports_stay()
    ensures item { (setting : Setting) (old new : View) → BeginsView old new → (owner : ℕ) (before : List Item) (item : Item) → IsSupported setting old owner before item → IsSupported setting new owner before item }
    ensures nothing { (n : ℕ) → IsClosed (replicate n []) }
    ensures longer { (one other : View) → length one ≡ length other → IsClosed one → IsClosed other → Agree one other → IsClosed (longer_lists one other) }
{}

/// Which items may be told.
pub fn may_follow()
    // Where the view with an event at the end of an owner's list is closed, the event may follow whatever is known by then.
    ensures event { (view : View) (owner : ℕ) (event : LogEvent) → owner < length view → IsClosed (with_item view owner (Log event)) → MayFollow IsClosed (length view) view owner (Log event) }
    // Where a setting is told, an event of a service may follow that the view supports.
    ensures supported { (view : View) (setting : Setting) (service : ℕ) (event : LogEvent) → list_at view configuration ≡ Told setting ∷ [] → IsSetting setting
        → service < setting.services → service < length view → SupportsEvent setting (log_in view) (offers_told view) event → MayFollow IsClosed (length view) view service (Log event) }
    // Where nothing is claimed, any item may follow but the configuration's.
    ensures untold { (view : View) (owner : ℕ) (item : Item) → list_at view configuration ≡ Untold ∷ [] → owner ≢ configuration → MayFollow IsClosed (length view) view owner item }
    // A client may tell an offer that the view supports.
    ensures offer { (view : View) (setting : Setting) (client position : ℕ) (ballot : Ballot) (entry : Entry) → Tells view setting → client < setting.clients → owner_of_client client < length view → SupportsOffer setting (log_in view) client (offers_told view client) position ballot entry
        → IsClosed (with_item view (owner_of_client client) (Offer (Accept position ballot entry))) }
    // The configuration tells first: a setting in its ranges, or that nothing is claimed.
    ensures first { (setting : Setting) (owners : ℕ) → IsSetting setting → configuration < owners → IsClosed (with_item (replicate owners []) configuration (Told setting)) }
    ensures first_untold { (owners : ℕ) → configuration < owners → IsClosed (with_item (replicate owners []) configuration Untold) }
{}

/// What may be told next, by one condition for boards that tell a setting and for those that claim nothing.
pub fn ask()
    ensures { (view : View) (service : ℕ) (event : LogEvent) → service < length view → MayAsk view service event → MayFollow IsClosed (length view) view service (Log event) }
{}

/// The same of a client's offers. Nobody else tells in the client's list, so the view with the offer is closed.
pub fn declare()
    ensures { (view : View) (client position : ℕ) (ballot : Ballot) (entry : Entry) → owner_of_client client < length view → MayOffer view client position ballot entry
        → IsClosed (with_item view (owner_of_client client) (Offer (Accept position ballot entry))) }
{}

/// The configuration's item, of closed views.
pub fn configuration_stays()
    // It stays alone.
    ensures stays { (old new : View) (item : Item) → IsClosed new → BeginsView old new → list_at old configuration ≡ item ∷ [] → list_at new configuration ≡ item ∷ [] }
    // Where anything is told, it says that nothing is claimed, or a setting in its ranges.
    ensures known { (view : View) (owner : ℕ) → IsClosed view → list_at view owner ≢ []
        → (list_at view configuration ≡ Untold ∷ []) ⊎ ((setting : Setting) × (list_at view configuration ≡ Told setting ∷ []) × IsSetting setting) }
    // Then the view has that many owners.
    ensures wide { (view : View) (owner : ℕ) → IsClosed view → list_at view owner ≢ [] → configuration < length view }
    // Two views that agree tell one setting.
    ensures one { (one other : View) (s t : Setting) → Agree one other → list_at one configuration ≡ Told s ∷ [] → list_at other configuration ≡ Told t ∷ [] → s ≡ t }
{}

/// What a view shows grows with its lists.
pub fn views_grow()
    ensures logs { (old new : View) → BeginsView old new → LogsGrow (log_in old) (log_in new) }
    ensures events { (old new : View) (service : ℕ) (event : LogEvent) → BeginsView old new → Contains (log_in old service) event → Contains (log_in new service) event }
    ensures texts { (old new : View) (service list : ℕ) → BeginsView old new → IsPrefix (texts_in list (log_in old service)) (texts_in list (log_in new service)) }
    ensures votes { (old new : View) → BeginsView old new → GrowsTo (votes_told old) (votes_told new) }
    ensures offers { (old new : View) → BeginsView old new → GrowsTo (offers_told old) (offers_told new) }
    ensures offered { (old new : View) (k : ℕ) (b : Ballot) (e : Entry) → BeginsView old new → IsOffered (offers_told old) k b e → IsOffered (offers_told new) k b e }
    ensures linked { (old new : View) (setting : Setting) (members : List Entry) → BeginsView old new
        → IsLinked (votes_told old) (origin_of setting) members → IsLinked (votes_told new) (origin_of setting) members }
    ensures chosen { (old new : View) (setting : Setting) (k : ℕ) (e : Entry) → BeginsView old new
        → IsChosen (votes_told old) (origin_of setting) k e → IsChosen (votes_told new) (origin_of setting) k e }
    // A master stays whole.
    ensures master { (old new : View) (setting : Setting) (k : ℕ) (e : Entry) → BeginsView old new
        → IsWholeMaster setting (log_in old) k e → IsWholeMaster setting (log_in new) k e }
    ensures next { (old new : View) (setting : Setting) (members : List Entry) (e : Entry) → BeginsView old new
        → IsNextMaster setting (log_in old) members e → IsNextMaster setting (log_in new) members e }
{}

/// What an item says.
pub fn items_say()
    // An event of a service is in its log, and each event of the log is an item.
    ensures event { (view : View) (service place : ℕ) (event : LogEvent) → slice_get (list_at view service) place ≡ Some (Log event) → Contains (log_in view service) event }
    ensures item { (view : View) (service : ℕ) (event : LogEvent) → Contains (log_in view service) event → (place : ℕ) × (slice_get (list_at view service) place ≡ Some (Log event)) }
    // An offer in its client's list was offered.
    ensures offer { (view : View) (place k : ℕ) (b : Ballot) (e : Entry) → slice_get (list_at view (owner_of_client b.client.0)) place ≡ Some (Offer (Accept k b e))
        → IsOffered (offers_told view) k b e }
    // A text of the vote list that spells a record is a vote.
    ensures vote { (view : View) (service : ℕ) (list : ListId) (text : List ℕ) (r : Record) → Contains (log_in view service) (Rec list text) → list.0 ≡ 0 → record_at text ≡ Some r
        → (place : ℕ) × (slice_get (votes_told view service) place ≡ Some r) }
{}

/// What one item more adds.
pub fn items_add()
    ensures event { (view : View) (service : ℕ) (event : LogEvent) → service < length view → log_in (with_item view service (Log event)) service ≡ log_in view service ++ event ∷ [] }
    ensures offer { (view : View) (client : ℕ) (offer : Record) → owner_of_client client < length view
        → offers_told (with_item view (owner_of_client client) (Offer offer)) client ≡ offers_told view client ++ offer ∷ [] }
    // The offer was offered then.
    ensures offered { (view : View) (k : ℕ) (b : Ballot) (e : Entry) → owner_of_client b.client.0 < length view
        → IsOffered (offers_told (with_item view (owner_of_client b.client.0) (Offer (Accept k b e)))) k b e }
    // Other owners' lists stay.
    ensures others { (view : View) (owner other : ℕ) (item : Item) → other ≢ owner → list_at (with_item view owner item) other ≡ list_at view other }
{}
