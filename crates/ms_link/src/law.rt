//! How what calls on links leave goes together.

ghost use Rattle.std.specs.Prelude.{◌≡◌, ◌≤◌, ℕ, Bool, List, Option, Result, Some, Contains, slice_get};
ghost use mathlib.Core.List.{IsPrefix};
ghost use Rattle.ms_base.specs.Counts.{Rose};
ghost use Rattle.ms_base.specs.declared.names.Name.{Name};
ghost use Rattle.ms_ken.specs.Known.{TableId, Known};
ghost use Rattle.ms_ken.specs.Lists.{Begins};
ghost use Rattle.ms_link.specs.Links.{LinkView, IsOnBoard, MayAdd, Stays, Learns, IsAdded, log_known, Tells, Puts, Lists, Has, Gets, CountsFailed, PassesOut, Leads, AllLead};
ghost use Rattle.ms_link.specs.declared.fault.LinkError.{LinkError};
ghost use Rattle.ms_record.specs.declared.log.ListId.{ListId};
ghost use Rattle.ms_record.specs.declared.log.LogEvent.{LogEvent};
ghost use Rattle.ms_record.specs.declared.log.LogEvent.TheVariants.{Rec};
ghost use Rattle.ms_record.specs.Logs.{texts_in};

use ms_ken::Closed;
use ms_record::Item;

/// Calls in turn leave what one call may leave.
pub fn calls_compose()
    ensures learns_self { (known : Known Item) → Learns known known }
    ensures learns_on { (old mid new : Known Item) → Learns old mid → Learns mid new → Learns old new }
    ensures stays_self { (link : LinkView) → Stays link link }
    ensures stays_on { (old mid new : LinkView) → Stays old mid → Stays mid new → Stays old new }
    // A count that rose in the second of two calls, or in the first, rose in both together.
    ensures rose_before { (old mid new : ℕ) → old ≤ mid → Rose mid new → Rose old new }
    ensures rose_on { (old mid new : ℕ) → Rose old mid → mid ≤ new → Rose old new }
{}

/// What may be asked of a link may be asked after other calls, and by whoever knows more.
pub fn asks_stay<C: Closed<Event = Item>>()
    ensures on_board { (old new : LinkView) (board : TableId) (before after : Known Item) → Stays old new → Learns before after → IsOnBoard old board before → IsOnBoard new board after }
    ensures follows_on { (old new : LinkView) (before after : Known Item) (event : LogEvent) → Stays old new → Begins before.lists after.lists
        → MayAdd C.closed old before event → MayAdd C.closed new after event }
{}

/// What a change left, for a caller that looked before it and for one that looks on.
pub fn changes_stay()
    ensures added_before { (link : LinkView) (before mid after : Known Item) (event : LogEvent) → Learns before mid → IsAdded link mid after event → IsAdded link before after event }
    ensures added_stays { (link : LinkView) (before mid after : Known Item) (event : LogEvent) → Learns mid after → IsAdded link before mid event → IsAdded link before after event }
    ensures tells { (link later after : LinkView) (before mid known : Known Item) (event : LogEvent) (answer : Result Unit LinkError) → Stays link later → Learns before mid
        → Tells later after mid known event answer → Tells link after before known event answer }
    ensures puts { (link later after : LinkView) (before mid known : Known Item) (generation : ℕ) (event : LogEvent) (answer : Result Unit LinkError) → Stays link later → Learns before mid
        → Puts later after mid known generation event answer → Puts link after before known generation event answer }
{}

/// What a call that reads answers is an answer of the link as it was before earlier calls.
pub fn reads_stay()
    ensures lists { (link later after : LinkView) (known : Known Item) (list from : ℕ) (answer : Result (List (List ℕ)) LinkError) → Stays link later
        → Lists later after known list from answer → Lists link after known list from answer }
    ensures has { (link later after : LinkView) (known : Known Item) (generation : ℕ) (name : Name) (answer : Result Bool LinkError) → Stays link later
        → Has later after known generation name answer → Has link after known generation name answer }
    ensures gets { (link later after : LinkView) (known : Known Item) (generation : ℕ) (name : Name) (answer : Result (Option (List ℕ)) LinkError) → Stays link later
        → Gets later after known generation name answer → Gets link after known generation name answer }
{}

/// The answers of a link inside another are answers of the one outside, which counts what failed.
pub fn answers_pass_out()
    ensures tells { (inner within outer after : LinkView) (before known : Known Item) (event : LogEvent) (answer : Result Unit LinkError) → PassesOut inner outer
        → CountsFailed outer after answer → Tells inner within before known event answer → Tells outer after before known event answer }
    ensures puts { (inner within outer after : LinkView) (before known : Known Item) (generation : ℕ) (event : LogEvent) (answer : Result Unit LinkError) → PassesOut inner outer
        → CountsFailed outer after answer → Puts inner within before known generation event answer → Puts outer after before known generation event answer }
    ensures lists { (inner within outer after : LinkView) (known : Known Item) (list from : ℕ) (answer : Result (List (List ℕ)) LinkError) → PassesOut inner outer
        → CountsFailed outer after answer → Lists inner within known list from answer → Lists outer after known list from answer }
    ensures has { (inner within outer after : LinkView) (known : Known Item) (generation : ℕ) (name : Name) (answer : Result Bool LinkError) → PassesOut inner outer
        → CountsFailed outer after answer → Has inner within known generation name answer → Has outer after known generation name answer }
    ensures gets { (inner within outer after : LinkView) (known : Known Item) (generation : ℕ) (name : Name) (answer : Result (Option (List ℕ)) LinkError) → PassesOut inner outer
        → CountsFailed outer after answer → Gets inner within known generation name answer → Gets outer after known generation name answer }
{}

/// What a pass knows of a service's log grows, and with it each of the service's lists.
pub fn logs_grow()
    ensures log { (link : LinkView) (old new : Known Item) → Learns old new → IsPrefix (log_known link old) (log_known link new) }
    ensures texts { (list : ℕ) (log more : List LogEvent) → IsPrefix log more → IsPrefix (texts_in list log) (texts_in list more) }
    ensures event { (log more : List LogEvent) (event : LogEvent) → IsPrefix log more → Contains log event → Contains more event }
    ensures added { (link : LinkView) (before after : Known Item) (event : LogEvent) → IsAdded link before after event → Contains (log_known link after) event }
    ensures text { (link : LinkView) (before after : Known Item) (list : ListId) (text : List ℕ) → IsAdded link before after (Rec list text) → Contains (texts_in list.0 (log_known link after)) text }
{}

/// The links of a desk lead to the services of their places, from call to call.
pub fn links_lead()
    ensures on_board { (board : TableId) (links : List LinkView) (place : ℕ) (link : LinkView) (known : Known Item) → AllLead board links → slice_get links place ≡ Some link
        → known.board ≡ board → IsOnBoard link board known }
    ensures leads_on { (board : TableId) (service : ℕ) (old new : LinkView) → Stays old new → Leads board service old → Leads board service new }
{}
