//! Ballots, plans, entries and records of vote lists: their bytes, and what lists of them mean.
#![tactic(auto)]

pub mod acceptor;
pub mod ballot;
pub mod entry;
pub mod item;
pub mod key;
pub mod law;
pub mod log;
pub mod look;
pub mod mark;
pub mod plan;
mod reading;
pub mod record;
pub mod refusal;
pub mod services;
pub mod setting;
pub mod sight;
pub mod writing;

pub use acceptor::{Acceptor, Verdict, is_outbid};
pub use ballot::{Ballot, Vote};
pub use entry::{Entries, Entry, entry_name, links_on, parse_entry};
pub use item::Item;
pub use key::Key;
pub use log::{ListId, LogEvent};
pub use look::Look;
pub use mark::{RefMark, parse_mark, write_mark};
pub use plan::{Plan, PlanRow};
pub use record::{Record, parse_record};
pub use refusal::{Place, Reason, ReasonRow, Reasons, Refusal, Rival, Rivals, Why, wrong_line};
pub use services::ServiceSet;
pub use setting::Setting;
pub use sight::Sight;
pub use writing::{write_entry, write_record};

#[cfg(test)]
mod acceptor_tests;
#[cfg(test)]
mod mark_tests;
#[cfg(test)]
mod plan_tests;
#[cfg(test)]
mod test_values;
#[cfg(test)]
mod tests;
