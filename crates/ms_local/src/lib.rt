//! What a client has beside the services: its kept state and its work folder, its desk, and the deeds of its commands.
#![tactic(auto)]

pub mod calling;
pub mod deed;
pub mod deed_law;
pub mod desk;
pub mod desk_law;
pub mod keeping;
pub mod kept;
pub mod kept_objects;
pub mod learner;
pub mod memory;
pub mod objects;
pub mod outside;
pub mod spelling;

pub use calling::{append_noted, append_text, list_noted, list_texts};
pub use deed::{Deed, Deeds, Message};
pub use deed_law::{deeds_compose, deeds_go_on, deeds_show, desks_go_on, desks_lay, truths_go_on};
pub use desk::{Desk, Lane, begin_line};
pub use desk_law::{desks_lead, desks_stay, tellings_stay};
pub use keeping::{read_kept, write_kept};
pub use kept::{Base, Kept, Todo};
pub use kept_objects::{keep_objects, kept_object};
pub use learner::{Learner, Learnt};
pub use memory::{MemoryKeeper, MemoryWork};
pub use objects::{
    Found, Miss, get_noted, get_object, has_noted, has_object, put_noted, put_object,
};
pub use outside::{Keeper, Work, WorkError};
pub use spelling::{kept_laws, parse_kept, push_kept};

#[cfg(test)]
mod tests;
