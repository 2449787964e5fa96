//! Trees of files by their paths, and their texts.
#![tactic(auto)]

pub mod composing;
pub mod draft;
mod entries;
pub mod files;
pub mod gathering;
pub mod limits;
pub mod listing;
pub mod looking;
pub mod merger;
mod parts;
pub mod path;
pub mod planting;
pub mod sizes;

pub use composing::{same_walks, trees_compose};
pub use draft::{Draft, DraftFile};
pub use files::{FileRef, Files, file_laws};
pub use gathering::{gather, one_tree};
pub use limits::FilesError;
pub use listing::read_listing;
pub use looking::{FileParts, file_parts, inner_rows, root_rows, wrong_blob};
pub use merger::{Merger, merge_laws};
pub use path::{is_path, levels, long_part, path_laws};
pub use planting::{PlantError, Planted, plant};
pub use sizes::size_laws;

#[cfg(test)]
mod gather_tests;
#[cfg(test)]
mod look_tests;
#[cfg(test)]
mod plant_tests;
#[cfg(test)]
mod tests;
