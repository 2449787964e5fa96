//! Objects of both formats, which are named by their SHA-256: their bytes, their names, and stores of them.
#![tactic(auto)]

pub mod fault;
pub mod format;
pub mod label;
pub mod names;
pub mod object;
mod reading;
mod rows;
pub mod store;
pub mod writing;

pub use fault::{GatherError, ObjectError};
pub use format::Format;
pub use label::is_label;
pub use names::{empty_version, name_of};
pub use object::{Kind, Names, Object, Row, Rows, SizedRow, SizedRows, blob_in, children, parse};
pub use store::Store;
pub use writing::{
    write_blob, write_blob2, write_dir, write_dir2, write_file, write_file2, write_version,
    write_version2,
};

#[cfg(test)]
mod tests;
