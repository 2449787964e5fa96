//! The limits of the formats and of the calls, each number once.

/// The most services of a workspace.
pub const SERVICES: u32 = 16;

/// The most copies of a service: its capacity divided by the plan's unit.
pub const COPIES: u64 = 16;

/// The most clients of a workspace.
pub const CLIENTS: u32 = 16;

/// The last round, position and generation.
pub const LAST_NUMBER: u32 = 4_294_967_294;

/// The greatest number of four bytes.
pub const GREATEST_NUMBER: u64 = 4_294_967_295;

/// The most bytes of an object's text.
pub const OBJECT_BYTES: u64 = 33_554_432;

/// The most bytes of a blob of format 1; each blob of a file but its last has as many.
pub const BLOB_BYTES: u64 = 65_536;

/// The most bytes of a blob of format 2; each blob of a file but its last has as many.
pub const BLOB_2_BYTES: u64 = 1_048_576;

/// The most bytes of a file of format 1.
pub const FILE_BYTES: u64 = 67_108_864;

/// The most bytes of a file of format 2, and of each file of a folder.
pub const FILE_2_BYTES: u64 = 1_073_741_824;

/// The most files of a tree, and the most rows of a directory.
pub const FILES: u64 = 100_000;

/// The most bytes of all files of a tree together.
pub const TOTAL_BYTES: u64 = 1_073_741_824;

/// The most bytes of a path.
pub const PATH_BYTES: u64 = 1_024;

/// The most bytes of a part of a path: a label of a directory's row.
pub const PART_BYTES: u64 = 200;

/// The most parts of a path.
pub const LEVELS: u64 = 64;

/// The most parents of a version.
pub const PARENTS: u64 = 2;

/// The most bytes of a label of a client or of a service.
pub const CLIENT_LABEL_BYTES: u64 = 24;

/// The most bytes of an input: of a text that is read line by line.
pub const INPUT_BYTES: u64 = 16_777_216;

/// The most bytes of a configuration.
pub const CONFIG_BYTES: u64 = 65_536;

/// The most events of a drill.
pub const EVENTS: u64 = 10_000;
