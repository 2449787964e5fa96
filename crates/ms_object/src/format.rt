//! The two formats of objects.

ghost use Rattle.std.specs.Prelude.{◌≡◌};
ghost use Rattle.ms_object.specs.Objects.{blob_size, blobs_in, least_blob, most_file, numbered};

use ms_base::limits::{BLOB_2_BYTES, BLOB_BYTES, FILE_2_BYTES, FILE_BYTES};

/// The format of an object: `docs/FORMATS.md`, objects.
#[derive(Clone, Copy, Debug, PartialEq, Eq)]
pub enum Format {
    One,
    Two,
}

impl Format {
    /// The format of this number, where there is one: 1 or 2.
    pub fn numbered(number: u32) -> Option<Format>
        ensures { result ≡ numbered number }
    {
        match number {
            1 => Some(Format::One),
            2 => Some(Format::Two),
            _ => None,
        }
    }

    /// The most bytes of a blob. Each blob of a file but its last has as many.
    pub fn blob_bytes(self) -> u64
        ensures { result ≡ blob_size self }
    {
        match self {
            Format::One => BLOB_BYTES,
            Format::Two => BLOB_2_BYTES,
        }
    }

    /// The fewest bytes of a blob.
    pub fn least_blob(self) -> u64
        ensures { result ≡ least_blob self }
    {
        match self {
            Format::One => 0,
            Format::Two => 1,
        }
    }

    /// How many blobs a file of so many bytes has.
    pub fn blobs_in(self, size: u64) -> u64
        ensures { result ≡ blobs_in self size }
    {
        size.div_ceil(self.blob_bytes())
    }

    /// The most bytes of a file.
    pub fn file_bytes(self) -> u64
        ensures { result ≡ most_file self }
    {
        match self {
            Format::One => FILE_BYTES,
            Format::Two => FILE_2_BYTES,
        }
    }
}
