//! Lines in a room of their own, which take no memory: so a refusal is told where memory has run out.

ghost use Rattle.std.specs.Prelude.{◌≡◌, ◌+◌, ◌≤◌, ◌++◌, [], length};
ghost use Rattle.std.specs.Fmt.{decimal};
ghost use Rattle.hex.specs.Hex.{encode_lower};

use arrayvec::ArrayVec;
use itoa::Buffer;
use ms_base::Name;
use std::marker::Model;

/// How many bytes a line has at most.
pub const LINE_BYTES: usize = 512;

/// A line that is written piece by piece.
#[derive(Drop)]
pub struct Line {
    bytes: ArrayVec<u8, LINE_BYTES>,
}

impl Model for Line {
    ghost use Rattle.std.specs.Prelude.{List, ℕ};

    ghost Value = { List ℕ };

    ghost view = { λ line. line.bytes.items };
}

impl Line {
    /// The empty line.
    pub(crate) fn new() -> Line
        ensures { result ≡ [] }
    {
        Line {
            bytes: ArrayVec::new(),
        }
    }

    /// A text goes on the line.
    pub(crate) fn text(&mut self, text: &[u8])
        requires { length self.old + length text.now ≤ LINE_BYTES }
        ensures is { self.new ≡ self.old ++ text.now }
        ensures long { length self.new ≡ length self.old + length text.now }
    {
        if self.bytes.try_extend_from_slice(text).is_err() {
            unreachable!();
        }
    }

    /// A number in decimal goes on the line.
    pub(crate) fn number(&mut self, n: u64)
        requires { length self.old + 20 ≤ LINE_BYTES }
        ensures is { self.new ≡ self.old ++ decimal n }
        ensures long { length self.new ≤ length self.old + 20 }
    {
        let mut buffer = Buffer::new();
        self.text(buffer.format(n).as_bytes());
    }

    /// A name in small hexadecimal digits goes on the line.
    pub(crate) fn name(&mut self, name: &Name)
        requires { length self.old + 64 ≤ LINE_BYTES }
        ensures is { self.new ≡ self.old ++ encode_lower name.now.0 }
        ensures long { length self.new ≡ length self.old + 64 }
    {
        let mut digits = [0; 64];
        if hex::encode_to_slice(&name.0, &mut digits).is_err() {
            unreachable!();
        }
        self.text(&digits);
    }

    /// The bytes of the line.
    pub fn as_bytes(&self) -> &[u8]
        ensures { result.now ≡ self.now }
    {
        self.bytes.as_slice()
    }
}
