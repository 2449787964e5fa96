//! The lines of a text.

ghost use Rattle.std.specs.Prelude.{◌≡◌, ◌<◌, ◌∷◌, ◌==◌, length, position};
ghost use Rattle.ms_text.specs.Firsts.{FirstLaws};
ghost use Rattle.ms_text.specs.Lines.{lines_of};

use memchr::memchr;

/// The first place of this byte.
#[tactic(auto, using(crate::proofs::Places::first_is_position))]
pub fn find_byte(text: &[u8], byte: u8) -> Option<usize>
    ensures { result ≡ position (λ b. b == byte) text.now }
{
    memchr(byte, text)
}

/// The first line, and the text after it.
pub fn next_line(text: &[u8]) -> (&[u8], &[u8])
    requires { 0 < length text.now }
    ensures lines { lines_of text.now ≡ result.0.now ∷ lines_of result.1.now }
    ensures shorter { length result.1.now < length text.now }
{
    match find_byte(text, b'\n') {
        Some(at) => (&text[..at], &text[at + 1..]),
        None => (text, &text[text.len()..]),
    }
}

/// A law: reading line by line answers the first wrong line, and no other.
#[tactic(auto, using(crate::proofs::FirstWrong::first_laws))]
pub fn first_wrong_lines<S, V>()
    ensures { FirstLaws S V }
{}
