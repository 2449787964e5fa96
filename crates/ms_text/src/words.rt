//! The words of a line.

ghost use Rattle.std.specs.Prelude.{◌≡◌, ◌<◌, ◌≤◌, ◌^◌, ℕ, List, Some, IfOk, IfSome};
ghost use Rattle.std.specs.Fmt.{decimal};
ghost use Rattle.std.specs.Option.{option_map};
ghost use Rattle.ms_text.specs.Words.{HasNoSpace, WordsAreJoined, two_words, one_more, number_at, hex_at, bytes_at, name_at};

use crate::lines::find_byte;
use ms_base::NoMemory;
use std::alloc::Global;

/// The two words round the first space.
pub fn split_at_space(line: &[u8]) -> Option<(&[u8], &[u8])>
    ensures { option_map (λ w. (w.0.now, w.1.now)) result ≡ two_words line.now }
{
    match find_byte(line, b' ') {
        Some(at) => Some((&line[..at], &line[at + 1..])),
        None => None,
    }
}

/// A digit more, at most so much.
fn push_digit(n: u64, digit: u8, most: u64) -> Option<u64>
    ensures is { result ≡ one_more most n digit }
    ensures capped { IfSome result (λ m. m ≤ most) }
{
    if digit < b'0' || digit > b'9' {
        return None;
    }
    let more = n.checked_mul(10)?.checked_add(u64::from(digit - b'0'))?;
    if more > most {
        return None;
    }
    Some(more)
}

/// A decimal number without sign and without leading zeros, at most so much.
pub fn number(word: &[u8], most: u64) -> Option<u64>
    ensures is { result ≡ number_at most word.now }
    ensures capped { IfSome result (λ n. n ≤ most) }
{
    if word.is_empty() || (word[0] == b'0' && word.len() > 1) {
        return None;
    }
    let mut n: u64 = 0;
    for b in word {
        match push_digit(n, *b, most) {
            Some(more) => {
                n = more;
            }
            None => {
                return None;
            }
        }
    }
    Some(n)
}

/// The bytes that these digits spell, at least one.
pub fn hex_bytes(alloc: Global, word: &[u8]) -> Result<Option<Vec<u8>>, NoMemory>
    ensures { IfOk result (λ o. option_map (λ v. v.items) o ≡ hex_at word.now) }
{
    if word.is_empty() {
        return Ok(None);
    }
    match hex::decode(alloc, word) {
        Ok(bytes) => Ok(Some(bytes)),
        Err(hex::FromHexError::OutOfMemory) => Err(NoMemory),
        Err(_) => Ok(None),
    }
}

/// The bytes that these digits spell, or none for `-`.
pub fn bytes(alloc: Global, word: &[u8]) -> Result<Option<Vec<u8>>, NoMemory>
    ensures { IfOk result (λ o. option_map (λ v. v.items) o ≡ bytes_at word.now) }
{
    match word {
        [] => Ok(None),
        [b'-'] => Ok(Some(Vec::new(alloc))),
        [_] => Ok(None),
        _ => hex_bytes(alloc, word),
    }
}

/// The name that these digits spell, 64 of them.
pub fn name(word: &[u8]) -> Option<[u8; 32]>
    ensures { result ≡ name_at word.now }
{
    <[u8; 32] as hex::FromHex>::from_hex(word).ok()
}

/// A number has one spelling, that is read, and no space stands in it.
pub fn one_spelling()
    ensures read { (most n : ℕ) (word : List ℕ) → most < 2 ^ 64 → number_at most word ≡ Some n → (word ≡ decimal n) × (n ≤ most) }
    ensures again { (most n : ℕ) (word : List ℕ) → most < 2 ^ 64 → word ≡ decimal n → n ≤ most → number_at most word ≡ Some n }
    ensures no_space { (n : ℕ) → n < 2 ^ 64 → HasNoSpace (decimal n) }
{}

/// A law: two words joined by one space are read back.
#[tactic(auto, using(crate::proofs::Joining::words_joined))]
pub fn words_are_joined()
    ensures { WordsAreJoined }
{}
