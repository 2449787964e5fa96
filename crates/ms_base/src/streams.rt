//! Whole texts from a source, and into a sink.

ghost use Rattle.std.specs.Prelude.{◌≡◌, ◌<◌, ◌≤◌, ◌^◌, ◌-◌, ◌+◌, length, IfOk, vec_len, OnErr, OnOk};
ghost use Rattle.ms_base.specs.Outside.{SourceView, SinkView, StaysTold};
ghost use Rattle.ms_base.specs.Reading.{ReadsAll, ReadsPiece, StaysUnlessFailed, WritesAll};

use crate::bytes::Bytes;
use crate::outside::{Failed, ReadError, Sink, Source};
use std::alloc::{AllocError, Global};

/// How many bytes are asked for at a time.
const PIECE: usize = 65_536;

/// Room for so many bytes.
fn room_for(alloc: Global, count: usize) -> Result<Vec<u8>, AllocError>
    ensures { IfOk result (λ v. vec_len v ≡ count) }
{
    vec![in alloc; 0u8; count]
}

/// Reads a piece and puts it at the end of the text; answers how many bytes came.
fn read_piece<S: Source>(
    source: &mut S,
    piece: &mut [u8],
    text: &mut Vec<u8>,
) -> Result<usize, ReadError>
    requires { 0 < length piece.old }
    ensures piece { ReadsPiece (length piece.old) (S.seen source.old) (S.seen source.new) text.old.items text.new.items result }
    ensures told { StaysTold (S.seen source.old).left (S.seen source.new).left }
    ensures later { (S.seen source.old).faults ≤ (S.seen source.new).faults }
    ensures steady { StaysUnlessFailed (S.seen source.old).faults (S.seen source.new).faults result }
{
    match source.read(piece) {
        Err(_) => Err(ReadError::Failed),
        Ok(count) => {
            text.extend_from_slice(&piece[..count])?;
            Ok(count)
        }
    }
}

/// All bytes to the end, at most `limit` of them.
///
/// Reads `limit + 1` bytes at the most.
pub fn read_all<S: Source>(alloc: Global, source: &mut S, limit: u64) -> Result<Bytes, ReadError>
    requires { limit < 2 ^ 32 }
    ensures all { ReadsAll limit (S.seen source.old) (S.seen source.new) result }
    ensures told { StaysTold (S.seen source.old).left (S.seen source.new).left }
    ensures later { (S.seen source.old).faults ≤ (S.seen source.new).faults }
    ensures steady { StaysUnlessFailed (S.seen source.old).faults (S.seen source.new).faults result }
{
    let most = limit as usize + 1;
    let mut text = Vec::new(alloc);
    let mut piece = room_for(alloc, PIECE)?;
    while text.len() < most {
        let room = (most - text.len()).min(PIECE);
        match read_piece(source, &mut piece[..room], &mut text) {
            Err(error) => return Err(error),
            Ok(0) => return Ok(Bytes::from_vec(text)),
            Ok(_) => {}
        }
    }
    Err(ReadError::TooLong { bytes: limit + 1 })
}

/// Writes all of a text.
pub fn write_all<S: Sink>(sink: &mut S, text: &[u8]) -> Result<(), Failed>
    ensures all { WritesAll text.now (S.seen sink.old) (S.seen sink.new) result }
    ensures told { StaysTold (S.seen sink.old).contents (S.seen sink.new).contents }
    ensures later { (S.seen sink.old).faults ≤ (S.seen sink.new).faults }
    ensures steady { OnOk result ((S.seen sink.new).faults ≡ (S.seen sink.old).faults) }
{
    let mut at = 0;
    while at < text.len() {
        let count = sink.write(&text[at..])?;
        at += count;
    }
    Ok(())
}
