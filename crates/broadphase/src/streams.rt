//! A whole source, and a whole piece of a report.
ghost use Rattle.std.specs.Prelude.{◌≡◌, ℕ, ◌+◌, ◌-◌, ◌<◌, ◌≤◌, List, Option, length, vec_len, IfOk, IsErrOf};
ghost use Rattle.std.specs.Io.KnownBytes.{IsAtEnd};
ghost use Rattle.world_io.specs.Bytes.{GaveAll};
ghost use Rattle.world_io.specs.Faults.{next_count};
ghost use Rattle.broadphase.specs.Reading.{GaveCount, GaveAtMost, AddsGiven};
ghost use Rattle.broadphase.specs.declared.streams.TheConstants.{BLOCK};

use std::alloc::{AllocError, Global};
use world_io::Source;
pub use world_io::write_all;

/// How many bytes are read at a time.
const BLOCK: usize = 65_536;

/// Why a source was not read to its end.
#[derive(Clone, Copy, Debug, PartialEq, Eq)]
pub enum ReadEnd {
    /// A read failed.
    Fault,
    /// It gave more bytes than the limit.
    TooLong,
    /// Want of memory.
    Memory,
}

/// A block to read into.
fn new_block(alloc: Global) -> Result<Vec<u8>, AllocError>
    ensures { IfOk result (λ block. vec_len block ≡ BLOCK) }
{
    vec![in alloc; 0u8; BLOCK]
}

/// Reads into `block` what comes next, up to one byte past the limit, and adds it to `bytes`.
///
/// The answer is how many bytes came, none where none was left.
fn read_piece<S: Source>(
    source: &mut S,
    block: &mut [u8],
    bytes: &mut Vec<u8>,
    limit: usize,
) -> Result<usize, ReadEnd>
    requires block { 0 < length block.old }
    requires within { vec_len bytes.old ≤ limit }
    ensures ok { IfOk result (λ n. AddsGiven (S.left source.old) (S.left source.new) bytes.old.items bytes.new.items n) }
    ensures within { vec_len bytes.new ≤ limit }
    ensures end { IfOk result (λ n. n ≡ 0 → IsAtEnd (S.left source.new)) }
    ensures too_long { IsErrOf result ReadEnd.TooLong → GaveCount (S.left source.old) (S.left source.new) (limit + 1 - vec_len bytes.old) }
    ensures memory { IsErrOf result ReadEnd.Memory → GaveAtMost (S.left source.old) (S.left source.new) (limit - vec_len bytes.old) }
    ensures unchanged { IsErrOf result ReadEnd.Fault → S.left source.new ≡ S.left source.old }
    ensures one { IsErrOf result ReadEnd.Fault → S.faults source.new ≡ next_count (S.faults source.old) }
    ensures none { IfOk result (λ _. S.faults source.new ≡ S.faults source.old) }
    ensures none_too_long { IsErrOf result ReadEnd.TooLong → S.faults source.new ≡ S.faults source.old }
    ensures none_memory { IsErrOf result ReadEnd.Memory → S.faults source.new ≡ S.faults source.old }
    ensures counted { S.faults source.old ≤ S.faults source.new }
{
    let room = limit - bytes.len();
    let want = if room < block.len() {
        room + 1
    } else {
        block.len()
    };
    let Ok(count) = source.read(&mut block[..want]) else {
        return Err(ReadEnd::Fault);
    };
    if count > room {
        return Err(ReadEnd::TooLong);
    }
    match bytes.extend_from_slice(&block[..count]) {
        Ok(()) => Ok(count),
        Err(_) => Err(ReadEnd::Memory),
    }
}

/// All bytes that the source has left, of which there are `limit` or fewer.
///
/// It stops at the first read that gives nothing or fails, and at the byte past the limit, so it asks for no more.
#[tactic(auto, using(crate::proofs::ReadingLemmas::after_pieces))]
pub fn read_all<S: Source>(alloc: Global, source: &mut S, limit: usize) -> Result<Vec<u8>, ReadEnd>
    ensures all { IfOk result (λ bytes. GaveAll (S.left source.old) (S.left source.new) bytes.items) }
    ensures within { IfOk result (λ bytes. vec_len bytes ≤ limit) }

    // What was taken from the source where its bytes are not handed out.
    ensures too_long { IsErrOf result ReadEnd.TooLong → GaveCount (S.left source.old) (S.left source.new) (limit + 1) }
    ensures memory { IsErrOf result ReadEnd.Memory → GaveAtMost (S.left source.old) (S.left source.new) limit }
    ensures fault { IsErrOf result ReadEnd.Fault → GaveAtMost (S.left source.old) (S.left source.new) limit }

    // No read follows one that failed, so at most one failed.
    ensures one { IsErrOf result ReadEnd.Fault → S.faults source.new ≡ next_count (S.faults source.old) }
    ensures none { IfOk result (λ _. S.faults source.new ≡ S.faults source.old) }
    ensures none_too_long { IsErrOf result ReadEnd.TooLong → S.faults source.new ≡ S.faults source.old }
    ensures none_memory { IsErrOf result ReadEnd.Memory → S.faults source.new ≡ S.faults source.old }
    ensures counted { S.faults source.old ≤ S.faults source.new }
{
    let Ok(mut block) = new_block(alloc) else {
        return Err(ReadEnd::Memory);
    };
    let mut bytes = Vec::new(alloc);
    while read_piece(source, &mut block, &mut bytes, limit)? > 0 {}
    Ok(bytes)
}
