//! A script from a source.
ghost use Rattle.std.specs.Prelude.{◌≡◌, ◌≤◌, Option, List, IfOk, IfErr};
ghost use Rattle.broadphase.specs.Reading.{ScriptRead, EndsRead};

use crate::streams::{ReadEnd, read_all};
use script_text::{Code, Script, ScriptFault, parse};
use std::alloc::Global;
use thiserror::Error;
use world_io::Source;

/// The most bytes of a script.
pub const MAX_BYTES: usize = 8_388_608;

/// Why no script was read.
#[derive(Clone, Copy, Debug, PartialEq, Eq, Error)]
pub enum ParseEnd {
    /// The bytes are no script: the first bad line, and what is wrong with it.
    #[error("line {line} is none of a script: {code:?}")]
    BadScript { line: u32, code: Code },
    /// A read failed.
    #[error("a read failed")]
    ReadFault,
    /// The source gave more than 8,388,608 bytes; reading stopped at the byte behind them.
    #[error("more than {MAX_BYTES} bytes")]
    TooLong,
    /// Want of memory.
    #[error("want of memory")]
    Memory,
}

/// The script that the bytes of a source spell. It reads the source to its end.
///
/// `BadScript` comes exactly where the bytes are no script. `TooLong` comes exactly where there are more than
/// 8,388,608 of them, and `ReadFault` only where a read failed, which is then the last one. No status reads more than
/// one byte past the limit.
#[tactic(auto, using(crate::proofs::ReadingLemmas::all_at_most))]
pub fn run_parse<S: Source>(alloc: Global, source: &mut S, trace: bool) -> Result<Script, ParseEnd>
    ensures ok { IfOk result (ScriptRead (S.left source.old) (S.left source.new)) }
    ensures err { IfErr result (EndsRead (S.left source.old) (S.left source.new) (S.faults source.old) (S.faults source.new)) }
    ensures none { IfOk result (λ _. S.faults source.new ≡ S.faults source.old) }
    ensures counted { S.faults source.old ≤ S.faults source.new }
{
    let bytes = match read_all(alloc, source, MAX_BYTES) {
        Ok(bytes) => bytes,
        Err(ReadEnd::Fault) => return Err(ParseEnd::ReadFault),
        Err(ReadEnd::TooLong) => return Err(ParseEnd::TooLong),
        Err(ReadEnd::Memory) => return Err(ParseEnd::Memory),
    };
    match parse(alloc, bytes.as_slice(), trace) {
        Ok(script) => Ok(script),
        Err(ScriptFault::At { line, code }) => Err(ParseEnd::BadScript { line, code }),
        Err(ScriptFault::Memory) => Err(ParseEnd::Memory),
    }
}
