//! Runs of the program on sources and sinks in memory.

ghost use Rattle.std.specs.Prelude.{◌<◌};

use broadphase::{Room, Status, run};
use std::alloc::Global;
use std::process::Abort;
use std::sync::Wait;
use std::test::Fail;
use world_io::{MemSink, MemSource, NoGate};

pub(crate) const SCRIPT: &[u8] =
    b"world 4 1 1 1 4\ncreate a 0 0 0 0 10 10 10 1\nadd a\nbox 1 5 5 5 6 6 6\n";

pub(crate) const REPORT: &[u8] = b"id 0:1\nok\nhits 0:1\nend live 1 in 1\n";

pub(crate) const BAD_SCRIPT: &[u8] = b"world 1 1 1 1 1\njump a\n";

pub(crate) const BAD_LINE: &[u8] = b"line 2: word\n";

// More bytes than a short script or its report has.
pub(crate) const MANY: usize = 1_000;

pub(crate) fn source_of(
    alloc: Global,
    script: &[u8],
    fails: &[u32],
    at_most: usize,
) -> Result<MemSource, Fail>
    requires { 0 < at_most }
{
    Ok(MemSource::new(script.to_vec(alloc)?, fails.to_vec(alloc)?, at_most))
}

pub(crate) fn sink_of(
    alloc: Global,
    fails: &[u32],
    at_most: usize,
    room: usize,
) -> Result<MemSink, Fail>
    requires { 0 < at_most }
{
    Ok(MemSink::new(alloc, fails.to_vec(alloc)?, at_most, room)?)
}

pub(crate) fn run_words(
    rt: &impl Wait,
    alloc: Global,
    words: &[&str],
    source: &mut MemSource,
    sink: &mut MemSink,
) -> Result<Status, Fail> {
    let mut all = Vec::new(alloc);
    for word in words {
        all.push(String::from_str(alloc, word)?)?;
    }
    Ok(run(rt, alloc, &all, source, sink, &NoGate, &mut Room::new()))
}

/// Plays a script from a source with no faults.
pub(crate) fn play_script(
    rt: &impl Wait,
    alloc: Global,
    script: &[u8],
    sink: &mut MemSink,
) -> Result<Status, Fail> {
    let mut source = source_of(alloc, script, &[], MANY)?;
    run_words(rt, alloc, &["play"], &mut source, sink)
}

/// How a run on a script ends, and what it writes.
pub(crate) fn assert_plays<R: Abort + Wait>(
    rt: &R,
    alloc: Global,
    script: &[u8],
    status: Status,
    report: &[u8],
) -> Result<(), Fail> {
    let mut sink = sink_of(alloc, &[], MANY, MANY)?;
    let ended = play_script(rt, alloc, script, &mut sink)?;
    assert_eq!(rt; ended, status, "{script:?}");
    assert_eq!(rt; sink.contents(), report, "{script:?}");
    Ok(())
}

/// The first bytes of a report.
pub(crate) fn front(report: &[u8], count: u32) -> &[u8] {
    &report[..report.len().min(count as usize)]
}

/// The bytes of a text in which a bar stands for the end of a line.
fn with_ends(alloc: Global, text: &str) -> Result<Vec<u8>, Fail> {
    let mut bytes = Vec::from_slice(alloc, text.as_bytes())?;
    for byte in bytes.iter_mut() {
        if *byte == b'|' {
            *byte = b'\n';
        }
    }
    Ok(bytes)
}

/// Plays the scripts of a table, none of which is a bad one. Each stands in a row of its own before its report, and a
/// bar stands for the end of a line.
pub(crate) fn assert_reports<R: Abort + Wait>(
    rt: &R,
    alloc: Global,
    table: &str,
) -> Result<(), Fail> {
    for row in table.lines() {
        let (script, report) = row.split_once(" => ").ok_or("a row without a report")?;
        let script = with_ends(alloc, script)?;
        let report = with_ends(alloc, report)?;
        assert_plays(rt, alloc, &script, Status::Done, &report)?;
    }
    Ok(())
}
