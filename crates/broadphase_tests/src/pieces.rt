use crate::runs::{
    BAD_LINE, BAD_SCRIPT, MANY, REPORT, SCRIPT, front, play_script, run_words, sink_of, source_of,
};
use broadphase::Status;
use std::alloc::Global;
use std::io::{self, Read};
use std::process::Abort;
use std::sync::Wait;
use std::test::Fail;
use world_io::{Source, StdSource};

#[test]
fn pieces_change_nothing(rt: HostRuntime) -> Result<(), Fail> {
    for at_most in [1, 2, 7] {
        let mut source = source_of(rt.alloc(), SCRIPT, &[], at_most)?;
        let mut sink = sink_of(rt.alloc(), &[], at_most, MANY)?;
        let ended = run_words(&rt, rt.alloc(), &["play"], &mut source, &mut sink)?;
        assert_eq!(rt; ended, Status::Done, "pieces of {at_most}");
        assert_eq!(rt; sink.contents(), REPORT, "pieces of {at_most}");
    }
    Ok(())
}

// Ten bytes at a time take seven reads, and an eighth gives nothing.
#[test]
fn stops_where_a_read_fails(rt: HostRuntime) -> Result<(), Fail> {
    for call in 1..=8 {
        let mut source = source_of(rt.alloc(), SCRIPT, &[call], 10)?;
        let mut sink = sink_of(rt.alloc(), &[], MANY, MANY)?;
        let ended = run_words(&rt, rt.alloc(), &["play"], &mut source, &mut sink)?;
        assert_eq!(rt; ended, Status::ReadFault, "at call {call}");
        assert_eq!(rt; sink.contents(), b"".as_slice(), "at call {call}");
    }
    Ok(())
}

/// A sink that takes one byte at a time keeps those before the call that fails.
fn assert_stops<R: Abort + Wait>(
    rt: &R,
    alloc: Global,
    script: &[u8],
    report: &[u8],
    calls: u32,
) -> Result<(), Fail> {
    for before in 0..calls {
        let mut sink = sink_of(alloc, &[before.saturating_add(1)], 1, MANY)?;
        let ended = play_script(rt, alloc, script, &mut sink)?;
        assert_eq!(rt; ended, Status::WriteFault, "after {before} calls");
        assert_eq!(rt; sink.contents(), front(report, before));
        let mut sink = sink_of(alloc, &[], MANY, before as usize)?;
        let ended = play_script(rt, alloc, script, &mut sink)?;
        assert_eq!(rt; ended, Status::WriteFault, "with room for {before}");
        assert_eq!(rt; sink.contents(), front(report, before));
    }
    let mut sink = sink_of(alloc, &[calls.saturating_add(1)], 1, calls as usize)?;
    assert!(rt; play_script(rt, alloc, script, &mut sink)? != Status::WriteFault);
    assert_eq!(rt; sink.contents(), report);
    Ok(())
}

#[test]
fn stops_where_a_write_fails(rt: HostRuntime) -> Result<(), Fail> {
    assert_stops(&rt, rt.alloc(), SCRIPT, REPORT, 35)?;
    assert_stops(&rt, rt.alloc(), BAD_SCRIPT, BAD_LINE, 13)?;
    Ok(())
}

// Each reply is one piece, so where the second call fails the first reply is there as a whole.
#[test]
fn a_reply_is_one_piece(rt: HostRuntime) -> Result<(), Fail> {
    let mut sink = sink_of(rt.alloc(), &[2], MANY, MANY)?;
    let ended = play_script(&rt, rt.alloc(), SCRIPT, &mut sink)?;
    assert_eq!(rt; ended, Status::WriteFault);
    assert_eq!(rt; sink.contents(), b"id 0:1\n".as_slice());
    Ok(())
}

/// A reader that gives two bytes a call.
#[derive(Drop)]
struct Pairs;

impl Read for Pairs {
    fn read(&mut self, buf: &mut [u8]) -> io::Result<usize> {
        match buf {
            [first, second, ..] => {
                *first = b'a';
                *second = b'b';
                Ok(2)
            }
            _ => Ok(0),
        }
    }
}

// The standard source hands on all that one read gave, and asks the reader for as much as it was asked for.
#[test]
fn a_read_is_handed_on_whole(rt: HostRuntime) {
    let mut source = StdSource::new(Pairs);
    let mut buf = [0u8; 3];
    assert!(rt; source.read(&mut buf) == Ok(2));
    assert_eq!(rt; buf, *b"ab\0");
}
