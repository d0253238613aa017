use crate::runs::{
    BAD_LINE, BAD_SCRIPT, MANY, SCRIPT, assert_plays, front, run_words, sink_of, source_of,
};
use broadphase::streams::read_all;
use broadphase::{Status, run_check};
use std::test::Fail;
use world_io::MemSource;

const MOST_BYTES: usize = 8_388_608;

#[test]
fn names_the_first_bad_line(rt: HostRuntime) -> Result<(), Fail> {
    for (script, report) in [
        (BAD_SCRIPT, BAD_LINE),
        (b"", b"line 1: world\n"),
        (
            b"world 4 1 1 1 4\ncreate a 0 5 0 0 4 1 1 0\n",
            b"line 2: range\n",
        ),
        (b"world 1 1 1 1 1\npar\nworker\n", b"line 2: later\n"),
    ] {
        assert_plays(&rt, rt.alloc(), script, Status::BadScript, report)?;
    }
    Ok(())
}

// Nothing is written, and the whole script is still there to be read.
#[test]
fn other_words_are_no_command(rt: HostRuntime) -> Result<(), Fail> {
    for words in [
        [].as_slice(),
        &["play", "now"],
        &["check", "now"],
        &["Play"],
        &[""],
    ] {
        let mut source = source_of(rt.alloc(), SCRIPT, &[], MANY)?;
        let mut sink = sink_of(rt.alloc(), &[], MANY, MANY)?;
        let ended = run_words(&rt, rt.alloc(), words, &mut source, &mut sink)?;
        assert_eq!(rt; ended, Status::Usage, "{words:?}");
        assert_eq!(rt; sink.contents(), b"".as_slice(), "{words:?}");
        let rest = read_all(rt.alloc(), &mut source, MANY);
        assert!(rt; rest.is_ok_and(|b| b.as_slice() == SCRIPT), "{words:?}");
    }
    Ok(())
}

// A check says that a script is one, or names its first bad line, and plays nothing.
#[test]
fn checks_a_script(rt: HostRuntime) -> Result<(), Fail> {
    for (script, status, text) in [
        (SCRIPT, Status::Done, b"ok\n".as_slice()),
        (BAD_SCRIPT, Status::BadScript, BAD_LINE),
    ] {
        let mut source = source_of(rt.alloc(), script, &[], 3)?;
        let mut sink = sink_of(rt.alloc(), &[], 1, MANY)?;
        let ended = run_words(&rt, rt.alloc(), &["check"], &mut source, &mut sink)?;
        assert_eq!(rt; ended, status, "{script:?}");
        assert_eq!(rt; sink.contents(), text, "{script:?}");
        let mut source = source_of(rt.alloc(), script, &[], MANY)?;
        let mut sink = sink_of(rt.alloc(), &[2], 1, MANY)?;
        let ended = run_check(rt.alloc(), &mut source, &mut sink);
        assert_eq!(rt; ended, Status::WriteFault, "{script:?}");
        assert_eq!(rt; sink.contents(), front(text, 1), "{script:?}");
    }
    Ok(())
}

// Of a script that is too long the byte past the limit is read, and no more.
#[test]
fn reads_a_script_up_to_the_limit(rt: HostRuntime) -> Result<(), Fail> {
    for (count, status, report, left) in [
        (
            MOST_BYTES,
            Status::BadScript,
            b"line 2: world\n".as_slice(),
            0,
        ),
        (MOST_BYTES + 1, Status::TooLong, b"", 0),
        (MOST_BYTES + 3, Status::TooLong, b"", 2),
    ] {
        let bytes = vec![in rt.alloc(); b'#'; count]?;
        let mut source = MemSource::new(bytes, Vec::new(rt.alloc()), MOST_BYTES);
        let mut sink = sink_of(rt.alloc(), &[], MANY, MANY)?;
        let ended = run_words(&rt, rt.alloc(), &["play"], &mut source, &mut sink)?;
        assert_eq!(rt; ended, status, "of {count}");
        assert_eq!(rt; sink.contents(), report, "of {count}");
        let rest = read_all(rt.alloc(), &mut source, MANY);
        assert!(rt; rest.is_ok_and(|b| b.len() == left), "of {count}");
    }
    Ok(())
}
