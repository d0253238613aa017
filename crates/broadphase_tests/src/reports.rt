use crate::runs::{MANY, assert_reports, run_words, sink_of, source_of};
use broadphase::Status;
use std::alloc::Global;
use std::test::Fail;

/// Scripts that create and destroy bodies: each index is used again with another sequence number, the one that was
/// freed last first.
const LIVES: &str = "\
world 4 1 1 1 1 => end live 0 in 0|
world 4 1 1 1 4|create a 0 0 0 0 1 1 1 0|destroy a|create b 0 0 0 0 1 1 1 0|read a|destroy a| => id 0:1|ok|id 0:2|gone|refused gone|end live 1 in 0|
world 4 1 1 1 4|create a 0 0 0 0 1 1 1 0|create b 0 0 0 0 1 1 1 0|create c 0 0 0 0 1 1 1 0|destroy a|destroy c|create d 0 0 0 0 1 1 1 0|create e 0 0 0 0 1 1 1 0|create f 0 0 0 0 1 1 1 0| => id 0:1|id 1:1|id 2:1|ok|ok|id 2:2|id 0:2|id 3:1|end live 4 in 0|
world 1 1 1 1 1|create a 0 0 0 0 1 1 1 0|create b 0 0 0 0 1 1 1 0|read b|destroy a|create c 0 0 0 0 1 1 1 0| => id 0:1|refused full|refused noid|ok|id 0:2|end live 1 in 0|
";

#[test]
fn bodies_begin_and_end(rt: HostRuntime) -> Result<(), Fail> {
    assert_reports(&rt, rt.alloc(), LIVES)
}

/// Bodies are found by a box, by a point and by a segment, and only in the broad phase.
const QUERIES: &str = "\
world 4 1 1 1 4|create a 0 0 0 0 10 10 10 1|add a|box 1 5 5 5 6 6 6| => id 0:1|ok|hits 0:1|end live 1 in 1|
world 4 1 1 1 4|create a 0 8388600 0 0 8388607 10 10 1|create b 0 8388607 0 0 8388607 10 10 2|add a b|point 1 8388607 5 5|point 1 8388606 5 5| => id 0:1|id 1:1|ok|hits 0:1 1:1|hits 0:1|end live 2 in 2|
world 4 1 1 1 4|create a 0 0 0 0 10 10 10 1|add a|ray 1 20 0 0 -20 20 20|ray 1 21 0 0 -20 20 20|ray 1 5 5 5 0 0 0| => id 0:1|ok|hits 0:1|hits -|hits 0:1|end live 1 in 1|
world 4 1 1 2 4|create a 0 0 0 0 10 10 10 1|prepare p 0 a|box 1 0 0 0 9 9 9|abort p|box 1 0 0 0 9 9 9|add a|box 1 0 0 0 9 9 9| => id 0:1|ok|hits -|ok|hits -|ok|hits 0:1|end live 1 in 1|
";

#[test]
fn queries_find_bodies(rt: HostRuntime) -> Result<(), Fail> {
    assert_reports(&rt, rt.alloc(), QUERIES)
}

/// What is refused, and in which order the causes are looked at.
const REFUSALS: &str = "\
world 4 1 1 1 4|create a 0 0 0 0 1 1 1 0|create b 0 0 0 0 1 1 1 0|prepare p 0 a|prepare q 0 b|abort p|prepare q 0 b| => id 0:1|id 1:1|ok|refused noslot|ok|ok|end live 2 in 0|
world 4 1 1 1 4|create a 0 0 0 0 1 1 1 3|prepare p 0 a|move a 1 1 1 2 2 2|finalize p|move a 1 1 1 2 2 2|destroy a|read a|remove a|remove a|destroy a|move a 0 0 0 1 1 1| => id 0:1|ok|refused held|ok|ok|refused inuse|body 0:1 0 1 1 1 2 2 2 3 in|ok|refused notin|ok|refused gone|end live 0 in 0|
world 4 1 2 2 4|create a 0 0 0 0 1 1 1 5|prepare p 1 a|prepare p 0|prepare p 0 a a|read a|finalize p|add a|add a|multi a a| => id 0:1|refused wronglayer|refused empty|refused held|body 0:1 0 0 0 0 1 1 1 5 out|refused nobatch|ok|refused alreadyin|multi 0:1=5 0:1=5|end live 1 in 1|
world 4 1 1 1 4|create a 0 0 0 0 1 1 1 0|create b 0 0 0 0 1 1 1 0|prepare p 0 a|destroy b|prepare q 0 b| => id 0:1|id 1:1|ok|ok|refused noslot|end live 1 in 0|
world 8 1 3 2 1|create a 2 0 0 0 1 1 1 0|create b 0 0 0 0 1 1 1 0|create c 2 0 0 0 1 1 1 0|add a b c|prepare p 2 a|read a|read b|user a 7|multi a b c|abort p| => id 0:1|id 1:1|id 2:1|refused nonodes|refused nonodes|body 0:1 2 0 0 0 1 1 1 0 out|body 1:1 0 0 0 0 1 1 1 0 in|ok|multi 0:1=7 1:1=0 2:1=0|refused nobatch|end live 3 in 1|
world 1 1 1 1 1|create a 0 0 0 0 1 1 1 0|create b 0 0 0 0 1 1 1 0|add b|add a|add a|box 1 1 1 1 2 2 2| => id 0:1|refused full|refused noid|ok|refused noslot|hits 0:1|end live 1 in 1|
";

#[test]
fn refusals_have_an_order(rt: HostRuntime) -> Result<(), Fail> {
    assert_reports(&rt, rt.alloc(), REFUSALS)
}

/// Appends the lines that create and destroy a body.
fn append_life(
    script: &mut String,
    report: &mut String,
    count: u32,
    alloc: Global,
) -> Result<(), Fail> {
    script.push_str(&format!(in alloc;
        "create n{count} 0 0 0 0 1 1 1 {count}\ndestroy n{count}\n"
    )?)?;
    report.push_str(&format!(in alloc; "id 0:{}\nok\n", count % 256)?)?;
    Ok(())
}

// The sequence number comes round after 256 creations at an index, and a stale name is then taken for the new body.
#[test]
fn sequence_numbers_come_round(rt: HostRuntime) -> Result<(), Fail> {
    let mut script = String::from_str(rt.alloc(), "world 1 1 1 1 1\n")?;
    let mut report = String::new(rt.alloc());
    for count in 1..=256 {
        append_life(&mut script, &mut report, count, rt.alloc())?;
    }
    script.push_str("create n257 0 0 0 0 1 1 1 257\nread n1\n")?;
    report.push_str("id 0:1\nbody 0:1 0 0 0 0 1 1 1 257 out\nend live 1 in 0\n")?;
    let mut source = source_of(rt.alloc(), script.as_bytes(), &[], 100_000)?;
    let mut sink = sink_of(rt.alloc(), &[], MANY, 100_000)?;
    let ended = run_words(&rt, rt.alloc(), &["play"], &mut source, &mut sink)?;
    assert_eq!(rt; ended, Status::Done);
    assert_eq!(rt; sink.contents(), report.as_bytes());
    Ok(())
}
