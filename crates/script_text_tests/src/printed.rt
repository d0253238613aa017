use script_text::{Script, parse, print};
use std::alloc::Global;
use std::process::Abort;
use std::test::Fail;

/// A script with every command, its lines written in several ways.
const UNTIDY: &str =
    "# a level\n\n  world 4  2 3 2 8 \r\ncreate a 0 -1 0 0 5 5 5 7\n create b 2 0 0 0 0 0 0 0\r\nadd a  b\n\
read a\nmulti a b a\nbox 255 0 0 0 1 1 1\n#\npoint 1 0 0 -8388608\nray 3 0 0 0 16777215 -1 0\nmove a 0 0 0 1 1 1\n\
user a 4294967295\nremove a\nprepare p 0 a\nfinalize p\nprepare q 1\nabort q\ndestroy   b";

/// The same script, as it is printed.
const TIDY: &str = "world 4 2 3 2 8\ncreate a 0 -1 0 0 5 5 5 7\ncreate b 2 0 0 0 0 0 0 0\nadd a b\n\
read a\nmulti a b a\nbox 255 0 0 0 1 1 1\npoint 1 0 0 -8388608\nray 3 0 0 0 16777215 -1 0\nmove a 0 0 0 1 1 1\n\
user a 4294967295\nremove a\nprepare p 0 a\nfinalize p\nprepare q 1\nabort q\ndestroy b\n";

/// A text that is tidy already.
const SHORT: &str = "world 4 1 1 1 4\ncreate a 0 0 0 0 10 10 10 1\nadd a\nbox 1 5 5 5 6 6 6\n";

/// Reads a script, prints it, and reads it again: what is printed is this, and all that is read is as it was.
fn read_again(rt: &impl Abort, alloc: Global, text: &str, tidy: &str) -> Result<Script, Fail> {
    let script = parse(alloc, text.as_bytes(), true)?;
    let printed = print(alloc, &script)?;
    assert_eq!(rt; printed.as_slice(), tidy.as_bytes());
    let again = parse(alloc, printed.as_slice(), false)?;
    let was = format!(in alloc; "{script:?}")?;
    assert_eq!(rt; format!(in alloc; "{again:?}")?, was);
    Ok(script)
}

#[test]
fn printed_and_read_again(rt: HostRuntime) -> Result<(), Fail> {
    let script = read_again(&rt, rt.alloc(), UNTIDY, TIDY)?;
    assert_eq!(rt; script.lines.items().len(), 16);
    assert_eq!(rt;
        (script.world.passes, script.actors, script.most_workers),
        (1, 0, 0)
    );
    Ok(())
}

#[test]
fn tidy_scripts_are_printed_as_they_stand(rt: HostRuntime) -> Result<(), Fail> {
    let script = read_again(&rt, rt.alloc(), SHORT, SHORT)?;
    assert_eq!(rt; script.lines.items().len(), 3);
    read_again(&rt, rt.alloc(), TIDY, TIDY)?;
    Ok(())
}
