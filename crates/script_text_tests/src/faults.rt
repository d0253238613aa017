use script_text::{ScriptFault, parse};
use std::alloc::Global;
use std::process::Abort;
use std::test::Fail;

/// Two good lines, below which others are tried.
pub(crate) const HEAD: &str = "world 4 2 3 2 8\ncreate a 0 0 0 0 5 5 5 7\n";

/// The fault of a text, in words: the number of its first bad line and the code, or `none` where it is a script.
pub(crate) fn fault_of(alloc: Global, text: &[u8]) -> Result<String, Fail> {
    match parse(alloc, text, false) {
        Ok(_) => Ok(String::from_str(alloc, "none")?),
        Err(ScriptFault::At { line, code }) => Ok(format!(in alloc; "{line} {code:?}")?),
        Err(ScriptFault::Memory) => Err(Fail::from("want of memory")),
    }
}

/// The fault of a text below a head.
pub(crate) fn fault_below(alloc: Global, head: &str, text: &[u8]) -> Result<String, Fail> {
    let mut all = Vec::from_slice(alloc, head.as_bytes())?;
    all.extend_from_slice(text)?;
    fault_of(alloc, all.as_slice())
}

/// The bytes of a text in which a bar stands for the end of a line.
fn with_ends(alloc: Global, text: &str) -> Result<Vec<u8>, Fail> {
    let mut bytes = Vec::from_slice(alloc, text.as_bytes())?;
    for byte in bytes.iter_mut() {
        if *byte == b'|' {
            *byte = b'\n';
        }
    }
    Ok(bytes)
}

/// Tries the texts of a table below a head. Each stands in a row of its own, behind its fault, and a bar in it stands
/// for the end of a line.
pub(crate) fn assert_faults(
    rt: &impl Abort,
    alloc: Global,
    head: &str,
    table: &str,
) -> Result<(), Fail> {
    for row in table.lines() {
        let (fault, text) = row.split_once(": ").ok_or("a row without a fault")?;
        let text = with_ends(alloc, text)?;
        let found = fault_below(alloc, head, text.as_slice())?;
        assert_eq!(rt; found.as_str(), fault, "at {row:?}");
    }
    Ok(())
}

/// Scripts whose first lines are bad.
const FIRST_LINES: &str = "\
1 World: 
3 World: ||
2 World: # no command
1 World: add a|
1 Word: jump|
1 Later: update|
1 Count: world 1 1 1 1|
1 Count: world 1 1 1 1 1 1|
1 Count: world 0 1 1 1|
1 Number: world a 1 1 1 1|
1 Number: world 1 1 1 1 01|
1 Range: world -1 1 1 1 1|
1 Range: world 0 1 1 1 1|
1 Range: world 65537 1 1 1 1|
1 Range: world 1 3 1 1 1|
1 Range: world 1 0 1 1 1|
1 Range: world 1 128 1 1 1|
1 Range: world 1 1 9 1 1|
1 Range: world 1 1 0 1 1|
1 Range: world 1 1 1 65 1|
1 Range: world 1 1 1 0 1|
1 Range: world 1 1 1 1 65537|
1 Range: world 1 1 1 1 0|
1 Range: world 1 1 1 1 4294967297|
4 World: |#|  world 1 1 1 1 1 \r|world 1 1 1 1 1|
2 World: world 1 1 1 1 1|world|
2 Name: world 1 1 1 1 1|add b|jump|
";

/// World lines with two bad words: each word is looked at whole before the next one.
const FIRST_BAD_SIZES: &str = "\
1 Range: world 0 x 1 1 1|
1 Number: world x 0 1 1 1|
1 Range: world 1 3 1 x 1|
1 Number: world 1 1 x 65 1|
1 Range: world 99999999999 x 1 1 1|
";

#[test]
fn faults_of_first_lines(rt: HostRuntime) -> Result<(), Fail> {
    assert_faults(&rt, rt.alloc(), "", FIRST_LINES)?;
    assert_faults(&rt, rt.alloc(), "", FIRST_BAD_SIZES)
}

/// Lines whose first word or whose number of words is wrong.
const WORDS: &str = "\
3 Word: jump a
3 Word: Create b 0 0 0 0 5 5 5 7
3 Word: createb 0 0 0 0 5 5 5 7
3 Word: a#
3 Later: update
3 Later: retire x
3 Later: velocity a 1 1 1
3 Later: step 9
3 Later: actor q jump
3 Later: go q
3 Later: par
3 Later: worker
3 Later: end
3 Count: create b 0 0 0 0 5 5 5
3 Count: create b 0 0 0 0 5 5 5 7 7
3 Count: destroy
3 Count: destroy a a
3 Count: add
3 Count: add a a a a a
3 Count: prepare p
3 Count: prepare p 0 a a a a a
3 Count: finalize
3 Count: finalize p q
3 Count: abort
3 Count: remove
3 Count: move a 0 0 0 1 1
3 Count: user a
3 Count: user a 1 2
3 Count: read
3 Count: multi
3 Count: box 1 0 0 0 1 1
3 Count: point 1 0 0
3 Count: point 1 0 0 0 0
3 Count: ray 1 0 0 0 1 1
";

#[test]
fn faults_of_words(rt: HostRuntime) -> Result<(), Fail> {
    assert_faults(&rt, rt.alloc(), HEAD, WORDS)
}

/// Lines with a word that is no name, or not the name of a body.
const NAMES: &str = "\
3 Name: create A 0 0 0 0 5 5 5 7
3 Name: create a 0 0 0 0 5 5 5 7
3 Name: create a-b 0 0 0 0 5 5 5 7
3 Name: create a_name_of_thirty_three_letters_12 0 0 0 0 5 5 5 7
3 Name: destroy b
3 Name: destroy A
3 Name: add b
3 Name: add a a b
3 Name: prepare P 0 a
3 Name: prepare p 0 b
3 Name: finalize P
3 Name: abort p.q
3 Name: remove b
3 Name: move b 0 0 0 1 1 1
3 Name: user b 1
3 Name: read b
3 Name: multi a b
";

/// Lines in which the name is the first bad word.
const FIRST_BAD_NAMES: &str = "\
3 Name: create A x 0 0 0 5 5 5 7
3 Name: create A 9 0 0 0 5 5 5 7
3 Name: move b x 0 0 1 1 1
3 Name: move b 5 0 0 4 1 1
3 Name: user b x
3 Name: prepare P x a
3 Name: prepare P 9 b
";

#[test]
fn faults_of_names(rt: HostRuntime) -> Result<(), Fail> {
    assert_faults(&rt, rt.alloc(), HEAD, NAMES)?;
    assert_faults(&rt, rt.alloc(), HEAD, FIRST_BAD_NAMES)
}

/// Lines with a word that is no number, or with a number out of its range.
const NUMBERS: &str = "\
3 Number: create b x 0 0 0 5 5 5 7
3 Number: create b 0 01 0 0 5 5 5 7
3 Number: create b 0 -0 0 0 5 5 5 7
3 Number: create b 0 +1 0 0 5 5 5 7
3 Number: create b 0 --1 0 0 5 5 5 7
3 Number: create b 0 - 0 0 5 5 5 7
3 Number: create b 0 -01 0 0 5 5 5 7
3 Number: create b 0 1.5 0 0 5 5 5 7
3 Number: create b 0 0x1 0 0 5 5 5 7
3 Range: create b 3 0 0 0 5 5 5 7
3 Range: create b 8 0 0 0 5 5 5 7
3 Range: create b -1 0 0 0 5 5 5 7
3 Range: create b 0 -8388609 0 0 5 5 5 7
3 Range: create b 0 0 0 0 8388608 5 5 7
3 Range: create b 0 0 0 0 5 5 5 4294967296
3 Range: create b 0 0 0 0 5 5 5 -1
3 Range: create b 0 99999999999999999999999999999999999999999999999999999999999999 0 0 5 5 5 7
3 Range: create b 0 -99999999999999999999999999999999999999999999999999999999999999 0 0 5 5 5 7
3 Range: create b 0 6 0 0 5 5 5 7
3 Range: create b 0 0 6 0 5 5 5 7
3 Range: create b 0 0 0 6 5 5 5 7
3 Range: prepare p 3 a
3 Range: move a 0 0 0 0 0 -1
3 Range: user a -1
3 Range: user a 4294967296
3 Range: box 256 0 0 0 1 1 1
3 Range: box -1 0 0 0 1 1 1
3 Range: box 1 1 0 0 0 1 1
3 Range: point 256 0 0 0
3 Range: point 1 0 0 8388608
3 Range: ray 1 8388608 0 0 0 0 0
3 Range: ray 1 0 0 0 16777216 0 0
3 Range: ray 1 0 0 0 0 0 -16777216
";

/// Lines with two faults: the first bad word decides, and a box is looked at when all words are good.
const FIRST_BAD_NUMBERS: &str = "\
3 Range: create b 9 x 0 0 5 5 5 7
3 Number: create b x 8388608 0 0 5 5 5 7
3 Number: create b 0 6 0 0 5 5 5 x
3 Number: prepare p x b
3 Range: prepare p 3 b
3 Range: box 256 x 0 0 1 1 1
3 Number: box x 256000000 0 0 1 1 1
3 Number: move a 5 0 0 4 0 x
3 Number: ray 1 x 0 0 16777216 0 0
3 Range: ray 1 0 0 0 16777216 x 0
";

#[test]
fn faults_of_numbers(rt: HostRuntime) -> Result<(), Fail> {
    assert_faults(&rt, rt.alloc(), HEAD, NUMBERS)?;
    assert_faults(&rt, rt.alloc(), HEAD, FIRST_BAD_NUMBERS)
}

#[test]
fn faults_of_bytes(rt: HostRuntime) -> Result<(), Fail> {
    for line in [
        b"create\tb 0 0 0 0 5 5 5 7".as_slice(),
        b"# \x7f".as_slice(),
        b"jump \x80".as_slice(),
        b"world \x1f".as_slice(),
        b"add a \r".as_slice(),
        b"add \r a\n".as_slice(),
        b"add a\r\r\n".as_slice(),
        b"\0\n".as_slice(),
    ] {
        let found = fault_below(rt.alloc(), HEAD, line)?;
        assert_eq!(rt; found.as_str(), "3 Text", "at {line:?}");
    }
    Ok(())
}
