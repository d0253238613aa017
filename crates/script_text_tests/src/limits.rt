use crate::faults::{HEAD, assert_faults, fault_below, fault_of};
use std::alloc::Global;
use std::test::Fail;

/// Lines at the ends of what is allowed.
const ENDS: &str = "\
none: create b 2 -8388608 -8388608 -8388608 8388607 8388607 8388607 4294967295
none: create b 0 5 5 5 5 5 5 0
none: create a_name_of_thirty_two_letters_123 0 0 0 0 5 5 5 7
none: add a a a a
none: prepare p 0
none: prepare p 2 a a a a
none: box 255 -8388608 0 0 8388607 1 1
none: point 0 8388607 -8388608 0
none: ray 255 -8388608 0 8388607 16777215 -16777215 0
none: user a 4294967295
none:   add   a  
none: add a\r|
none: \r||add a|
none: #jump
none:   # create a
";

#[test]
fn ends_of_ranges(rt: HostRuntime) -> Result<(), Fail> {
    assert_faults(&rt, rt.alloc(), HEAD, ENDS)
}

/// A `multi` of so many names.
fn multi_of(alloc: Global, count: u32) -> Result<Vec<u8>, Fail> {
    let mut line = Vec::from_slice(alloc, b"multi")?;
    for _ in 0..count {
        line.extend_from_slice(b" a")?;
    }
    Ok(line)
}

#[test]
fn most_names_of_a_multi(rt: HostRuntime) -> Result<(), Fail> {
    let most = fault_below(rt.alloc(), HEAD, multi_of(rt.alloc(), 64)?.as_slice())?;
    assert_eq!(rt; most.as_str(), "none");
    let over = fault_below(rt.alloc(), HEAD, multi_of(rt.alloc(), 65)?.as_slice())?;
    assert_eq!(rt; over.as_str(), "3 Count");
    Ok(())
}

/// A world line and so many comments below it.
fn comments(alloc: Global, count: u32) -> Result<Vec<u8>, Fail> {
    let mut text = Vec::from_slice(alloc, b"world 1 1 1 1 1\n")?;
    for _ in 0..count {
        text.extend_from_slice(b"#\n")?;
    }
    Ok(text)
}

#[test]
fn most_lines(rt: HostRuntime) -> Result<(), Fail> {
    let most = fault_of(rt.alloc(), comments(rt.alloc(), 199_999)?.as_slice())?;
    assert_eq!(rt; most.as_str(), "none");
    let over = fault_of(rt.alloc(), comments(rt.alloc(), 200_000)?.as_slice())?;
    assert_eq!(rt; over.as_str(), "200001 Long");
    Ok(())
}
