use crate::runs::source_of;
use broadphase::streams::{ReadEnd, read_all, write_all};
use std::test::Fail;
use world_io::{MemSink, MemSource};

// Up to the limit all bytes come; a source with one more is too long, whatever the size of its pieces.
#[test]
fn reads_up_to_the_limit(rt: HostRuntime) -> Result<(), Fail> {
    for at_most in [1, 2, 100_000] {
        let mut source = source_of(rt.alloc(), b"hello", &[], at_most)?;
        let bytes = read_all(rt.alloc(), &mut source, 5);
        assert!(rt;
            bytes.is_ok_and(|b| b.as_slice() == b"hello".as_slice()),
            "pieces of {at_most}"
        );
        let mut source = source_of(rt.alloc(), b"hello!", &[], at_most)?;
        let bytes = read_all(rt.alloc(), &mut source, 5);
        assert!(rt;
            bytes.is_err_and(|e| e == ReadEnd::TooLong),
            "pieces of {at_most}"
        );
    }
    Ok(())
}

// The second call fails; what it would have given comes at the next try.
#[test]
fn stops_at_a_fault(rt: HostRuntime) -> Result<(), Fail> {
    let mut source = source_of(rt.alloc(), b"hello", &[2], 3)?;
    let bytes = read_all(rt.alloc(), &mut source, 5);
    assert!(rt; bytes.is_err_and(|e| e == ReadEnd::Fault));
    let bytes = read_all(rt.alloc(), &mut source, 5);
    assert!(rt; bytes.is_ok_and(|b| b.as_slice() == b"lo".as_slice()));
    Ok(())
}

// What one block does not hold.
#[test]
fn reads_more_than_a_block(rt: HostRuntime) -> Result<(), Fail> {
    let long = vec![in rt.alloc(); b'#'; 200_000]?;
    let mut source = MemSource::new(long, Vec::new(rt.alloc()), 1_000_000);
    let bytes = read_all(rt.alloc(), &mut source, 200_000);
    assert!(rt; bytes.is_ok_and(|b| b.len() == 200_000));
    Ok(())
}

#[test]
fn writes_all_or_a_front(rt: HostRuntime) -> Result<(), Fail> {
    let fails = [4].to_vec(rt.alloc())?;
    let mut sink = MemSink::new(rt.alloc(), fails, 2, 100)?;
    assert!(rt; write_all(&mut sink, b"hello\n").is_ok());
    assert!(rt; write_all(&mut sink, b"world\n").is_err());
    assert_eq!(rt; sink.contents(), b"hello\n".as_slice());
    Ok(())
}
