use body_ident::{BodyId, same_text};
use std::test::Fail;

#[test]
fn words(rt: HostRuntime) {
    assert_eq!(rt; BodyId::new(5, 200).raw(), 3_355_443_205);
    assert_eq!(rt; BodyId::of_raw(3_355_443_205), Some(BodyId::new(5, 200)));
    assert_eq!(rt; BodyId::of_raw(8_388_608), None);
    assert_eq!(rt;
        BodyId::of_raw(u32::MAX - (1 << 23)),
        Some(BodyId::new(8_388_607, 255))
    );
    assert_eq!(rt; BodyId::new(5, 200).index(), 5);
    assert_eq!(rt; BodyId::new(5, 200).seq(), 200);
}

#[test]
fn texts(rt: HostRuntime) -> Result<(), Fail> {
    for (id, text) in [
        (BodyId::new(0, 1), b"0:1".as_slice()),
        (BodyId::new(5, 200), b"5:200".as_slice()),
        (BodyId::new(17, 10), b"17:10".as_slice()),
        (BodyId::new(8_388_607, 255), b"8388607:255".as_slice()),
    ] {
        let mut out = b"hits ".to_vec(rt.alloc())?;
        id.write_text(&mut out)?;
        assert_eq!(rt; out.len(), 5 + text.len());
        assert_eq!(rt; &out[5..], text);
        assert_eq!(rt; BodyId::read_text(text), Some(id));
        same_text(id, id);
    }
    Ok(())
}

#[test]
fn no_texts(rt: HostRuntime) {
    for text in [
        "",
        ":",
        "5",
        "5:",
        ":5",
        "05:1",
        "5:01",
        "+5:1",
        "5:+1",
        "-5:1",
        "8388608:0",
        "0:256",
        "5:2:3",
        "5 :2",
        "5:2 ",
        "4294967296:0",
        "0:4294967297",
        "\u{e9}:1",
    ] {
        assert_eq!(rt; BodyId::read_text(text.as_bytes()), None, "at {text:?}");
    }
}
