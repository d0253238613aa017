use body_ident::BodyId;
use fixed_box::{Coord, FixBox};
use reply_text::{IdList, MultiItem, MultiList, Refusal, Reply, reply_line};
use scene_model::{BodyView, Phase};
use std::alloc::Global;
use std::process::Abort;
use std::test::Fail;

/// Asserts which line tells a reply.
fn assert_line(rt: &impl Abort, alloc: Global, reply: &Reply, line: &str) -> Result<(), Fail> {
    let mut out = Vec::from_slice(alloc, b"above\n")?;
    reply_line(reply, &mut out)?;
    let mut want = Vec::from_slice(alloc, b"above\n")?;
    want.extend_from_slice(line.as_bytes())?;
    assert_eq!(rt; out.as_slice(), want.as_slice());
    Ok(())
}

#[test]
fn lines_of_refusals(rt: HostRuntime) -> Result<(), Fail> {
    for (refusal, line) in [
        (Refusal::NoId, "refused noid\n"),
        (Refusal::Batch, "refused batch\n"),
        (Refusal::NoBatch, "refused nobatch\n"),
        (Refusal::Full, "refused full\n"),
        (Refusal::Gone, "refused gone\n"),
        (Refusal::InUse, "refused inuse\n"),
        (Refusal::Empty, "refused empty\n"),
        (Refusal::NoSlot, "refused noslot\n"),
        (Refusal::NoNodes, "refused nonodes\n"),
        (Refusal::Held, "refused held\n"),
        (Refusal::AlreadyIn, "refused alreadyin\n"),
        (Refusal::WrongLayer, "refused wronglayer\n"),
        (Refusal::NotIn, "refused notin\n"),
    ] {
        assert_line(&rt, rt.alloc(), &Reply::Refused(refusal), line)?;
    }
    Ok(())
}

#[test]
fn lines_of_ids(rt: HostRuntime) -> Result<(), Fail> {
    let alloc = rt.alloc();
    let last = BodyId::new(8_388_607, 255);
    let none = Reply::Hits(IdList::new(Vec::new(alloc)));
    let both = Reply::Hits(IdList::new([BodyId::new(0, 1), last].to_vec(alloc)?));
    let user = MultiItem::User { id: last, user: 7 };
    let items = Reply::Multi(MultiList::new([user, MultiItem::Gone].to_vec(alloc)?));
    assert_line(&rt, alloc, &Reply::Id(last), "id 8388607:255\n")?;
    assert_line(&rt, alloc, &Reply::Done, "ok\n")?;
    assert_line(&rt, alloc, &Reply::Gone, "gone\n")?;
    assert_line(&rt, alloc, &none, "hits -\n")?;
    assert_line(&rt, alloc, &both, "hits 0:1 8388607:255\n")?;
    assert_line(&rt, alloc, &items, "multi 8388607:255=7 gone\n")
}

#[test]
fn line_of_a_body(rt: HostRuntime) -> Result<(), Fail> {
    let low = Coord::new(-8_388_608).ok_or("no coordinate")?;
    let zero = Coord::new(0).ok_or("no coordinate")?;
    let high = Coord::new(8_388_607).ok_or("no coordinate")?;
    let bounds = FixBox::new([low, zero, low], [zero, high, high]).ok_or("no box")?;
    for (phase, line) in [
        (
            Phase::Out,
            "body 4:0 7 -8388608 0 -8388608 0 8388607 8388607 4294967295 out\n",
        ),
        (
            Phase::Held,
            "body 4:0 7 -8388608 0 -8388608 0 8388607 8388607 4294967295 held\n",
        ),
        (
            Phase::In,
            "body 4:0 7 -8388608 0 -8388608 0 8388607 8388607 4294967295 in\n",
        ),
    ] {
        let view = BodyView {
            id: BodyId::new(4, 0),
            layer: 7,
            bounds,
            user: 4_294_967_295,
            phase,
        };
        assert_line(&rt, rt.alloc(), &Reply::Body(view), line)?;
    }
    Ok(())
}
