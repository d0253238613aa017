use body_ident::BodyId;
use fixed_box::{Coord, FixBox};
use scene_model::{Entry, IndexList, Phase, PlainScene};
use std::alloc::Global;
use std::test::Fail;

/// A cube with two opposite corners on the diagonal.
fn cube(lo: i32, hi: i32) -> Result<FixBox, Fail> {
    let lo = Coord::new(lo).ok_or("no coordinate")?;
    let hi = Coord::new(hi).ok_or("no coordinate")?;
    Ok(FixBox::new([lo, lo, lo], [hi, hi, hi]).ok_or("no box")?)
}

/// Creates a body and gives its id.
fn create(scene: &mut PlainScene, user: u32) -> Result<BodyId, Fail> {
    let index = scene.next_index().ok_or("full")?;
    scene.apply(&Entry::Create {
        index,
        layer: 0,
        bounds: cube(0, 10)?,
        user,
    })?;
    Ok(scene.at(index).ok_or("gone")?.id)
}

/// Destroys the body at an index, if it is out.
fn destroy(scene: &mut PlainScene, index: u32) -> Result<(), Fail> {
    let phase = scene.at(index).ok_or("gone")?.phase;
    if phase != Phase::Out {
        return Err(Fail::from("in use"));
    }
    scene.apply(&Entry::Destroy { index })?;
    Ok(())
}

#[test]
fn creates_where_a_body_was_destroyed(rt: HostRuntime) -> Result<(), Fail> {
    let mut scene = PlainScene::new(rt.alloc(), 4)?;
    assert_eq!(rt; create(&mut scene, 0)?, BodyId::new(0, 1));
    destroy(&mut scene, 0)?;
    assert_eq!(rt; scene.live_count(), 0);
    assert_eq!(rt; create(&mut scene, 0)?, BodyId::new(0, 2));
    assert_eq!(rt; scene.live_count(), 1);
    assert_eq!(rt; scene.in_count(), 0);
    Ok(())
}

#[test]
fn takes_the_index_destroyed_last(rt: HostRuntime) -> Result<(), Fail> {
    let mut scene = PlainScene::new(rt.alloc(), 4)?;
    for index in 0..3 {
        assert_eq!(rt; create(&mut scene, 0)?, BodyId::new(index, 1));
    }
    destroy(&mut scene, 0)?;
    destroy(&mut scene, 2)?;
    assert!(rt; scene.at(0).is_none());
    assert_eq!(rt; create(&mut scene, 0)?, BodyId::new(2, 2));
    assert_eq!(rt; create(&mut scene, 0)?, BodyId::new(0, 2));
    assert_eq!(rt; create(&mut scene, 0)?, BodyId::new(3, 1));
    assert_eq!(rt; scene.next_index(), None);
    assert_eq!(rt; scene.live_count(), 4);
    Ok(())
}

#[test]
fn counts_creations_modulo_256(rt: HostRuntime) -> Result<(), Fail> {
    let mut scene = PlainScene::new(rt.alloc(), 1)?;
    for _ in 0..255 {
        create(&mut scene, 0)?;
        destroy(&mut scene, 0)?;
    }
    assert_eq!(rt; create(&mut scene, 256)?, BodyId::new(0, 0));
    destroy(&mut scene, 0)?;
    assert_eq!(rt; create(&mut scene, 257)?, BodyId::new(0, 1));
    Ok(())
}

/// Takes the body at an index for a batch, if it is out.
fn mark(scene: &mut PlainScene, index: u32) -> Result<(), Fail> {
    let phase = scene.at(index).ok_or("gone")?.phase;
    if phase != Phase::Out {
        return Err(Fail::from("in use"));
    }
    scene.apply(&Entry::Mark { index })?;
    Ok(())
}

/// Puts one body into the broad phase, if it is held.
fn join(alloc: Global, scene: &mut PlainScene, index: u32) -> Result<(), Fail> {
    let body = scene.at(index).ok_or("gone")?;
    let layer = body.layer;
    let indexes = IndexList::new(vec![in alloc; index]?);
    match body.phase {
        Phase::Held => scene.apply(&Entry::Join { layer, indexes })?,
        _ => return Err(Fail::from("not held")),
    }
    Ok(())
}

#[test]
fn finds_a_body_that_is_in(rt: HostRuntime) -> Result<(), Fail> {
    let mut scene = PlainScene::new(rt.alloc(), 4)?;
    let shared_face = cube(10, 20)?;
    let apart = cube(11, 20)?;
    create(&mut scene, 0)?;
    create(&mut scene, 0)?;
    mark(&mut scene, 1)?;
    assert_eq!(rt; scene.hits(rt.alloc(), 1, &shared_face)?.len(), 0);
    join(rt.alloc(), &mut scene, 1)?;
    let found = scene.hits(rt.alloc(), 1, &shared_face)?;
    assert_eq!(rt; found.as_slice(), [BodyId::new(1, 1)].as_slice());
    assert_eq!(rt; scene.hits(rt.alloc(), 2, &shared_face)?.len(), 0);
    assert_eq!(rt; scene.hits(rt.alloc(), 1, &apart)?.len(), 0);
    assert_eq!(rt; scene.in_count(), 1);
    Ok(())
}
