//! Which ids a batch is refused for, and that a body which is held is not destroyed.
use crate::bodies::{create_body, create_first, create_in_second, destroy_body};
use crate::held_batches::{attach, batch_sizes, drop_batch, hold};
use crate::opened::open_three;
use batch_add::{PrepareRefused, Prepared};
use body_ident::BodyId;
use body_slots::DestroyRefused;
use scene_model::Phase;
use std::test::Fail;
use word_map::Config;

/// Why it was refused. A batch that was prepared is left.
fn refusal(answer: Result<Prepared, PrepareRefused>) -> Option<PrepareRefused> {
    match answer {
        Err(refused) => Some(refused),
        Ok(batch) => {
            batch.leave();
            None
        }
    }
}

#[test]
fn no_batch_is_empty(rt: HostRuntime) -> Result<(), Fail> {
    let alloc = rt.alloc();
    let Some((world, mut pass, _second, _third)) = open_three(alloc, batch_sizes(1, 4)) else {
        panic!(rt; "no world")
    };
    let Some(PrepareRefused::Empty) = refusal(hold(&rt, alloc, &world, &mut pass, &[])) else {
        panic!(rt; "a batch of no bodies")
    };
    Ok(())
}

#[test]
fn a_body_that_is_gone_is_not_marked(rt: HostRuntime) -> Result<(), Fail> {
    let alloc = rt.alloc();
    let Some((world, mut pass, _second, _third)) = open_three(alloc, batch_sizes(1, 4)) else {
        panic!(rt; "no world")
    };
    let (a, b) = (BodyId::new(0, 1), BodyId::new(1, 1));
    assert!(rt; create_first(&rt, &world, &mut pass, 2));
    assert!(rt; destroy_body(&rt, &world, &mut pass, b).is_ok());
    let answer = hold(&rt, alloc, &world, &mut pass, &[a, b]);
    let Some(PrepareRefused::Gone { at, state }) = refusal(answer) else {
        panic!(rt; "it was marked")
    };
    assert!(rt; at == 1 && state == 1);
    Ok(())
}

#[test]
fn a_body_that_is_in_is_not_marked(rt: HostRuntime) -> Result<(), Fail> {
    let alloc = rt.alloc();
    let Some((world, mut pass, _second, _third)) = open_three(alloc, batch_sizes(2, 4)) else {
        panic!(rt; "no world")
    };
    let id = BodyId::new(0, 1);
    assert!(rt; create_body(&rt, &world, &mut pass, 7) == Ok(id));
    let Ok(batch) = hold(&rt, alloc, &world, &mut pass, &[id]) else {
        panic!(rt; "not prepared")
    };
    attach(&world, &mut pass, batch);
    let answer = hold(&rt, alloc, &world, &mut pass, &[id]);
    let Some(PrepareRefused::AlreadyIn { at, phase }) = refusal(answer) else {
        panic!(rt; "it was marked")
    };
    // The phase word says the first slot still.
    assert!(rt; at == 0 && phase == 2);
    Ok(())
}

#[test]
fn a_body_of_another_layer_is_not_marked(rt: HostRuntime) -> Result<(), Fail> {
    let alloc = rt.alloc();
    let two = Config {
        layers: 2,
        ..batch_sizes(1, 4)
    };
    let Some((world, mut pass, _second, _third)) = open_three(alloc, two) else {
        panic!(rt; "no world")
    };
    let id = BodyId::new(0, 1);
    assert!(rt; create_in_second(&rt, &world, &mut pass) == Ok(id));
    let answer = hold(&rt, alloc, &world, &mut pass, &[id]);
    let Some(PrepareRefused::WrongLayer { at, layer }) = refusal(answer) else {
        panic!(rt; "it was marked")
    };
    assert!(rt; at == 0 && layer == 1);
    Ok(())
}

#[test]
fn a_body_that_is_held_is_in_use(rt: HostRuntime) -> Result<(), Fail> {
    let alloc = rt.alloc();
    let Some((world, mut pass, mut other, _third)) = open_three(alloc, batch_sizes(1, 4)) else {
        panic!(rt; "no world")
    };
    let id = BodyId::new(0, 1);
    assert!(rt; create_body(&rt, &world, &mut pass, 7) == Ok(id));
    let Ok(batch) = hold(&rt, alloc, &world, &mut pass, &[id]) else {
        panic!(rt; "not prepared")
    };
    let early = destroy_body(&rt, &world, &mut other, id);
    drop_batch(&rt, &world, &mut pass, batch);
    let held = DestroyRefused::InUse { phase: Phase::Held };
    assert!(rt; early == Err(held));
    assert!(rt; destroy_body(&rt, &world, &mut pass, id).is_ok());
    Ok(())
}
