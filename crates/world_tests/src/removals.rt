//! Bodies that are taken out of the broad phase, in one call and by turns.
ghost use Rattle.std.specs.Prelude.{◌≡◌, ◌<◌};
ghost use Rattle.pass_table.specs.Passes.{IsIdle};

use crate::bodies::{create_body, create_first, destroy_body};
use crate::held_batches::{attach, batch_sizes, drop_batch, hold};
use crate::opened::open_three;
use body_ident::BodyId;
use pass_table::{Pass, World};
use remove_body::{RemoveRefused, remove};
use std::sync::Wait;
use std::test::Fail;

/// Takes a body out of the broad phase.
fn take_out<R: Wait>(
    rt: &R,
    world: &World,
    pass: &mut Pass,
    id: BodyId,
) -> Result<(), RemoveRefused>
    requires idle { IsIdle world.now pass.old }
    requires below { id.index < world.now.map.bodies }
    ensures idle { IsIdle world.now pass.new }
{
    remove(rt, world, pass, id)
}

#[test]
fn a_body_leaves_the_broad_phase_once(rt: HostRuntime) -> Result<(), Fail> {
    let alloc = rt.alloc();
    let Some((world, mut pass, _second, _third)) = open_three(alloc, batch_sizes(1, 4)) else {
        panic!(rt; "no world")
    };
    let id = BodyId::new(0, 1);
    assert!(rt; create_body(&rt, &world, &mut pass, 7) == Ok(id));
    assert!(rt; take_out(&rt, &world, &mut pass, id) == Err(RemoveRefused::NotIn { phase: 0 }));
    let Ok(batch) = hold(&rt, alloc, &world, &mut pass, &[id]) else {
        panic!(rt; "not prepared")
    };
    attach(&world, &mut pass, batch);
    assert!(rt; destroy_body(&rt, &world, &mut pass, id).is_err());
    assert!(rt; take_out(&rt, &world, &mut pass, id) == Ok(()));
    assert!(rt; take_out(&rt, &world, &mut pass, id) == Err(RemoveRefused::NotIn { phase: 0 }));
    assert!(rt; destroy_body(&rt, &world, &mut pass, id).is_ok());
    assert!(rt; take_out(&rt, &world, &mut pass, id) == Err(RemoveRefused::Gone { state: 1 }));
    Ok(())
}

#[test]
fn a_body_that_is_held_is_not_taken_out(rt: HostRuntime) -> Result<(), Fail> {
    let alloc = rt.alloc();
    let Some((world, mut pass, mut other, _third)) = open_three(alloc, batch_sizes(1, 4)) else {
        panic!(rt; "no world")
    };
    let (a, b) = (BodyId::new(0, 1), BodyId::new(1, 1));
    assert!(rt; create_first(&rt, &world, &mut pass, 2));
    let Ok(batch) = hold(&rt, alloc, &world, &mut pass, &[a, b]) else {
        panic!(rt; "not prepared")
    };
    // The word of the slot is one more than the number of the pass that reserved it.
    let early = take_out(&rt, &world, &mut other, b);
    drop_batch(&rt, &world, &mut pass, batch);
    assert!(rt; early == Err(RemoveRefused::Held { slot: 1 }));
    assert!(rt; take_out(&rt, &world, &mut other, b) == Err(RemoveRefused::NotIn { phase: 0 }));
    Ok(())
}
