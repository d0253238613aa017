//! A world that is full of bodies, in boxes by a generator of a fixed seed, and its one pass.
ghost use Rattle.std.specs.Prelude.{◌≡◌, ◌+◌, ◌^◌, ◌<◌, ◌≤◌, All, IfSome, IfOk, length};
ghost use Rattle.pass_table.specs.Passes.{IsIdle};

use crate::boxes::{a_box, generator};
use batch_add::{finalize, prepare};
use body_ident::BodyId;
use body_slots::create;
use fixed_box::FixBox;
use pass_table::{Pass, World, open_world};
use std::alloc::{AllocError, Global};
use std::sync::Wait;
use word_map::Config;

/// Boxes have sides of up to this part of the space.
const PARTS: u32 = 256;

/// Room for so many bodies in one layer, and for 64 batches.
fn sizes(bodies: u32) -> Config
    ensures { (result.bodies ≡ bodies) × (result.layers ≡ 1) }
{
    Config {
        bodies,
        stripes: 64,
        layers: 1,
        slots: 64,
        nodes: 65_536,
        passes: 1,
    }
}

/// A world with no bodies, and its pass. `None` is want of memory.
pub(crate) fn open(alloc: Global, bodies: u32) -> Option<(World, Pass)>
    ensures bodies { IfSome result (λ opened. opened.0.map.bodies ≡ bodies) }
    ensures layers { IfSome result (λ opened. opened.0.map.layers ≡ 1) }
    ensures idle { IfSome result (λ opened. IsIdle opened.0 opened.1) }
{
    let Ok((world, mut list)) = open_world(alloc, sizes(bodies)) else {
        return None;
    };
    let pass = list.next()?;
    Some((world, pass))
}

/// So many boxes, the same each time.
pub(crate) fn some_boxes(alloc: Global, count: u32) -> Result<Vec<FixBox>, AllocError> {
    let mut random = generator();
    let mut boxes = Vec::new(alloc);
    for _ in 0..count {
        if let Some(bounds) = a_box(&mut random, PARTS) {
            boxes.push(bounds)?;
        }
    }
    Ok(boxes)
}

/// Creates a body in each box. Answers how many there are.
pub(crate) fn create_all<R: Wait>(rt: &R, world: &World, pass: &mut Pass, boxes: &[FixBox]) -> u32
    requires idle { IsIdle world.now pass.old }
    requires layers { world.now.map.layers ≡ 1 }
    ensures idle { IsIdle world.now pass.new }
{
    let mut created = 0u32;
    for bounds in boxes {
        if create(rt, world, pass, 0, *bounds, created).is_ok() {
            created = created.wrapping_add(1);
        }
    }
    created
}

/// The ids of the first bodies at so many indexes, from one on.
pub(crate) fn ids_from(alloc: Global, first: u32, count: u32) -> Result<Vec<BodyId>, AllocError>
    requires { first + count ≤ 2 ^ 23 }
    ensures below { IfOk result (λ ids. All (λ id. id.index < first + count) ids.items) }
    ensures few { IfOk result (λ ids. length ids.items ≤ count) }
{
    let mut ids = Vec::new(alloc);
    for index in first..first + count {
        let id = BodyId::new(index, 1);
        ids.push(id)?;
    }
    Ok(ids)
}

/// Brings the bodies at so many indexes from one on into the broad phase, as one batch. It answers whether it did: not where
/// there are too few bodies.
fn add<R: Wait>(
    rt: &R,
    alloc: Global,
    world: &World,
    pass: &mut Pass,
    first: u32,
    count: u32,
) -> bool
    requires idle { IsIdle world.now pass.old }
    requires layers { world.now.map.layers ≡ 1 }
    ensures idle { IsIdle world.now pass.new }
{
    let bodies = world.config().bodies;
    if count > bodies || first > bodies - count {
        return false;
    }
    let Ok(ids) = ids_from(alloc, first, count) else {
        return false;
    };
    match prepare(rt, alloc, world, pass, 0, &ids) {
        Ok(batch) => {
            finalize(world, pass, batch);
            true
        }
        Err(_) => false,
    }
}

/// Brings all of so many bodies in, in batches of so many. It answers how many batches there are.
pub(crate) fn add_all<R: Wait>(
    rt: &R,
    alloc: Global,
    world: &World,
    pass: &mut Pass,
    bodies: u32,
    batch: u32,
) -> u32
    requires idle { IsIdle world.now pass.old }
    requires layers { world.now.map.layers ≡ 1 }
    requires some { 0 < batch }
    ensures idle { IsIdle world.now pass.new }
{
    let mut added = 0u32;
    for first in (0..bodies).step_by(batch as usize) {
        added = added.wrapping_add(u32::from(add(rt, alloc, world, pass, first, batch)));
    }
    added
}
