//! Bodies in the broad phase that are moved a little, and taken out. A call is a body.
ghost use Rattle.std.specs.Prelude.{◌≡◌};
ghost use Rattle.pass_table.specs.Passes.{IsIdle};

use crate::table::Table;
use crate::town::{add_all, create_all, open, some_boxes};
use body_ident::BodyId;
use fixed_box::FixBox;
use pass_table::{Pass, World};
use remove_body::remove;
use std::alloc::AllocError;
use std::io;
use std::io::Print;
use std::sync::Wait;
use std::time::Clock;
use widen_bounds::move_body;

/// How many bodies there are.
const BODIES: u32 = 65_536;

/// How many come in one batch.
const BATCH: u32 = 2_048;

/// Moves each body a little way off its box. Answers how many were moved.
fn move_all<R: Wait>(rt: &R, world: &World, pass: &mut Pass, boxes: &[FixBox]) -> u32
    requires idle { IsIdle world.now pass.old }
    requires bodies { world.now.map.bodies ≡ 65536 }
    ensures idle { IsIdle world.now pass.new }
{
    let mut moved = 0u32;
    for index in 0..BODIES {
        let Some(bounds) = boxes.get(index as usize) else {
            return moved;
        };
        let Some(to) = bounds.shift([16, -16, 16]) else {
            return moved;
        };
        if move_body(rt, world, pass, BodyId::new(index, 1), to).is_ok() {
            moved = moved.wrapping_add(1);
        }
    }
    moved
}

/// Takes each body out of the broad phase. Answers how many were taken out.
fn remove_all<R: Wait>(rt: &R, world: &World, pass: &mut Pass) -> u32
    requires idle { IsIdle world.now pass.old }
    requires bodies { world.now.map.bodies ≡ 65536 }
    ensures idle { IsIdle world.now pass.new }
{
    let mut gone = 0u32;
    for index in 0..BODIES {
        if remove(rt, world, pass, BodyId::new(index, 1)).is_ok() {
            gone = gone.wrapping_add(1);
        }
    }
    gone
}

/// How many bodies a run moved and took out, and its nanoseconds.
#[derive(Clone, Copy)]
struct Moves {
    moved: u32,
    gone: u32,
    moving: u128,
    removing: u128,
}

/// One run in a new world, in which all bodies are in the broad phase; that is not timed.
fn measure<R: Clock + Print + Wait>(table: &Table<R>) -> io::Result<Moves> {
    let (rt, alloc) = (table.runtime(), table.alloc());
    let boxes = some_boxes(alloc, BODIES)?;
    let (world, mut pass) = open(alloc, BODIES).ok_or(AllocError)?;
    create_all(rt, &world, &mut pass, &boxes);
    add_all(rt, alloc, &world, &mut pass, BODIES, BATCH);
    let start = table.start()?;
    let moved = move_all(rt, &world, &mut pass, &boxes);
    let moving = table.since(start)?;
    let start = table.start()?;
    let gone = remove_all(rt, &world, &mut pass);
    let removing = table.since(start)?;
    Ok(Moves {
        moved,
        gone,
        moving,
        removing,
    })
}

/// Writes a row for moves, and one for removals.
pub(crate) fn run<R: Clock + Print + Wait>(table: &Table<R>) -> io::Result<()> {
    let mut least = measure(table)?;
    for _ in 1..table.runs() {
        let next = measure(table)?;
        least.moving = least.moving.min(next.moving);
        least.removing = least.removing.min(next.removing);
    }
    let moved = format!(in table.alloc(); "{} moved", least.moved)?;
    table.write(
        "body, move",
        moved.as_str(),
        least.moving,
        u64::from(BODIES),
    )?;
    let gone = format!(in table.alloc(); "{} taken out", least.gone)?;
    table.write(
        "body, remove",
        gone.as_str(),
        least.removing,
        u64::from(BODIES),
    )
}
