//! Bodies that are created and destroyed, in one call and by turns. A call is a body.
ghost use Rattle.std.specs.Prelude.{◌≡◌, ◌<◌};
ghost use Rattle.pass_table.specs.Passes.{IsIdle};

use crate::table::Table;
use crate::town::{create_all, open, some_boxes};
use body_ident::BodyId;
use body_slots::{CreateOp, DestroyOp, destroy};
use fixed_box::FixBox;
use pass_table::{Pass, World, drive};
use std::alloc::AllocError;
use std::io;
use std::io::Print;
use std::sync::Wait;
use std::time::Clock;

/// How many bodies there are.
const BODIES: u32 = 65_536;

/// Destroys the first body at each index. Answers how many were destroyed.
fn destroy_all<R: Wait>(rt: &R, world: &World, pass: &mut Pass) -> u32
    requires idle { IsIdle world.now pass.old }
    requires bodies { world.now.map.bodies ≡ 65536 }
    ensures idle { IsIdle world.now pass.new }
{
    let mut gone = 0u32;
    for index in 0..BODIES {
        if destroy(rt, world, pass, BodyId::new(index, 1)).is_ok() {
            gone = gone.wrapping_add(1);
        }
    }
    gone
}

/// Creates a body by turns. Answers whether it did.
fn create_by_turns<R: Wait>(
    rt: &R,
    world: &World,
    pass: &mut Pass,
    bounds: FixBox,
    user: u32,
) -> bool
    requires idle { IsIdle world.now pass.old }
    requires layers { world.now.map.layers ≡ 1 }
    ensures idle { IsIdle world.now pass.new }
{
    let mut creating = CreateOp::new(world, pass, 0, bounds, user);
    drive(rt, world, pass, &mut creating).is_ok()
}

/// Creates a body in each box, by turns. Answers how many there are.
fn create_all_by_turns<R: Wait>(rt: &R, world: &World, pass: &mut Pass, boxes: &[FixBox]) -> u32
    requires idle { IsIdle world.now pass.old }
    requires layers { world.now.map.layers ≡ 1 }
    ensures idle { IsIdle world.now pass.new }
{
    let mut created = 0u32;
    for bounds in boxes {
        if create_by_turns(rt, world, pass, *bounds, created) {
            created = created.wrapping_add(1);
        }
    }
    created
}

/// Destroys the body of an id, by turns. Answers whether it did.
fn destroy_by_turns<R: Wait>(rt: &R, world: &World, pass: &mut Pass, id: BodyId) -> bool
    requires idle { IsIdle world.now pass.old }
    requires below { id.index < world.now.map.bodies }
    ensures idle { IsIdle world.now pass.new }
{
    let mut destroying = DestroyOp::new(world, pass, id);
    drive(rt, world, pass, &mut destroying).is_ok()
}

/// Destroys the first body at each index, by turns. Answers how many were destroyed.
fn destroy_all_by_turns<R: Wait>(rt: &R, world: &World, pass: &mut Pass) -> u32
    requires idle { IsIdle world.now pass.old }
    requires bodies { world.now.map.bodies ≡ 65536 }
    ensures idle { IsIdle world.now pass.new }
{
    let mut gone = 0u32;
    for index in 0..BODIES {
        if destroy_by_turns(rt, world, pass, BodyId::new(index, 1)) {
            gone = gone.wrapping_add(1);
        }
    }
    gone
}

/// How the bodies of a run are created and destroyed.
#[derive(Clone, Copy, PartialEq)]
enum Way {
    /// In one call each.
    Calls,
    /// By turns, which `drive` makes one after the other.
    Turns,
}

/// How many bodies a run created and destroyed, and its nanoseconds.
#[derive(Clone, Copy)]
struct Lives {
    created: u32,
    gone: u32,
    create: u128,
    destroy: u128,
}

/// One run in a new world: all bodies are created, and then destroyed.
fn measure<R: Clock + Print + Wait>(table: &Table<R>, way: Way) -> io::Result<Lives> {
    let rt = table.runtime();
    let boxes = some_boxes(table.alloc(), BODIES)?;
    let (world, mut pass) = open(table.alloc(), BODIES).ok_or(AllocError)?;
    let start = table.start()?;
    let created = match way {
        Way::Calls => create_all(rt, &world, &mut pass, &boxes),
        Way::Turns => create_all_by_turns(rt, &world, &mut pass, &boxes),
    };
    let create = table.since(start)?;
    let start = table.start()?;
    let gone = match way {
        Way::Calls => destroy_all(rt, &world, &mut pass),
        Way::Turns => destroy_all_by_turns(rt, &world, &mut pass),
    };
    let destroy = table.since(start)?;
    Ok(Lives {
        created,
        gone,
        create,
        destroy,
    })
}

/// Writes a row for creating bodies so, and one for destroying them.
fn rows<R: Clock + Print + Wait>(
    table: &Table<R>,
    way: Way,
    create: &str,
    destroy: &str,
) -> io::Result<()> {
    let mut lives = measure(table, way)?;
    for _ in 1..table.runs() {
        let next = measure(table, way)?;
        lives.create = lives.create.min(next.create);
        lives.destroy = lives.destroy.min(next.destroy);
    }
    let created = format!(in table.alloc(); "{} created", lives.created)?;
    table.write(create, created.as_str(), lives.create, u64::from(BODIES))?;
    let gone = format!(in table.alloc(); "{} destroyed", lives.gone)?;
    table.write(destroy, gone.as_str(), lives.destroy, u64::from(BODIES))
}

/// Writes rows for creating and destroying bodies in one call, and by turns.
pub(crate) fn run<R: Clock + Print + Wait>(table: &Table<R>) -> io::Result<()> {
    rows(table, Way::Calls, "body, create", "body, destroy")?;
    rows(
        table,
        Way::Turns,
        "body, create by turns",
        "body, destroy by turns",
    )
}
