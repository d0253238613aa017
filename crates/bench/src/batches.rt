//! Batches that are prepared, attached and given up. A call is a body.
ghost use Rattle.std.specs.Prelude.{◌≡◌};
ghost use Rattle.core_state.specs.declared.view.View.{View};
ghost use Rattle.pass_table.specs.Passes.{view_of, IsIdle};
ghost use Rattle.batch_add.specs.Prepared.{IsGood};
ghost use Rattle.batch_add.specs.PreparedLists.{AreGood, IsBeside};

mod preparing;
mod spending;

use crate::table::Table;
use crate::town::{create_all, ids_from, open, some_boxes};
use batch_add::{Prepared, PreparedList};
use fixed_box::FixBox;
use pass_table::{Pass, World};
use preparing::Preparing;
use spending::Spending;
use std::alloc::{AllocError, Global};
use std::io;
use std::io::Print;
use std::sync::Wait;
use std::time::Clock;

/// How many bodies there are.
const BODIES: u32 = 65_536;

/// How many come in one batch.
const BATCH: u32 = 2_048;

/// Puts a batch into the list. Where there is not enough memory for that it stays with its pass, and the answer is `false`.
fn keep(list: &mut PreparedList, batch: Prepared) -> bool
    ensures good { (view : View) → AreGood list.old view → IsGood batch view → IsBeside batch list.old → AreGood list.new view }
{
    match list.push(batch) {
        Ok(()) => true,
        Err(back) => {
            back.leave();
            false
        }
    }
}

/// Prepares one batch, of the bodies from this index on, and puts it into the list. It answers whether it did.
fn prepare_one<R: Wait>(
    rt: &R,
    alloc: Global,
    world: &World,
    pass: &mut Pass,
    list: &mut PreparedList,
    preparing: Preparing,
    first: u32,
) -> bool
    requires idle { IsIdle world.now pass.old }
    requires bodies { world.now.map.bodies ≡ 65536 }
    requires layers { world.now.map.layers ≡ 1 }
    requires good { AreGood list.old (view_of pass.old) }
    ensures idle { IsIdle world.now pass.new }
    ensures good { AreGood list.new (view_of pass.new) }
{
    if first > BODIES - BATCH {
        return false;
    }
    let Ok(ids) = ids_from(alloc, first, BATCH) else {
        return false;
    };
    match preparing.prepare(rt, alloc, world, pass, &ids) {
        Ok(batch) => keep(list, batch),
        Err(_) => false,
    }
}

/// Prepares all bodies, batch by batch. It answers how many batches hold them.
fn prepare_all<R: Wait>(
    rt: &R,
    alloc: Global,
    world: &World,
    pass: &mut Pass,
    list: &mut PreparedList,
    preparing: Preparing,
) -> u32
    requires idle { IsIdle world.now pass.old }
    requires bodies { world.now.map.bodies ≡ 65536 }
    requires layers { world.now.map.layers ≡ 1 }
    requires good { AreGood list.old (view_of pass.old) }
    ensures idle { IsIdle world.now pass.new }
    ensures good { AreGood list.new (view_of pass.new) }
{
    let mut held = 0u32;
    for first in (0..BODIES).step_by(BATCH as usize) {
        let is_held = prepare_one(rt, alloc, world, pass, list, preparing, first);
        held = held.wrapping_add(u32::from(is_held));
    }
    held
}

/// What a run did with all bodies, and its nanoseconds.
#[derive(Clone, Copy)]
struct Stream {
    held: u32,
    prepare: u128,
    spend: u128,
}

/// One run in a new world: all bodies are created, which is not timed, and prepared in batches, which are attached or given
/// up.
fn measure<R: Clock + Print + Wait>(
    table: &Table<R>,
    boxes: &[FixBox],
    preparing: Preparing,
    spending: Spending,
) -> io::Result<Stream> {
    let (rt, alloc) = (table.runtime(), table.alloc());
    let (world, mut pass) = open(alloc, BODIES).ok_or(AllocError)?;
    create_all(rt, &world, &mut pass, boxes);
    let mut list = PreparedList::new(alloc);
    let start = table.start()?;
    let held = prepare_all(rt, alloc, &world, &mut pass, &mut list, preparing);
    let prepare = table.since(start)?;
    let start = table.start()?;
    spending.spend_all(rt, &world, &mut pass, &mut list);
    let spend = table.since(start)?;
    Ok(Stream {
        held,
        prepare,
        spend,
    })
}

/// The quickest of all runs.
fn quickest<R: Clock + Print + Wait>(
    table: &Table<R>,
    boxes: &[FixBox],
    preparing: Preparing,
    spending: Spending,
) -> io::Result<Stream> {
    let mut least = measure(table, boxes, preparing, spending)?;
    for _ in 1..table.runs() {
        let next = measure(table, boxes, preparing, spending)?;
        least.prepare = least.prepare.min(next.prepare);
        least.spend = least.spend.min(next.spend);
    }
    Ok(least)
}

/// Writes a row of calls on all bodies.
fn write<R: Clock + Print + Wait>(
    table: &Table<R>,
    what: &str,
    held: u32,
    nanos: u128,
) -> io::Result<()> {
    let found = format!(in table.alloc(); "{held} batches")?;
    table.write(what, found.as_str(), nanos, u64::from(BODIES))
}

/// Writes rows for preparing batches, attaching them, and giving them up, in one call and by turns.
pub(crate) fn run<R: Clock + Print + Wait>(table: &Table<R>) -> io::Result<()> {
    let boxes = some_boxes(table.alloc(), BODIES)?;
    let attached = quickest(table, &boxes, Preparing::Call, Spending::Attach)?;
    write(table, "batch, prepare", attached.held, attached.prepare)?;
    write(table, "batch, finalize", attached.held, attached.spend)?;
    let aborted = quickest(table, &boxes, Preparing::Call, Spending::Abort)?;
    write(table, "batch, abort", aborted.held, aborted.spend)?;
    let by_turns = quickest(table, &boxes, Preparing::Turns, Spending::AbortByTurns)?;
    write(
        table,
        "batch, prepare by turns",
        by_turns.held,
        by_turns.prepare,
    )?;
    write(
        table,
        "batch, abort by turns",
        by_turns.held,
        by_turns.spend,
    )
}
