//! Opening a world.
ghost use Rattle.std.specs.Prelude.{◌≡◌, ◌<◌, ◌+◌, ◌-◌, [], ◌∷◌, drop, IfOk, IfErr, IfSome, MatchOption};
ghost use Rattle.word_map.specs.Limits.{IsConfig};
ghost use Rattle.core_state.specs.View.{blank_view};
ghost use Rattle.core_state.specs.declared.view.Role.TheVariants.{Pass as PassRole};
ghost use Rattle.pass_table.specs.Opened.{IsFresh, AreAll, AreIdle, IsLast, IsFaultOf};
ghost use Rattle.pass_table.specs.Passes.{IsIdle};
ghost use Rattle.pass_table.specs.declared.world.World.{World};

use crate::lock_set::LockSet;
use crate::open_fault::OpenFault;
use crate::opening_words;
use crate::pass::Pass;
use crate::rule::Seat;
use crate::seats::Open;
use crate::world::World;
use atomic_table::Table;
use std::alloc::{AllocError, Global};
use word_map::{Config, Map, check};

/// The passes of a world that were not handed out yet, in the order of their numbers.
#[derive(Drop)]
pub struct PassList {
    passes: Vec<Pass>,
}

impl PassList {
    /// The passes that were not handed out yet, in the order of their numbers.
    pub fn items(&self) -> &[Pass]
        ensures { result.now ≡ self.now.passes.items }
    {
        self.passes.as_slice()
    }

    /// The pass with the lowest number that was not handed out, and `None` exactly where all were. Passes that were idle are so
    /// still.
    pub fn next(&mut self) -> Option<Pass>
        ensures idle { (world : World) → AreIdle world self.old.passes.items → IfSome result (IsIdle world) }
        ensures others { (world : World) → AreIdle world self.old.passes.items → AreIdle world self.new.passes.items }
        ensures rest { self.new.passes.items ≡ drop 1 self.old.passes.items }
        ensures first { MatchOption result ((self.old.passes.items ≡ []) × (self.new.passes.items ≡ [])) (λ pass. self.old.passes.items ≡ pass ∷ self.new.passes.items) }
    {
        if self.passes.is_empty() {
            return None;
        }
        Some(self.passes.remove(0))
    }
}

/// Opens a world of these sizes, with all its passes, numbered from 0, which know the empty log.
///
/// It is refused for the sizes exactly where `word_map::check` refuses them. Want of memory is possible in any world;
/// then nothing is left of it.
pub fn open_world(alloc: Global, config: Config) -> Result<(World, PassList), OpenFault>
    ensures sizes { IfOk result (λ opened. IsConfig config × (opened.0.map ≡ config)) }
    ensures bodies { IfOk result (λ opened. opened.0.map.bodies ≡ config.bodies) }
    ensures layers { IfOk result (λ opened. opened.0.map.layers ≡ config.layers) }
    ensures passes { IfOk result (λ opened. AreAll opened.0 opened.1.passes.items) }
    ensures idle { IfOk result (λ opened. AreIdle opened.0 opened.1.passes.items) }
    ensures fault { IfErr result (IsFaultOf config) }
{
    match check(config) {
        Ok(map) => match open_sized(alloc, map) {
            Ok(opened) => Ok(opened),
            Err(_) => Err(OpenFault::Memory),
        },
        Err(bad) => Err(OpenFault::BadConfig { field: bad.field }),
    }
}

fn open_sized(alloc: Global, map: Map) -> Result<(World, PassList), AllocError>
    ensures sizes { IfOk result (λ opened. opened.0.map ≡ map) }
    ensures passes { IfOk result (λ opened. AreAll opened.0 opened.1.passes.items) }
{
    let (world, seat) = open_table(alloc, map)?;
    let passes = open_passes(alloc, &world, seat)?;
    Ok((world, PassList { passes }))
}

/// The world with its table, and the seat of the pass that has all numbers.
fn open_table(alloc: Global, map: Map) -> Result<(World, Seat), AllocError>
    ensures sizes { IfOk result (λ opened. opened.0.map ≡ map) }
    ensures seat { IfOk result (λ opened. IsLast opened.0 0 opened.1) }
{
    let words = opening_words::opening_words(alloc, &map)?;
    let config = map.config();
    let (table, seat) = Table::of_words(alloc, words.as_slice(), &config)?;
    Ok((World { map, table }, seat))
}

/// Opens all passes, each from the one before it, which keeps its own number alone.
fn open_passes(alloc: Global, world: &World, seat: Seat) -> Result<Vec<Pass>, AllocError>
    requires { IsLast world.now 0 seat }
    ensures { IfOk result (λ list. AreAll world.now list.items) }
{
    let passes = world.config().passes;
    let mut list = Vec::with_capacity(alloc, passes as usize)?;
    let mut last = seat;
    for number in 0..passes - 1 {
        let (pass, next) = open_next(world, last, number);
        list.push(pass)?;
        last = next;
    }
    list.push(Pass::fresh(world, last, passes - 1))?;
    Ok(list)
}

/// The pass of this number, and the seat of the one that has all numbers after it.
fn open_next(world: &World, seat: Seat, number: u32) -> (Pass, Seat)
    requires last { IsLast world.now number seat }
    requires more { number + 1 < world.now.map.passes }
    ensures pass { IsFresh world.now number result.0 }
    ensures next { IsLast world.now (number + 1) result.1 }
{
    let mut seat = seat;
    let next = world.table.shared.split_seat::<Open>(&mut seat);
    (Pass::fresh(world, seat, number), next)
}

impl Pass {
    /// A pass that has made no step.
    fn fresh(world: &World, seat: Seat, number: u32) -> Pass
        requires below { number < world.now.map.passes }
        requires table { seat.table_id ≡ world.now.table.shared.table_id }
        requires view { seat.me.0 ≡ blank_view world.now.map (PassRole number 0) }
        ensures { IsFresh world.now number result }
    {
        Pass {
            seat,
            number,
            held: LockSet::none(),
            written: LockSet::none(),
            walks: false,
        }
    }
}
