//! What a streaming thread does with a world, in small: docs/CALLING.md walks through it.
//!
//! Four threads share a world. Two create bodies, read them under their locks and destroy them again. Two stream: each
//! prepares batches, two at once, makes other calls in between, attaches some batches and gives others up. What they did is
//! printed; no schedule changes it.
//!
//! A call that is refused is counted and told, and the bodies that were created for it are destroyed; the threads go on. Where
//! one was refused, which only want of memory brings about, the program fails.
//!
//! It shows that the contracts of the calls chain: what a call leaves is what the next one asks. Proved beside it is what its
//! two loops keep, and nothing else by hand. Nothing stands on it.
#![tactic(auto)]

ghost use Rattle.std.specs.Prelude.{IfSome};
ghost use Rattle.pass_table.specs.Opened.{AreIdle};
ghost use Rattle.pass_table.specs.Passes.{IsIdle};

mod bodies;
mod lives;
mod stream;
mod tally;
mod threads;

use pass_table::{Pass, PassList, World, open_world};
use std::alloc::Global;
use std::io;
use std::io::Print;
use std::process::ExitCode;
use std::sync::Wait;
use std::thread::Threads;
use tally::Tally;
use threads::share;
use word_map::Config;

/// Room for all that the threads do: a layer for each that streams, and a slot for each batch that stays.
const SIZES: Config = Config {
    bodies: 1024,
    stripes: 16,
    layers: 2,
    slots: 64,
    nodes: 256,
    passes: 4,
};

/// The next pass of the world, which is idle.
fn next_pass(world: &World, passes: &mut PassList) -> Option<Pass>
    requires idle { AreIdle world.now passes.old.passes.items }
    ensures idle { IfSome result (IsIdle world.now) }
    ensures others { AreIdle world.now passes.new.passes.items }
{
    passes.next()
}

/// Opens the world and runs the threads. `None` where there is not enough memory.
fn run<R: Threads + Wait + Sync>(rt: &R, alloc: Global) -> Option<Tally> {
    let Ok((world, mut passes)) = open_world(alloc, SIZES) else {
        return None;
    };
    let first = next_pass(&world, &mut passes)?;
    let second = next_pass(&world, &mut passes)?;
    let third = next_pass(&world, &mut passes)?;
    let fourth = next_pass(&world, &mut passes)?;
    Some(share(rt, alloc, &world, first, second, third, fourth))
}

/// Tells what the threads did, and whether each call was answered.
fn tell(rt: &HostRuntime, tally: Tally) -> io::Result<ExitCode> {
    println!(rt;
        "created {}, read {}, destroyed {}",
        tally.created, tally.read, tally.destroyed
    )?;
    println!(rt; "attached {}, given up {}", tally.attached, tally.given_up)?;
    if tally.refused == 0 {
        return Ok(ExitCode::SUCCESS);
    }
    eprintln!(rt; "client: refused {}", tally.refused)?;
    Ok(ExitCode::FAILURE)
}

fn main(rt: HostRuntime) -> io::Result<ExitCode> {
    match run(&rt, rt.alloc()) {
        Some(tally) => tell(&rt, tally),
        None => {
            eprintln!(rt; "client: there is not enough memory for a world")?;
            Ok(ExitCode::FAILURE)
        }
    }
}
