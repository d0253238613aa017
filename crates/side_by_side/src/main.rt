//! A shared world beside a plain scene: random calls by one pass, each made on both, and the answers compared.
//!
//! The calls and what they are made with come from a generator of a fixed seed, so each run makes the same. The ids are
//! partly those of live bodies and partly stale, and some batches have wrong ids on purpose, so each cause of a refusal
//! comes. How many calls of each kind were made, and how many of them were refused for which cause, is printed, and last
//! how often the two sides answered otherwise: another id, another refusal, another view or another list of hits.
//!
//! It shows, by a run, that the shared world does with one caller what the plain scene does. Nothing stands on it.
#![tactic(auto)]

mod answers;
mod batches;
mod bodies;
mod draws;
mod game;
mod kind;
mod plain;
mod play;
mod queries;
mod tally;

use game::Game;
use pass_table::open_world;
use plain::{BODIES, NODES, SLOTS};
use play::play;
use std::alloc::Global;
use std::io;
use std::io::Print;
use std::process::ExitCode;
use std::sync::Wait;
use tally::Tally;
use word_map::Config;

const SIZES: Config = Config {
    bodies: BODIES,
    stripes: 4,
    layers: 8,
    slots: SLOTS,
    nodes: NODES,
    passes: 1,
};

/// Opens the world and plays. `None` where there is not enough memory.
fn run<R: Wait>(rt: &R, alloc: Global) -> Option<Tally> {
    let Ok((world, mut passes)) = open_world(alloc, SIZES) else {
        return None;
    };
    let pass = passes.next()?;
    let mut game = Game::new(alloc)?;
    play(rt, alloc, &world, pass, &mut game).ok()?;
    Some(game.tally)
}

fn main(rt: HostRuntime) -> io::Result<ExitCode> {
    match run(&rt, rt.alloc()) {
        Some(tally) => {
            tally.write(&rt)?;
            if tally.agrees() {
                Ok(ExitCode::SUCCESS)
            } else {
                Ok(ExitCode::FAILURE)
            }
        }
        None => Ok(ExitCode::FAILURE),
    }
}
