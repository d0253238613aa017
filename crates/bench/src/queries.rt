//! Queries of bodies that came in batches: of the own boxes of 1,024 of them, and of all space.
ghost use Rattle.std.specs.Prelude.{◌<◌, ◌≤◌, IfOk};
ghost use Rattle.pass_table.specs.Passes.{IsIdle};
ghost use Rattle.tree_query.specs.Finding.{room_of};

use crate::table::Table;
use crate::town::{add_all, create_all, open, some_boxes};
use fixed_box::{FixBox, Shape};
use pass_table::{Pass, World, drive};
use std::alloc::{AllocError, Global};
use std::io;
use std::io::Print;
use std::sync::Wait;
use std::time::Clock;
use tree_query::{CollectOp, Finder, collect, query};

/// What queries of a run found.
#[derive(Clone, Copy)]
struct Asked {
    /// How many bodies they answered, or had as candidates.
    hits: u64,
    /// How many words their walks read.
    loads: u64,
}

impl Asked {
    const NOTHING: Asked = Asked { hits: 0, loads: 0 };

    /// What one more query found.
    fn with(self, finder: &Finder) -> Asked {
        let mut hits = self.hits;
        for _ in finder.ids() {
            hits = hits.wrapping_add(1);
        }
        Asked {
            hits,
            loads: self.loads.wrapping_add(finder.loads()),
        }
    }
}

/// Asks for each box, one after the other.
fn ask_all<R: Wait>(
    rt: &R,
    world: &World,
    pass: &mut Pass,
    finder: &mut Finder,
    boxes: &[FixBox],
) -> Asked
    requires idle { IsIdle world.now pass.old }
    requires room { world.now.map.bodies ≤ room_of finder.old }
    ensures idle { IsIdle world.now pass.new }
    ensures room { world.now.map.bodies ≤ room_of finder.new }
{
    let mut asked = Asked::NOTHING;
    for bounds in boxes {
        query(rt, world, pass, &Shape::Box(*bounds), 1, finder);
        asked = asked.with(finder);
    }
    asked
}

/// Collects the candidates of each box, one after the other.
fn collect_all(world: &World, pass: &mut Pass, finder: &mut Finder, boxes: &[FixBox]) -> Asked
    requires idle { IsIdle world.now pass.old }
    requires room { world.now.map.bodies ≤ room_of finder.old }
    ensures idle { IsIdle world.now pass.new }
    ensures room { world.now.map.bodies ≤ room_of finder.new }
{
    let mut asked = Asked::NOTHING;
    for bounds in boxes {
        collect(world, pass, &Shape::Box(*bounds), 1, finder);
        asked = asked.with(finder);
    }
    asked
}

/// Collects the candidates of a box turn by turn.
#[inline(always)]
fn collect_by_turns<R: Wait>(
    rt: &R,
    world: &World,
    pass: &mut Pass,
    finder: Finder,
    bounds: &FixBox,
) -> Finder
    requires idle { IsIdle world.now pass.old }
    requires room { world.now.map.bodies ≤ room_of finder }
    ensures idle { IsIdle world.now pass.new }
    ensures room { world.now.map.bodies ≤ room_of result }
{
    let mut collecting = CollectOp::new(world, pass, &Shape::Box(*bounds), 1, finder);
    drive(rt, world, pass, &mut collecting)
}

/// Collects the candidates of each box turn by turn, one after the other.
fn turn_all<R: Wait>(
    rt: &R,
    world: &World,
    pass: &mut Pass,
    finder: Finder,
    boxes: &[FixBox],
) -> (Asked, Finder)
    requires idle { IsIdle world.now pass.old }
    requires room { world.now.map.bodies ≤ room_of finder }
    ensures idle { IsIdle world.now pass.new }
    ensures room { world.now.map.bodies ≤ room_of result.1 }
{
    let mut finder = finder;
    let mut asked = Asked::NOTHING;
    for bounds in boxes {
        finder = collect_by_turns(rt, world, pass, finder, bounds);
        asked = asked.with(&finder);
    }
    (asked, finder)
}

/// A shape of queries, and how their rows are called.
#[derive(Clone, Copy)]
enum Of {
    /// The own boxes of the first bodies.
    OwnBoxes,
    /// All space.
    AllSpace,
}

impl Of {
    fn name(self) -> &'static str {
        match self {
            Of::OwnBoxes => "own box",
            Of::AllSpace => "all space",
        }
    }

    /// The boxes that are asked for, where the bodies have these.
    fn boxes(self, alloc: Global, bodies: &[FixBox]) -> Result<Vec<FixBox>, AllocError> {
        let mut boxes = Vec::new(alloc);
        match self {
            Of::OwnBoxes => {
                for bounds in bodies.iter().take(OWN_BOXES) {
                    boxes.push(*bounds)?;
                }
            }
            Of::AllSpace => {
                if let Some(space) = FixBox::from_words([1, 1, 1, ALL, ALL, ALL]) {
                    boxes.push(space)?;
                }
            }
        }
        Ok(boxes)
    }
}

/// Of how many bodies the own boxes are asked for.
const OWN_BOXES: usize = 1_024;

/// The word of the greatest coordinate.
const ALL: u64 = 16_777_216;

/// What one run found, and its nanoseconds.
#[derive(Clone, Copy)]
struct Figures {
    collected: Asked,
    by_turns: Asked,
    answered: Asked,
    collect: u128,
    turn: u128,
    query: u128,
}

impl Figures {
    /// The quicker one of two runs, part by part.
    fn least(self, other: Figures) -> Figures {
        Figures {
            collect: self.collect.min(other.collect),
            turn: self.turn.min(other.turn),
            query: self.query.min(other.query),
            ..other
        }
    }
}

/// One run: the candidates of all boxes are collected, in one call and by turns, and then all boxes are asked for.
fn measure<R: Clock + Print + Wait>(
    table: &Table<R>,
    world: &World,
    pass: &mut Pass,
    finder: Finder,
    boxes: &[FixBox],
) -> io::Result<(Figures, Finder)>
    requires idle { IsIdle world.now pass.old }
    requires room { world.now.map.bodies ≤ room_of finder }
    ensures idle { IsIdle world.now pass.new }
    ensures room { IfOk result (λ done. world.now.map.bodies ≤ room_of done.1) }
{
    let mut finder = finder;
    let start = table.start()?;
    let collected = collect_all(world, pass, &mut finder, boxes);
    let collect = table.since(start)?;
    let start = table.start()?;
    let (by_turns, mut finder) = turn_all(table.runtime(), world, pass, finder, boxes);
    let turn = table.since(start)?;
    let start = table.start()?;
    let answered = ask_all(table.runtime(), world, pass, &mut finder, boxes);
    let query = table.since(start)?;
    let figures = Figures {
        collected,
        by_turns,
        answered,
        collect,
        turn,
        query,
    };
    Ok((figures, finder))
}

/// Makes all runs of a table.
fn all_runs<R: Clock + Print + Wait>(
    table: &Table<R>,
    world: &World,
    pass: &mut Pass,
    finder: Finder,
    boxes: &[FixBox],
) -> io::Result<(Figures, Finder)>
    requires idle { IsIdle world.now pass.old }
    requires room { world.now.map.bodies ≤ room_of finder }
    ensures idle { IsIdle world.now pass.new }
    ensures room { IfOk result (λ done. world.now.map.bodies ≤ room_of done.1) }
{
    let (mut least, mut finder) = measure(table, world, pass, finder, boxes)?;
    for _ in 1..table.runs() {
        let (next, back) = measure(table, world, pass, finder, boxes)?;
        least = least.least(next);
        finder = back;
    }
    Ok((least, finder))
}

/// Writes the rows of walks: what a load took, in one call and by turns.
fn walk_rows<R: Clock + Print>(table: &Table<R>, figures: Figures, what: &str) -> io::Result<()> {
    let walks = [
        ("load", figures.collected, figures.collect),
        ("load by turns", figures.by_turns, figures.turn),
    ];
    for (kind, asked, nanos) in walks {
        let Asked { hits, loads } = asked;
        let found = format!(in table.alloc(); "{hits} candidates, {loads} loads")?;
        let name = format!(in table.alloc(); "{kind}, {what}")?;
        table.write(name.as_str(), found.as_str(), nanos, loads)?;
    }
    Ok(())
}

/// Writes the row of queries, and where they are of all space that of their checks: those of a box are too few to be told from
/// its walk.
fn query_rows<R: Clock + Print>(
    table: &Table<R>,
    of: Of,
    figures: Figures,
    queries: u64,
    what: &str,
) -> io::Result<()> {
    let found = format!(in table.alloc(); "{} answered", figures.answered.hits)?;
    let name = format!(in table.alloc(); "query, {what}")?;
    table.write(name.as_str(), found.as_str(), figures.query, queries)?;
    match of {
        Of::OwnBoxes => Ok(()),
        Of::AllSpace => check_row(table, figures, what),
    }
}

/// Writes what a query took beside its walk for each candidate.
fn check_row<R: Clock + Print>(table: &Table<R>, figures: Figures, what: &str) -> io::Result<()> {
    let candidates = figures.collected.hits;
    let checks = figures.query.saturating_sub(figures.collect);
    let found = format!(in table.alloc(); "{candidates} candidates")?;
    let name = format!(in table.alloc(); "check, {what}")?;
    table.write(name.as_str(), found.as_str(), checks, candidates)
}

/// Writes the rows of so many bodies that came in batches of so many.
fn town<R: Clock + Print + Wait>(table: &Table<R>, bodies: u32, batch: u32) -> io::Result<()>
    requires few { bodies ≤ 65536 }
    requires some { 0 < batch }
{
    let (rt, alloc) = (table.runtime(), table.alloc());
    let boxes = some_boxes(alloc, bodies)?;
    let (world, mut pass) = open(alloc, bodies).ok_or(AllocError)?;
    create_all(rt, &world, &mut pass, &boxes);
    let batches = add_all(rt, alloc, &world, &mut pass, bodies, batch);
    let mut finder = Finder::new(alloc, bodies)?;
    for of in [Of::OwnBoxes, Of::AllSpace] {
        let asked = of.boxes(alloc, &boxes)?;
        let what = format!(in alloc; "{} of {bodies} in {batches}", of.name())?;
        let (least, back) = all_runs(table, &world, &mut pass, finder, &asked)?;
        finder = back;
        walk_rows(table, least, what.as_str())?;
        query_rows(table, of, least, asked.len() as u64, what.as_str())?;
    }
    Ok(())
}

/// Writes the rows of 1,024 and of 16,384 bodies, in one batch and in 64.
pub(crate) fn run<R: Clock + Print + Wait>(table: &Table<R>) -> io::Result<()> {
    town(table, 1_024, 1_024)?;
    town(table, 1_024, 16)?;
    town(table, 16_384, 16_384)?;
    town(table, 16_384, 256)
}
