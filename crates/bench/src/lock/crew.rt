//! A world full of bodies, and the passes of four threads.
ghost use Rattle.std.specs.Prelude.{◌≡◌};
ghost use Rattle.pass_table.specs.Passes.{IsIdle};

use super::work::{BODIES, Found, rounds};
use body_slots::create;
use fixed_box::FixBox;
use pass_table::{Pass, World, open_world};
use std::alloc::Global;
use std::sync::Wait;
use std::thread::{Threads, join};
use word_map::Config;

const SIZES: Config = Config {
    bodies: BODIES,
    stripes: 64,
    layers: 1,
    slots: 1,
    nodes: 4,
    passes: 4,
};

/// A quarter of the bodies: so far apart the four threads begin.
const QUARTER: u32 = 16_384;

/// A world, and the passes of four threads.
#[derive(Drop)]
pub(crate) struct Crew {
    world: World,
    first: Pass,
    second: Pass,
    third: Pass,
    fourth: Pass,
    ghost sizes: { world.map.bodies ≡ 65536 },
    ghost one: { IsIdle world first },
    ghost two: { IsIdle world second },
    ghost three: { IsIdle world third },
    ghost four: { IsIdle world fourth },
}

/// The rounds of two threads at once, and their passes.
fn two<R: Threads + Wait + Sync>(
    rt: &R,
    world: &World,
    one: Pass,
    other: Pass,
    begin: u32,
) -> (Found, Pass, Pass)
    requires one { IsIdle world.now one }
    requires other { IsIdle world.now other }
    requires bodies { world.now.map.bodies ≡ 65536 }
    ensures one { IsIdle world.now result.1 }
    ensures other { IsIdle world.now result.2 }
{
    let ((found, one), (more, other)) = join(
        rt,
        || rounds(rt, world, one, begin),
        || rounds(rt, world, other, begin.wrapping_add(QUARTER)),
    );
    (found.and(more), one, other)
}

/// The rounds of four threads at once, and their passes.
fn four<R: Threads + Wait + Sync>(
    rt: &R,
    world: &World,
    first: Pass,
    second: Pass,
    third: Pass,
    fourth: Pass,
) -> (Found, (Pass, Pass), (Pass, Pass))
    requires first { IsIdle world.now first }
    requires second { IsIdle world.now second }
    requires third { IsIdle world.now third }
    requires fourth { IsIdle world.now fourth }
    requires bodies { world.now.map.bodies ≡ 65536 }
    ensures first { IsIdle world.now result.1.0 }
    ensures second { IsIdle world.now result.1.1 }
    ensures third { IsIdle world.now result.2.0 }
    ensures fourth { IsIdle world.now result.2.1 }
{
    let ((found, first, second), (more, third, fourth)) = join(
        rt,
        ||
            requires one { IsIdle world.now first }
            requires other { IsIdle world.now second }
            requires bodies { world.now.map.bodies ≡ 65536 }
            ensures one { IsIdle world.exit.now result.1 }
            ensures other { IsIdle world.exit.now result.2 }
        { two(rt, world, first, second, 0) },
        ||
            requires one { IsIdle world.now third }
            requires other { IsIdle world.now fourth }
            requires bodies { world.now.map.bodies ≡ 65536 }
            ensures one { IsIdle world.exit.now result.1 }
            ensures other { IsIdle world.exit.now result.2 }
        { two(rt, world, third, fourth, QUARTER * 2) },
    );
    (found.and(more), (first, second), (third, fourth))
}

impl Crew {
    /// A world with no bodies. `None` is want of memory.
    fn empty(alloc: Global) -> Option<Crew> {
        let Ok((world, mut list)) = open_world(alloc, SIZES) else {
            return None;
        };
        let (first, second) = (list.next()?, list.next()?);
        let (third, fourth) = (list.next()?, list.next()?);
        Some(Crew {
            world,
            first,
            second,
            third,
            fourth,
        })
    }

    /// A world full of bodies. `None` is want of memory.
    pub(crate) fn open<R: Wait>(rt: &R, alloc: Global) -> Option<Crew> {
        let Crew {
            world,
            first,
            second,
            third,
            fourth,
        } = Crew::empty(alloc)?;
        let mut first = first;
        let bounds = FixBox::from_words([8_388_609; 6])?;
        for user in 0..BODIES {
            create(rt, &world, &mut first, 0, bounds, user).ok()?;
        }
        Some(Crew {
            world,
            first,
            second,
            third,
            fourth,
        })
    }

    /// A run on one thread.
    pub(crate) fn one<R: Wait>(self, rt: &R) -> (Found, Crew) {
        let Crew {
            world,
            first,
            second,
            third,
            fourth,
        } = self;
        let (found, first) = rounds(rt, &world, first, 0);
        let crew = Crew {
            world,
            first,
            second,
            third,
            fourth,
        };
        (found, crew)
    }

    /// A run on four threads at once, each over all bodies, and each from another one on.
    pub(crate) fn four<R: Threads + Wait + Sync>(self, rt: &R) -> (Found, Crew) {
        let Crew {
            world,
            first,
            second,
            third,
            fourth,
        } = self;
        let (found, (first, second), (third, fourth)) = four(
            rt, &world, first, second, third, fourth,
        );
        let crew = Crew {
            world,
            first,
            second,
            third,
            fourth,
        };
        (found, crew)
    }
}
