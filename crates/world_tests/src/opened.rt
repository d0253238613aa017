//! Small worlds that were just opened, for tests.
ghost use Rattle.std.specs.Prelude.{◌≡◌, IfSome};
ghost use Rattle.pass_table.specs.Passes.{IsIdle};

use pass_table::{Pass, World, open_world};
use std::alloc::Global;
use word_map::Config;

/// The sizes of a world of one layer, for three passes.
pub(crate) fn sizes(bodies: u32, stripes: u32) -> Config
    ensures { (result.bodies ≡ bodies) × (result.stripes ≡ stripes) × (result.layers ≡ 1) × (result.passes ≡ 3) }
{
    Config {
        bodies,
        stripes,
        layers: 1,
        slots: 1,
        nodes: 4,
        passes: 3,
    }
}

/// The sizes of a world of one layer, for two passes.
pub(crate) fn pair_sizes(bodies: u32, stripes: u32, slots: u32, nodes: u32) -> Config
    ensures { (result.bodies ≡ bodies) × (result.layers ≡ 1) × (result.slots ≡ slots) }
{
    Config {
        bodies,
        stripes,
        layers: 1,
        slots,
        nodes,
        passes: 2,
    }
}

/// A world of these sizes and its first two passes, of which none has done anything.
pub(crate) fn open_two(alloc: Global, config: Config) -> Option<(World, Pass, Pass)>
    ensures sizes { IfSome result (λ opened. opened.0.map ≡ config) }
    ensures first { IfSome result (λ opened. IsIdle opened.0 opened.1) }
    ensures second { IfSome result (λ opened. IsIdle opened.0 opened.2) }
{
    let Ok((world, mut list)) = open_world(alloc, config) else {
        return None;
    };
    let first = list.next()?;
    let second = list.next()?;
    Some((world, first, second))
}

/// A world of these sizes and its first three passes, of which none has done anything.
pub(crate) fn open_three(alloc: Global, config: Config) -> Option<(World, Pass, Pass, Pass)>
    ensures sizes { IfSome result (λ opened. opened.0.map ≡ config) }
    ensures first { IfSome result (λ opened. IsIdle opened.0 opened.1) }
    ensures second { IfSome result (λ opened. IsIdle opened.0 opened.2) }
    ensures third { IfSome result (λ opened. IsIdle opened.0 opened.3) }
{
    let Ok((world, mut list)) = open_world(alloc, config) else {
        return None;
    };
    let first = list.next()?;
    let second = list.next()?;
    let third = list.next()?;
    Some((world, first, second, third))
}
