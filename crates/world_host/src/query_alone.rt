//! Queries, made by the one pass of a world.
ghost use Rattle.std.specs.Prelude.{◌≡◌, ◌≤◌};
ghost use Rattle.pass_table.specs.Passes.{view_of};
ghost use Rattle.tree_query.specs.Finding.{room_of};
ghost use Rattle.world_host.specs.Alone.{IsLone};
ghost use Rattle.world_host.specs.Answers.{AnswersHits};

use fixed_box::Shape;
use pass_table::{Pass, World};
use std::sync::Wait;
use tree_query::{Finder, query};

/// Finds the bodies that are in the broad phase, in a layer of the mask, and touch the shape.
pub(crate) fn query_alone<R: Wait>(
    rt: &R,
    world: &World,
    pass: &mut Pass,
    shape: &Shape,
    mask: u8,
    finder: &mut Finder,
)
    requires lone { IsLone world.now pass.old }
    requires room { world.now.map.bodies ≤ room_of finder.old }
    ensures lone { IsLone world.now pass.new }
    ensures answers { AnswersHits shape.now mask (view_of pass.old) (view_of pass.new) finder.new }
    ensures room { room_of finder.new ≡ room_of finder.old }
{
    query(rt, world, pass, shape, mask, finder);
}
