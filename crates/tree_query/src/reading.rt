//! Reading the bound of a child of a node in a walk that collects candidates: its six sides, and whether the shape touches them.
ghost use Rattle.std.specs.Prelude.{◌≡◌, ◌↔◌, IsTrue, ℕ, ◌+◌, ◌<◌, true, List, length};
ghost use Rattle.fixed_box.specs.declared.fix_box.FixBox.{FixBox};
ghost use Rattle.fixed_box.specs.FixBox.{words_of};
ghost use Rattle.fixed_box.specs.Touch.{Touch};
ghost use Rattle.word_map.specs.Names.{node_count};
ghost use Rattle.word_map.specs.declared.name.Name.{Name as WordName};
ghost use Rattle.core_state.specs.declared.view.Waiting.{Waiting};
ghost use Rattle.pass_table.specs.Passes.{view_of, IsOf};
ghost use Rattle.tree_query.specs.Collecting.{Trip, IsOnTrip, bound_place, HasReadBound};

use crate::walk_steps::load_side;
use fixed_box::{FixBox, Shape};
use pass_table::{Pass, World};
use shape_test::touch;

/// Whether six words are those of a box that the shape touches.
#[inline(always)]
pub(crate) fn is_touching(shape: &Shape, words: [u64; 6]) -> bool
    ensures { IsTrue result ↔ ((b : FixBox) × (words_of b ≡ words) × Touch shape.now b) }
{
    match FixBox::from_words(words) {
        Some(bounds) => touch(shape, &bounds),
        None => false,
    }
}

/// Reads the bound of a child, six loads, and tells whether the shape touches it.
#[inline(always)]
pub(crate) fn read_bound(
    world: &World,
    pass: &mut Pass,
    shape: &Shape,
    node: u32,
    child: u32,
) -> bool
    requires of { IsOf world.now pass.old }
    requires below { (node < node_count world.now.map) × (child < 4) }
    requires walks { (view_of pass.old).walk.is_on ≡ true }
    ensures of { IsOf world.now pass.new }
    ensures count { length (view_of pass.new).walk.loads ≡ length (view_of pass.old).walk.loads + 6 }
    ensures read { (trip : Trip) (rest : List WordName) (stack : List Waiting) (level x : ℕ) → trip.query.shape ≡ shape.now → IsOnTrip trip (view_of pass.old) (bound_place rest stack node level child x)
        → HasReadBound trip (view_of pass.old) (view_of pass.new) rest stack node level child x result }
{
    let x0 = load_side(world, pass, node, child, 0);
    let y0 = load_side(world, pass, node, child, 1);
    let z0 = load_side(world, pass, node, child, 2);
    let x1 = load_side(world, pass, node, child, 3);
    let y1 = load_side(world, pass, node, child, 4);
    let z1 = load_side(world, pass, node, child, 5);
    is_touching(shape, [x0, y0, z0, x1, y1, z1])
}
