//! The nodes of a tree in a walk that collects candidates, one after the other.
ghost use Rattle.std.specs.Prelude.{◌≡◌, ℕ, ◌<◌, ◌≤◌, List, []};
ghost use Rattle.word_map.specs.declared.name.Name.{Name as WordName};
ghost use Rattle.pass_table.specs.Passes.{view_of, IsOf};
ghost use Rattle.tree_query.specs.Finding.{room_of};
ghost use Rattle.tree_query.specs.Collecting.{Trip, IsCollecting, IsAtChild, IsAtNodes, OfSomeTrip, word_place};

use crate::children::{MOST_NODES, read_child};
use crate::finder::Finder;
use arrayvec::ArrayVec;
use fixed_box::Shape;
use pass_table::{Pass, World};

/// Reads the four children of a node, of which none was read yet.
#[inline(always)]
pub(crate) fn walk_node(
    world: &World,
    pass: &mut Pass,
    shape: &Shape,
    finder: &mut Finder,
    stack: &mut ArrayVec<u32, MOST_NODES>,
    node: u32,
)
    requires of { IsOf world.now pass.old }
    requires room { world.now.map.bodies ≤ room_of finder.old }
    requires at { OfSomeTrip (λ trip rest. IsAtChild trip rest shape.now finder.old stack.old.items (view_of pass.old) node 0) }
    ensures of { IsOf world.now pass.new }
    ensures room { room_of finder.new ≡ room_of finder.old }
    ensures more { finder.old.loads < finder.new.loads }
    ensures on { (trip : Trip) (rest : List WordName) → IsAtChild trip rest shape.now finder.old stack.old.items (view_of pass.old) node 0
        → IsAtNodes trip rest shape.now finder.new stack.new.items (view_of pass.new) }
{
    for child in 0..4 {
        read_child(world, pass, shape, finder, stack, node, child);
    }
}

/// Walks the nodes on the stack, the last one first, and those that it puts there meanwhile, until the stack is empty.
pub(crate) fn walk_tree(
    world: &World,
    pass: &mut Pass,
    shape: &Shape,
    finder: &mut Finder,
    stack: &mut ArrayVec<u32, MOST_NODES>,
)
    requires of { IsOf world.now pass.old }
    requires room { world.now.map.bodies ≤ room_of finder.old }
    requires at { OfSomeTrip (λ trip rest. IsAtNodes trip rest shape.now finder.old stack.old.items (view_of pass.old)) }
    ensures of { IsOf world.now pass.new }
    ensures room { room_of finder.new ≡ room_of finder.old }
    ensures empty { stack.new.items ≡ [] }
    ensures on { (trip : Trip) (rest : List WordName) → IsAtNodes trip rest shape.now finder.old stack.old.items (view_of pass.old)
        → IsCollecting trip shape.now finder.new (view_of pass.new) (word_place rest) }
{
    while let Some(node) = stack.pop() {
        walk_node(world, pass, shape, finder, stack, node);
    }
}
