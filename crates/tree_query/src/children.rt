//! The children of a node in a walk that collects candidates: each one is read, and goes where it is to go.
ghost use Rattle.std.specs.Prelude.{◌≡◌, ◌≢◌, ℕ, ◌+◌, ◌*◌, ◌^◌, ◌<◌, ◌≤◌, List, true, length};
ghost use Rattle.word_map.specs.declared.name.Name.{Name as WordName};
ghost use Rattle.core_state.specs.Encoding.{body_child};
ghost use Rattle.pass_table.specs.Passes.{view_of, IsOf};
ghost use Rattle.tree_query.specs.Finding.{room_of};
ghost use Rattle.tree_query.specs.Collecting.{Trip, IsAtChild, OfSomeTrip, KeepsChild};

use crate::finder::Finder;
use crate::reading::read_bound;
use crate::walk_steps::load_child;
use arrayvec::ArrayVec;
use fixed_box::Shape;
use pass_table::{Pass, World};
use word_map::ChildWord;

/// The nodes that wait on the stack of a walk are no more than this.
pub(crate) const MOST_NODES: usize = 40;

/// A child whose bound touches the shape goes where it is to go: a body into the finder, with sequence number 0, a node onto
/// the stack.
#[inline(always)]
pub(crate) fn keep_child(
    word: u64,
    touches: bool,
    finder: &mut Finder,
    stack: &mut ArrayVec<u32, MOST_NODES>,
)
    requires some { word ≢ 0 }
    requires in_range { touches ≡ true → word ≤ 2 ^ 33 }
    requires room { (index : ℕ) → word ≡ body_child index → index < room_of finder.old }
    requires space { length stack.old.items < 40 }
    ensures { KeepsChild touches word stack.old.items stack.new.items finder.old finder.new }
{
    if !touches {
        return;
    }
    match ChildWord::from_word(word) {
        ChildWord::Empty => {}
        ChildWord::Body { index } => finder.put(index, 0),
        ChildWord::Node { node } => stack.push(node),
    }
}

/// Reads a child of a node that a walk is at: its word, and where there is one its bound.
#[inline(always)]
pub(crate) fn read_child(
    world: &World,
    pass: &mut Pass,
    shape: &Shape,
    finder: &mut Finder,
    stack: &mut ArrayVec<u32, MOST_NODES>,
    node: u32,
    child: u32,
)
    requires of { IsOf world.now pass.old }
    requires low { child < 4 }
    requires room { world.now.map.bodies ≤ room_of finder.old }
    requires at { OfSomeTrip (λ trip rest. IsAtChild trip rest shape.now finder.old stack.old.items (view_of pass.old) node child) }
    ensures of { IsOf world.now pass.new }
    ensures room { room_of finder.new ≡ room_of finder.old }
    ensures more { finder.old.loads < finder.new.loads }
    ensures on { (trip : Trip) (rest : List WordName) → IsAtChild trip rest shape.now finder.old stack.old.items (view_of pass.old) node child
        → IsAtChild trip rest shape.now finder.new stack.new.items (view_of pass.new) node (child + 1) }
{
    let word = load_child(world, pass, node, child);
    if word == 0 {
        finder.loads += 1;
        return;
    }
    let touches = read_bound(world, pass, shape, node, child);
    finder.loads += 7;
    keep_child(word, touches, finder, stack);
}
