//! A whole walk that collects candidates: all words of the asked layers, and the tree behind each one at once.
ghost use Rattle.std.specs.Prelude.{◌≡◌, ℕ, ◌+◌, ◌^◌, ◌<◌, ◌≤◌, List, [], ◌∷◌, ◌++◌, false};
ghost use Rattle.word_map.specs.declared.name.Name.{Name as WordName};
ghost use Rattle.word_map.specs.declared.name.Name.TheVariants.{Main, Slot};
ghost use Rattle.core_state.specs.Walking.{roots_in, next_node, words_of_layer, asked_words};
ghost use Rattle.pass_table.specs.Passes.{view_of, IsOf};
ghost use Rattle.tree_query.specs.Finding.{room_of};
ghost use Rattle.tree_query.specs.Collecting.{Trip, IsCollecting, OfSomeTrip, word_place, roots_of, words_asked};
ghost use Rattle.tree_query.specs.Answers.{HasCollected};

use crate::checking::is_asked;
use crate::children::MOST_NODES;
use crate::finder::Finder;
use crate::nodes::walk_tree;
use crate::walk_steps::{begin, end, load_main, load_slot};
use arrayvec::ArrayVec;
use fixed_box::Shape;
use pass_table::{Pass, World};
use word_map::SlotWord;

/// The root that a slot names, where it names one.
#[inline(always)]
fn root_in_slot(word: u64) -> Option<u32>
    requires in_range { word < 1024 + 2 ^ 32 }
    ensures { (layer slot : ℕ) → roots_in (Slot layer slot) word ≡ roots_of result }
{
    match SlotWord::from_word(word) {
        SlotWord::Empty => None,
        SlotWord::Reserved { .. } => None,
        SlotWord::Tree { root } => Some(root),
    }
}

/// The root that a main word names, where it names one.
#[inline(always)]
fn root_in_main(word: u64) -> Option<u32>
    requires in_range { word ≤ 2 ^ 32 }
    ensures { (layer : ℕ) → roots_in (Main layer) word ≡ roots_of result }
{
    if word == 0 {
        None
    } else {
        Some((word - 1) as u32)
    }
}

/// Walks the tree of a root, where there is one.
#[inline(always)]
fn walk_root(
    world: &World,
    pass: &mut Pass,
    shape: &Shape,
    finder: &mut Finder,
    stack: &mut ArrayVec<u32, MOST_NODES>,
    root: Option<u32>,
)
    requires of { IsOf world.now pass.old }
    requires room { world.now.map.bodies ≤ room_of finder.old }
    requires empty { stack.old.items ≡ [] }
    requires at { OfSomeTrip (λ trip rest. IsCollecting trip shape.now finder.old (view_of pass.old) (next_node rest (roots_of root))) }
    ensures of { IsOf world.now pass.new }
    ensures room { room_of finder.new ≡ room_of finder.old }
    ensures empty { stack.new.items ≡ [] }
    ensures on { (trip : Trip) (rest : List WordName) → IsCollecting trip shape.now finder.old (view_of pass.old) (next_node rest (roots_of root))
        → IsCollecting trip shape.now finder.new (view_of pass.new) (word_place rest) }
{
    if let Some(root) = root {
        stack.push(root);
        walk_tree(world, pass, shape, finder, stack);
    }
}

/// Reads a slot of a layer, and walks the tree that it names.
#[inline(always)]
fn walk_slot(
    world: &World,
    pass: &mut Pass,
    shape: &Shape,
    finder: &mut Finder,
    stack: &mut ArrayVec<u32, MOST_NODES>,
    layer: u32,
    slot: u32,
)
    requires of { IsOf world.now pass.old }
    requires named { (layer < world.now.map.layers) × (slot < world.now.map.slots) }
    requires room { world.now.map.bodies ≤ room_of finder.old }
    requires empty { stack.old.items ≡ [] }
    requires at { OfSomeTrip (λ trip rest. IsCollecting trip shape.now finder.old (view_of pass.old) (word_place (Slot layer slot ∷ rest))) }
    ensures of { IsOf world.now pass.new }
    ensures room { room_of finder.new ≡ room_of finder.old }
    ensures empty { stack.new.items ≡ [] }
    ensures on { (trip : Trip) (rest : List WordName) → IsCollecting trip shape.now finder.old (view_of pass.old) (word_place (Slot layer slot ∷ rest))
        → IsCollecting trip shape.now finder.new (view_of pass.new) (word_place rest) }
{
    let word = load_slot(world, pass, layer, slot);
    finder.loads += 1;
    walk_root(world, pass, shape, finder, stack, root_in_slot(word));
}

/// Reads the main word of a layer, and walks the tree that it names.
#[inline(always)]
fn walk_main(
    world: &World,
    pass: &mut Pass,
    shape: &Shape,
    finder: &mut Finder,
    stack: &mut ArrayVec<u32, MOST_NODES>,
    layer: u32,
)
    requires of { IsOf world.now pass.old }
    requires named { layer < world.now.map.layers }
    requires room { world.now.map.bodies ≤ room_of finder.old }
    requires empty { stack.old.items ≡ [] }
    requires at { OfSomeTrip (λ trip rest. IsCollecting trip shape.now finder.old (view_of pass.old) (word_place (Main layer ∷ rest))) }
    ensures of { IsOf world.now pass.new }
    ensures room { room_of finder.new ≡ room_of finder.old }
    ensures empty { stack.new.items ≡ [] }
    ensures on { (trip : Trip) (rest : List WordName) → IsCollecting trip shape.now finder.old (view_of pass.old) (word_place (Main layer ∷ rest))
        → IsCollecting trip shape.now finder.new (view_of pass.new) (word_place rest) }
{
    let word = load_main(world, pass, layer);
    finder.loads += 1;
    walk_root(world, pass, shape, finder, stack, root_in_main(word));
}

/// Reads all slots of a layer and then its main word, and walks each tree that one names before the next one is read.
fn walk_layer(
    world: &World,
    pass: &mut Pass,
    shape: &Shape,
    finder: &mut Finder,
    stack: &mut ArrayVec<u32, MOST_NODES>,
    layer: u32,
)
    requires of { IsOf world.now pass.old }
    requires named { layer < world.now.map.layers }
    requires room { world.now.map.bodies ≤ room_of finder.old }
    requires empty { stack.old.items ≡ [] }
    requires at { OfSomeTrip (λ trip rest. IsCollecting trip shape.now finder.old (view_of pass.old) (word_place (words_of_layer world.now.map layer ++ rest))) }
    ensures of { IsOf world.now pass.new }
    ensures room { room_of finder.new ≡ room_of finder.old }
    ensures empty { stack.new.items ≡ [] }
    ensures on { (trip : Trip) (rest : List WordName) → IsCollecting trip shape.now finder.old (view_of pass.old) (word_place (words_of_layer world.now.map layer ++ rest))
        → IsCollecting trip shape.now finder.new (view_of pass.new) (word_place rest) }
{
    let slots = world.config().slots;
    for slot in 0..slots {
        walk_slot(world, pass, shape, finder, stack, layer, slot);
    }
    walk_main(world, pass, shape, finder, stack, layer);
}

/// Walks a layer, where it is asked.
#[inline(always)]
fn walk_asked(
    world: &World,
    pass: &mut Pass,
    shape: &Shape,
    mask: u8,
    finder: &mut Finder,
    stack: &mut ArrayVec<u32, MOST_NODES>,
    layer: u32,
)
    requires of { IsOf world.now pass.old }
    requires named { layer < world.now.map.layers }
    requires room { world.now.map.bodies ≤ room_of finder.old }
    requires empty { stack.old.items ≡ [] }
    requires at { OfSomeTrip (λ trip rest. IsCollecting trip shape.now finder.old (view_of pass.old) (word_place (words_asked world.now.map mask layer ++ rest))) }
    ensures of { IsOf world.now pass.new }
    ensures room { room_of finder.new ≡ room_of finder.old }
    ensures empty { stack.new.items ≡ [] }
    ensures on { (trip : Trip) (rest : List WordName) → IsCollecting trip shape.now finder.old (view_of pass.old) (word_place (words_asked world.now.map mask layer ++ rest))
        → IsCollecting trip shape.now finder.new (view_of pass.new) (word_place rest) }
{
    if is_asked(mask, layer) {
        walk_layer(world, pass, shape, finder, stack, layer);
    }
}

/// Walks all asked layers, ascending.
fn walk_layers(
    world: &World,
    pass: &mut Pass,
    shape: &Shape,
    mask: u8,
    finder: &mut Finder,
    stack: &mut ArrayVec<u32, MOST_NODES>,
)
    requires of { IsOf world.now pass.old }
    requires room { world.now.map.bodies ≤ room_of finder.old }
    requires empty { stack.old.items ≡ [] }
    requires at { (trip : Trip) × IsCollecting trip shape.now finder.old (view_of pass.old) (word_place (asked_words world.now.map mask)) }
    ensures of { IsOf world.now pass.new }
    ensures room { room_of finder.new ≡ room_of finder.old }
    ensures on { (trip : Trip) → IsCollecting trip shape.now finder.old (view_of pass.old) (word_place (asked_words world.now.map mask))
        → IsCollecting trip shape.now finder.new (view_of pass.new) (word_place []) }
{
    let layers = world.config().layers;
    for layer in 0..layers {
        walk_asked(world, pass, shape, mask, finder, stack, layer);
    }
}

/// Walks all asked layers, from the step that begins the walk to the one that ends it. What it finds is in the finder, and
/// nothing else.
pub(crate) fn walk_all(world: &World, pass: &mut Pass, shape: &Shape, mask: u8, finder: &mut Finder)
    requires of { IsOf world.now pass.old }
    requires still { (view_of pass.old).walk.is_on ≡ false }
    requires room { world.now.map.bodies ≤ room_of finder.old }
    ensures of { IsOf world.now pass.new }
    ensures room { room_of finder.new ≡ room_of finder.old }
    ensures collected { HasCollected shape.now mask (view_of pass.old) (view_of pass.new) finder.new }
{
    let mut stack = ArrayVec::new();
    finder.clear();
    begin(world, pass);
    walk_layers(world, pass, shape, mask, finder, &mut stack);
    end(world, pass);
}
