//! The check of a query's candidates, one after the other: each body is looked at under its stripe.
ghost use Rattle.std.specs.Prelude.{◌≡◌, ◌+◌, ◌<◌, ◌==◌, ◌++◌, ℕ, true, false};
ghost use Rattle.std.specs.Int.{bit_at};
ghost use Rattle.core_state.specs.declared.view.View.{View};
ghost use Rattle.pass_table.specs.Knowing.{KnowsMore};
ghost use Rattle.pass_table.specs.Calls.{AtPoint};
ghost use Rattle.pass_table.specs.Work.{HasDone, idle};
ghost use Rattle.pass_table.specs.Bodies.{IsGuarded};
ghost use Rattle.pass_table.specs.Passes.{view_of, IsOf, IsIdle};
ghost use Rattle.tree_query.specs.declared.finder.Finder.{Finder};
ghost use Rattle.tree_query.specs.Indexes.{IsFirst};
ghost use Rattle.tree_query.specs.Finding.{has_index, room_of, ids_of};
ghost use Rattle.tree_query.specs.Checking.{IsHitAfter, HasNoHit, IsCheckedSo, IsLayerIn, IsUnderStripeOf, check_steps, steps_of, AreAllChecked, IsChecking};

use crate::finder::Finder;
use body_ident::BodyId;
use body_look::{BodyFound, load_box, load_layer, look_guarded};
use fixed_box::Shape;
use pass_table::{Pass, World, release, step_15, take_read};
use shape_test::touch;
use std::sync::Wait;
use word_map::{Name, StateWord};

/// Whether the layer is one of the mask: bit k of it stands for layer k.
pub(crate) fn is_asked(mask: u8, layer: u32) -> bool
    ensures { result ≡ (bit_at mask layer == 1) }
{
    layer < u8::BITS && (mask >> layer) % 2 == 1
}

/// The layer of a guarded body, where it is in the broad phase. It loads the phase word, and where that names a slot the layer
/// and the word of the slot, else the layer where the body is in.
///
/// What it answers is so at the step that tells the phase.
fn layer_in(world: &World, pass: &mut Pass, id: BodyId) -> Option<u32>
    requires of { IsOf world.now pass.old }
    requires guarded { IsGuarded id (view_of pass.old) }
    ensures of { IsOf world.now pass.new }
    ensures guarded { IsGuarded id (view_of pass.new) }
    ensures more { KnowsMore (view_of pass.old) (view_of pass.new) }
    ensures seen { IsLayerIn id (view_of pass.old) (view_of pass.new) result }
{
    match look_guarded(world, pass, id) {
        BodyFound::In => Some(load_layer(world, pass, id)),
        BodyFound::Joined { layer, .. } => Some(layer),
        _ => None,
    }
}

/// Whether a guarded body is in the broad phase and in an asked layer, and its box touches the shape. The box is loaded last,
/// and only where all else is so.
///
/// What it answers is so at the step that tells the phase.
fn is_hit(world: &World, pass: &mut Pass, shape: &Shape, mask: u8, id: BodyId) -> bool
    requires of { IsOf world.now pass.old }
    requires guarded { IsGuarded id (view_of pass.old) }
    ensures of { IsOf world.now pass.new }
    ensures more { KnowsMore (view_of pass.old) (view_of pass.new) }
    ensures hit { result ≡ true → AtPoint (view_of pass.old) (view_of pass.new) (IsHitAfter shape.now mask (view_of pass.old).config id) }
    ensures none { result ≡ false → AtPoint (view_of pass.old) (view_of pass.new) (HasNoHit shape.now mask (view_of pass.old).config id.index) }
{
    let layer = match layer_in(world, pass, id) {
        Some(layer) => layer,
        None => return false,
    };
    if !is_asked(mask, layer) {
        return false;
    }
    let bounds = load_box(world, pass, id);
    touch(shape, &bounds)
}

/// The check of the body at an index whose stripe is held: its state word tells whether one is live, and which.
fn check_under_stripe(
    world: &World,
    pass: &mut Pass,
    shape: &Shape,
    mask: u8,
    index: u32,
) -> Option<u8>
    requires of { IsOf world.now pass.old }
    requires below { index < world.now.map.bodies }
    requires stripe { IsUnderStripeOf (view_of pass.old) index }
    ensures of { IsOf world.now pass.new }
    ensures more { KnowsMore (view_of pass.old) (view_of pass.new) }
    ensures checked { IsCheckedSo shape.now mask index (view_of pass.old) (view_of pass.new) result }
{
    let state = step_15(world, pass, Name::State(index));
    let sequence = StateWord::sequence_of(state);
    if state != (StateWord::Live { sequence }).to_word() {
        return None;
    }
    if is_hit(world, pass, shape, mask, BodyId::new(index, sequence)) {
        Some(sequence)
    } else {
        None
    }
}

/// Checks the body at an index, under its stripe, which is taken to read and let go again; it waits until no pass holds the
/// stripe to write. The answer is the sequence number of the body that is live there, in the broad phase and an asked layer,
/// and whose box touches the shape, at a point of the call. Where none is so at a point of the call it is `None`.
pub(crate) fn check_candidate<R: Wait>(
    rt: &R,
    world: &World,
    pass: &mut Pass,
    shape: &Shape,
    mask: u8,
    index: u32,
) -> Option<u8>
    requires idle { IsIdle world.now pass.old }
    requires below { index < world.now.map.bodies }
    ensures of { IsOf world.now pass.new }
    ensures done { HasDone (view_of pass.old) (view_of pass.new) (idle (view_of pass.old)) }
    ensures locks { (view_of pass.new).locks ≡ (view_of pass.old).locks ++ check_steps (view_of pass.old).config index }
    ensures checked { IsCheckedSo shape.now mask index (view_of pass.old) (view_of pass.new) result }
{
    let stripe = world.stripe_of(index);
    take_read(rt, world, pass, stripe);
    let answer = check_under_stripe(world, pass, shape, mask, index);
    release(world, pass, stripe);
    answer
}

/// Checks the first candidate that is left to be checked: it stays with the sequence number that was read, or is taken out.
fn check_next<R: Wait>(
    rt: &R,
    world: &World,
    pass: &mut Pass,
    shape: &Shape,
    mask: u8,
    finder: &mut Finder,
    index: u32,
)
    requires idle { IsIdle world.now pass.old }
    requires below { index < world.now.map.bodies }
    requires room { index < room_of finder.old }
    ensures of { IsOf world.now pass.new }
    ensures room { room_of finder.new ≡ room_of finder.old }
    ensures goes { (start : View) (before : Finder) (to : ℕ) → IsChecking shape.now mask start (view_of pass.old) before finder.old to → IsFirst (has_index finder.old) to index → IsChecking shape.now mask start (view_of pass.new) before finder.new (index + 1) }
{
    match check_candidate(rt, world, pass, shape, mask, index) {
        Some(sequence) => finder.put(index, sequence),
        None => finder.remove(index),
    }
}

/// Checks all candidates that the finder holds, ascending by index, each under its own stripe; it waits where another pass
/// writes under one. What is left of them are the bodies that were hits when they were checked, each with the sequence
/// number that it had then; each that is no more was no hit when it was checked.
pub(crate) fn check_all<R: Wait>(
    rt: &R,
    world: &World,
    pass: &mut Pass,
    shape: &Shape,
    mask: u8,
    finder: &mut Finder,
)
    requires idle { IsIdle world.now pass.old }
    requires below { (index : ℕ) → has_index finder.old index ≡ true → index < world.now.map.bodies }
    ensures of { IsOf world.now pass.new }
    ensures done { HasDone (view_of pass.old) (view_of pass.new) (idle (view_of pass.old)) }
    ensures locks { (view_of pass.new).locks ≡ (view_of pass.old).locks ++ steps_of (view_of pass.old).config (ids_of finder.old) }
    ensures checked { AreAllChecked shape.now mask (view_of pass.old) (view_of pass.new) finder.old finder.new }
{
    let mut next = 0;
    while let Some(index) = finder.first_from(next) {
        check_next(rt, world, pass, shape, mask, finder, index);
        next = index + 1;
    }
}
