//! Loads of the words of a body whose stripe is held, one step each; and its box, in six.
//!
//! Others may act meanwhile, and so the word of a slot may be another at once.
ghost use Rattle.std.specs.Prelude.{◌≡◌, ◌<◌, ℕ, None, slice_index};
ghost use Rattle.fixed_box.specs.FixBox.{words_of};
ghost use Rattle.word_map.specs.Names.{IsName};
ghost use Rattle.word_map.specs.declared.name.Name.TheVariants.{Phase, Layer, BoxWord, User, Slot};
ghost use Rattle.core_state.specs.View.{known_word};
ghost use Rattle.core_state.specs.Lives.{IsOfBody};
ghost use Rattle.pass_table.specs.Knowing.{KnowsMore};
ghost use Rattle.pass_table.specs.Turning.{AtMostOneStep, MadeBy};
ghost use Rattle.pass_table.specs.Passes.{view_of, IsOf};
ghost use Rattle.pass_table.specs.Bodies.{IsGuarded, IsCurrent, Loaded};

use body_ident::BodyId;
use fixed_box::FixBox;
use pass_table::{Pass, World, step_15, step_17};
use word_map::Name;

/// Loads a word of the body.
#[inline(always)]
fn load_word(world: &World, pass: &mut Pass, id: BodyId, name: Name) -> u64
    requires of { IsOf world.now pass.old }
    requires guarded { IsGuarded id (view_of pass.old) }
    requires named { IsName world.now.map name }
    requires of_body { IsOfBody id.index name }
    ensures of { IsOf world.now pass.new }
    ensures guarded { IsGuarded id (view_of pass.new) }
    ensures loaded { Loaded (view_of pass.old) (view_of pass.new) name result }
    ensures step { AtMostOneStep (view_of pass.old) (view_of pass.new) }
    ensures made { MadeBy (view_of pass.old) (view_of pass.new) None }
{
    step_15(world, pass, name)
}

/// Loads the phase word.
#[inline(always)]
pub(crate) fn load_phase(world: &World, pass: &mut Pass, id: BodyId) -> u64
    requires of { IsOf world.now pass.old }
    requires guarded { IsGuarded id (view_of pass.old) }
    ensures of { IsOf world.now pass.new }
    ensures guarded { IsGuarded id (view_of pass.new) }
    ensures loaded { Loaded (view_of pass.old) (view_of pass.new) (Phase id.index) result }
    ensures step { AtMostOneStep (view_of pass.old) (view_of pass.new) }
    ensures made { MadeBy (view_of pass.old) (view_of pass.new) None }
{
    load_word(world, pass, id, Name::Phase(id.index()))
}

/// Loads the layer.
#[inline(always)]
pub fn load_layer(world: &World, pass: &mut Pass, id: BodyId) -> u32
    requires of { IsOf world.now pass.old }
    requires guarded { IsGuarded id (view_of pass.old) }
    ensures of { IsOf world.now pass.new }
    ensures guarded { IsGuarded id (view_of pass.new) }
    ensures loaded { Loaded (view_of pass.old) (view_of pass.new) (Layer id.index) result }
    ensures step { AtMostOneStep (view_of pass.old) (view_of pass.new) }
    ensures made { MadeBy (view_of pass.old) (view_of pass.new) None }
{
    load_word(world, pass, id, Name::Layer(id.index())) as u32
}

/// Loads the user number.
#[inline(always)]
pub fn load_user(world: &World, pass: &mut Pass, id: BodyId) -> u32
    requires of { IsOf world.now pass.old }
    requires guarded { IsGuarded id (view_of pass.old) }
    ensures of { IsOf world.now pass.new }
    ensures guarded { IsGuarded id (view_of pass.new) }
    ensures loaded { Loaded (view_of pass.old) (view_of pass.new) (User id.index) result }
    ensures step { AtMostOneStep (view_of pass.old) (view_of pass.new) }
    ensures made { MadeBy (view_of pass.old) (view_of pass.new) None }
{
    load_word(world, pass, id, Name::User(id.index())) as u32
}

/// Loads a side of the box: 0 to 2 are the low ones, 3 to 5 the high ones.
#[inline(always)]
pub fn load_side(world: &World, pass: &mut Pass, id: BodyId, side: u32) -> u64
    requires of { IsOf world.now pass.old }
    requires guarded { IsGuarded id (view_of pass.old) }
    requires side { side < 6 }
    ensures of { IsOf world.now pass.new }
    ensures guarded { IsGuarded id (view_of pass.new) }
    ensures loaded { Loaded (view_of pass.old) (view_of pass.new) (BoxWord id.index side) result }
    ensures step { AtMostOneStep (view_of pass.old) (view_of pass.new) }
    ensures made { MadeBy (view_of pass.old) (view_of pass.new) None }
{
    load_word(world, pass, id, Name::BoxWord(id.index(), side))
}

/// Loads the word of a slot, while the body is guarded.
#[inline(always)]
pub(crate) fn load_slot(world: &World, pass: &mut Pass, id: BodyId, layer: u32, slot: u32) -> u64
    requires of { IsOf world.now pass.old }
    requires guarded { IsGuarded id (view_of pass.old) }
    requires layers { layer < world.now.map.layers }
    requires slots { slot < world.now.map.slots }
    ensures of { IsOf world.now pass.new }
    ensures guarded { IsGuarded id (view_of pass.new) }
    ensures loaded { Loaded (view_of pass.old) (view_of pass.new) (Slot layer slot) result }
    ensures step { AtMostOneStep (view_of pass.old) (view_of pass.new) }
    ensures made { MadeBy (view_of pass.old) (view_of pass.new) None }
{
    step_17(world, pass, Name::Slot(layer, slot))
}

/// Loads the box, in six steps. Its words are those that the pass then knows.
#[inline]
pub fn load_box(world: &World, pass: &mut Pass, id: BodyId) -> FixBox
    requires of { IsOf world.now pass.old }
    requires guarded { IsGuarded id (view_of pass.old) }
    ensures of { IsOf world.now pass.new }
    ensures guarded { IsGuarded id (view_of pass.new) }
    ensures now { IsCurrent (view_of pass.new) }
    ensures more { KnowsMore (view_of pass.old) (view_of pass.new) }
    ensures bounds { (k : ℕ) → k < 6 → known_word (view_of pass.new) (BoxWord id.index k) ≡ slice_index (words_of result) k }
{
    let low_x = load_side(world, pass, id, 0);
    let low_y = load_side(world, pass, id, 1);
    let low_z = load_side(world, pass, id, 2);
    let high_x = load_side(world, pass, id, 3);
    let high_y = load_side(world, pass, id, 4);
    let high_z = load_side(world, pass, id, 5);
    match FixBox::from_words([low_x, low_y, low_z, high_x, high_y, high_z]) {
        Some(bounds) => bounds,
        None => unreachable!(),
    }
}
