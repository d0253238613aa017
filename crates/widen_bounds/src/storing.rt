//! Storing the words of the box that a body is given, one step each.
ghost use Rattle.std.specs.Prelude.{◌≡◌, ◌<◌, ◌+◌};
ghost use Rattle.pass_table.specs.Passes.{view_of, IsOf};
ghost use Rattle.widen_bounds.specs.stages.Storing.{IsBoxing, StoresSideOf, StoresLastOf};

use body_ident::BodyId;
use fixed_box::FixBox;
use pass_table::{Pass, World, step_37, step_38};
use word_map::Name;

/// Stores a side of the box but the last: low x, y, z, high x, y, in this order.
///
/// Others read no box word without the stripe.
#[inline]
pub(crate) fn store_side(world: &World, pass: &mut Pass, id: BodyId, to: &FixBox, side: u32)
    requires of { IsOf world.now pass.old }
    requires below { side < 5 }
    requires boxing { IsBoxing id to.now side (view_of pass.old) }
    ensures of { IsOf world.now pass.new }
    ensures boxing { IsBoxing id to.now (side + 1) (view_of pass.new) }
    ensures stores { StoresSideOf id to.now side (view_of pass.old) (view_of pass.new) }
{
    let value = to.to_words()[side as usize];
    step_37(world, pass, Name::BoxWord(id.index(), side), value);
}

/// Stores the last side of the box, high z: with it the body has the box.
#[inline]
pub(crate) fn store_last(world: &World, pass: &mut Pass, id: BodyId, to: &FixBox)
    requires of { IsOf world.now pass.old }
    requires boxing { IsBoxing id to.now 5 (view_of pass.old) }
    ensures of { IsOf world.now pass.new }
    ensures stores { StoresLastOf id to.now (view_of pass.old) (view_of pass.new) }
{
    let value = to.to_words()[5];
    step_38(world, pass, Name::BoxWord(id.index(), 5), value);
}
