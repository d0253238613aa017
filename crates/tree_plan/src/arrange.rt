ghost use Rattle.std.specs.Prelude.{◌≡◌, ◌-◌, ◌/◌, ◌<◌, ◌≤◌, length, take, drop};
ghost use Rattle.std.specs.List.Sorted.{IsPermutation};
ghost use Rattle.scene_model.specs.Tree.{front_half, back_half};
ghost use Rattle.tree_plan.specs.Axes.{axis_number};
ghost use Rattle.tree_plan.specs.Arranged.{AreApart, IsSplit, arranged};

use crate::axis::{Axis, key, widest};
use fixed_box::FixBox;

/// Puts the bodies with the least keys on an axis first, so many of them, in any order.
///
/// The room is written over: the bodies are selected there and copied back, since a selection tells of the parts
/// that it hands out, and nothing of the whole that they leave.
fn split(bodies: &mut [(u32, FixBox)], room: &mut [(u32, FixBox)], front: usize, axis: Axis)
    requires within { front < length bodies.old }
    requires room { length bodies.old ≤ length room.old }
    ensures permutation { IsPermutation bodies.old bodies.new }
    ensures split { IsSplit (axis_number axis) front bodies.new }
{
    let (part, _) = room.split_at_mut(bodies.len());
    part.copy_from_slice(bodies);
    let (less, middle, more) = part.select_nth_unstable_by_key(front, |body| key(body, axis));
    let (first, rest) = bodies.split_at_mut(front);
    first.copy_from_slice(less);
    let (one, others) = rest.split_at_mut(1);
    one[0] = *middle;
    others.copy_from_slice(more);
}

/// Puts the bodies of the first half before those of the second, each half in any order.
fn halve(bodies: &mut [(u32, FixBox)], room: &mut [(u32, FixBox)])
    requires some { 2 ≤ length bodies.old }
    requires apart { AreApart bodies.old }
    requires room { length bodies.old ≤ length room.old }
    ensures front { IsPermutation (front_half bodies.old) (take (length bodies.old - length bodies.old / 2) bodies.new) }
    ensures back { IsPermutation (back_half bodies.old) (drop (length bodies.old - length bodies.old / 2) bodies.new) }
{
    let axis = widest(bodies);
    let front = bodies.len() - bodies.len() / 2;
    split(bodies, room, front, axis);
}

/// Puts the bodies in the order in which they stand in their tree, from left to right.
///
/// It goes as deep as the bodies can be halved. The room is written over.
pub(crate) fn arrange(bodies: &mut [(u32, FixBox)], room: &mut [(u32, FixBox)])
    requires apart { AreApart bodies.old }
    requires room { length bodies.old ≤ length room.old }
    ensures { bodies.new ≡ arranged bodies.old }
{
    if bodies.len() < 2 {
        return;
    }
    halve(bodies, room);
    let middle = bodies.len() - bodies.len() / 2;
    let (front, back) = bodies.split_at_mut(middle);
    arrange(front, room);
    arrange(back, room);
}
