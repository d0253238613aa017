//! Marking all bodies at once: the steps that the turns make, in the same order, with each look in a loop of its own and the
//! sides of a box in another.
ghost use Rattle.std.specs.Prelude.{◌≡◌};
ghost use Rattle.core_state.specs.declared.view.View.{View};
ghost use Rattle.pass_table.specs.Passes.{view_of, IsOf};
ghost use Rattle.pass_table.specs.Turning.{IsUnderWay};
ghost use Rattle.batch_add.specs.declared.mark_op.MarkStage.TheVariants.{Looking, Outside, Boxed};
ghost use Rattle.batch_add.specs.declared.mark_op.Marking.{Marking};
ghost use Rattle.batch_add.specs.stages.Marking.{IsMarking, HasMadeMarks, MarksOn, at_mark, no_sides};

use crate::mark_op::{MarkRefused, MarkStage, Marking};
use crate::marking::stage_of;
use body_look::{load_layer, load_side};
use crossbeam_utils::Backoff;
use fixed_box::FixBox;
use pass_table::{Operation, Pass, Turn, World, drive};
use std::sync::Wait;

impl Marking {
    /// Makes all turns that are left. It may wait for locks.
    pub(crate) fn mark_all<R: Wait>(
        &mut self,
        rt: &R,
        world: &World,
        pass: &mut Pass,
    ) -> Result<(), MarkRefused>
        requires of { IsOf world.now pass.old }
        requires under_way { IsUnderWay IsMarking self.old (view_of pass.old) }
        ensures of { IsOf world.now pass.new }
        ensures answers { (first : Marking) (start : View) → IsMarking first start self.old (view_of pass.old) → HasMadeMarks first start self.new (view_of pass.new) result }
    {
        let backoff = Backoff::new();
        for _ in rt.forever() {
            match self.stage {
                MarkStage::Looking => self.look_all(rt, world, pass),
                MarkStage::Outside => self.load_box(world, pass),
                _ => match self.turn(world, pass) {
                    Turn::Done(answer) => return answer,
                    Turn::More => {}
                    Turn::Again { .. } => backoff.snooze(),
                },
            }
        }
        unreachable!()
    }

    /// Looks at the next body.
    fn look_all<R: Wait>(&mut self, rt: &R, world: &World, pass: &mut Pass)
        requires of { IsOf world.now pass.old }
        requires under_way { IsUnderWay IsMarking self.old (view_of pass.old) }
        requires stage { self.old.stage ≡ Looking }
        ensures of { IsOf world.now pass.new }
        ensures keeps { MarksOn self.old (view_of pass.old) self.new (view_of pass.new) }
    {
        let found = drive(rt, world, pass, &mut self.look);
        self.stage = stage_of(found);
        self.made = None;
    }

    /// Loads the layer of a body that is out, and then the sides of its box. Where the layer is another one, the body is
    /// refused.
    fn load_box(&mut self, world: &World, pass: &mut Pass)
        requires of { IsOf world.now pass.old }
        requires under_way { IsUnderWay IsMarking self.old (view_of pass.old) }
        requires stage { self.old.stage ≡ Outside }
        ensures of { IsOf world.now pass.new }
        ensures keeps { MarksOn self.old (view_of pass.old) self.new (view_of pass.new) }
    {
        let layer = load_layer(world, pass, self.id());
        self.made = None;
        if layer == self.layer {
            let bounds = self.load_sides(world, pass);
            self.stage = MarkStage::Boxed { bounds };
        } else {
            let refused = MarkRefused::WrongLayer {
                layer: u64::from(layer),
            };
            self.stage = MarkStage::Refusing { refused };
        }
    }

    /// Loads the six sides of the box of the next body.
    fn load_sides(&self, world: &World, pass: &mut Pass) -> FixBox
        requires of { IsOf world.now pass.old }
        requires under_way { IsUnderWay IsMarking (at_mark self.now no_sides) (view_of pass.old) }
        ensures of { IsOf world.now pass.new }
        ensures keeps { MarksOn (at_mark self.now no_sides) (view_of pass.old) (at_mark self.now (Boxed result)) (view_of pass.new) }
    {
        let id = self.id();
        let mut words = [0; 6];
        for side in 0..5 {
            words[side as usize] = load_side(world, pass, id, side);
        }
        words[5] = load_side(world, pass, id, 5);
        match FixBox::from_words(words) {
            Some(bounds) => bounds,
            None => unreachable!(),
        }
    }
}
