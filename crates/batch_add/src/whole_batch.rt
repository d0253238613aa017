//! Preparing a batch in one call: the steps that the turns make, in the same order, each long part in a loop of its own.
ghost use Rattle.std.specs.Prelude.{◌≡◌, List, [], Ok};
ghost use Rattle.core_state.specs.declared.view.Batch.{Batch};
ghost use Rattle.core_state.specs.declared.view.View.{View};
ghost use Rattle.pass_table.specs.Passes.{view_of, IsOf};
ghost use Rattle.pass_table.specs.Turning.{IsUnderWay};
ghost use Rattle.batch_add.specs.declared.prepare_op.PrepareOp.{PrepareOp};
ghost use Rattle.batch_add.specs.declared.prepare_op.PrepareStage.TheVariants.{Marking as MarkingStage};
ghost use Rattle.batch_add.specs.Parts.{HasGivenUp};
ghost use Rattle.batch_add.specs.stages.Keeping.{IsBegunFor};
ghost use Rattle.batch_add.specs.stages.Preparing.{IsPreparing, IsToDrawTree, HasPreparedOr, kept_of, refusal_of};

use crate::answers::PrepareRefused;
use crate::prepare_op::{PrepareOp, PrepareStage, Undone};
use crate::prepared::Prepared;
use crate::preparing::refusal;
use crossbeam_utils::Backoff;
use pass_table::{Operation, Pass, Turn, World};
use std::mem;
use std::sync::Wait;

impl PrepareOp {
    /// Makes all turns that are left. It may wait for locks.
    pub(crate) fn finish<R: Wait>(
        &mut self,
        rt: &R,
        world: &World,
        pass: &mut Pass,
    ) -> Result<Prepared, PrepareRefused>
        requires of { IsOf world.now pass.old }
        requires under_way { IsUnderWay IsPreparing self.old (view_of pass.old) }
        ensures of { IsOf world.now pass.new }
        ensures answers { (first : PrepareOp) (start : View) → IsPreparing first start self.old (view_of pass.old) → HasPreparedOr first start (view_of pass.new) result }
    {
        let backoff = Backoff::new();
        for _ in rt.forever() {
            match self.stage {
                PrepareStage::Marking => return self.mark_and_draw(rt, world, pass),
                _ => match self.turn(world, pass) {
                    Turn::Done(answer) => return answer,
                    Turn::More => {}
                    Turn::Again { .. } => backoff.snooze(),
                },
            }
        }
        unreachable!()
    }

    /// Marks all bodies and draws the tree over them. Where a body is refused it undoes what was done.
    fn mark_and_draw<R: Wait>(
        &mut self,
        rt: &R,
        world: &World,
        pass: &mut Pass,
    ) -> Result<Prepared, PrepareRefused>
        requires of { IsOf world.now pass.old }
        requires under_way { IsUnderWay IsPreparing self.old (view_of pass.old) }
        requires stage { self.old.stage ≡ MarkingStage }
        ensures of { IsOf world.now pass.new }
        ensures answers { (first : PrepareOp) (start : View) → IsPreparing first start self.old (view_of pass.old) → HasPreparedOr first start (view_of pass.new) result }
    {
        match self.marking.mark_all(rt, world, pass) {
            Ok(()) => {
                self.begin_tree(pass);
                Ok(self.draw_all(world, pass))
            }
            Err(refused) => {
                let at = self.marking.marked;
                Err(self.undo(rt, world, pass, Undone::Mark { at, refused }))
            }
        }
    }

    /// Undoes what was done, for this reason. It may wait for locks.
    fn undo<R: Wait>(
        &mut self,
        rt: &R,
        world: &World,
        pass: &mut Pass,
        undone: Undone,
    ) -> PrepareRefused
        requires of { IsOf world.now pass.old }
        requires begun { (before : List Batch) × (batch : Batch) × IsBegunFor (kept_of self.old undone) (view_of pass.old) before batch [] }
        ensures of { IsOf world.now pass.new }
        ensures given_up { (before : List Batch) (batch : Batch) → IsBegunFor (kept_of self.old undone) (view_of pass.old) before batch [] → HasGivenUp before batch [] (view_of pass.old) (view_of pass.new) }
        ensures refusal { result ≡ refusal_of self.old.taking.count undone }
    {
        let kept = self.hand_over(undone);
        kept.give_up(rt, world, pass);
        refusal(self.taking.count, undone)
    }

    /// Draws the tree over the bodies, which are marked.
    fn draw_all(&mut self, world: &World, pass: &mut Pass) -> Prepared
        requires of { IsOf world.now pass.old }
        requires under_way { IsUnderWay IsPreparing self.old (view_of pass.old) }
        requires to_draw { IsToDrawTree self.old }
        ensures of { IsOf world.now pass.new }
        ensures answers { (first : PrepareOp) (start : View) → IsPreparing first start self.old (view_of pass.old) → HasPreparedOr first start (view_of pass.new) (Ok result) }
    {
        let Some(drawing) = mem::replace(&mut self.drawing, None) else {
            unreachable!()
        };
        drawing.draw_all(world, pass);
        let indexes = mem::replace(&mut self.indexes, Vec::new(self.alloc));
        Prepared {
            number: pass.number(),
            layer: self.layer,
            slot: self.slot,
            indexes,
            nodes: drawing.nodes,
        }
    }
}
