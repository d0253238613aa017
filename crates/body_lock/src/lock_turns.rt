//! Locking a body by turns.
ghost use Rattle.std.specs.Prelude.{◌≡◌, ◌<◌, None, ⊤};
ghost use Rattle.pass_table.specs.Turning.{IsUnderWay};
ghost use Rattle.pass_table.specs.Passes.{view_of, IsOf, IsIdle};
ghost use Rattle.body_lock.specs.declared.lock_op.LockStage.TheVariants.{Looking, Leaving};
ghost use Rattle.body_lock.specs.stages.Locking.{locking_of, lock_left, lock_takes, IsLocking, IsLockTurn};
ghost use Rattle.body_lock.specs.Answers.{LockAnswers};

use crate::gone::Gone;
use crate::lock_op::{LockOp, LockStage};
use crate::words::unlock;
use body_ident::BodyId;
use body_look::{BodyFound, LookDepth, LookOp};
use core_state::Mode;
use pass_table::{Label, Operation, Pass, Turn, World};
use scene_model::Made;

impl Operation for LockOp {
    ghost use Rattle.body_lock.specs.stages.Locking.{locking-later};

    type Done = Result<(), Gone>;

    ghost under_way = { IsLocking };

    ghost answers = { λ first start last next answer. LockAnswers first.id first.mode start next answer };

    ghost left = { lock_left };

    ghost takes = { lock_takes };

    ghost reached = { λ operation. None };

    ghost last_label = { None };

    ghost refused = { λ answer. ⊥ };

    ghost says = { λ first start next label. ⊤ };

    ghost entry = { λ operation. None };

    #[inline(always)]
    fn turn(&mut self, world: &World, pass: &mut Pass) -> Turn<Result<(), Gone>> {
        match self.stage {
            LockStage::Looking => self.look(world, pass),
            LockStage::Leaving { state } => self.leave(world, pass, state),
        }
    }

    fn label(&self) -> Option<Label> {
        None
    }

    fn made(&self) -> Option<&Made> {
        None
    }

    ghost may_look = { locking-later };
}

impl LockOp {
    /// Begins to lock a body; no step is made yet.
    pub(crate) fn new(world: &World, pass: &mut Pass, id: BodyId, mode: Mode) -> LockOp
        requires idle { IsIdle world.now pass.old }
        requires below { id.index < world.now.map.bodies }
        ensures pass { pass.new ≡ pass.old }
        ensures begun { result ≡ locking_of world.now.map id mode }
        ensures under_way { IsLocking result (view_of pass.old) result (view_of pass.new) }
    {
        let look = LookOp::new(world, pass, id, mode, LookDepth::Life);
        LockOp {
            id,
            mode,
            look,
            stage: LockStage::Looking,
        }
    }

    /// A turn of the look. Once the body is seen to be live it is locked.
    #[inline(always)]
    fn look(&mut self, world: &World, pass: &mut Pass) -> Turn<Result<(), Gone>>
        requires of { IsOf world.now pass.old }
        requires under_way { IsUnderWay IsLocking self.old (view_of pass.old) }
        requires stage { self.old.stage ≡ Looking }
        ensures of { IsOf world.now pass.new }
        ensures turn { IsLockTurn result self.old self.new (view_of pass.old) (view_of pass.new) }
    {
        match self.look.turn(world, pass) {
            Turn::Done(found) => match found {
                BodyFound::Gone { state } => {
                    self.stage = LockStage::Leaving { state };
                    Turn::More
                }
                _ => Turn::Done(Ok(())),
            },
            Turn::More => Turn::More,
            Turn::Again { lock, word } => Turn::Again { lock, word },
        }
    }

    /// The turn that lets the stripe go again.
    #[inline(always)]
    fn leave(&mut self, world: &World, pass: &mut Pass, state: u64) -> Turn<Result<(), Gone>>
        requires of { IsOf world.now pass.old }
        requires under_way { IsUnderWay IsLocking self.old (view_of pass.old) }
        requires stage { self.old.stage ≡ Leaving state }
        ensures of { IsOf world.now pass.new }
        ensures turn { IsLockTurn result self.old self.new (view_of pass.old) (view_of pass.new) }
    {
        unlock(world, pass, self.id);
        Turn::Done(Err(Gone { state }))
    }
}
