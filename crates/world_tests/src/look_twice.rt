//! An operation of two looks, as a caller may write one.
ghost use Rattle.std.specs.Prelude.{ℕ, ◌≡◌, ◌-◌, ◌≤◌, None, Some, ◌==◌, if◌then◌else◌};
ghost use Rattle.core_state.specs.declared.view.View.{View};

use pass_table::{Label, Operation, Pass, Turn, World};
use scene_model::Made;

/// Looks twice. Its labels are 1 and 2, one for each look.
#[derive(Drop)]
pub(crate) struct LookTwice {
    pub(crate) looks: u32,
}

impl Operation for LookTwice {
    ghost use Rattle.core_state.specs.Log.{IsPrefix};
    ghost use Rattle.core_state.proofs.Prefixes.{IsPrefix-trans};

    type Done = ();

    ghost under_way = { λ first start operation view. (operation.looks ≤ 2) × IsPrefix start.known view.known };

    ghost answers = { λ first start last next answer. IsPrefix start.known next.known };

    ghost left = { λ operation. 3 - operation.looks };

    ghost takes = { λ operation. None };

    ghost reached = { λ operation. if operation.looks == 0 then None else Some operation.looks };

    ghost last_label = { Some 2 };

    ghost refused = { λ answer. ⊥ };

    ghost says = { λ first start next label. IsPrefix start.known next.known };

    ghost entry = { λ operation. None };

    fn turn(&mut self, world: &World, pass: &mut Pass) -> Turn<()> {
        if self.looks >= 2 {
            return Turn::Done(());
        }
        pass.look(world);
        self.looks += 1;
        Turn::More
    }

    fn label(&self) -> Option<Label> {
        if self.looks == 0 {
            None
        } else {
            Some(Label::new(self.looks))
        }
    }

    fn made(&self) -> Option<&Made> {
        None
    }

    ghost may_look = { λ first start operation view next more under_way. (under_way.0, IsPrefix-trans start.known view.known next.known under_way.1 (more.since, more.known)) };
}
