//! What holds of locked bodies. No call here does anything.
ghost use Rattle.std.specs.Prelude.{ℕ, List, ◌++◌};
ghost use Rattle.body_ident.specs.Id.{Id};
ghost use Rattle.scene_model.specs.declared.entry.Made.{Made};
ghost use Rattle.scene_model.specs.History.{scene_after, IsLawfulHistory};
ghost use Rattle.scene_model.specs.Cause.{IsCauseAt, gone};
ghost use Rattle.core_state.specs.declared.view.Mode.{Mode};
ghost use Rattle.core_state.specs.declared.view.View.{View};
ghost use Rattle.pass_table.specs.Knowing.{KnowsMore, Looked, MeetsWith};
ghost use Rattle.pass_table.specs.Bodies.{IsAlone};
ghost use Rattle.pass_table.specs.Bodies.{IsGuarding, IsCurrent};
ghost use Rattle.body_lock.specs.Staying.{BodyStays};
ghost use Rattle.body_lock.specs.Settled.{NamesCreation};

/// A body that is locked, be it to read, stays live and is the same at all points while others act, but that one which a
/// batch holds may come into the broad phase.
pub fn locked_bodies_stay()
    ensures { (number : ℕ) (id : Id) (mode : Mode) (view next : View) → IsGuarding number id mode view → KnowsMore view next → IsCurrent next → BodyStays id.index view next }
{}

/// A guard is as good after a look or a meeting, after which the pass knows the whole log.
pub fn guards_stay_good()
    ensures good { (number : ℕ) (id : Id) (mode : Mode) (view next : View) → IsAlone number id mode view → KnowsMore view next → IsAlone number id mode next }
    ensures looked { (view next : View) → Looked view next → IsCurrent next }
    ensures met { (view other next : View) → MeetsWith view other next → IsCurrent next }
{}

/// A body that is gone after a history stays gone in one that goes on from it, as long as fewer than 256 bodies were
/// created at its index since the creation that its id names.
pub fn gone_bodies_stay_gone()
    ensures { (layers bodies : ℕ) (id : Id) (g : ℕ) (first later : List Made) → IsLawfulHistory layers bodies (first ++ later) → NamesCreation id g first (first ++ later) → IsCauseAt (gone id) (scene_after bodies first) → IsCauseAt (gone id) (scene_after bodies (first ++ later)) }
{}
