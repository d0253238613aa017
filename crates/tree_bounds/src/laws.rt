//! What holds of plans and bounds, as contracts of functions that do nothing.

ghost use Rattle.std.specs.Prelude.{ℕ, List};
ghost use Rattle.std.specs.List.Sorted.{IsPermutation};
ghost use Rattle.fixed_box.specs.declared.fix_box.FixBox.{FixBox};
ghost use Rattle.tree_plan.specs.Arranged.{AreApart};
ghost use Rattle.tree_plan.specs.Plan.{Plan, IsPlanOf};
ghost use Rattle.tree_bounds.specs.Bounds.{AreBoundsOf};

/// A plan is one of a set of bodies, whatever their order. So it still is of them when they have been sorted.
pub fn plan_is_of_the_set()
    ensures { (bodies others : List (ℕ × FixBox)) (plan : Plan) → AreApart bodies → IsPermutation bodies others → IsPlanOf bodies plan → IsPlanOf others plan }
{}

/// And so are the bounds.
pub fn bounds_are_of_the_set()
    ensures { (bodies others : List (ℕ × FixBox)) (plan : Plan) (bound : ℕ → ℕ → FixBox) → IsPermutation bodies others → AreBoundsOf bodies plan bound → AreBoundsOf others plan bound }
{}
