//! What holds of trees and plans, as contracts of functions that do nothing.

ghost use Rattle.std.specs.Prelude.{◌≡◌, ℕ, ◌<◌, List, map};
ghost use Rattle.std.specs.List.{Contains};
ghost use Rattle.std.specs.List.Sorted.{IsPermutation};
ghost use Rattle.fixed_box.specs.declared.fix_box.FixBox.{FixBox};
ghost use Rattle.scene_model.specs.Tree.{tree};
ghost use Rattle.tree_plan.specs.declared.plan_child.PlanChild.TheVariants.{Body};
ghost use Rattle.tree_plan.specs.Arranged.{AreApart};
ghost use Rattle.tree_plan.specs.Plan.{Plan, node_count, child_at, IsPlanOf};

/// The tree depends on the set of bodies alone: it is the same from any order.
pub fn tree_is_of_the_set()
    ensures { (bodies others : List (ℕ × FixBox)) → AreApart bodies → IsPermutation bodies others → tree bodies ≡ tree others }
{}

/// Each body of a plan stands at one place, and only bodies of the plan stand there.
pub fn body_stands_once()
    ensures somewhere { (bodies : List (ℕ × FixBox)) (plan : Plan) → IsPlanOf bodies plan → (index : ℕ) → Contains (map (λ b. b.0) bodies) index
        → (n : ℕ) × ((c : ℕ) × (n < node_count plan) × (c < 4) × (child_at plan n c ≡ Body index)) }
    ensures once { (bodies : List (ℕ × FixBox)) (plan : Plan) → AreApart bodies → IsPlanOf bodies plan → (index m b n c : ℕ) → m < node_count plan → b < 4 → n < node_count plan → c < 4
        → child_at plan m b ≡ Body index → child_at plan n c ≡ Body index → (m ≡ n) × (b ≡ c) }
    ensures given { (bodies : List (ℕ × FixBox)) (plan : Plan) → IsPlanOf bodies plan → (index n c : ℕ) → n < node_count plan → c < 4 → child_at plan n c ≡ Body index
        → Contains (map (λ b. b.0) bodies) index }
{}
