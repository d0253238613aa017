ghost use Rattle.std.specs.Prelude.{◌≡◌, ◌↔◌, IsTrue, map};
ghost use Rattle.std.specs.List.Sorted.{IsStrictlyIncreasing};
ghost use Rattle.tree_plan.specs.Arranged.{AreApart};

use fixed_box::FixBox;

/// Whether each index is above the one before it. No index stands twice then, as `Planner::fill` asks.
pub fn indexes_rise(bodies: &[(u32, FixBox)]) -> bool
    ensures exact { IsTrue result ↔ IsStrictlyIncreasing (map (λ b. b.0) bodies.now) }
    ensures apart { IsTrue result → AreApart bodies.now }
{
    for i in 1..bodies.len() {
        if bodies[i].0 <= bodies[i - 1].0 {
            return false;
        }
    }
    true
}
