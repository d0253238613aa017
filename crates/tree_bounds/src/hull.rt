ghost use Rattle.std.specs.Prelude.{◌≢◌, ◌*◌, ◌<◌, ◌≤◌, length};
ghost use Rattle.tree_plan.specs.declared.plan_child.PlanChild.TheVariants.{Nothing};
ghost use Rattle.tree_plan.specs.Plan.{node_count, child_at};
ghost use Rattle.tree_bounds.specs.Bounds.{IsHullOfNode};
ghost use Rattle.tree_bounds.specs.Held.{bound_in};

use fixed_box::FixBox;
use tree_plan::{PlanChild, Planner};

/// The hull of the bounds of a node's children, of which the first is always there.
pub(crate) fn hull_of_node(planner: &Planner, bounds: &[FixBox], node: u32) -> FixBox
    requires node { node < node_count planner.now }
    requires first { child_at planner.now node 0 ≢ Nothing }
    requires room { 4 * node_count planner.now ≤ length bounds.now }
    ensures { IsHullOfNode planner.now (bound_in bounds.now) node result }
{
    let first = 4 * node as usize;
    let mut hull = bounds[first];
    for c in 1..4 {
        match planner.child(node, c) {
            PlanChild::Nothing => {}
            _ => hull = hull.hull(&bounds[first + c as usize]),
        }
    }
    hull
}
