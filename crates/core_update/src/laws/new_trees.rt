//! What is proved of the steps by which an update makes its new trees. No call here does anything.
ghost use Rattle.std.specs.Prelude.{◌≡◌, ℕ, Some};
ghost use Rattle.core_state.specs.Batches.{MayStoreNode, store_node};
ghost use Rattle.core_state.specs.Core.{Core};
ghost use Rattle.core_state.specs.Kind.{Steps};
ghost use Rattle.core_state.specs.Nodes.{node_in, owned};
ghost use Rattle.core_state.specs.Noting.{MayStoreNewChild, store_new_child, MayStoreNewBound, store_new_bound, MayStoreNewParent, store_new_parent, MayFinishPlan, finish_plan};
ghost use Rattle.core_state.specs.Formed.{IsFormed};
ghost use Rattle.core_state.specs.Guards.{GuardsHold};
ghost use Rattle.core_state.specs.Invariants.{Invariants};
ghost use Rattle.core_state.specs.TreesSound.{BoundsOnlyWiden};

/// Storing a child, or a side of a bound, in a new tree keeps all invariants: the node is the pass's own and stands in no tree.
/// No other pass has its words for itself.
pub fn new_nodes_are_stored()
    ensures children { (before after : Core) → Steps MayStoreNewChild store_new_child before after → IsFormed before → GuardsHold before → Invariants before → Invariants after }
    ensures bounds { (before after : Core) → Steps MayStoreNewBound store_new_bound before after → IsFormed before → GuardsHold before → Invariants before → Invariants after }
    ensures children_guarded { (before after : Core) → Steps MayStoreNewChild store_new_child before after → IsFormed before → Invariants before → GuardsHold before → GuardsHold after }
    ensures bounds_guarded { (before after : Core) → Steps MayStoreNewBound store_new_bound before after → IsFormed before → Invariants before → GuardsHold before → GuardsHold after }
{}

/// Storing a parent in a new tree keeps all invariants, and so does the last one, with which the trees are planned: from then on
/// their nodes stand in them, each body that was noted is at its place there, and each bound lies in the hull of the boxes
/// noted below it. No other pass has the words of these nodes for itself.
pub fn new_parents_are_stored()
    ensures parents { (layer : ℕ) (before after : Core) → Steps (MayStoreNewParent layer) (store_new_parent layer) before after → IsFormed before → GuardsHold before → Invariants before → Invariants after }
    ensures last { (layer : ℕ) (before after : Core) → Steps (MayFinishPlan layer) (finish_plan layer) before after → IsFormed before → GuardsHold before → Invariants before → Invariants after }
    ensures parents_guarded { (layer : ℕ) (before after : Core) → Steps (MayStoreNewParent layer) (store_new_parent layer) before after → IsFormed before → Invariants before → GuardsHold before → GuardsHold after }
    ensures last_guarded { (layer : ℕ) (before after : Core) → Steps (MayFinishPlan layer) (finish_plan layer) before after → IsFormed before → Invariants before → GuardsHold before → GuardsHold after }
{}

/// Storing a side of a bound in a new tree leaves the bounds of all nodes that stand: it is one of a node that stands in no tree.
pub fn new_bounds_leave_trees()
    ensures { (before after : Core) (h : Invariants before) → Steps MayStoreNewBound store_new_bound before after → IsFormed before → BoundsOnlyWiden h.nodes before after }
{}

/// Words of nodes are stored, for a batch or for new trees, in nodes alone that are the pass's own and stand in no tree.
pub fn own_nodes_are_stored()
    ensures batches { (before after : Core) (h : Invariants before) (steps : Steps MayStoreNode store_node before after) (node : ℕ) → node_in steps.step.name ≡ Some node → h.nodes.home node ≡ owned steps.step.number }
    ensures children { (before after : Core) (h : Invariants before) → IsFormed before → (steps : Steps MayStoreNewChild store_new_child before after) (node : ℕ) → node_in steps.step.name ≡ Some node → h.nodes.home node ≡ owned steps.step.number }
    ensures bounds { (before after : Core) (h : Invariants before) → IsFormed before → (steps : Steps MayStoreNewBound store_new_bound before after) (node : ℕ) → node_in steps.step.name ≡ Some node → h.nodes.home node ≡ owned steps.step.number }
    ensures parents { (layer : ℕ) (before after : Core) (h : Invariants before) → IsFormed before → (steps : Steps (MayStoreNewParent layer) (store_new_parent layer) before after) (node : ℕ) → node_in steps.step.name ≡ Some node → h.nodes.home node ≡ owned steps.step.number }
    ensures last { (layer : ℕ) (before after : Core) (h : Invariants before) → IsFormed before → (steps : Steps (MayFinishPlan layer) (finish_plan layer) before after) (node : ℕ) → node_in steps.step.name ≡ Some node → h.nodes.home node ≡ owned steps.step.number }
{}
