//! What is proved of the steps by which an update places a body in its new trees, or gives it up. No call here does anything.
ghost use Rattle.std.specs.Prelude.{ℕ};
ghost use Rattle.core_state.specs.Core.{Core};
ghost use Rattle.core_state.specs.Kind.{Steps};
ghost use Rattle.core_state.specs.Placing.{MayLoadParentPlacing, load_parent_placing, MayWidenLowToPlace, MayWidenHighToPlace, widen_low_placing, widen_high_placing, MayPlaceNoted, place_noted, MayPlacePhase, place_phase, MayGiveUp, give_up};
ghost use Rattle.core_state.specs.Formed.{IsFormed};
ghost use Rattle.core_state.specs.Guards.{GuardsHold};
ghost use Rattle.core_state.specs.Invariants.{Invariants};
ghost use Rattle.core_state.specs.Nodes.{Nodes};
ghost use Rattle.core_state.specs.TreesSound.{BoundsOnlyWiden};

/// The load of a parent, to place a body, keeps all invariants: the node is on the way up from the planned place. It stores
/// nothing.
pub fn parents_are_loaded_to_place()
    ensures keeps { (index : ℕ) (before after : Core) → Steps (MayLoadParentPlacing index) (load_parent_placing index) before after → IsFormed before → GuardsHold before → Invariants before → Invariants after }
    ensures guarded { (index : ℕ) (before after : Core) → Steps (MayLoadParentPlacing index) (load_parent_placing index) before after → IsFormed before → Invariants before → GuardsHold before → GuardsHold after }
{}

/// Widening a side of a bound to place a body keeps all invariants: the bound is in a new tree, above the place that is
/// planned for the body, and the side is one of its box. It stores no word that another pass has for itself, and leaves each
/// bound as wide as it was.
pub fn bounds_are_widened_to_place()
    ensures low { (index : ℕ) (before after : Core) → Steps (MayWidenLowToPlace index) (widen_low_placing index) before after → IsFormed before → GuardsHold before → Invariants before → Invariants after }
    ensures high { (index : ℕ) (before after : Core) → Steps (MayWidenHighToPlace index) (widen_high_placing index) before after → IsFormed before → GuardsHold before → Invariants before → Invariants after }
    ensures low_guarded { (index : ℕ) (before after : Core) → Steps (MayWidenLowToPlace index) (widen_low_placing index) before after → IsFormed before → Invariants before → GuardsHold before → GuardsHold after }
    ensures high_guarded { (index : ℕ) (before after : Core) → Steps (MayWidenHighToPlace index) (widen_high_placing index) before after → IsFormed before → Invariants before → GuardsHold before → GuardsHold after }
    ensures low_widens { (index : ℕ) (nodes : Nodes) (before after : Core) → Steps (MayWidenLowToPlace index) (widen_low_placing index) before after → BoundsOnlyWiden nodes before after }
    ensures high_widens { (index : ℕ) (nodes : Nodes) (before after : Core) → Steps (MayWidenHighToPlace index) (widen_high_placing index) before after → BoundsOnlyWiden nodes before after }
{}

/// Placing a body keeps all invariants: its second location is the place that is planned for it in the new tree of its layer,
/// every bound above it contains the box, and no batch holds the body. No other pass has its stripe.
pub fn bodies_are_placed()
    ensures keeps { (before after : Core) → Steps MayPlaceNoted place_noted before after → IsFormed before → GuardsHold before → Invariants before → Invariants after }
    ensures guarded { (before after : Core) → Steps MayPlaceNoted place_noted before after → IsFormed before → Invariants before → GuardsHold before → GuardsHold after }
{}

/// Storing the phase of a body that is placed keeps all invariants: it is in the tree of a slot that is merged still, and has its
/// second location, so it stays covered. No other pass has its stripe.
pub fn phases_of_placed_bodies_are_stored()
    ensures keeps { (before after : Core) → Steps MayPlacePhase place_phase before after → IsFormed before → GuardsHold before → Invariants before → Invariants after }
    ensures guarded { (before after : Core) → Steps MayPlacePhase place_phase before after → IsFormed before → Invariants before → GuardsHold before → GuardsHold after }
{}

/// Giving a body up keeps all invariants: its entry in the new tree is a location of no body, no walk comes to it, and the body
/// is in none of the trees that the update replaces. The node stands in a tree, so its words are nobody's own.
pub fn bodies_are_given_up()
    ensures keeps { (index : ℕ) (before after : Core) → Steps (MayGiveUp index) (give_up index) before after → IsFormed before → GuardsHold before → Invariants before → Invariants after }
    ensures guarded { (index : ℕ) (before after : Core) → Steps (MayGiveUp index) (give_up index) before after → IsFormed before → Invariants before → GuardsHold before → GuardsHold after }
{}
