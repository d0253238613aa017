//! The steps by which an update promotes the bodies that it placed.
ghost use Rattle.core_state.specs.Core.{Core};
ghost use Rattle.core_state.specs.Kind.{Steps};
ghost use Rattle.core_state.specs.Retiring.{MayPromote, promote, MayClearSecond, clear_second, MayFindSecond, find_second};
ghost use Rattle.core_state.specs.Formed.{IsFormed};
ghost use Rattle.core_state.specs.Guards.{GuardsHold};
ghost use Rattle.core_state.specs.Invariants.{Invariants};

/// Storing the second location of a body as its first one keeps all invariants: no published tree loses an entry by it, since
/// the tree in which the first location was is superseded, or the two are the same. The pass holds the stripe, and no batch
/// holds the body.
pub fn bodies_are_promoted()
    ensures keeps { (before after : Core) → Steps MayPromote promote before after → IsFormed before → GuardsHold before → Invariants before → Invariants after }
    ensures guarded { (before after : Core) → Steps MayPromote promote before after → IsFormed before → Invariants before → GuardsHold before → GuardsHold after }
{}

/// Clearing the second location of a body that has the same first one keeps all invariants: the body stands where it stood.
pub fn second_locations_are_cleared()
    ensures keeps { (before after : Core) → Steps MayClearSecond clear_second before after → IsFormed before → GuardsHold before → Invariants before → Invariants after }
    ensures guarded { (before after : Core) → Steps MayClearSecond clear_second before after → IsFormed before → Invariants before → GuardsHold before → GuardsHold after }
{}

/// Loading the second location of a body keeps all invariants: where it is 0 the body was taken out since it was placed, and
/// the update has done with it.
pub fn second_locations_are_found()
    ensures keeps { (before after : Core) → Steps MayFindSecond find_second before after → IsFormed before → GuardsHold before → Invariants before → Invariants after }
    ensures guarded { (before after : Core) → Steps MayFindSecond find_second before after → IsFormed before → Invariants before → GuardsHold before → GuardsHold after }
{}
