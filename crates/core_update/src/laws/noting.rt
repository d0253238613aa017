//! What is proved of the first steps of an update and of the last ones: it begins, loads the arena, notes slots and bodies,
//! and at the end switches arenas and ends. No call here does anything.
ghost use Rattle.core_state.specs.Core.{Core};
ghost use Rattle.core_state.specs.Kind.{Steps};
ghost use Rattle.core_state.specs.Noting.{MayBeginUpdate, begin_update, MayLoadArena, load_arena, MayNoteSlot, note_slot, MayLookAtBody, look_at_body};
ghost use Rattle.core_state.specs.Retiring.{MaySwitchArena, switch_arena, MayEndUpdate, end_update};
ghost use Rattle.core_state.specs.Formed.{IsFormed};
ghost use Rattle.core_state.specs.Guards.{GuardsHold};
ghost use Rattle.core_state.specs.Invariants.{Invariants};

/// Beginning an update keeps all invariants, be it in vain. It stores its word only where no pass has an update under way.
pub fn updates_begin()
    ensures keeps { (before after : Core) → Steps MayBeginUpdate begin_update before after → IsFormed before → GuardsHold before → Invariants before → Invariants after }
    ensures guarded { (before after : Core) → Steps MayBeginUpdate begin_update before after → IsFormed before → Invariants before → GuardsHold before → GuardsHold after }
{}

/// Loading the number of the arena keeps all invariants: the nodes of the other arena, which were spare, are then the
/// update's own. It stores nothing.
pub fn arenas_are_loaded()
    ensures keeps { (before after : Core) → Steps MayLoadArena load_arena before after → IsFormed before → GuardsHold before → Invariants before → Invariants after }
    ensures guarded { (before after : Core) → Steps MayLoadArena load_arena before after → IsFormed before → Invariants before → GuardsHold before → GuardsHold after }
{}

/// Noting a slot keeps all invariants: a tree that is found there stands in the slot until the update clears it. It stores
/// nothing.
pub fn slots_are_noted()
    ensures keeps { (before after : Core) → Steps MayNoteSlot note_slot before after → IsFormed before → GuardsHold before → Invariants before → Invariants after }
    ensures guarded { (before after : Core) → Steps MayNoteSlot note_slot before after → IsFormed before → Invariants before → GuardsHold before → GuardsHold after }
{}

/// Looking at a body keeps all invariants: a body that is passed over is in no tree that the update replaces, and one that is
/// noted is as it was noted. It stores nothing.
pub fn bodies_are_noted()
    ensures keeps { (before after : Core) → Steps MayLookAtBody look_at_body before after → IsFormed before → GuardsHold before → Invariants before → Invariants after }
    ensures guarded { (before after : Core) → Steps MayLookAtBody look_at_body before after → IsFormed before → Invariants before → GuardsHold before → GuardsHold after }
{}

/// Switching arenas keeps all invariants: all main trees are in the new one by then. Only the pass that has the update under
/// way stores the word.
pub fn arenas_are_switched()
    ensures keeps { (before after : Core) → Steps MaySwitchArena switch_arena before after → IsFormed before → GuardsHold before → Invariants before → Invariants after }
    ensures guarded { (before after : Core) → Steps MaySwitchArena switch_arena before after → IsFormed before → Invariants before → GuardsHold before → GuardsHold after }
{}

/// Ending an update keeps all invariants: no body has two locations any more, no node is superseded or to be given back, and
/// the nodes that the update did not use are spare. Only the pass that has the update under way stores its word.
pub fn updates_end()
    ensures keeps { (before after : Core) → Steps MayEndUpdate end_update before after → IsFormed before → GuardsHold before → Invariants before → Invariants after }
    ensures guarded { (before after : Core) → Steps MayEndUpdate end_update before after → IsFormed before → Invariants before → GuardsHold before → GuardsHold after }
{}
