//! What is proved of all steps of an update at once. No call here does anything.
ghost use Rattle.core_state.specs.Core.{Core};
ghost use Rattle.core_state.specs.Formed.{IsFormed};
ghost use Rattle.core_state.specs.Guards.{GuardsHold};
ghost use Rattle.core_state.specs.Invariants.{Invariants};
ghost use Rattle.core_state.specs.TreesSound.{BoundsOnlyWiden};
ghost use Rattle.core_state.specs.UpdateEvent.{UpdateEvent};

/// Each event of an update keeps everything: the form of the core, all invariants, and what passes have for themselves, since
/// it stores no word that another pass owns. And it leaves each bound of a node that stands as wide as it was.
pub fn updates_keep_everything()
    ensures formed { (before after : Core) → UpdateEvent before after → IsFormed before → IsFormed after }
    ensures keeps { (before after : Core) → UpdateEvent before after → IsFormed before → GuardsHold before → Invariants before → Invariants after }
    ensures guarded { (before after : Core) → UpdateEvent before after → IsFormed before → Invariants before → GuardsHold before → GuardsHold after }
    ensures widens { (before after : Core) (h : Invariants before) → UpdateEvent before after → IsFormed before → BoundsOnlyWiden h.nodes before after }
{}
