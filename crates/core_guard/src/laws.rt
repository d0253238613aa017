//! What is proved of the first kinds of step, as the layers above use it. No call here does anything.
ghost use Rattle.core_state.specs.Core.{Core};
ghost use Rattle.core_state.specs.Kind.{Steps};
ghost use Rattle.core_state.specs.Seats.{Opens};
ghost use Rattle.core_state.specs.Locking.{MayRead, take_read, MayWrite, take_write, MayRelease, release};
ghost use Rattle.core_state.specs.Lists.{MayStoreLink, store_link, MayStoreHead, store_head};
ghost use Rattle.core_state.specs.Lives.{MayStoreField, store_field, MayCreate, create, MayDestroy, destroy, MaySetUser, set_user};
ghost use Rattle.core_state.specs.Formed.{IsFormed};
ghost use Rattle.core_state.specs.Guards.{GuardsHold};
ghost use Rattle.core_state.specs.Invariants.{Invariants};

/// Opening a pass, taking a lock to read or to write, be it in vain, and letting it go each keep all invariants.
pub fn locks_keep_all()
    ensures opens { (before after : Core) → Opens before after → Invariants before → Invariants after }
    ensures reads { (before after : Core) → Steps MayRead take_read before after → Invariants before → Invariants after }
    ensures writes { (before after : Core) → Steps MayWrite take_write before after → Invariants before → Invariants after }
    ensures releases { (before after : Core) → IsFormed before → Steps MayRelease release before after → Invariants before → Invariants after }
{}

/// The steps on the list of free indexes and on bodies each keep all invariants: a link, a head, what a body is to be,
/// its creation, its destruction, its user number.
pub fn lives_keep_all()
    ensures links { (before after : Core) → Steps MayStoreLink store_link before after → IsFormed before → GuardsHold before → Invariants before → Invariants after }
    ensures heads { (before after : Core) → Steps MayStoreHead store_head before after → IsFormed before → GuardsHold before → Invariants before → Invariants after }
    ensures fields { (before after : Core) → Steps MayStoreField store_field before after → IsFormed before → GuardsHold before → Invariants before → Invariants after }
    ensures creations { (before after : Core) → Steps MayCreate create before after → IsFormed before → GuardsHold before → Invariants before → Invariants after }
    ensures destructions { (before after : Core) → Steps MayDestroy destroy before after → IsFormed before → GuardsHold before → Invariants before → Invariants after }
    ensures users { (before after : Core) → Steps MaySetUser set_user before after → IsFormed before → GuardsHold before → Invariants before → Invariants after }
{}

/// No step on the list of free indexes or on a body stores a word that another pass has for itself.
pub fn lives_are_guarded()
    ensures links { (before after : Core) → Steps MayStoreLink store_link before after → IsFormed before → Invariants before → GuardsHold before → GuardsHold after }
    ensures heads { (before after : Core) → Steps MayStoreHead store_head before after → IsFormed before → Invariants before → GuardsHold before → GuardsHold after }
    ensures fields { (before after : Core) → Steps MayStoreField store_field before after → IsFormed before → Invariants before → GuardsHold before → GuardsHold after }
    ensures creations { (before after : Core) → Steps MayCreate create before after → IsFormed before → Invariants before → GuardsHold before → GuardsHold after }
    ensures destructions { (before after : Core) → Steps MayDestroy destroy before after → IsFormed before → Invariants before → GuardsHold before → GuardsHold after }
    ensures users { (before after : Core) → Steps MaySetUser set_user before after → IsFormed before → Invariants before → GuardsHold before → GuardsHold after }
{}
