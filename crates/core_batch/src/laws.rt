//! What is proved of the kinds of step on batches, as the layers above use it. No call here does anything.
ghost use Rattle.core_state.specs.Core.{Core};
ghost use Rattle.core_state.specs.Kind.{Steps};
ghost use Rattle.core_state.specs.Batches.{MayReserve, reserve, MayMark, mark, MayStoreNode, store_node, MayPlace, place_body, MayAttach, attach, MayTakeBack, take_back, MayUnmark, unmark, MayLetSlotGo, let_slot_go};
ghost use Rattle.core_state.specs.Pool.{MayStorePoolLink, store_pool_link, MayStorePoolHead, store_pool_head, MayStorePoolCount, store_pool_count};
ghost use Rattle.core_state.specs.Formed.{IsFormed};
ghost use Rattle.core_state.specs.Guards.{GuardsHold};
ghost use Rattle.core_state.specs.Invariants.{Invariants};

/// The attachment of a batch keeps all invariants: with one store all its bodies come into the broad phase.
pub fn attach_keeps_all()
    ensures { (before after : Core) → Steps MayAttach attach before after → IsFormed before → GuardsHold before → Invariants before → Invariants after }
{}

/// It stores no word that another pass has for itself.
pub fn attach_is_guarded()
    ensures { (before after : Core) → Steps MayAttach attach before after → IsFormed before → Invariants before → GuardsHold before → GuardsHold after }
{}

/// The steps on the bodies of a batch each keep all invariants: a body is marked, placed in the batch's nodes, taken back
/// from there, and unmarked.
pub fn held_bodies_keep_all()
    ensures marks { (before after : Core) → Steps MayMark mark before after → IsFormed before → GuardsHold before → Invariants before → Invariants after }
    ensures places { (before after : Core) → Steps MayPlace place_body before after → IsFormed before → GuardsHold before → Invariants before → Invariants after }
    ensures takes_back { (before after : Core) → Steps MayTakeBack take_back before after → IsFormed before → GuardsHold before → Invariants before → Invariants after }
    ensures unmarks { (before after : Core) → Steps MayUnmark unmark before after → IsFormed before → GuardsHold before → Invariants before → Invariants after }
{}

/// No step on the bodies of a batch stores a word that another pass has for itself.
pub fn held_bodies_are_guarded()
    ensures marks { (before after : Core) → Steps MayMark mark before after → IsFormed before → Invariants before → GuardsHold before → GuardsHold after }
    ensures places { (before after : Core) → Steps MayPlace place_body before after → IsFormed before → Invariants before → GuardsHold before → GuardsHold after }
    ensures takes_back { (before after : Core) → Steps MayTakeBack take_back before after → IsFormed before → Invariants before → GuardsHold before → GuardsHold after }
    ensures unmarks { (before after : Core) → Steps MayUnmark unmark before after → IsFormed before → Invariants before → GuardsHold before → GuardsHold after }
{}

/// The steps on slots, own nodes and the pool each keep all invariants: a slot is reserved, be it in vain, or let go; a word
/// of an own node is stored; a link, the head by which a node is taken or given back, and the count of free nodes.
pub fn slots_and_nodes_keep_all()
    ensures reserves { (before after : Core) → Steps MayReserve reserve before after → IsFormed before → GuardsHold before → Invariants before → Invariants after }
    ensures goes { (before after : Core) → Steps MayLetSlotGo let_slot_go before after → IsFormed before → GuardsHold before → Invariants before → Invariants after }
    ensures nodes { (before after : Core) → Steps MayStoreNode store_node before after → IsFormed before → GuardsHold before → Invariants before → Invariants after }
    ensures links { (before after : Core) → Steps MayStorePoolLink store_pool_link before after → IsFormed before → GuardsHold before → Invariants before → Invariants after }
    ensures heads { (before after : Core) → Steps MayStorePoolHead store_pool_head before after → IsFormed before → GuardsHold before → Invariants before → Invariants after }
    ensures counts { (before after : Core) → Steps MayStorePoolCount store_pool_count before after → IsFormed before → GuardsHold before → Invariants before → Invariants after }
{}

/// No step on a slot, an own node or the pool stores a word that another pass has for itself.
pub fn slots_and_nodes_are_guarded()
    ensures reserves { (before after : Core) → Steps MayReserve reserve before after → IsFormed before → Invariants before → GuardsHold before → GuardsHold after }
    ensures goes { (before after : Core) → Steps MayLetSlotGo let_slot_go before after → IsFormed before → Invariants before → GuardsHold before → GuardsHold after }
    ensures nodes { (before after : Core) → Steps MayStoreNode store_node before after → IsFormed before → Invariants before → GuardsHold before → GuardsHold after }
    ensures links { (before after : Core) → Steps MayStorePoolLink store_pool_link before after → IsFormed before → Invariants before → GuardsHold before → GuardsHold after }
    ensures heads { (before after : Core) → Steps MayStorePoolHead store_pool_head before after → IsFormed before → Invariants before → GuardsHold before → GuardsHold after }
    ensures counts { (before after : Core) → Steps MayStorePoolCount store_pool_count before after → IsFormed before → Invariants before → GuardsHold before → GuardsHold after }
{}
