//! What is proved of the steps by which an update finds that no reader is left in what it took out of sight, and gives back
//! the nodes of the trees that it merged. No call here does anything.
ghost use Rattle.std.specs.Prelude.{◌≡◌, ◌≢◌, ◌≤◌, ℕ, true, List, [], Some, Contains};
ghost use Rattle.word_map.specs.declared.config.Config.{Config};
ghost use Rattle.word_map.specs.declared.name.Name.{Name};
ghost use Rattle.core_state.specs.declared.view.View.{View};
ghost use Rattle.core_state.specs.declared.view.Rebuild.{Rebuild};
ghost use Rattle.core_state.specs.declared.view.Waiting.{Waiting};
ghost use Rattle.core_state.specs.Core.{Core, IsViewAt, opening};
ghost use Rattle.core_state.specs.Event.{Run};
ghost use Rattle.core_state.specs.View.{IsPass};
ghost use Rattle.core_state.specs.Nodes.{free, spare, returning, IsOwnedBy};
ghost use Rattle.core_state.specs.Noting.{StoresNew};
ghost use Rattle.core_state.specs.ReadersCounted.{Reaches, reader_scope};
ghost use Rattle.core_state.specs.Scope.{sight};
ghost use Rattle.core_state.specs.Walking.{Follows, Query, position_of};
ghost use Rattle.core_state.specs.Kind.{Steps};
ghost use Rattle.core_state.specs.Retiring.{MayLoadReader, load_reader, MayLoadReturned, load_returned, MayLinkReturned, link_returned, MayGiveReturned, give_returned, with_tops, tops_after};
ghost use Rattle.core_state.specs.Formed.{IsFormed};
ghost use Rattle.core_state.specs.Guards.{GuardsHold};
ghost use Rattle.core_state.specs.Invariants.{Invariants};
ghost use Rattle.core_update.specs.Stacked.{begun, IsStacked};

/// Loading a child of a node that is to be given back keeps all invariants. It stores nothing.
pub fn returned_nodes_are_looked_at()
    ensures keeps { (before after : Core) → Steps MayLoadReturned load_returned before after → IsFormed before → GuardsHold before → Invariants before → Invariants after }
    ensures guarded { (before after : Core) → Steps MayLoadReturned load_returned before after → IsFormed before → Invariants before → GuardsHold before → GuardsHold after }
{}

/// Storing the link of a node that is to be given back keeps all invariants: the node is in no list of the pool yet. Only who
/// has the lock of the pool stores the word.
pub fn returned_nodes_are_linked()
    ensures keeps { (before after : Core) → Steps MayLinkReturned link_returned before after → IsFormed before → GuardsHold before → Invariants before → Invariants after }
    ensures guarded { (before after : Core) → Steps MayLinkReturned link_returned before after → IsFormed before → Invariants before → GuardsHold before → GuardsHold after }
{}

/// Giving a node back keeps all invariants: it is then the first one of the pool, and those of its children that are nodes are
/// tops of what is left, in its place. Only who has the lock of the pool stores the word.
pub fn returned_nodes_are_given()
    ensures keeps { (before after : Core) → Steps MayGiveReturned give_returned before after → IsFormed before → GuardsHold before → Invariants before → Invariants after }
    ensures guarded { (before after : Core) → Steps MayGiveReturned give_returned before after → IsFormed before → Invariants before → GuardsHold before → GuardsHold after }
{}

/// The nodes that wait to be given back are of at most ten levels, that of a root being 1.
pub fn returned_nodes_have_ten_levels()
    ensures { (core : Core) (h : Invariants core) (seat number : ℕ) (view : View) (r : Rebuild) → IsViewAt core seat view → IsPass view number → view.rebuild ≡ Some r → (w : Waiting) → Contains r.returning w → w.level ≤ 10 }
{}

/// A tree that is begun never has more than 28 nodes that wait to be given back: they are a stack before the roots of the
/// other trees. Roots alone are such a stack, and so is what is left where its first node goes and the children come. So in
/// every run what an update has to give back is one.
pub fn returned_nodes_are_stacked()
    ensures begins { (r : Rebuild) → IsStacked (with_tops r).returning }
    ensures goes_on { (word : Name → ℕ) (tops : List Waiting) → IsStacked tops → IsStacked (tops_after word tops) }
    ensures run { (c : Config) (last : Core) → Run (opening c) last → (seat : ℕ) (view : View) (r : Rebuild) → IsViewAt last seat view → view.rebuild ≡ Some r → IsStacked r.returning }
    ensures few { (core : Core) (h : Invariants core) (seat number : ℕ) (view : View) (r : Rebuild) → IsViewAt core seat view → IsPass view number → view.rebuild ≡ Some r → IsStacked r.returning → begun r.returning ≤ 28 }
{}

/// Loading the word of a reader keeps all invariants. As long as some pass may still walk in what the update took out of sight,
/// the update notes the load and no more. With the load that shows that none does, once all bodies that it placed are promoted,
/// the nodes of main trees that it exchanged are spare and those of the trees that it merged are to be given back, from their
/// roots on: no walk, no location and no climb comes to any of them. The step stores nothing.
pub fn readers_are_loaded()
    ensures keeps { (before after : Core) → Steps MayLoadReader load_reader before after → IsFormed before → GuardsHold before → Invariants before → Invariants after }
    ensures guarded { (before after : Core) → Steps MayLoadReader load_reader before after → IsFormed before → Invariants before → GuardsHold before → GuardsHold after }
{}

/// A node that is free or spare, or to be given back, is reached by no pass that walks.
pub fn walks_stay_in_trees()
    ensures { (core : Core) (h : Invariants core) (seat number : ℕ) (view : View) → IsViewAt core seat view → IsPass view number → view.walk.is_on ≡ true → (query : Query) → Follows core.config query view.walk.loads → (node : ℕ) → Reaches (sight reader_scope core).word (position_of core.config query view.walk.loads) node → (h.nodes.home node ≢ free) × (h.nodes.home node ≢ spare) × ((giver : ℕ) → h.nodes.home node ≢ returning giver) }
{}

/// Where the update of a pass has nothing left to give back, no node is to be given back by that pass.
pub fn nothing_is_left_to_return()
    ensures { (core : Core) → IsFormed core → (h : Invariants core) (seat number : ℕ) (view : View) → IsViewAt core seat view → IsPass view number → (r : Rebuild) → view.rebuild ≡ Some r → r.returning ≡ [] → (node : ℕ) → h.nodes.home node ≢ returning number }
{}

/// A node in which an update stores words of new trees is its own.
pub fn new_nodes_are_owned()
    ensures { (core : Core) (h : Invariants core) (seat number : ℕ) (view : View) → IsViewAt core seat view → IsPass view number → (r : Rebuild) (node : ℕ) → StoresNew view r node → IsOwnedBy number (h.nodes.home node) }
{}
