//! What is proved of the kinds of step of a walk, as the layers above use it. No call here does anything.
ghost use Rattle.std.specs.Prelude.{◌≡◌, ◌≢◌, ℕ, ◌+◌, ◌*◌, ◌<◌, ◌≤◌, List, [], ◌∷◌, ◌++◌, false, length, AllPairs, Contains, Some, None};
ghost use Rattle.fixed_box.specs.Touch.{Touch};
ghost use Rattle.fixed_box.specs.declared.fix_box.FixBox.{FixBox};
ghost use Rattle.fixed_box.specs.declared.shape.Shape.{Shape};
ghost use Rattle.scene_model.specs.History.{IsDue};
ghost use Rattle.word_map.specs.declared.name.Name.{Name};
ghost use Rattle.word_map.specs.declared.name.Name.TheVariants.{Child};
ghost use Rattle.word_map.specs.Names.{IsName, node_count};
ghost use Rattle.word_map.specs.declared.config.Config.{Config};
ghost use Rattle.core_state.specs.declared.item.Load.{Load};
ghost use Rattle.core_state.specs.declared.view.View.{View};
ghost use Rattle.core_state.specs.declared.view.Waiting.{Waiting};
ghost use Rattle.core_state.specs.Core.{Core, word_of};
ghost use Rattle.core_state.specs.Scope.{Sight, sight};
ghost use Rattle.core_state.specs.Kind.{Steps};
ghost use Rattle.core_state.specs.Walks.{MayBegin, begin_walk, MayEnd, end_walk, MayWalkSlot, walk_slot, MayWalkMain, walk_main, MayWalkChild, walk_child, MayWalkBound, walk_bound};
ghost use Rattle.core_state.specs.Formed.{IsFormed};
ghost use Rattle.core_state.specs.Guards.{GuardsHold};
ghost use Rattle.core_state.specs.Invariants.{Invariants};
ghost use Rattle.core_state.specs.WalkRecord.{IsLoaded, IsWalked, IsCandidate, WalksOnce, ReadsBodies};
ghost use Rattle.core_state.specs.Walking.{Query, next_word, Follows, asked_words, position_of};
ghost use Rattle.core_state.specs.ReadersCounted.{reader_scope, layer_at_hand, waiting_at};
ghost use Rattle.core_query.specs.Ends.{IsWalking, walked_to, IsAtEnd, since};
ghost use Rattle.core_query.specs.WholeRecord.{ReadChild, six_words, node_loads, IsWholeRecord};
ghost use Rattle.core_query.specs.Found.{HasRead, IsFound};
ghost use Rattle.core_query.specs.Clear.{IsClear, IsClearOf, IsHullOf, asked_layers, loads_in};

/// The beginning and the end of a walk keep all invariants: when it begins, each body that it has to find is ahead of it.
pub fn walks_begin_and_end()
    ensures begins { (before after : Core) → Steps MayBegin begin_walk before after → IsFormed before → GuardsHold before → Invariants before → Invariants after }
    ensures ends { (before after : Core) → Steps MayEnd end_walk before after → IsFormed before → GuardsHold before → Invariants before → Invariants after }
{}

/// The loads of a walk keep all invariants. Of each query that the loads follow, each body that was ahead of the walk is so
/// still, or is a candidate, and the walk reaches no more than it did, or the tree that the word names.
pub fn walks_read_on()
    ensures slots { (before after : Core) → Steps MayWalkSlot walk_slot before after → IsFormed before → GuardsHold before → Invariants before → Invariants after }
    ensures mains { (before after : Core) → Steps MayWalkMain walk_main before after → IsFormed before → GuardsHold before → Invariants before → Invariants after }
    ensures children { (before after : Core) → Steps MayWalkChild walk_child before after → IsFormed before → GuardsHold before → Invariants before → Invariants after }
    ensures bounds { (before after : Core) → Steps MayWalkBound walk_bound before after → IsFormed before → GuardsHold before → Invariants before → Invariants after }
{}

/// No step of a walk stores a word that another pass has for itself.
pub fn walks_are_guarded()
    ensures begins { (before after : Core) → Steps MayBegin begin_walk before after → IsFormed before → Invariants before → GuardsHold before → GuardsHold after }
    ensures ends { (before after : Core) → Steps MayEnd end_walk before after → IsFormed before → Invariants before → GuardsHold before → GuardsHold after }
    ensures slots { (before after : Core) → Steps MayWalkSlot walk_slot before after → IsFormed before → Invariants before → GuardsHold before → GuardsHold after }
    ensures mains { (before after : Core) → Steps MayWalkMain walk_main before after → IsFormed before → Invariants before → GuardsHold before → GuardsHold after }
    ensures children { (before after : Core) → Steps MayWalkChild walk_child before after → IsFormed before → Invariants before → GuardsHold before → GuardsHold after }
    ensures bounds { (before after : Core) → Steps MayWalkBound walk_bound before after → IsFormed before → Invariants before → GuardsHold before → GuardsHold after }
{}

/// Where a walk has nothing left to read, every body that it has to find is a candidate: each one that at every point since
/// the walk began was in the broad phase, in an asked layer, with a box that touches the shape.
pub fn walks_find_all_due()
    ensures { (core : Core) (query : Query) (seat number : ℕ) (view : View) → Invariants core → IsWalking core query seat number view
        → IsAtEnd (walked_to core query view) → (index generation : ℕ)
        → IsDue (Touch query.shape) query.mask core.config.bodies (since core view.walk) index generation → IsCandidate query.shape view.walk.loads index }
{}

/// A walk reads words of the world. Each body that it has read as a child is one of the world, with the next load too, and
/// so is each candidate.
pub fn walks_stay_in_the_world()
    ensures words { (core : Core) (query : Query) (seat number : ℕ) (view : View) → Invariants core → IsWalking core query seat number view
        → (name : Name) → next_word (walked_to core query view).rest (walked_to core query view).spot ≡ Some name → IsName core.config name }
    ensures bodies { (core : Core) (query : Query) (seat number : ℕ) (view : View) → Invariants core → IsWalking core query seat number view
        → (name : Name) → next_word (walked_to core query view).rest (walked_to core query view).spot ≡ Some name
        → ReadsBodies core.config (view.walk.loads ++ record { name = name; value = word_of core name } ∷ []) }
    ensures candidates { (core : Core) (query : Query) (seat number : ℕ) (view : View) → Invariants core → IsWalking core query seat number view
        → (index : ℕ) → IsCandidate query.shape view.walk.loads index → index < core.config.bodies }
{}

/// The nodes that wait on the stack of a walk, and the one at hand, are of at most ten levels, and together never more than
/// 31. So a stack of 31 has room for one more.
pub fn stacks_of_walks_are_short()
    ensures levels { (core : Core) (query : Query) (seat number : ℕ) (view : View) → Invariants core → IsWalking core query seat number view
        → (w : Waiting) → Contains (waiting_at (walked_to core query view).spot (walked_to core query view).stack) w → w.level ≤ 10 }
    ensures nodes { (core : Core) (query : Query) (seat number : ℕ) (view : View) → Invariants core → IsWalking core query seat number view
        → length (waiting_at (walked_to core query view).spot (walked_to core query view).stack) ≤ 31 }
    ensures room { (core : Core) (query : Query) (seat number : ℕ) (view : View) → Invariants core → IsWalking core query seat number view
        → length (walked_to core query view).stack < 31 }
{}

/// What a query has read when nothing is left is a whole record, and each whole record is read so. That is, for each asked
/// layer, ascending, one load of each slot and then of the main word, each followed by the walk of its tree; of each node
/// that is walked one load of each of its four children, and six of the bound of each child that is not 0. No word is asked
/// for twice, so where no node was walked twice no word was read twice.
pub fn records_of_walks_are_whole()
    ensures whole { (c : Config) (query : Query) (loads : List Load) → Follows c query loads → IsAtEnd (position_of c query loads)
        → IsWholeRecord query [] (asked_words c query.mask) loads }
    ensures read { (c : Config) (query : Query) (loads : List Load) → IsWholeRecord query [] (asked_words c query.mask) loads
        → Follows c query loads × IsAtEnd (position_of c query loads) }
    ensures words { (c : Config) (mask : ℕ) → AllPairs (λ a b. a ≢ b) (asked_words c mask) }
    ensures once { (core : Core) (query : Query) (seat number : ℕ) (view : View) → Invariants core → IsWalking core query seat number view
        → IsAtEnd (walked_to core query view) → AllPairs (λ a b. a.name ≢ b.name) view.walk.loads }
{}

/// The nodes that were read when nothing is left are just those that a walk has to walk, each root and each child with a
/// bound that touches, and the bodies that it found are just its candidates. A node's four children were read one after the
/// other, and a bound with the child that has it, since no node is walked twice.
pub fn walked_nodes_are_read()
    ensures read { (core : Core) (query : Query) (seat number : ℕ) (view : View) → Invariants core → IsWalking core query seat number view
        → IsAtEnd (walked_to core query view) → (n : ℕ) → IsWalked query.shape view.walk.loads n → (children : ℕ → ReadChild) × HasRead view.walk.loads n children }
    ensures only { (c : Config) (query : Query) (loads : List Load) → Follows c query loads → IsAtEnd (position_of c query loads)
        → (n k value : ℕ) → IsLoaded loads (Child n k) value → IsWalked query.shape loads n }
    ensures found { (core : Core) (query : Query) (seat number : ℕ) (view : View) → Invariants core → IsWalking core query seat number view
        → IsAtEnd (walked_to core query view) → (index : ℕ) → IsCandidate query.shape view.walk.loads index → IsFound query view.walk.loads index }
    ensures candidates { (query : Query) (loads : List Load) (index : ℕ) → IsFound query loads index → IsCandidate query.shape loads index }
{}

/// No node is walked twice: that is so of what a walk has read, and with the next load too.
pub fn nodes_are_walked_once()
    ensures so_far { (core : Core) (query : Query) (seat number : ℕ) (view : View) → Invariants core → IsWalking core query seat number view → WalksOnce view.walk.loads }
    ensures next { (core : Core) (query : Query) (seat number : ℕ) (view : View) → Invariants core → IsWalking core query seat number view
        → (name : Name) → next_word (walked_to core query view).rest (walked_to core query view).spot ≡ Some name → (value : ℕ)
        → WalksOnce (view.walk.loads ++ record { name = name; value = value } ∷ []) }
{}

/// However trees change meanwhile, a walk makes no more loads than one of each asked word and 28 of each node of the world. So
/// each walk ends.
pub fn loads_of_walks_are_few()
    ensures { (core : Core) (query : Query) (seat number : ℕ) (view : View) → Invariants core → IsWalking core query seat number view
        → length view.walk.loads ≤ length (asked_words core.config query.mask) + 28 * node_count core.config }
{}

/// Where the shape touches no box in the space of any asked layer, as it stands when nothing is left to read, a walk has made
/// at most 29 loads for each slot and main word, since it has read of each tree the root alone. It found no body and has no
/// candidate.
pub fn clear_walks_read_roots_alone()
    ensures loads { (core : Core) (query : Query) (seat number : ℕ) (view : View) → Invariants core → IsWalking core query seat number view
        → IsAtEnd (walked_to core query view) → IsClear core query
        → length view.walk.loads ≤ 29 * ((core.config.slots + 1) * length (asked_layers core.config query.mask)) }
    ensures found { (core : Core) (query : Query) (seat number : ℕ) (view : View) → Invariants core → IsWalking core query seat number view
        → IsAtEnd (walked_to core query view) → IsClear core query → (index : ℕ) → ¬ IsFound query view.walk.loads index }
    ensures candidates { (core : Core) (query : Query) (seat number : ℕ) (view : View) → Invariants core → IsWalking core query seat number view
        → IsAtEnd (walked_to core query view) → IsClear core query → (index : ℕ) → ¬ IsCandidate query.shape view.walk.loads index }
{}

/// Of each layer by itself: where the shape touches no box in its space, a walk has made at most 29 loads for each slot and
/// the main word while the layer was at hand, and no bound that it read then touches the shape, whatever it read elsewhere.
pub fn clear_layers_have_few_loads()
    ensures loads { (core : Core) (query : Query) (seat number : ℕ) (view : View) → Invariants core → IsWalking core query seat number view
        → IsAtEnd (walked_to core query view) → (layer : ℕ) → IsClearOf (sight reader_scope core) query.shape layer
        → loads_in layer None view.walk.loads ≤ 29 * (core.config.slots + 1) }
    ensures untouched { (core : Core) (query : Query) (seat number : ℕ) (view : View) → Invariants core → IsWalking core query seat number view
        → IsAtEnd (walked_to core query view) → (layer : ℕ) → IsClearOf (sight reader_scope core) query.shape layer
        → (before later : List Load) (n : ℕ) (children : ℕ → ReadChild) → view.walk.loads ≡ before ++ (node_loads n children ++ later) → layer_at_hand before ≡ Some layer
        → (k : ℕ) → k < 4 → (children k).word ≢ 0 → query.test (six_words (children k).bound) ≡ false }
{}

/// A shape is clear of a layer where it does not touch a box that reaches as far as all that counts for its space.
pub fn hulls_tell_what_is_clear()
    ensures { (s : Sight) (shape : Shape) (layer : ℕ) (hull : FixBox) → IsHullOf s layer hull → ¬ Touch shape hull → IsClearOf s shape layer }
{}
