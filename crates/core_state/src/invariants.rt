//! What is proved of the eight invariants and of locks, as the layers above use it. No call here does anything.
ghost use Rattle.std.specs.Prelude.{◌≡◌, ◌≢◌, ◌↔◌, ◌+◌, ◌<◌, ◌≤◌, ℕ, length};
ghost use Rattle.std.specs.Int.{bit_at};
ghost use Rattle.fixed_box.specs.Touch.{Touch};
ghost use Rattle.fixed_box.specs.declared.fix_box.FixBox.{FixBox};
ghost use Rattle.fixed_box.specs.declared.shape.Shape.TheVariants.{Box};
ghost use Rattle.scene_model.specs.History.{IsDue};
ghost use Rattle.word_map.specs.declared.config.Config.{Config};
ghost use Rattle.word_map.specs.declared.name.Name.{Name};
ghost use Rattle.word_map.specs.declared.name.Name.TheVariants.{Lock, State};
ghost use Rattle.word_map.specs.Limits.{IsConfig};
ghost use Rattle.word_map.specs.Names.{stripe_of};
ghost use Rattle.core_state.specs.declared.view.Mode.{Mode};
ghost use Rattle.core_state.specs.declared.view.Mode.TheVariants.{Read, Write};
ghost use Rattle.core_state.specs.declared.view.Walk.{Walk};
ghost use Rattle.core_state.specs.declared.view.View.{View};
ghost use Rattle.core_state.specs.Log.{word, history, IsPrefix};
ghost use Rattle.core_state.specs.View.{IsPass, Holds, HoldsNot};
ghost use Rattle.core_state.specs.Core.{Core, word_of, IsViewAt, opening};
ghost use Rattle.core_state.specs.Kind.{Kind, Step, Steps, after_step};
ghost use Rattle.core_state.specs.Seats.{Visits, Joins};
ghost use Rattle.core_state.specs.Looking.{MayLook, look};
ghost use Rattle.core_state.specs.Locking.{MayLoadLock, load_lock};
ghost use Rattle.core_state.specs.Lists.{MayLoadList, load_list};
ghost use Rattle.core_state.specs.Lives.{MayLoadBody, load_body};
ghost use Rattle.core_state.specs.Batches.{MayLoadSlot, load_slot};
ghost use Rattle.core_state.specs.Formed.{IsFormed};
ghost use Rattle.core_state.specs.Nodes.{Nodes};
ghost use Rattle.core_state.specs.Space.{HadSince};
ghost use Rattle.core_state.specs.Scope.{Scope, IsSameTo, sight, word_in};
ghost use Rattle.core_state.specs.Frame.{IsOutside, ReadsNoLog};
ghost use Rattle.core_state.specs.LocksAgree.{LocksAgree, IsHeldBy, lock_scope};
ghost use Rattle.core_state.specs.BodiesAgree.{BodiesAgree, body_scope};
ghost use Rattle.core_state.specs.NodesInOnePlace.{NodesInOnePlace, node_scope};
ghost use Rattle.core_state.specs.TreesSound.{TreesSound, tree_scope};
ghost use Rattle.core_state.specs.LocationsHold.{LocationsHold, location_scope};
ghost use Rattle.core_state.specs.BodiesCovered.{BodiesCovered, cover_scope};
ghost use Rattle.core_state.specs.Walking.{Query, start};
ghost use Rattle.core_state.specs.WalksLead.{WalksLead, IsAhead, since_begun, walk_scope};
ghost use Rattle.core_state.specs.ReadersCounted.{ReadersCounted, reader_scope};
ghost use Rattle.core_state.specs.Invariants.{Invariants};
ghost use Rattle.core_state.specs.Unseen.{IsUnseen};
ghost use Rattle.core_state.specs.Guards.{Owns, IsBodyWord, KeepsGuards, GuardsHold};
ghost use Rattle.core_state.specs.Broken.{bit_of_nobody, body_of_nothing, miscounted_pool, endless_tree, body_without_entry, body_without_location, walk_past_a_body, uncounted_reader};

/// A world of any sizes within the limits opens with all invariants.
pub fn opening_meets_all()
    ensures { (c : Config) → IsConfig c → Invariants (opening c) }
{}

/// Each invariant holds on where the words that it speaks of, the parts of views that it reads, and the history where
/// it reads it, are what they were.
pub fn each_keeps_what_it_does_not_see()
    ensures locks { (before after : Core) → IsSameTo lock_scope before after → LocksAgree before → LocksAgree after }
    ensures bodies { (before after : Core) → IsSameTo body_scope before after → BodiesAgree before → BodiesAgree after }
    ensures nodes { (nodes : Nodes) (before after : Core) → IsSameTo node_scope before after → NodesInOnePlace nodes before → NodesInOnePlace nodes after }
    ensures trees { (nodes : Nodes) (before after : Core) → IsSameTo tree_scope before after → TreesSound nodes before → TreesSound nodes after }
    ensures locations { (nodes : Nodes) (before after : Core) → IsSameTo location_scope before after → LocationsHold nodes before → LocationsHold nodes after }
    ensures cover { (nodes : Nodes) (before after : Core) → IsSameTo cover_scope before after → BodiesCovered nodes before → BodiesCovered nodes after }
    ensures walks { (before after : Core) → IsSameTo walk_scope before after → WalksLead before → WalksLead after }
    ensures readers { (nodes : Nodes) (before after : Core) → IsSameTo reader_scope before after → ReadersCounted nodes before → ReadersCounted nodes after }
{}

/// So far as a law sees, a core is as before after a step that stores none of its names, makes no entry that it reads
/// and changes no part of the view that it reads; and after a visitor is split off or joined.
pub fn steps_outside_a_scope_are_not_seen()
    ensures step { (scope : Scope) (kind : Kind) (core : Core) (step : Step) → IsViewAt core step.seat step.view → IsPass step.view step.number
        → IsOutside scope kind core step → IsSameTo scope core (after_step kind core step) }
    ensures visits { (scope : Scope) (before after : Core) → Visits before after → IsSameTo scope before after }
    ensures joins { (scope : Scope) (before after : Core) → ReadsNoLog scope → Joins before after → IsSameTo scope before after }
{}

/// Events that no invariant sees keep all of them: so do the splitting and joining of a visitor, a look, and the loads
/// of a lock word, of a word of a list, of a word of a body and of a slot.
pub fn unseen_events_keep_all()
    ensures unseen { (before after : Core) → IsUnseen before after → Invariants before → Invariants after }
    ensures visits { (before after : Core) → Visits before after → Invariants before → Invariants after }
    ensures joins { (before after : Core) → Joins before after → Invariants before → Invariants after }
    ensures looks { (before after : Core) → Steps MayLook look before after → Invariants before → Invariants after }
    ensures loads { (before after : Core) → Steps MayLoadLock load_lock before after → Invariants before → Invariants after }
    ensures lists { (before after : Core) → Steps MayLoadList load_list before after → Invariants before → Invariants after }
    ensures bodies { (before after : Core) → Steps MayLoadBody load_body before after → Invariants before → Invariants after }
    ensures slots { (before after : Core) → Steps MayLoadSlot load_slot before after → Invariants before → Invariants after }
{}

/// Bit p of a lock word is set exactly where pass p holds the lock to read, bit 32 + p exactly where it holds it to
/// write.
pub fn lock_words_have_the_bits_of_holders()
    ensures reader { (core : Core) (lock number : ℕ) → IsFormed core → LocksAgree core → number < 32
        → ((bit_at (word_of core (Lock lock)) number ≡ 1) ↔ IsHeldBy core lock number Read) }
    ensures writer { (core : Core) (lock number : ℕ) → IsFormed core → LocksAgree core → number < 32
        → ((bit_at (word_of core (Lock lock)) (32 + number) ≡ 1) ↔ IsHeldBy core lock number Write) }
{}

/// Who writes under a lock holds it alone. What a pass has for itself, by a lock that it holds or otherwise, stands
/// still from its last step on; so do the words of a live body whose stripe it holds, be it to read.
pub fn owned_words_stand_still()
    ensures alone { (core : Core) (lock seat other number second : ℕ) (view view_of_other : View) → LocksAgree core → IsViewAt core seat view → IsPass view number
        → Holds view lock Write → other ≢ seat → IsViewAt core other view_of_other → IsPass view_of_other second → HoldsNot view_of_other lock }
    ensures step { (kind : Kind) (core : Core) (step : Step) → IsViewAt core step.seat step.view → KeepsGuards kind core step → GuardsHold core
        → GuardsHold (after_step kind core step) }
    ensures still { (core : Core) (seat number : ℕ) (view : View) (name : Name) → IsFormed core → GuardsHold core → IsViewAt core seat view → IsPass view number
        → Owns core.config view name → word_of core name ≡ word core.config view.known name }
    ensures live { (core : Core) (seat number : ℕ) (view : View) (i : ℕ) (mode : Mode) (name : Name) → IsFormed core → GuardsHold core → IsViewAt core seat view → IsPass view number
        → Holds view (stripe_of core.config i) mode → 256 ≤ word core.config view.known (State i) → IsBodyWord i name
        → word_of core name ≡ word core.config view.known name }
{}

/// Together they let a walk begin at any moment: each body that it has to find is then ahead of it, in a tree that some
/// word names which it has not read.
pub fn walks_begin_with_all_ahead()
    ensures { (core : Core) (query : Query) (walk : Walk) (index generation : ℕ) → IsFormed core → Invariants core → walk.from ≤ length (history core.log)
        → IsDue (Touch query.shape) query.mask core.config.bodies (since_begun (sight walk_scope core) walk) index generation
        → IsAhead (word_in walk_scope core) (HadSince (sight walk_scope core) walk.from index) index query walk (start core.config query) }
{}

/// Each invariant fails in some core, so none of them is empty; and there are queries, so the one on walks speaks of
/// some.
pub fn no_invariant_is_empty()
    ensures locks { ¬ LocksAgree bit_of_nobody }
    ensures bodies { ¬ BodiesAgree body_of_nothing }
    ensures nodes { (nodes : Nodes) → ¬ NodesInOnePlace nodes miscounted_pool }
    ensures trees { (nodes : Nodes) → ¬ TreesSound nodes endless_tree }
    ensures locations { (b : FixBox) (nodes : Nodes) → ¬ LocationsHold nodes (body_without_entry b) }
    ensures cover { (b : FixBox) (nodes : Nodes) → ¬ BodiesCovered nodes (body_without_location b) }
    ensures walks { (b : FixBox) (query : Query) → bit_at query.mask 0 ≡ 1 → Touch query.shape b → ¬ WalksLead (walk_past_a_body b) }
    ensures readers { (nodes : Nodes) → ¬ ReadersCounted nodes uncounted_reader }
    ensures queries { (mask : ℕ) (b : FixBox) → (query : Query) × (query.mask ≡ mask) × (query.shape ≡ Box b) }
{}
