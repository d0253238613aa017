//! The steps by which an update takes trees out of sight: main words are exchanged, and merged slots cleared.
ghost use Rattle.std.specs.Prelude.{◌≡◌, ◌≢◌, ℕ, ◌<◌, Some};
ghost use Rattle.scene_model.specs.declared.body_view.Phase.TheVariants.{In};
ghost use Rattle.scene_model.specs.Scene.{Record, record_at};
ghost use Rattle.word_map.specs.declared.name.Name.{Name};
ghost use Rattle.word_map.specs.declared.name.Name.TheVariants.{LocA, LocB};
ghost use Rattle.core_state.specs.Core.{Core, word_of, scene_of};
ghost use Rattle.core_state.specs.Kind.{Steps};
ghost use Rattle.core_state.specs.Encoding.{place};
ghost use Rattle.core_state.specs.Exchanging.{MayExchange, exchange_main, MayClearSlot, clear_slot};
ghost use Rattle.core_state.specs.Nodes.{superseded};
ghost use Rattle.core_state.specs.Scope.{sight};
ghost use Rattle.core_state.specs.BodiesCovered.{cover_scope, IsCovered};
ghost use Rattle.core_state.specs.Formed.{IsFormed};
ghost use Rattle.core_state.specs.Guards.{GuardsHold};
ghost use Rattle.core_state.specs.Invariants.{Invariants};

/// Exchanging a main word keeps all invariants, also while walks are under way: the old tree is superseded and the new one
/// stands under the word. Each body that stood in the old tree stands in the new one, and a walk that has not read the word
/// finds it there. No other pass has the word for itself.
pub fn main_words_are_exchanged()
    ensures keeps { (before after : Core) → Steps MayExchange exchange_main before after → IsFormed before → GuardsHold before → Invariants before → Invariants after }
    ensures guarded { (before after : Core) → Steps MayExchange exchange_main before after → IsFormed before → Invariants before → GuardsHold before → GuardsHold after }
{}

/// Clearing a merged slot keeps all invariants: the merged tree is superseded, each body that stood in it stands in the main
/// tree of its layer, and a walk that has not read the slot finds it there, since it reads the main word last. No batch is for
/// a slot that has a tree.
pub fn slots_are_cleared()
    ensures keeps { (before after : Core) → Steps MayClearSlot clear_slot before after → IsFormed before → GuardsHold before → Invariants before → Invariants after }
    ensures guarded { (before after : Core) → Steps MayClearSlot clear_slot before after → IsFormed before → Invariants before → GuardsHold before → GuardsHold after }
{}

/// No body is lost, at any moment: one whose first location is in a tree that was taken out of sight has a second one, and
/// each body in the broad phase has a location in a published tree of its layer.
pub fn no_body_is_lost()
    ensures second { (core : Core) (h : Invariants core) (index node child number : ℕ) (name : Name) → child < 4 → word_of core (LocA index) ≡ place node child → h.nodes.home node ≡ superseded number name → word_of core (LocB index) ≢ 0 }
    ensures covered { (core : Core) (h : Invariants core) (index : ℕ) (body : Record) → record_at (scene_of core) index ≡ Some body → body.phase ≡ In → IsCovered h.nodes (sight cover_scope core) index body.layer }
{}
