//! What is proved of the kinds of step of a removal, as the layers above use it. No call here does anything.
ghost use Rattle.std.specs.Prelude.{◌≡◌, ℕ, ◌<◌};
ghost use Rattle.scene_model.specs.declared.body_view.Phase.TheVariants.{Out};
ghost use Rattle.scene_model.specs.Step.{HasBody};
ghost use Rattle.word_map.specs.declared.name.Name.TheVariants.{LocB, Child};
ghost use Rattle.core_state.specs.Core.{Core, word_of, scene_of};
ghost use Rattle.core_state.specs.Kind.{Steps};
ghost use Rattle.core_state.specs.Encoding.{body_child};
ghost use Rattle.core_state.specs.Nodes.{made};
ghost use Rattle.core_state.specs.Removing.{MayRemove, remove, MayClearEntry, clear_entry, MayClearLocation, clear_location};
ghost use Rattle.core_state.specs.Formed.{IsFormed};
ghost use Rattle.core_state.specs.Guards.{GuardsHold};
ghost use Rattle.core_state.specs.Invariants.{Invariants};
ghost use Rattle.core_move.specs.Nowhere.{HasEntry, HasNoLocation, IsNowhere, IsLeaving, IsToBeGivenUp};

/// Taking a body out keeps all invariants: its places stay as they are, and from then on they are those of a body that is
/// taken out. It stores no word that another pass has for itself, since the pass holds the stripe.
pub fn bodies_are_taken_out()
    ensures keeps { (before after : Core) → Steps MayRemove remove before after → IsFormed before → GuardsHold before → Invariants before → Invariants after }
    ensures guarded { (before after : Core) → Steps MayRemove remove before after → IsFormed before → Invariants before → GuardsHold before → GuardsHold after }
{}

/// Clearing an entry of a body that is taken out keeps all invariants: no way to another body is cut, walks that are under way
/// reach what they reached, and an update that planned the entry has placed the body. The node stands in a tree, so its words
/// are nobody's own.
pub fn entries_are_cleared()
    ensures keeps { (before after : Core) → Steps MayClearEntry clear_entry before after → IsFormed before → GuardsHold before → Invariants before → Invariants after }
    ensures guarded { (before after : Core) → Steps MayClearEntry clear_entry before after → IsFormed before → Invariants before → GuardsHold before → GuardsHold after }
{}

/// Clearing a location of a body whose entries are cleared keeps all invariants, the first one before the second. No other
/// pass holds the stripe, and no batch the body.
pub fn locations_are_cleared()
    ensures keeps { (before after : Core) → Steps MayClearLocation clear_location before after → IsFormed before → GuardsHold before → Invariants before → Invariants after }
    ensures guarded { (before after : Core) → Steps MayClearLocation clear_location before after → IsFormed before → Invariants before → GuardsHold before → GuardsHold after }
{}

/// A body leaves the trees whole. Once the second location is cleared the body is out and nowhere: it has no location, and no
/// tree that a main word or a slot names has an entry of it. So it stays: a body that is out, and that nobody takes out, is
/// nowhere, at any moment; and no entry stands in such a tree of a body without a location. In a tree that an update makes an
/// entry of such a body stands only until the update has done with the body.
pub fn bodies_leave_the_trees_whole()
    ensures ends { (before after : Core) (steps : Steps MayClearLocation clear_location before after) (index : ℕ) → steps.step.name ≡ LocB index → IsFormed before → GuardsHold before → Invariants before
        → HasBody (scene_of after) index (λ r. r.phase ≡ Out) × IsNowhere after index }
    ensures out { (core : Core) (index : ℕ) → Invariants core → HasBody (scene_of core) index (λ r. r.phase ≡ Out) → ¬ IsLeaving core index → IsNowhere core index }
    ensures located { (core : Core) (index : ℕ) → Invariants core → HasNoLocation core index → ¬ HasEntry core index }
    ensures planned { (core : Core) (index : ℕ) → IsFormed core → (h : Invariants core) → HasNoLocation core index → (node child number layer : ℕ) → h.nodes.home node ≡ made number layer → child < 4
        → word_of core (Child node child) ≡ body_child index → IsToBeGivenUp core number index }
{}
