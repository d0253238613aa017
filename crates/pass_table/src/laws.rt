//! What holds in every run, and of every pass. No call here does anything.
ghost use Rattle.std.specs.Prelude.{◌≡◌, ℕ, List, ◌++◌, ◌≤◌, Some};
ghost use Rattle.scene_model.specs.declared.entry.Entry.{Entry};
ghost use Rattle.word_map.specs.declared.config.Config.{Config};
ghost use Rattle.word_map.specs.Limits.{IsConfig};
ghost use Rattle.core_state.specs.declared.item.Item.{Item};
ghost use Rattle.core_state.specs.declared.item.Store.{Store};
ghost use Rattle.core_state.specs.declared.view.Rebuild.{Rebuild};
ghost use Rattle.core_state.specs.declared.view.View.{View};
ghost use Rattle.core_state.specs.View.{IsPass};
ghost use Rattle.core_state.specs.Core.{Core, IsViewAt, opening};
ghost use Rattle.core_state.specs.Event.{Event, Run};
ghost use Rattle.core_state.specs.Formed.{IsFormed};
ghost use Rattle.pass_table.specs.FormedForUpdate.{IsFormedForUpdate};
ghost use Rattle.core_state.specs.Guards.{GuardsHold};
ghost use Rattle.core_state.specs.Nodes.{Nodes};
ghost use Rattle.core_state.specs.TreesSound.{BoundsOnlyWiden};
ghost use Rattle.core_state.specs.Invariants.{Invariants};
ghost use Rattle.core_update.specs.Stacked.{begun};
ghost use Rattle.pass_table.specs.Knowing.{KnowsLawful};
ghost use Rattle.pass_table.specs.Bodies.{IsCurrent};
ghost use Rattle.pass_table.specs.Calls.{Adds};
ghost use Rattle.pass_table.specs.Work.{Tells};
ghost use Rattle.pass_table.specs.Several.{KnowsOwn, SeesJust, MeetInTurn};
ghost use Rattle.pass_table.specs.Passes.{view_of};

use crate::pass::Pass;

/// Each event, of whatever kind, leads from a core that meets all invariants to one that does, and stores no word that
/// another pass has for itself. So all cores of all runs meet them, and in every run what a pass has for itself stands
/// still.
pub fn events_keep_all()
    ensures event { (before after : Core) → Event before after → IsFormed before → GuardsHold before → Invariants before → Invariants after }
    ensures guards { (before after : Core) → Event before after → IsFormed before → Invariants before → GuardsHold before → GuardsHold after }
    ensures run { (c : Config) (last : Core) → IsConfig c → Run (opening c) last → Invariants last }
    ensures run_guards { (c : Config) (last : Core) → IsConfig c → Run (opening c) last → GuardsHold last }
{}

/// Bounds of trees only widen: every event leaves each bound of a node that stands as wide as it was, one of an update where
/// the core is formed, and so does each event of a run.
pub fn bounds_only_widen()
    ensures event { (before after : Core) (h : Invariants before) → (e : Event before after) → IsFormedForUpdate before after e → BoundsOnlyWiden h.nodes before after }
    ensures run { (c : Config) (last next : Core) (h : Invariants last) → IsConfig c → Run (opening c) last → Event last next → BoundsOnlyWiden h.nodes last next }
{}

/// In every run a tree that is given back never has more than 28 nodes that wait, besides the roots of those that are not
/// begun. So a stack of 40 has room for them.
pub fn returned_nodes_are_few()
    ensures { (c : Config) (last : Core) (seat number : ℕ) (view : View) (r : Rebuild) → IsConfig c → Run (opening c) last → IsViewAt last seat view → IsPass view number → view.rebuild ≡ Some r → begun r.returning ≤ 28 }
{}

/// What a pass knows was the whole log when it made its last step, in a core that meets all invariants; so the history
/// that it has seen is lawful.
pub fn passes_are_current(pass: &Pass)
    ensures current { ∥ IsCurrent (view_of pass.now) ∥₁ }
    ensures lawful { KnowsLawful (view_of pass.now) }
{}

/// Two calls of a pass, one after the other, made the entries of the first and then those of the second; and so with the
/// stores that calls tell.
pub fn calls_follow_each_other()
    ensures adds { (view mid next : View) (first second : List Entry) → mid.role ≡ view.role → Adds view mid first → Adds mid next second → Adds view next (first ++ second) }
    ensures tells { (view mid next : View) (first second : List Store) → mid.role ≡ view.role → Tells view mid first → Tells mid next second → Tells view next (first ++ second) }
{}

/// In a world of one pass nobody else acts: the pass itself stored all that it knows, and it sees just its own entries.
pub fn one_pass_is_alone(pass: &Pass)
    ensures own { (view_of pass.now).config.passes ≡ 1 → KnowsOwn (view_of pass.now) }
    ensures sees { (view : View) (number : ℕ) (entries : List Entry) → IsPass view number → (view_of pass.now).role ≡ view.role → (view_of pass.now).config.passes ≡ 1 → Adds view (view_of pass.now) entries → SeesJust view.known (view_of pass.now) number entries }
{}

/// All passes of a world knew the same log, and one of them made a call. Where another one then meets it, and all others
/// meet that one, it has seen just the entries of the call.
pub fn meetings_show_just_the_call()
    ensures { (known : List Item) (start : View) (views : ℕ → View) (first actor : ℕ) (met : View) (backs : ℕ → View) (entries : List Entry) → MeetInTurn known start views first actor met backs entries → SeesJust known met actor entries }
{}
