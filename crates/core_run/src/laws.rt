//! What is proved of runs that pass through every kind of step. No call here does anything.
ghost use Rattle.word_map.specs.declared.config.Config.{Config};
ghost use Rattle.word_map.specs.Limits.{IsConfig};
ghost use Rattle.core_state.specs.Core.{Core, opening};
ghost use Rattle.core_state.specs.Event.{Run};
ghost use Rattle.core_run.specs.Labels.{all_labels, labels_of_plan, labels_of_exchange, labels_of_end};
ghost use Rattle.core_run.specs.Passing.{HasLabel, IsNamed, IsOutOfSight, IsBeside, PassesThrough};

/// What the kinds of step ask is not contradictory: from the opening of a world within the limits there is a run in which
/// every kind of step occurs, in each of its variants.
///
/// In it each kind of step of an update is made while another pass is half way in a walk, with a main word loaded that named
/// a root, and a child of that root. Up to the exchange of the main words, and at it, the pass walks in the tree that is about
/// to be exchanged. At each step from then on until the readers are seen off a pass is still in the tree that was taken out
/// of sight. And while the merged trees are given back and the update ends, a pass is in the new tree.
pub fn a_run_passes_through_all()
    ensures { (c : Config) × IsConfig c × (last : Core) × (run : Run (opening c) last) × PassesThrough all_labels HasLabel run × PassesThrough labels_of_plan (IsBeside IsNamed) run × PassesThrough labels_of_exchange (IsBeside IsOutOfSight) run × PassesThrough labels_of_end (IsBeside IsNamed) run }
{}
