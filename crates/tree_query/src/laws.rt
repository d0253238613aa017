//! What is proved of what a finder holds, as callers use it. No call here does anything.
ghost use Rattle.std.specs.Prelude.{◌≡◌, ℕ, ◌↔◌, ◌<◌, true, AllPairs, Contains};
ghost use Rattle.fixed_box.specs.Touch.{Touch};
ghost use Rattle.fixed_box.specs.declared.shape.Shape.{Shape};
ghost use Rattle.body_ident.specs.Id.{Id};
ghost use Rattle.scene_model.specs.History.{IsRightAnswer};
ghost use Rattle.core_state.specs.declared.view.View.{View};
ghost use Rattle.core_state.specs.Log.{IsPrefix};
ghost use Rattle.tree_query.specs.declared.finder.Finder.{Finder};
ghost use Rattle.tree_query.specs.Finding.{has_index, room_of, id_in, ids_of};
ghost use Rattle.tree_query.specs.Checking.{AreAllChecked, HoldsDue, points_between};

/// The ids that a finder gives ascend by index, so no index comes twice, and they are just those of the indexes that were
/// found, each with the sequence number that goes with it.
pub fn ids_are_those_found()
    ensures ascending { (finder : Finder) → AllPairs (λ a b. a.index < b.index) (ids_of finder) }
    ensures all { (finder : Finder) (id : Id) → Contains (ids_of finder) id ↔ ((id.index < room_of finder) × (has_index finder id.index ≡ true) × (id ≡ id_in finder id.index)) }
{}

/// Where a walk has put each body that a query has to find among the candidates, and then all candidates were checked, what
/// is left of them is a right answer for the whole time: each body that was a hit all the time is answered, and each that is
/// answered was one at some point.
pub fn checked_candidates_answer_right()
    ensures { (shape : Shape) (mask : ℕ) (start mid next : View) (before after : Finder) → IsPrefix start.known mid.known → IsPrefix mid.known next.known → mid.config ≡ start.config
        → HoldsDue shape mask start mid before → AreAllChecked shape mask mid next before after
        → IsRightAnswer (Touch shape) mask start.config.bodies (points_between start next) (ids_of after) }
{}
