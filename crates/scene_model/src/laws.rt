//! What follows from the definitions of the scene, as the layers above use it. No call here does anything.
ghost use Rattle.std.specs.Prelude.{◌≡◌, ◌↔◌, ◌+◌, ◌^◌, ◌<◌, ◌≤◌, ◌++◌, [], ◌∷◌, ℕ, Bool, List, length, map, sum, max, Some, None, IsTrue, IfSome, IsPermutation};
ghost use Rattle.fixed_box.specs.declared.fix_box.FixBox.{FixBox};
ghost use Rattle.body_ident.specs.Id.{id_of};
ghost use Rattle.scene_model.specs.declared.body_view.BodyView.{BodyView};
ghost use Rattle.scene_model.specs.declared.entry.Entry.{Entry};
ghost use Rattle.scene_model.specs.declared.entry.Entry.TheVariants.{Join};
ghost use Rattle.scene_model.specs.declared.entry.Made.{Made};
ghost use Rattle.scene_model.specs.Scene.{Scene, next_index};
ghost use Rattle.scene_model.specs.Step.{HasBody, IsPossible, IsLawful, after_entry};
ghost use Rattle.scene_model.specs.Query.{view_of, view_at, live_count, in_count, hits};
ghost use Rattle.scene_model.specs.History.{scene_from, scene_after, point, IsLawfulFrom, IsLawfulHistory, creations_in, IsRightAnswer};
ghost use Rattle.scene_model.specs.Batch.{JoinsOnly, marks, unmarks};
ghost use Rattle.scene_model.specs.Cause.{IsCauseAt, full};
ghost use Rattle.scene_model.specs.Consistent.{IsConsistent};
ghost use Rattle.scene_model.specs.Need.{need, need_of_run, run_sizes};
ghost use Rattle.scene_model.specs.Tree.{tree, node_over, nodes_of, height_of, indexes_of};
ghost use Rattle.scene_model.specs.Shown.{shown, after_shown};

/// A history goes on by one entry that is lawful in the scene so far, and the scene goes on by its step.
pub fn history_goes_on()
    ensures scene { (bodies : ℕ) (history : List Made) (made : Made)
        → scene_after bodies (history ++ made ∷ []) ≡ after_entry (scene_after bodies history) made.entry }
    ensures lawful { (layers bodies : ℕ) (history : List Made) (made : Made) → IsLawfulHistory layers bodies (history ++ made ∷ [])
        ↔ (IsLawfulHistory layers bodies history × IsLawful layers (scene_after bodies history) made.entry) }
    ensures prefix { (layers bodies : ℕ) (first later : List Made) → IsLawfulHistory layers bodies (first ++ later)
        → IsLawfulHistory layers bodies first }
{}

/// After each lawful history exactly those used indexes are freed at which no body is live, each once, and a
/// live body is the latest of its index.
pub fn lawful_scene_is_consistent()
    ensures { (layers bodies : ℕ) (history : List Made) → IsLawfulHistory layers bodies history → IsConsistent layers (scene_after bodies history) }
{}

/// The id of a live body says how many bodies the history created at its index, modulo 256.
pub fn id_counts_creations()
    ensures { (layers bodies : ℕ) (history : List Made) (index : ℕ) → IsLawfulHistory layers bodies history
        → IfSome (view_at (scene_after bodies history) index) (λ v. v.id ≡ id_of index (creations_in index history)) }
{}

/// After a lawful history there is no next index exactly where every index is live.
pub fn full_has_no_next_index()
    ensures { (layers bodies : ℕ) (history : List Made) → IsLawfulHistory layers bodies history
        → ((next_index (scene_after bodies history) ≡ None) ↔ IsCauseAt full (scene_after bodies history)) }
{}

/// A join changes the phases of the bodies that it lists and nothing else.
pub fn join_changes_what_it_lists()
    ensures { (scene : Scene) (layer : ℕ) (indexes : List ℕ) → JoinsOnly scene (after_entry scene (Join layer indexes)) indexes }
{}

/// Bodies that were marked may be unmarked in the same order, and then the scene is as it was.
pub fn unmarks_undo_marks()
    ensures lawful { (layers pass : ℕ) (indexes : List ℕ) (scene : Scene) → IsLawfulFrom layers scene (marks pass indexes)
        → IsLawfulFrom layers scene (marks pass indexes ++ unmarks pass indexes) }
    ensures undone { (layers pass : ℕ) (indexes : List ℕ) (scene : Scene) → IsLawfulFrom layers scene (marks pass indexes)
        → scene_from scene (marks pass indexes ++ unmarks pass indexes) ≡ scene }
{}

/// A query that is answered at one point of a history by the hits of the scene there is answered right.
pub fn hits_are_right()
    ensures { (test : FixBox → Bool) (mask bodies : ℕ) (history : List Made) (n : ℕ)
        → IsRightAnswer (λ b. IsTrue (test b)) mask bodies (record { history = history; from = n; to = n }) (hits test mask (point bodies history n)) }
{}

/// The view of a body tells its record, all but the generation.
pub fn view_tells_the_body()
    ensures { (scene : Scene) (index : ℕ) (view : BodyView) → view_at scene index ≡ Some view → HasBody scene index (λ r. view_of index r ≡ view) }
{}

/// What a plain scene shows of a scene tells all that can be read of the scene, and follows each of its steps.
pub fn shown_tells_the_scene()
    ensures next { (scene : Scene) → next_index (shown scene) ≡ next_index scene }
    ensures view { (scene : Scene) (index : ℕ) → view_at (shown scene) index ≡ view_at scene index }
    ensures live { (scene : Scene) → live_count (shown scene) ≡ live_count scene }
    ensures in_broad_phase { (scene : Scene) → in_count (shown scene) ≡ in_count scene }
    ensures hits { (test : FixBox → Bool) (mask : ℕ) (scene : Scene) → hits test mask (shown scene) ≡ hits test mask scene }
    ensures possible { (scene : Scene) (entry : Entry) → IsPossible (shown scene) entry ↔ IsPossible scene entry }
    ensures step { (scene : Scene) (entry : Entry) → shown (after_entry scene entry) ≡ after_shown (shown scene) entry }
{}

/// A tree over bodies needs no node for none of them, and else one more than its runs of two bodies or more.
pub fn need_follows_the_runs()
    ensures none { need 0 ≡ 0 }
    ensures some { (n : ℕ) → 0 < n → need n ≡ 1 + sum (map (need_of_run need) (run_sizes n)) }
    ensures small { (n : ℕ) → need n ≤ max 1 n }
{}

/// A tree over bodies is the node over the trees of its runs. Each body stands in it once, it has the nodes that
/// they need, and at most h levels where they are at most 4 ^ h.
pub fn tree_holds_its_bodies()
    ensures node { (bodies : List (ℕ × FixBox)) → 0 < length bodies → tree bodies ≡ node_over tree bodies }
    ensures once { (bodies : List (ℕ × FixBox)) → IsPermutation (map (λ b. b.0) bodies) (indexes_of (tree bodies)) }
    ensures nodes { (bodies : List (ℕ × FixBox)) → nodes_of (tree bodies) ≡ need (length bodies) }
    ensures height { (h : ℕ) (bodies : List (ℕ × FixBox)) → 0 < h → length bodies ≤ 4 ^ h → height_of (tree bodies) ≤ h }
{}
