//! What holds of batches that are drawn, as contracts of functions that do nothing.

ghost use Rattle.std.specs.Prelude.{◌≡◌, ℕ, ◌≤◌, List, ◌∷◌, ◌++◌};
ghost use Rattle.fixed_box.specs.declared.fix_box.FixBox.{FixBox};
ghost use Rattle.scene_model.specs.declared.entry.Entry.TheVariants.{Unmark};
ghost use Rattle.scene_model.specs.declared.entry.Made.{Made};
ghost use Rattle.scene_model.specs.History.{IsLawfulHistory};
ghost use Rattle.scene_model.specs.Tree.{tree};
ghost use Rattle.tree_plan.specs.Plan.{Plan};
ghost use Rattle.word_map.specs.declared.name.Name.{Name};
ghost use Rattle.core_state.specs.declared.view.Batch.{Batch};
ghost use Rattle.core_state.specs.declared.view.View.{View};
ghost use Rattle.core_state.specs.Log.{history};
ghost use Rattle.core_state.specs.View.{known_word};
ghost use Rattle.core_state.specs.Batches.{IsWholeTree};
ghost use Rattle.pass_table.specs.Bodies.{IsCurrent};
ghost use Rattle.pass_table.specs.OwnMarks.{IsMarkedBy};
ghost use Rattle.batch_add.specs.declared.prepared.Prepared.{Prepared};
ghost use Rattle.batch_add.specs.Drawing.{node_at, IsDrawn};
ghost use Rattle.batch_add.specs.Prepared.{IsGood};
ghost use Rattle.batch_add.specs.Shape.{tree_at};
ghost use Rattle.batch_add.specs.Unjoined.{NoneJoins, NoneMarks, IsUndone, IsUndoneBy, IsMarkedSince};

/// A batch whose nodes are drawn by the plan over its bodies is one whole tree, so it may be attached; and the tree that is
/// read from its root is the stated tree over these bodies, wherever it is read ten levels deep or further.
pub fn drawn_batches_are_whole_trees()
    ensures whole { (word : Name → ℕ) (bodies : List (ℕ × FixBox)) (plan : Plan) (bound : ℕ → ℕ → FixBox) (batch : Batch) → IsDrawn word bodies plan bound batch
        → IsWholeTree word batch (node_at batch.nodes 0) }
    ensures stated { (word : Name → ℕ) (bodies : List (ℕ × FixBox)) (plan : Plan) (bound : ℕ → ℕ → FixBox) (batch : Batch) → IsDrawn word bodies plan bound batch
        → (levels : ℕ) → 10 ≤ levels → tree_at word levels (node_at batch.nodes 0) ≡ tree bodies }
{}

/// The tree of a batch that is good is in the words that its pass knows, since what it stored in its nodes stands there: its
/// view is current.
pub fn good_batches_are_drawn()
    ensures { (prepared : Prepared) (view : View) (good : IsGood prepared view) → ∥ IsCurrent view ∥₁
        → IsDrawn (known_word view) good.bodies good.is.plan good.is.bound good.batch }
{}

/// A mark of a batch that is given up or refused is followed by its unmark, and in a lawful history no join of the body is
/// between, by whichever pass. And before each unmark of a body is the mark of it, since which it did not join.
///
/// In the history that a pass has seen that mark is by the pass that made the unmark. So between a mark of a pass and its
/// unmark nobody else marks the body, and it does not join.
pub fn undone_marks_did_not_join()
    ensures between { (layers bodies : ℕ) (history : List Made) (i : ℕ) (between : List Made) → IsLawfulHistory layers bodies history → IsUndone history i between
        → NoneJoins i between }
    ensures before { (layers bodies : ℕ) (history later : List Made) (i pass : ℕ)
        → IsLawfulHistory layers bodies (history ++ (record { pass = pass; entry = Unmark i }) ∷ later) → IsMarkedSince history i }
    ensures own { (view : View) (past later : List Made) (i number : ℕ) → IsCurrent view → history view.known ≡ past ++ (record { pass = number; entry = Unmark i }) ∷ later
        → IsMarkedBy number past i }
    ensures undone { (view : View) (i number : ℕ) (between : List Made) → ∥ IsCurrent view ∥₁ → IsUndoneBy number (history view.known) i between
        → NoneJoins i between × NoneMarks i between }
{}
