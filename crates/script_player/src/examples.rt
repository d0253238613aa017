//! Small stories that are legal, and changed ones that are not. No call here does anything.
ghost use Rattle.std.specs.Prelude.{[], ◌∷◌};
ghost use Rattle.fixed_box.specs.declared.fix_box.FixBox.{FixBox};
ghost use Rattle.script_player.specs.Examples.{whole_span, late_plan, late_history, never_told, late_report, never_report, block_report, block_plan, block_history, block_told};
ghost use Rattle.script_player.specs.Legal.{IsPlayed, Legal};

/// A query of an actor that is answered at the end of the script makes a legal report: the body that was created meanwhile is
/// not in the broad phase. Where the answer is left out, the story is none of that script.
pub fn late_answer_is_legal()
    ensures legal { (bounds : FixBox) → Legal (late_plan bounds) late_report (whole_span ∷ whole_span ∷ []) (late_history bounds) }
    ensures never { (bounds : FixBox) → ¬ IsPlayed (late_plan bounds) never_report (whole_span ∷ []) (late_history bounds) (never_told bounds) [] }
{}

/// Two sections of a block make a legal report, each by the pass of its own worker. Where both are carried out by one pass, the
/// story is none of that script.
pub fn block_is_legal()
    ensures legal { (bounds : FixBox) → Legal (block_plan bounds) block_report (whole_span ∷ whole_span ∷ []) (block_history bounds) }
    ensures one_pass { (bounds : FixBox) → ¬ IsPlayed (block_plan bounds) block_report (whole_span ∷ whole_span ∷ []) (block_history bounds) (block_told bounds 1) [] }
{}
