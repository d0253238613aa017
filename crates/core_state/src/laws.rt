//! What follows from the definitions of the core, as the layers above use it. No call here does anything.
ghost use Rattle.std.specs.Prelude.{◌≡◌, ◌≢◌, ◌⊎◌, ◌^◌, ◌<◌, ◌++◌, [], ◌∷◌, ℕ, List, length, slice_index, slice_index_or, slice_set, Some};
ghost use Rattle.fixed_box.specs.FixBox.{words_of};
ghost use Rattle.fixed_box.specs.declared.fix_box.FixBox.{FixBox};
ghost use Rattle.word_map.specs.declared.config.Config.{Config};
ghost use Rattle.word_map.specs.declared.name.Name.{Name};
ghost use Rattle.word_map.specs.Limits.{IsConfig};
ghost use Rattle.word_map.specs.Names.{IsName};
ghost use Rattle.word_map.specs.Layout.{place_of, word_count};
ghost use Rattle.core_state.specs.declared.item.Item.{Item};
ghost use Rattle.core_state.specs.declared.view.Role.TheVariants.{Spent};
ghost use Rattle.core_state.specs.declared.view.View.{View};
ghost use Rattle.core_state.specs.Log.{opening_word, word, words, NoneStores, LastStores, IsPrefix};
ghost use Rattle.core_state.specs.Core.{Core, word_of, IsViewAt, opening};
ghost use Rattle.core_state.specs.Kind.{Kind, Step, left_by, log_after, view_after, after_step};
ghost use Rattle.core_state.specs.Event.{Event, Run, ChangesOne};
ghost use Rattle.core_state.specs.Formed.{IsFormed};
ghost use Rattle.core_state.specs.Encoding.{Sides};
ghost use Rattle.core_state.specs.Boxes.{box_of};

/// A word is read off the log: by the name that a step stored, by another name, and where none of some steps stored
/// it. So it is the opening word, or what the last step that stored it left there.
pub fn words_are_read_off_the_log()
    ensures opening { (c : Config) (name : Name) → word c [] name ≡ opening_word c name }
    ensures stored { (c : Config) (log : List Item) (item : Item) (name : Name) → item.name ≡ name → word c (log ++ item ∷ []) name ≡ item.value }
    ensures other { (c : Config) (log : List Item) (item : Item) (name : Name) → item.name ≢ name → word c (log ++ item ∷ []) name ≡ word c log name }
    ensures none { (c : Config) (log since : List Item) (name : Name) → NoneStores since name → word c (log ++ since) name ≡ word c log name }
    ensures last { (c : Config) (log : List Item) (name : Name) → (NoneStores log name × (word c log name ≡ opening_word c name))
        ⊎ ((last : LastStores log name) × (word c log name ≡ last.item.value)) }
{}

/// The table has at the place of each name the name's word.
pub fn words_have_places()
    ensures len { (c : Config) (log : List Item) → length (words c log) ≡ word_count c }
    ensures at { (c : Config) (log : List Item) (name : Name) (past : ℕ) → IsName c name → slice_index_or (words c log) (place_of c name) past ≡ word c log name }
{}

/// A step of any kind changes one word and one view. The words are then the opening words after the log's stores,
/// and the pass that made the step knows the whole log.
pub fn steps_change_one_word_and_one_view()
    ensures word { (kind : Kind) (core : Core) (step : Step) → word_of (after_step kind core step) step.name ≡ left_by kind core step }
    ensures others { (kind : Kind) (core : Core) (step : Step) (name : Name) → name ≢ step.name → word_of (after_step kind core step) name ≡ word_of core name }
    ensures table { (kind : Kind) (core : Core) (step : Step) → IsName core.config step.name
        → words core.config (log_after kind core step) ≡ slice_set (words core.config core.log) (place_of core.config step.name) (left_by kind core step) }
    ensures view { (kind : Kind) (core : Core) (step : Step) → IsViewAt core step.seat step.view → IsViewAt (after_step kind core step) step.seat (view_after kind core step) }
    ensures known { (kind : Kind) (core : Core) (step : Step) → (view_after kind core step).known ≡ (after_step kind core step).log }
    ensures views { (kind : Kind) (core : Core) (step : Step) (seat : ℕ) (view : View) → seat ≢ step.seat → IsViewAt core seat view
        → IsViewAt (after_step kind core step) seat view }
{}

/// Every event leaves the log to go on from what it was, and of all passes it changes the view of one at most.
pub fn events_only_add()
    ensures event { (before after : Core) → Event before after → IsPrefix before.log after.log }
    ensures run { (first last : Core) → Run first last → IsPrefix first.log last.log }
    ensures views { (before after : Core) → Event before after → ChangesOne before after }
{}

/// In every run what a pass knows is a first part of the log; while it meets another, so is what the two knew of what
/// it knows. The numbers of passes are apart, and all that was stored fits the words of the world.
pub fn runs_keep_the_form()
    ensures opening { (c : Config) → IsConfig c → IsFormed (opening c) }
    ensures event { (before after : Core) → Event before after → IsFormed before → IsFormed after }
    ensures run { (c : Config) (last : Core) → IsConfig c → Run (opening c) last → IsFormed last }
    ensures known { (c : Config) (last : Core) (seat : ℕ) (view : View) → IsConfig c → Run (opening c) last → IsViewAt last seat view
        → view.role ≢ Spent → IsPrefix view.known last.log }
    ensures fits { (c : Config) (last : Core) (name : Name) → IsConfig c → Run (opening c) last → IsName last.config name → word_of last name < 2 ^ 64 }
{}

/// The six words of a box tell it: no others do, and they are those of no other box.
pub fn words_tell_boxes()
    ensures { (b : FixBox) (sides : Sides) → ((k : ℕ) → k < 6 → sides k ≡ slice_index (words_of b) k) → box_of sides ≡ Some b }
{}
