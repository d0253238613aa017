ghost use Rattle.std.specs.Prelude.{ℕ, ◌≡◌, ◌+◌, ◌*◌, ◌^◌, ◌<◌, ◌≤◌};
ghost use Rattle.std.specs.Int.{IsPowerOfTwo};
ghost use Rattle.word_map.specs.declared.config.Config.{Config};
ghost use Rattle.word_map.specs.declared.name.Name.{Name};
ghost use Rattle.word_map.specs.Limits.{IsConfig, IsPlanned};
ghost use Rattle.word_map.specs.Names.{IsName, node_count};
ghost use Rattle.word_map.specs.Layout.{word_count, place_of, name_of, largest};
ghost use Rattle.word_map.specs.declared.body_words.StateWord.{StateWord};
ghost use Rattle.word_map.specs.declared.body_words.PhaseWord.{PhaseWord};
ghost use Rattle.word_map.specs.declared.tree_words.SlotWord.{SlotWord};
ghost use Rattle.word_map.specs.declared.tree_words.ChildWord.{ChildWord};
ghost use Rattle.word_map.specs.declared.tree_words.LocationWord.{LocationWord};
ghost use Rattle.word_map.specs.declared.tree_words.BoundWord.{BoundWord};
ghost use Rattle.word_map.specs.declared.list_words.ListWord.{ListWord};
ghost use Rattle.word_map.specs.Words.{IsStateWord, IsSlotWord, IsLocationWord, IsBoundWord, word_of_state, word_of_phase, word_of_slot, word_of_child, word_of_location, word_of_bound, word_of_link};

/// Names and places are each other's inverse, over all names in range and all places of the table. So distinct
/// names have distinct places.
#[tactic(auto, using(crate::proofs::Places::placed_rules))]
pub fn names_have_places()
    ensures place { (c : Config) (n : Name) → IsName c n → place_of c n < word_count c }
    ensures name_of_place { (c : Config) (n : Name) → IsName c n → name_of c (place_of c n) ≡ n }
    ensures name { (c : Config) (p : ℕ) → p < word_count c → IsName c (name_of c p) }
    ensures place_of_name { (c : Config) (p : ℕ) → p < word_count c → place_of c (name_of c p) ≡ p }
    ensures apart { (c : Config) (m n : Name) → IsName c m → IsName c n → place_of c m ≡ place_of c n → m ≡ n }
{}

/// How large a world can be: at most 6,620,223 words, and its stripes are a power of two.
///
/// No sum overflows at the sizes that are planned either: all places are then below 2^27, and the numbers of all
/// children of nodes below 2^24.
#[tactic(auto, using(crate::proofs::Sizes::size_rules))]
pub fn worlds_are_bounded()
    ensures largest { word_count largest ≡ 6620223 }
    ensures within_largest { (c : Config) → IsConfig c → word_count c ≤ word_count largest }
    ensures stripes { (c : Config) → IsConfig c → IsPowerOfTwo c.stripes }
    ensures planned { (c : Config) → IsConfig c → IsPlanned c }
    ensures planned_places { (c : Config) → IsPlanned c → word_count c < 2 ^ 27 }
    ensures planned_children { (c : Config) → IsPlanned c → 4 * node_count c < 2 ^ 24 }
{}

/// A word says one thing: `from_word` and `to_word` of each type of word are each other's inverse.
#[tactic(auto, using(crate::proofs::Words::word_rules))]
pub fn words_say_one_thing()
    ensures states { (a b : StateWord) → IsStateWord a → IsStateWord b → word_of_state a ≡ word_of_state b → a ≡ b }
    ensures phases { (a b : PhaseWord) → word_of_phase a ≡ word_of_phase b → a ≡ b }
    ensures slots { (a b : SlotWord) → IsSlotWord a → IsSlotWord b → word_of_slot a ≡ word_of_slot b → a ≡ b }
    ensures children { (a b : ChildWord) → word_of_child a ≡ word_of_child b → a ≡ b }
    ensures locations { (a b : LocationWord) → IsLocationWord a → IsLocationWord b → word_of_location a ≡ word_of_location b → a ≡ b }
    ensures bounds { (side : ℕ) → (a b : BoundWord) → IsBoundWord side a → IsBoundWord side b → word_of_bound side a ≡ word_of_bound side b → a ≡ b }
    ensures links { (a b : ListWord) → word_of_link a ≡ word_of_link b → a ≡ b }
{}
