use scene_model::Entry;
use word_map::Name;

/// A step that stored a value, as the log keeps it.
#[derive(Drop)]
pub struct Item {
    /// The number of the pass that made the step.
    pub pass: u32,
    /// The word that it stored.
    pub name: Name,
    /// The value that the word had from then on.
    pub value: u64,
    /// What the step added to the history of the scene.
    pub entry: Option<Entry>,
}

/// A value that a step found in a word.
#[derive(Drop)]
pub struct Load {
    pub name: Name,
    pub value: u64,
}

/// A value that a step left in a word.
#[derive(Drop)]
pub struct Store {
    pub name: Name,
    pub value: u64,
}
