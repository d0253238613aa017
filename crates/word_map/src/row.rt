ghost use Rattle.std.specs.Prelude.{◌≡◌, ◌<◌, slice_index_or};
ghost use Rattle.word_map.specs.Row.{head_words, body_word, layer_word, child_word, node_word};

use crate::name::Name;

/// The words of a body.
pub const BODY_WORDS: usize = 13;

/// The words of a child of a node: the child and the six coordinates of its bound.
pub const CHILD_WORDS: usize = 7;

/// The words of a node: its four children and its parent.
pub const NODE_WORDS: usize = 29;

/// The offset of a node's parent, after the four children.
pub(crate) const PARENT: usize = 28;

/// The words of which a world has one each.
pub(crate) const HEAD_WORDS: usize = 5;

/// The pool words before a reader word. Two reader words are then 136 bytes apart, so they are never in one cache
/// line, nor in two neighbours that are fetched together.
pub(crate) const POOL_RUN: usize = 16;

/// The words of a group of the pool: the pool words and a reader word.
pub(crate) const GROUP_WORDS: usize = 17;

/// The word at an offset among those of which a world has one each.
pub(crate) fn head_word(k: usize) -> Name
    requires { k < HEAD_WORDS }
    ensures { result ≡ slice_index_or head_words k Name.Update }
{
    let words = [
        Name::SlotHead,
        Name::PoolHead,
        Name::PoolFree,
        Name::Update,
        Name::Arena,
    ];
    words[k]
}

/// The word of a body at an offset.
#[tactic(auto, unfolding(crate::specs::Row::body_word))]
pub(crate) fn body_word(i: u32, k: usize) -> Name
    requires { k < BODY_WORDS }
    ensures { result ≡ body_word i k }
{
    let words = [
        Name::State(i),
        Name::Phase(i),
        Name::Layer(i),
        Name::User(i),
        Name::BoxWord(i, 0),
        Name::BoxWord(i, 1),
        Name::BoxWord(i, 2),
        Name::BoxWord(i, 3),
        Name::BoxWord(i, 4),
        Name::BoxWord(i, 5),
        Name::LocA(i),
        Name::LocB(i),
        Name::SlotNext(i),
    ];
    words[k]
}

/// The word of a layer at an offset.
pub(crate) fn layer_word(l: u32, k: u32) -> Name
    ensures { result ≡ layer_word l k }
{
    if k == 0 {
        Name::Main(l)
    } else {
        Name::Slot(l, k - 1)
    }
}

fn child_word(n: u32, c: u32, k: u32) -> Name
    ensures { result ≡ child_word n c k }
{
    if k == 0 {
        Name::Child(n, c)
    } else {
        Name::Bound(n, c, k - 1)
    }
}

/// The word of a node at an offset.
pub(crate) fn node_word(n: u32, k: u32) -> Name
    ensures { result ≡ node_word n k }
{
    if k < PARENT as u32 {
        child_word(n, k / CHILD_WORDS as u32, k % CHILD_WORDS as u32)
    } else {
        Name::Parent(n)
    }
}
