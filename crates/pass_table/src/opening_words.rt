//! The words of a world in which nothing was done.
ghost use Rattle.std.specs.Prelude.{◌≡◌, ◌<◌, IfOk, []};
ghost use Rattle.word_map.specs.Names.{IsName};
ghost use Rattle.core_state.specs.Log.{opening_link, empty_side, opening_word, words};

use std::alloc::{AllocError, Global};
use word_map::{BoundWord, Config, ListWord, Map, Name};

/// The link of a list through all places in order.
fn opening_link(count: u32, place: u32) -> u64
    requires below { place < count }
    ensures { result ≡ opening_link count place }
{
    if place + 1 == count {
        ListWord::End.to_word()
    } else {
        ListWord::Next { place: place + 1 }.to_word()
    }
}

/// A side of the bound of a child that is not there.
fn empty_side(k: u32) -> u64
    ensures { result ≡ empty_side k }
{
    BoundWord::Empty.to_word(k)
}

/// A word of a world in which nothing was done yet.
fn opening_word(config: Config, name: Name) -> u64
    requires named { IsName config name }
    ensures { result ≡ opening_word config name }
{
    match name {
        Name::SlotHead | Name::PoolHead => ListWord::Next { place: 0 }.to_word(),
        Name::SlotNext(index) => opening_link(config.bodies, index),
        Name::BoxWord(_, _) => 1,
        Name::Bound(_, _, k) => empty_side(k),
        Name::PoolNext(node) => opening_link(config.nodes, node),
        Name::PoolFree => config.nodes as u64,
        _ => 0,
    }
}

/// All words of such a world, by place.
pub(crate) fn opening_words(alloc: Global, map: &Map) -> Result<Vec<u64>, AllocError>
    ensures { IfOk result (λ list. list.items ≡ words map.now []) }
{
    let config = map.config();
    let mut list = Vec::with_capacity(alloc, map.len())?;
    for place in 0..map.len() {
        list.push(opening_word(config, map.name_at(place)))?;
    }
    Ok(list)
}
