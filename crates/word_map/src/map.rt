ghost use Rattle.std.specs.Prelude.{◌≡◌, ◌↔◌, ◌+◌, ◌*◌, ◌%◌, ◌^◌, ◌<◌, ◌≤◌, Some, IsOk, IfOk, IfErr};
ghost use Rattle.word_map.specs.Limits.{IsConfig, fault_of};
ghost use Rattle.word_map.specs.Names.{IsName, lock_count, index_lock, pool_lock, stripe_of, arena_nodes, node_count, slot_count};
ghost use Rattle.word_map.specs.Layout.{bodies_start, layers_start, nodes_start, pool_place, reader_place, word_count, place_of, name_of, apart_readers, group_word};

use crate::config::{BadConfig, Config};
use crate::name::Name;
use crate::row::{BODY_WORDS, CHILD_WORDS, GROUP_WORDS, HEAD_WORDS, NODE_WORDS, PARENT, POOL_RUN};
use crate::{config, row};
use std::marker::Model;

/// Where each word of a world is in its table. Contracts see a map as the sizes that it was made for.
///
/// All fields but the sizes are where a stretch of words begins or how many it has, so that `place` only adds and
/// multiplies.
#[derive(Clone, Copy, Debug, PartialEq, Eq)]
pub struct Map {
    config: Config,
    heads: usize,
    bodies: usize,
    layers: usize,
    layer_words: usize,
    nodes: usize,
    pool: usize,
    plain_pool: usize,
    groups: usize,
    apart_readers: usize,
    readers: usize,
    len: usize,
}

impl Model for Map {
    ghost use Rattle.word_map.specs.declared.config.Config.{Config};

    ghost Value = { Config };

    ghost use Rattle.word_map.specs.Inside.{IsLaidOut, inside_of};

    ghost view = { λ m. m.config };

    ghost invariant = { IsLaidOut };

    ghost inverse = { inside_of };
}

/// The map of a world of these sizes.
///
/// It is refused exactly where a field is out of its limit, and the refusal names the first such field in the
/// order bodies, stripes, layers, slots, nodes, passes.
#[tactic(auto, using(crate::proofs::Faults::no_fault))]
pub fn check(config: Config) -> Result<Map, BadConfig>
    ensures ok { IsOk result ↔ IsConfig config }
    ensures map { IfOk result (λ map. map ≡ config) }
    ensures err { IfErr result (λ bad. fault_of config ≡ Some bad.field) }
{
    match config::fault_of(config) {
        Some(field) => Err(BadConfig { field }),
        None => Ok(Map::new(config)),
    }
}

impl Map {
    fn new(config: Config) -> Map
        requires { IsConfig config }
        ensures { result ≡ config }
    {
        let heads = config.stripes as usize + 2;
        let bodies = heads + HEAD_WORDS;
        let layers = bodies + BODY_WORDS * config.bodies as usize;
        let layer_words = config.slots as usize + 1;
        let nodes = layers + layer_words * config.layers as usize;
        let all_nodes = config.nodes as usize
            + 2 * (config.bodies as usize + config.layers as usize);
        let pool = nodes + NODE_WORDS * all_nodes;
        let apart_readers = (config.passes as usize).min(config.nodes as usize / POOL_RUN);
        let plain_pool = config.nodes as usize - POOL_RUN * apart_readers;
        let groups = pool + plain_pool;
        let readers = groups + GROUP_WORDS * apart_readers;
        let len = readers + (config.passes as usize - apart_readers);
        Map {
            config,
            heads,
            bodies,
            layers,
            layer_words,
            nodes,
            pool,
            plain_pool,
            groups,
            apart_readers,
            readers,
            len,
        }
    }

    /// The sizes that the map was made for.
    pub fn config(&self) -> Config
        ensures sizes { result ≡ self.now }
        ensures in_limits { IsConfig result }
    {
        self.config
    }

    /// How many words there are: 13 for each body, 29 for each node and one more for each batch node, and the few
    /// of locks, layers, slots and passes.
    pub fn len(&self) -> usize
        ensures { result ≡ word_count self.now }
    {
        self.len
    }

    /// How many nodes there are: the batch nodes and those of the two arenas.
    pub fn nodes(&self) -> u32
        ensures { result ≡ node_count self.now }
    {
        self.config.nodes + 2 * self.arena_nodes()
    }

    /// How many nodes an arena has: enough for a tree of all bodies in each layer.
    pub fn arena_nodes(&self) -> u32
        ensures value { result ≡ arena_nodes self.now }
        ensures small { result < 2 ^ 30 }
    {
        self.config.bodies + self.config.layers
    }

    /// The first node of an arena, 0 or 1.
    pub fn arena_start(&self, arena: u32) -> u32
        requires { arena < 2 }
        ensures { result ≡ self.now.nodes + arena * arena_nodes self.now }
    {
        self.config.nodes + arena * self.arena_nodes()
    }

    /// How many attach slots there are, of all layers.
    pub fn slots(&self) -> u32
        ensures { result ≡ slot_count self.now }
    {
        self.config.layers * self.config.slots
    }

    /// How many locks there are: the stripes, and the two that follow.
    pub fn locks(&self) -> u32
        ensures { result ≡ lock_count self.now }
    {
        self.config.stripes + 2
    }

    /// The lock of the list of free body indexes.
    pub fn index_lock(&self) -> u32
        ensures { result ≡ index_lock self.now }
    {
        self.config.stripes
    }

    /// The lock of the pool of batch nodes.
    pub fn pool_lock(&self) -> u32
        ensures { result ≡ pool_lock self.now }
    {
        self.config.stripes + 1
    }

    /// The lock of a body: its index modulo the number of stripes, found with no division.
    #[inline(always)]
    #[tactic(auto, using(crate::proofs::Stripes::stripe_rules))]
    pub fn stripe_of(&self, index: u32) -> u32
        ensures value { result ≡ stripe_of self.now index }
        ensures in_range { result < self.now.stripes }
    {
        index & (self.config.stripes - 1)
    }

    /// The place of a word: a base and multiples of constants, found with no division but by a power of two.
    ///
    /// Distinct words have distinct places, since `name_at` gives the word back.
    #[inline(always)]
    #[tactic(auto, using(crate::proofs::Places::placed_rules))]
    pub fn place(&self, name: Name) -> usize
        requires { IsName self.now name }
        ensures value { result ≡ place_of self.now name }
        ensures in_range { result < word_count self.now }
        ensures name { name_of self.now result ≡ name }
    {
        self.place_of(name)
    }

    #[inline(always)]
    #[tactic(auto, unfolding(crate::specs::Layout::place_of))]
    fn place_of(&self, name: Name) -> usize
        requires { IsName self.now name }
        ensures { result ≡ place_of self.now name }
    {
        match name {
            Name::Lock(i) => i as usize,
            Name::SlotHead => self.heads,
            Name::PoolHead => self.heads + 1,
            Name::PoolFree => self.heads + 2,
            Name::Update => self.heads + 3,
            Name::Arena => self.heads + 4,
            Name::State(i) => self.body(i),
            Name::Phase(i) => self.body(i) + 1,
            Name::Layer(i) => self.body(i) + 2,
            Name::User(i) => self.body(i) + 3,
            Name::BoxWord(i, k) => self.body(i) + 4 + k as usize,
            Name::LocA(i) => self.body(i) + 10,
            Name::LocB(i) => self.body(i) + 11,
            Name::SlotNext(i) => self.body(i) + 12,
            Name::Main(l) => self.layer(l),
            Name::Slot(l, t) => self.layer(l) + 1 + t as usize,
            Name::Child(n, c) => self.child(n, c),
            Name::Bound(n, c, k) => self.child(n, c) + 1 + k as usize,
            Name::Parent(n) => self.node(n) + PARENT,
            Name::PoolNext(n) => self.pool_next(n as usize),
            Name::Reader(p) => self.reader(p as usize),
        }
    }

    /// The name of the word at a place.
    #[tactic(auto, using(crate::proofs::Places::placed_rules))]
    pub fn name_at(&self, place: usize) -> Name
        requires { place < word_count self.now }
        ensures value { result ≡ name_of self.now place }
        ensures in_range { IsName self.now result }
        ensures place { place_of self.now result ≡ place }
    {
        self.name_of(place)
    }

    #[tactic(auto, unfolding(crate::specs::Layout::name_of))]
    fn name_of(&self, place: usize) -> Name
        requires { place < word_count self.now }
        ensures { result ≡ name_of self.now place }
    {
        if place < self.heads {
            Name::Lock(place as u32)
        } else if place < self.bodies {
            row::head_word(place - self.heads)
        } else if place < self.layers {
            let at = place - self.bodies;
            row::body_word((at / BODY_WORDS) as u32, at % BODY_WORDS)
        } else if place < self.nodes {
            let at = place - self.layers;
            row::layer_word(
                (at / self.layer_words) as u32,
                (at % self.layer_words) as u32,
            )
        } else if place < self.pool {
            let at = place - self.nodes;
            row::node_word((at / NODE_WORDS) as u32, (at % NODE_WORDS) as u32)
        } else if place < self.groups {
            Name::PoolNext((place - self.pool) as u32)
        } else if place < self.readers {
            let at = place - self.groups;
            self.group_word(at / GROUP_WORDS, at % GROUP_WORDS)
        } else {
            Name::Reader((self.apart_readers + (place - self.readers)) as u32)
        }
    }

    fn group_word(&self, p: usize, k: usize) -> Name
        requires group { p < apart_readers self.now }
        requires offset { k < GROUP_WORDS }
        ensures { result ≡ group_word self.now p k }
    {
        if k < POOL_RUN {
            Name::PoolNext((self.plain_pool + POOL_RUN * p + k) as u32)
        } else {
            Name::Reader(p as u32)
        }
    }

    #[inline(always)]
    fn body(&self, i: u32) -> usize
        requires { i < self.now.bodies }
        ensures value { result ≡ bodies_start self.now + BODY_WORDS * i }
        ensures small { result < 2 ^ 32 }
    {
        self.bodies + BODY_WORDS * i as usize
    }

    #[inline(always)]
    fn layer(&self, l: u32) -> usize
        requires { l < self.now.layers }
        ensures value { result ≡ layers_start self.now + (self.now.slots + 1) * l }
        ensures small { result < 2 ^ 32 }
    {
        self.layers + self.layer_words * l as usize
    }

    #[inline(always)]
    fn node(&self, n: u32) -> usize
        requires { n < node_count self.now }
        ensures value { result ≡ nodes_start self.now + NODE_WORDS * n }
        ensures small { result < 2 ^ 32 }
    {
        self.nodes + NODE_WORDS * n as usize
    }

    #[inline(always)]
    fn child(&self, n: u32, c: u32) -> usize
        requires node { n < node_count self.now }
        requires child { c < 4 }
        ensures value { result ≡ nodes_start self.now + NODE_WORDS * n + CHILD_WORDS * c }
        ensures small { result < 2 ^ 33 }
    {
        self.node(n) + CHILD_WORDS * c as usize
    }

    fn pool_next(&self, n: usize) -> usize
        requires { n < self.now.nodes }
        ensures { result ≡ pool_place self.now n }
    {
        if n < self.plain_pool {
            self.pool + n
        } else {
            let later = n - self.plain_pool;
            self.groups + GROUP_WORDS * (later / POOL_RUN) + later % POOL_RUN
        }
    }

    fn reader(&self, p: usize) -> usize
        requires { p < self.now.passes }
        ensures { result ≡ reader_place self.now p }
    {
        if p < self.apart_readers {
            self.groups + GROUP_WORDS * p + POOL_RUN
        } else {
            self.readers + (p - self.apart_readers)
        }
    }
}
