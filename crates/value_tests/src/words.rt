ghost use Rattle.std.specs.Prelude.{◌≡◌, length};
ghost use Rattle.word_map.specs.Names.{IsName};
ghost use Rattle.word_map.specs.Layout.{word_count};

use std::process::Abort;
use std::test::Fail;
use word_map::{BadConfig, Config, Field, Map, Name, check};

const SMALL: Config = Config {
    bodies: 3,
    stripes: 2,
    layers: 2,
    slots: 3,
    nodes: 40,
    passes: 4,
};

const LARGEST: Config = Config {
    bodies: 65_536,
    stripes: 64,
    layers: 8,
    slots: 64,
    nodes: 65_536,
    passes: 32,
};

fn map_of(rt: &impl Abort, config: Config) -> Map
    ensures { result ≡ config }
{
    check(config).expect(rt, "a world of these sizes")
}

fn mark(rt: &impl Abort, map: &Map, seen: &mut [bool], name: Name)
    requires name { IsName map.now name }
    requires len { length seen.old ≡ word_count map.now }
{
    let place = map.place(name);
    assert!(rt; !seen[place], "two names at {place}");
    assert_eq!(rt; map.name_at(place), name);
    seen[place] = true;
}

#[test]
fn first_bad_field(rt: HostRuntime) {
    let config = Config {
        bodies: 4,
        stripes: 3,
        layers: 1,
        slots: 1,
        nodes: 4,
        passes: 2,
    };
    assert_eq!(rt;
        check(config),
        Err(BadConfig {
            field: Field::Stripes
        })
    );
    assert_eq!(rt;
        check(Config {
            bodies: 0,
            ..config
        }),
        Err(BadConfig {
            field: Field::Bodies
        })
    );
    assert!(rt;
        check(Config {
            stripes: 2,
            ..config
        })
        .is_ok()
    );
}

fn mark_bodies(rt: &impl Abort, map: &Map, seen: &mut [bool])
    requires { length seen.old ≡ word_count map.now }
{
    for i in 0..map.config().bodies {
        mark(rt, map, seen, Name::State(i));
        mark(rt, map, seen, Name::Phase(i));
        mark(rt, map, seen, Name::Layer(i));
        mark(rt, map, seen, Name::User(i));
        for k in 0..6 {
            mark(rt, map, seen, Name::BoxWord(i, k));
        }
        mark(rt, map, seen, Name::LocA(i));
        mark(rt, map, seen, Name::LocB(i));
        mark(rt, map, seen, Name::SlotNext(i));
    }
}

fn mark_nodes(rt: &impl Abort, map: &Map, seen: &mut [bool])
    requires { length seen.old ≡ word_count map.now }
{
    for n in 0..map.nodes() {
        for c in 0..4 {
            mark(rt, map, seen, Name::Child(n, c));
            for k in 0..6 {
                mark(rt, map, seen, Name::Bound(n, c, k));
            }
        }
        mark(rt, map, seen, Name::Parent(n));
    }
    for n in 0..map.config().nodes {
        mark(rt, map, seen, Name::PoolNext(n));
    }
}

fn mark_others(rt: &impl Abort, map: &Map, seen: &mut [bool])
    requires { length seen.old ≡ word_count map.now }
{
    for i in 0..map.locks() {
        mark(rt, map, seen, Name::Lock(i));
    }
    for l in 0..map.config().layers {
        mark(rt, map, seen, Name::Main(l));
        for t in 0..map.config().slots {
            mark(rt, map, seen, Name::Slot(l, t));
        }
    }
    for p in 0..map.config().passes {
        mark(rt, map, seen, Name::Reader(p));
    }
    mark(rt, map, seen, Name::SlotHead);
    mark(rt, map, seen, Name::PoolHead);
    mark(rt, map, seen, Name::PoolFree);
    mark(rt, map, seen, Name::Update);
    mark(rt, map, seen, Name::Arena);
}

#[test]
fn places_are_a_permutation(rt: HostRuntime) -> Result<(), Fail> {
    let map = map_of(&rt, SMALL);
    let mut seen = vec![in rt.alloc(); false; map.len()]?;
    mark_bodies(&rt, &map, &mut seen);
    mark_nodes(&rt, &map, &mut seen);
    mark_others(&rt, &map, &mut seen);
    assert!(rt; seen.iter().all(|word| *word));
    Ok(())
}

#[test]
fn ends_of_the_largest_world(rt: HostRuntime) {
    let map = map_of(&rt, LARGEST);
    assert_eq!(rt; map.len(), 6_620_223);
    assert_eq!(rt; map.nodes(), 196_624);
    assert_eq!(rt; map.arena_start(1), 131_080);
    assert_eq!(rt; (map.locks(), map.slots()), (66, 512));
    assert_eq!(rt; map.stripe_of(65_535), 63);
    assert_eq!(rt; map.place(Name::Lock(0)), 0);
    assert_eq!(rt; map.name_at(0), Name::Lock(0));
    assert_eq!(rt; map.place(Name::Reader(31)), 6_620_222);
    assert_eq!(rt; map.name_at(6_620_222), Name::Reader(31));
}
