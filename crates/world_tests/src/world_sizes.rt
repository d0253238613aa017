//! The sizes that a world may have: both ends of each.
use std::process::Abort;
use word_map::{Config, Field, check};

const LEAST: Config = Config {
    bodies: 1,
    stripes: 1,
    layers: 1,
    slots: 1,
    nodes: 1,
    passes: 1,
};

const MOST: Config = Config {
    bodies: 65_536,
    stripes: 64,
    layers: 8,
    slots: 64,
    nodes: 65_536,
    passes: 32,
};

/// Asserts that no world has these sizes, for this field.
fn assert_refused(rt: &impl Abort, config: Config, field: Field) {
    assert!(rt;
        check(config).is_err_and(|bad| bad.field == field),
        "{field:?}"
    );
}

// The powers of two up to 64, and nothing between them and beyond.
#[test]
fn stripes_are_powers_of_two(rt: HostRuntime) {
    for stripes in 0..130 {
        let is_power = [1, 2, 4, 8, 16, 32, 64].contains(&stripes);
        let is_taken = check(Config { stripes, ..LEAST }).is_ok();
        assert!(rt; is_taken == is_power, "{stripes} stripes");
    }
}

#[test]
fn sizes_go_up_to_their_limits(rt: HostRuntime) {
    assert!(rt; check(LEAST).is_ok() && check(MOST).is_ok());
    assert_refused(
        &rt,
        Config {
            bodies: 65_537,
            ..MOST
        },
        Field::Bodies,
    );
    assert_refused(&rt, Config { layers: 9, ..MOST }, Field::Layers);
    assert_refused(&rt, Config { slots: 65, ..MOST }, Field::Slots);
    assert_refused(
        &rt,
        Config {
            nodes: 65_537,
            ..MOST
        },
        Field::Nodes,
    );
    assert_refused(&rt, Config { passes: 33, ..MOST }, Field::Passes);
    assert_refused(&rt, Config { bodies: 0, ..LEAST }, Field::Bodies);
    assert_refused(&rt, Config { layers: 0, ..LEAST }, Field::Layers);
    assert_refused(&rt, Config { slots: 0, ..LEAST }, Field::Slots);
    assert_refused(&rt, Config { nodes: 0, ..LEAST }, Field::Nodes);
    assert_refused(&rt, Config { passes: 0, ..LEAST }, Field::Passes);
}
