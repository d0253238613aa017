//! The definition of the tree, as a plain program.

use fixed_box::FixBox;
use std::alloc::{AllocError, Global};
use tree_plan::{PlanChild, Planner};

/// Twice the centre on the axis of this number.
fn centre(body: &(u32, FixBox), axis: u32) -> i64 {
    let bounds = &body.1;
    match axis {
        0 => i64::from(bounds.lo[0].value) + i64::from(bounds.hi[0].value),
        1 => i64::from(bounds.lo[1].value) + i64::from(bounds.hi[1].value),
        _ => i64::from(bounds.lo[2].value) + i64::from(bounds.hi[2].value),
    }
}

fn spread(run: &[(u32, FixBox)], axis: u32) -> i64 {
    let mut least = i64::MAX;
    let mut most = i64::MIN;
    for body in run {
        least = least.min(centre(body, axis));
        most = most.max(centre(body, axis));
    }
    most.saturating_sub(least)
}

fn widest(run: &[(u32, FixBox)]) -> u32 {
    let mut best = 0;
    for axis in 1..3 {
        if spread(run, axis) > spread(run, best) {
            best = axis;
        }
    }
    best
}

/// The bodies in order, by insertion, and then cut in two.
fn halves(
    alloc: Global,
    run: &[(u32, FixBox)],
) -> Result<(Vec<(u32, FixBox)>, Vec<(u32, FixBox)>), AllocError> {
    let axis = widest(run);
    let mut sorted: Vec<(u32, FixBox)> = Vec::new(alloc);
    for body in run {
        let here = (centre(body, axis), body.0);
        let mut at = sorted.len();
        for (i, other) in sorted.iter().enumerate() {
            if here < (centre(other, axis), other.0) {
                at = at.min(i);
            }
        }
        sorted.insert(at.min(sorted.len()), *body)?;
    }
    let mut first = Vec::new(alloc);
    let mut second = Vec::new(alloc);
    for (i, body) in sorted.iter().enumerate() {
        if i < run.len() - run.len() / 2 {
            first.push(*body)?;
        } else {
            second.push(*body)?;
        }
    }
    Ok((first, second))
}

/// More nodes than any plan of these tests has.
const WRONG: u32 = 1_000_000;

/// How many nodes the plan has from this one down, where they are as the definition has them over the run, and
/// else a number that is too large.
pub(crate) fn nodes_from(
    alloc: Global,
    levels: u32,
    planner: &Planner,
    node: u32,
    run: &[(u32, FixBox)],
) -> Result<u32, AllocError> {
    if levels == 0 || node >= planner.len() {
        return Ok(WRONG);
    }
    let (front, back) = halves(alloc, run)?;
    let (a, b) = halves(alloc, &front)?;
    let (c, d) = halves(alloc, &back)?;
    let mut nodes = 1u32;
    for child in 0..4 {
        let part = match child {
            0 => &a,
            1 => &b,
            2 => &c,
            _ => &d,
        };
        let below = match planner.child(node, child) {
            PlanChild::Nothing if part.is_empty() => 0,
            PlanChild::Body(index) if part.len() == 1 && part[0].0 == index => 0,
            PlanChild::Node(m)
                if part.len() > 1
                    && m < planner.len()
                    && planner.parent(m) == Some((node, child)) => {
                nodes_from(alloc, levels - 1, planner, m, part)?
            }
            _ => WRONG,
        };
        nodes = nodes.saturating_add(below);
    }
    Ok(nodes)
}
