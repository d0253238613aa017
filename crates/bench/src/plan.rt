//! The planner of trees, over bodies of a fixed seed. A call is a body.
ghost use Rattle.std.specs.Prelude.{◌≡◌, ◌≤◌};
ghost use Rattle.tree_plan.specs.declared.node_count.TheConstants.{MAX_TREE_BODIES};

use crate::boxes::{a_box, generator};
use crate::table::{Job, Table};
use fixed_box::FixBox;
use std::alloc::{AllocError, Global};
use std::io;
use std::io::Print;
use std::time::Clock;
use tree_plan::{PlanChild, Planner, indexes_rise};

/// Boxes have sides of up to this part of the space.
const PARTS: u32 = 256;

/// The same bodies each time, with the indexes from 0 on.
fn some_bodies(alloc: Global, count: u32) -> Result<Vec<(u32, FixBox)>, AllocError> {
    let mut random = generator();
    let mut bodies = Vec::new(alloc);
    for index in 0..count {
        if let Some(b) = a_box(&mut random, PARTS) {
            bodies.push((index, b))?;
        }
    }
    Ok(bodies)
}

/// How many places of the planner's nodes have bodies.
fn placed(planner: &Planner) -> u32 {
    let mut bodies = 0u32;
    for node in 0..planner.len() {
        for c in 0..4 {
            if let PlanChild::Body(_) = planner.child(node, c) {
                bodies = bodies.wrapping_add(1);
            }
        }
    }
    bodies
}

/// Plans the tree of so many bodies.
#[derive(Drop)]
struct Plan {
    alloc: Global,
    count: u32,
    bodies: Vec<(u32, FixBox)>,
    planner: Planner,
    ghost few: { count ≤ MAX_TREE_BODIES },
    ghost most: { planner.most ≡ count },
}

impl Plan {
    fn new(alloc: Global, count: u32) -> Result<Plan, AllocError>
        requires { count ≤ MAX_TREE_BODIES }
    {
        let bodies = some_bodies(alloc, count)?;
        let planner = Planner::new(alloc, count)?;
        Ok(Plan {
            alloc,
            count,
            bodies,
            planner,
        })
    }
}

impl Job for Plan {
    /// Bodies in order, and a planner that has planned nothing.
    fn prepare(&mut self) -> Result<(), AllocError> {
        *self = Plan::new(self.alloc, self.count)?;
        Ok(())
    }

    fn run(self) -> Plan {
        let Plan {
            alloc,
            count,
            mut bodies,
            mut planner,
        } = self;
        if bodies.len() <= count as usize && indexes_rise(&bodies) {
            planner.fill(&mut bodies);
        }
        Plan {
            alloc,
            count,
            bodies,
            planner,
        }
    }

    fn calls(&self) -> u64 {
        u64::from(self.count)
    }

    fn found(&self, alloc: Global) -> Result<String, AllocError> {
        let nodes = self.planner.len();
        let bodies = placed(&self.planner);
        format!(in alloc; "{nodes} nodes hold {bodies}")
    }
}

/// Writes a row for each size.
pub(crate) fn run<R: Clock + Print>(table: &Table<R>) -> io::Result<()> {
    let alloc = table.alloc();
    table.row("plan, 1,000 bodies", Plan::new(alloc, 1_000)?)?;
    table.row("plan, 16,384 bodies", Plan::new(alloc, 16_384)?)?;
    table.row("plan, 65,536 bodies", Plan::new(alloc, 65_536)?)?;
    Ok(())
}
