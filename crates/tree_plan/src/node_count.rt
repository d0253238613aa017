ghost use Rattle.std.specs.Prelude.{◌≡◌, ◌+◌, ◌≤◌, max};
ghost use Rattle.scene_model.specs.Need.{need, need_of_run};
ghost use Rattle.tree_plan.specs.declared.node_count.TheConstants.{MAX_TREE_BODIES};

/// The most bodies of one tree, which then has ten levels of nodes.
pub const MAX_TREE_BODIES: u32 = 1_048_576;

/// What a run of `n` bodies takes below its node, and what a run of one body more takes.
///
/// The runs of a node differ by one body at most, so the two sizes beside each other follow from two sizes a
/// quarter as large.
fn below_node(n: u32) -> (u32, u32)
    requires { n ≤ MAX_TREE_BODIES }
    ensures this { result.0 ≡ need_of_run need n }
    ensures next { result.1 ≡ need_of_run need (n + 1) }
    ensures few { result.0 ≤ n }
    ensures next_few { result.1 ≤ n + 1 }
{
    if n == 0 {
        return (0, 0);
    }
    let (quarter, longer) = below_node(n / 4);
    let over = n % 4;
    let next = 1 + (3 - over) * quarter + (over + 1) * longer;
    if n == 1 {
        (0, next)
    } else {
        (1 + (4 - over) * quarter + over * longer, next)
    }
}

/// How many nodes the tree over `n` bodies takes: none for none, one for one.
///
/// It takes as many calls as `n` has digits to the base 4.
pub fn need(n: u32) -> u32
    requires { n ≤ MAX_TREE_BODIES }
    ensures exact { result ≡ need n }
    ensures small { result ≤ max 1 n }
{
    if n == 1 { 1 } else { below_node(n).0 }
}
