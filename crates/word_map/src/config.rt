ghost use Rattle.std.specs.Prelude.{◌≡◌};
ghost use Rattle.word_map.specs.Limits.{is_stripe_count, is_within_limit, fault_of};

/// The most bodies of a world. A larger one is planned to hold 1,048,576.
pub const MAX_BODIES: u32 = 65_536;

/// The numbers of stripes that a world may have: the powers of two up to 64, as one 64-bit mask names several.
pub const STRIPE_COUNTS: [u32; 7] = [1, 2, 4, 8, 16, 32, 64];

/// The most layers of a world.
pub const MAX_LAYERS: u32 = 8;

/// The most attach slots of a layer. A larger world is planned to have 1,024.
pub const MAX_SLOTS: u32 = 64;

/// The most batch nodes of a world. A larger one is planned to have 1,048,576.
pub const MAX_NODES: u32 = 65_536;

/// The most passes of a world: a lock word has a bit for each reader and a bit for each writer.
pub const MAX_PASSES: u32 = 32;

/// The sizes of a world.
#[derive(Clone, Copy, Debug, PartialEq, Eq)]
pub struct Config {
    /// How many bodies can be live at once: 1 to 65,536.
    pub bodies: u32,
    /// How many locks the bodies share: a power of two, 1 to 64.
    pub stripes: u32,
    /// How many layers the broad phase has, each with a tree of its own: 1 to 8.
    pub layers: u32,
    /// How many batches can be attached to a layer beside its main tree: 1 to 64.
    pub slots: u32,
    /// How many tree nodes batches can use: 1 to 65,536.
    pub nodes: u32,
    /// How many callers can make steps: 1 to 32.
    pub passes: u32,
}

/// A field of a `Config`, in the order in which `check` looks at them.
#[derive(Clone, Copy, Debug, PartialEq, Eq)]
pub enum Field {
    Bodies,
    Stripes,
    Layers,
    Slots,
    Nodes,
    Passes,
}

/// What `check` says of sizes that no world has.
#[derive(Clone, Copy, Debug, PartialEq, Eq)]
pub struct BadConfig {
    /// The first field that is out of its limit.
    pub field: Field,
}

fn is_stripe_count(n: u32) -> bool
    ensures { result ≡ is_stripe_count n }
{
    STRIPE_COUNTS.contains(&n)
}

fn is_within_limit(config: Config, field: Field) -> bool
    ensures { result ≡ is_within_limit config field }
{
    match field {
        Field::Bodies => 1 <= config.bodies && config.bodies <= MAX_BODIES,
        Field::Stripes => is_stripe_count(config.stripes),
        Field::Layers => 1 <= config.layers && config.layers <= MAX_LAYERS,
        Field::Slots => 1 <= config.slots && config.slots <= MAX_SLOTS,
        Field::Nodes => 1 <= config.nodes && config.nodes <= MAX_NODES,
        Field::Passes => 1 <= config.passes && config.passes <= MAX_PASSES,
    }
}

/// The first field that is out of its limit, and `None` where there is none.
pub(crate) fn fault_of(config: Config) -> Option<Field>
    ensures { result ≡ fault_of config }
{
    let fields = [
        Field::Bodies,
        Field::Stripes,
        Field::Layers,
        Field::Slots,
        Field::Nodes,
        Field::Passes,
    ];
    fields
        .iter()
        .copied()
        .find(|field| !is_within_limit(config, *field))
}
