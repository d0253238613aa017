/// What may hold a worker up before a command or a shift.
///
/// No clause speaks of it: what is proved holds whatever a gate does.
pub trait Gate: Sync {
    /// Called by each worker of a block before each of its commands, and by each lane of a step before each of
    /// its shifts: the number of the worker and of the command or shift, both from 0.
    fn before(&self, worker: u32, call: u32);
}

/// The gate that the program ships with: it returns at once.
#[derive(Clone, Copy, Debug, PartialEq, Eq)]
pub struct NoGate;

impl Gate for NoGate {
    fn before(&self, _worker: u32, _call: u32) {}
}

#[cfg(test)]
mod tests {
    use super::*;

    fn pass<G: Gate>(gate: &G) -> u32 {
        gate.before(1, 2);
        3
    }

    #[test]
    fn no_gate_returns(rt: HostRuntime) {
        assert_eq!(rt; pass(&NoGate), 3);
    }
}
