//! Sets of stripes.
ghost use Rattle.std.specs.Prelude.{◌≡◌, ℕ, true, false, ◌<◌, ◌==◌, if◌then◌else◌, IfSome, IfNone};
ghost use Rattle.body_lock.specs.Stripes.{has_stripe, IsNext, HasNone, TakesFirst};

/// A set of stripes, a bit for each.
#[derive(Clone, Copy)]
pub(crate) struct StripeSet {
    pub(crate) bits: u64,
}

impl StripeSet {
    /// No stripe.
    pub(crate) fn none() -> StripeSet
        ensures { (stripe : ℕ) → has_stripe result.bits stripe ≡ false }
    {
        StripeSet { bits: 0 }
    }

    /// Puts a stripe in.
    pub(crate) fn insert(&mut self, stripe: u32)
        requires { stripe < 64 }
        ensures { (other : ℕ) → has_stripe self.new.bits other ≡ if stripe == other then true else has_stripe self.old.bits other }
    {
        self.bits |= 1u64 << stripe;
    }

    /// The first stripe of the set that is not below this one.
    pub(crate) fn next(self, from: u32) -> Option<u32>
        ensures some { IfSome result (IsNext self.bits from) }
        ensures none { IfNone result (HasNone self.bits from) }
    {
        if from >= 64 {
            return None;
        }
        let rest = self.bits >> from;
        if rest == 0 {
            return None;
        }
        Some(from + rest.trailing_zeros())
    }

    /// Takes the first stripe out.
    pub(crate) fn take_first(&mut self) -> Option<u32>
        ensures some { IfSome result (TakesFirst self.old.bits self.new.bits) }
        ensures none { IfNone result (HasNone self.old.bits 0) }
    {
        let bits = self.bits;
        if bits == 0 {
            return None;
        }
        self.bits = bits & (bits - 1);
        Some(bits.trailing_zeros())
    }
}
