ghost use Rattle.std.specs.Prelude.{◌≡◌, ◌+◌, ◌^◌, ◌<◌};
ghost use Rattle.tree_plan.specs.Quarters.{quarter_start, quarter_size};

/// The part of the bodies that a node stands over, and the place of the node in the one above it: that node and
/// the child's number.
#[derive(Clone, Copy, Debug)]
pub(crate) struct Run {
    pub(crate) start: usize,
    pub(crate) size: usize,
    pub(crate) parent: Option<(u32, u32)>,
}

impl Run {
    /// Where the part of a child begins, and how many bodies it has.
    pub(crate) fn quarter(self, child: usize) -> (usize, usize)
        requires child { child < 4 }
        requires fits { self.start + self.size < 2 ^ 63 }
        ensures start { result.0 ≡ self.start + quarter_start self.size child }
        ensures size { result.1 ≡ quarter_size self.size child }
    {
        let back = self.size / 2;
        let front = self.size - back;
        match child {
            0 => (self.start, front - front / 2),
            1 => (self.start + (front - front / 2), front / 2),
            2 => (self.start + front, back - back / 2),
            _ => (self.start + (front + (back - back / 2)), back / 2),
        }
    }
}
