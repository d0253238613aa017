//! The ids that a query found, one after the other.
ghost use Rattle.std.specs.Iterator.{YieldsFirst, item_count};
ghost use Rattle.tree_query.specs.Finding.{ids_from};

use crate::finder::Finder;
use body_ident::BodyId;

/// The ids that a finder holds, ascending by index, each index once.
#[derive(Drop)]
pub struct FoundIds<'a> {
    pub(crate) finder: &'a Finder,
    pub(crate) next: u32,
}

impl<'a> Iterator for FoundIds<'a> {
    type Item = BodyId;

    ghost next_gives = { YieldsFirst (λ s. ids_from s.finder.now s.next) };

    ghost remaining = { item_count (λ s. ids_from s.finder.now s.next) };

    #[inline(always)]
    fn next(&mut self) -> Option<BodyId> {
        let index = self.finder.first_from(self.next)?;
        self.next = index + 1;
        Some(self.finder.id(index))
    }
}
