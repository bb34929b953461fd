//! Lists with what is known of their sizes.

ghost use Rattle.rf_decide.specs.Counted.{AreSizes};

use crate::lists::Lists;
use crate::sizes::Sizes;
use rf_rules::Decision;

/// The same lists, where a size that is known isn't counted again.
#[derive(Drop)]
pub struct CountedLists<'l, L: Lists> {
    pub lists: &'l L,
    pub sizes: &'l Sizes,
    ghost right: { AreSizes (L.many lists.now) (L.most lists.now) (L.list lists.now) sizes.now },
}

impl<L: Lists> Lists for CountedLists<'_, L> {
    ghost many = { λ it. L.many it.lists.now };

    ghost list = { λ it. L.list it.lists.now };

    ghost most = { λ it. L.most it.lists.now };

    fn many(&self) -> u64 {
        self.lists.many()
    }

    fn size(&self, k: u64) -> u64 {
        match self.sizes.known(k) {
            Some(size) => size,
            None => self.lists.size(k),
        }
    }

    fn member(&self, k: u64, place: u64) -> Decision {
        self.lists.member(k, place)
    }
}
