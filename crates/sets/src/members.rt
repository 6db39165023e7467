//! The members of a set, one after the other.
ghost use Rattle.std.specs.Prelude.{◌≡◌};
ghost use Rattle.std.specs.Iterator.{YieldsFirst, item_count};
ghost use Rattle.sets.specs.Members.{members};

use crate::NumberSet;

/// The members of a set that are left, in rising order.
#[derive(Clone, Copy, Debug)]
pub struct Members {
    pub(crate) left: NumberSet,
}

impl IntoIterator for NumberSet {
    type Item = usize;

    type IntoIter = Members;

    ghost into_iter_gives = { λ set members. members.left ≡ set };

    fn into_iter(self) -> Members {
        self.iter()
    }
}

impl Iterator for Members {
    type Item = usize;

    ghost next_gives = { YieldsFirst (λ m. members m.left) };

    ghost remaining = { item_count (λ m. members m.left) };

    fn next(&mut self) -> Option<usize> {
        let first = self.left.lowest()?;
        self.left = self.left.without(first);
        Some(first)
    }
}
