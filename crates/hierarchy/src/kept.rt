//! The order that keeps, for each number, the set of all numbers at or above it.
ghost use Rattle.std.specs.Prelude.{◌≡◌, ℕ, ◌≤◌, length};
ghost use Rattle.hierarchy.specs.Order.{Reflexive, Transitive};
ghost use Rattle.hierarchy.specs.Rows.{InRows};
ghost use Rattle.hierarchy.specs.RowLaws.{rows_antisym, rows_join, rows_within};

use crate::links::Links;
use crate::order::Hierarchy;
use crate::rows::{Rows, build};
use sets::NumberSet;

/// The rows of the declared numbers.
// A project rule asks for the rows as an array, so how many are declared stands beside it.
#[derive(Clone, Copy)]
pub struct Kept {
    rows: Rows,
    len: usize,
    ghost sized: { length rows.of ≡ 64 },
    ghost few: { len ≤ 64 },
    ghost own: { Reflexive len (InRows rows.of len) },
    ghost falls: { (a b : ℕ) → InRows rows.of len a b → b ≤ a },
    ghost joins: { ∥ Transitive (InRows rows.of len) ∥₁ },
}

impl Hierarchy for Kept {
    ghost declared = { λ s. s.len };

    ghost pairs = { λ s a b. InRows s.rows.of s.len a b };

    ghost reflexive = { λ s. s.own };

    ghost antisymmetric = { λ s. rows_antisym s.rows.of s.len s.falls };

    ghost transitive = { λ s. rows_join s.rows.of s.len s.joins };

    ghost within = { λ s. rows_within s.rows.of s.len s.falls };

    fn from_links(links: &Links) -> Kept {
        let rows = build(links);
        Kept {
            rows,
            len: links.len(),
        }
    }

    fn at_or_below(&self, a: usize, b: usize) -> bool {
        a < self.len && NumberSet::from(self.rows.of[a]).contains(b)
    }
}
