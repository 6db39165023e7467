//! Taking the links from records, and reading them.
ghost use Rattle.std.specs.Prelude.{◌≡◌, map, length, MatchOption};
ghost use Rattle.hierarchy.specs.Order.{links_of, Falling, LeastOrder};
ghost use Rattle.hierarchy.specs.Linking.{linked};

use super::{Linked, Links};
use sets::NumberSet;

impl Links {
    /// The links of a list of records, if each names only lower numbers and there are at most 64.
    pub fn of<R: Linked>(records: &[R]) -> Option<Links>
        ensures links { MatchOption result (Falling (map R.Linked.above records.now) → ⊥) (λ l. Falling (linked l) × (linked l ≡ map R.Linked.above records.now)) }
        ensures least { LeastOrder }
    {
        let len = records.len();
        if len > 64 {
            return None;
        }
        let mut rows = [NumberSet::empty(); 64];
        for (i, record) in records.iter().enumerate() {
            let above = record.above();
            if !above.is_below(i) {
                return None;
            }
            rows[i] = above;
        }
        Some(Links { rows, len })
    }

    /// How many numbers are declared.
    pub fn len(&self) -> usize
        ensures { result ≡ length (linked self.now) }
    {
        self.len
    }

    /// The numbers directly above a number; none above one that is not declared.
    pub fn above(&self, number: usize) -> NumberSet
        ensures { result ≡ links_of (linked self.now) number }
    {
        self.rows[..self.len]
            .get(number)
            .copied()
            .unwrap_or(NumberSet::empty())
    }
}
