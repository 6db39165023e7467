//! For each number, the numbers at or above it.
ghost use Rattle.std.specs.Prelude.{◌≡◌, ℕ, ◌<◌, length};
ghost use Rattle.sets.specs.Members.{In, Iff};
ghost use Rattle.hierarchy.specs.Order.{Below};
ghost use Rattle.hierarchy.specs.Linking.{linked};
ghost use Rattle.hierarchy.specs.Rows.{Told};

use crate::links::Links;
use sets::NumberSet;

/// For each number, the word whose bits are the numbers at or above it.
// A project rule asks for words in a plain struct that is copied by value.
#[derive(Clone, Copy)]
pub struct Rows {
    pub(crate) of: [u64; 64],
}

/// The numbers at or above a declared number, from the rows of the lower ones.
fn row(links: &Links, of: &[u64; 64], number: usize) -> NumberSet
    requires { (number < length (linked links.now)) × Told (linked links.now) of.now number }
    ensures { (k : ℕ) → Iff (In k result) (Below (linked links.now) number k) }
{
    let mut row = NumberSet::empty();
    row.insert(number);
    // A function that calls a closure for each member is no plainer: the closure indexes the rows, so the contract would have
    // to say which numbers it is given.
    for lower in links.above(number) {
        row = row.union(NumberSet::from(of[lower]));
    }
    row
}

/// The rows of the declared numbers, the lowest number first.
pub(crate) fn build(links: &Links) -> Rows
    ensures sized { length result.of ≡ 64 }
    ensures told { Told (linked links.now) result.of (length (linked links.now)) }
{
    let mut of = [0u64; 64];
    // An iterator over the rows would be no plainer, since each row is made from those before it.
    for number in 0..links.len() {
        of[number] = u64::from(row(links, &of, number));
    }
    Rows { of }
}
