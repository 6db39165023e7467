//! The links of each number to the numbers directly above it.
ghost use Rattle.std.specs.Prelude.{◌≡◌, ℕ, ◌<◌, ◌≤◌, length};
ghost use Rattle.sets.specs.Members.{In};
ghost use Rattle.hierarchy.specs.Order.{links_of};
ghost use Rattle.sets.specs.declared.NumberSet.{NumberSet};

use sets::NumberSet;

// The methods stand in a file of their own, since a type with ghost fields imports all that its file imports.
pub mod methods;

/// A record that lies directly below others of its kind.
// One trait for this and for `Carrier` is no plainer: a group is both, so it would need a parameter that says which.
pub trait Linked {
    /// The numbers of the records directly above.
    ghost above: { Self → NumberSet };

    /// The numbers of the records directly above.
    fn above(&self) -> NumberSet
        ensures { result ≡ above self.now };
}

/// The links of up to 64 numbers, each to lower numbers only.
// A project rule keeps them in fixed memory, to be copied with the order that walks them, which no `Table` can be.
#[derive(Clone, Copy)]
pub struct Links {
    rows: [NumberSet; 64],
    len: usize,
    ghost sized: { length rows ≡ 64 },
    ghost few: { len ≤ 64 },
    ghost falls: { (i b : ℕ) → (i < len) × In b (links_of rows i) → b < i },
}
