//! The order that walks the links at each question.
ghost use Rattle.std.specs.Prelude.{ℕ, length};
ghost use Rattle.sets.specs.Members.{In, Iff};
ghost use Rattle.hierarchy.specs.Order.{Below};
ghost use Rattle.hierarchy.specs.Linking.{linked};
ghost use Rattle.hierarchy.specs.Paths.{below_refl, below_antisym, below_trans, below_within};
ghost use Rattle.hierarchy.specs.LinkingLemmas.{falling};

use crate::links::Links;
use crate::order::Hierarchy;
use sets::NumberSet;

/// The links alone.
#[derive(Clone, Copy)]
pub struct Walked {
    links: Links,
}

/// The numbers at or above a number; none where it is not declared.
fn above(links: &Links, number: usize) -> NumberSet
    ensures { (k : ℕ) → Iff (In k result) (Below (linked links.now) number k) }
{
    let mut seen = NumberSet::empty();
    if number >= links.len() {
        return seen;
    }
    seen.insert(number);
    // An iterator over the members is no plainer, since the set grows on the way.
    for i in (0..number + 1).rev() {
        if seen.contains(i) {
            seen = seen.union(links.above(i));
        }
    }
    seen
}

impl Hierarchy for Walked {
    ghost declared = { λ s. length (linked s.links) };

    ghost pairs = { λ s a b. Below (linked s.links) a b };

    ghost reflexive = { λ s. below_refl (linked s.links) };

    ghost antisymmetric = { λ s. below_antisym (linked s.links) (falling s.links) };

    ghost transitive = { λ s. below_trans (linked s.links) };

    ghost within = { λ s. below_within (linked s.links) (falling s.links) };

    fn from_links(links: &Links) -> Walked {
        Walked { links: *links }
    }

    fn at_or_below(&self, a: usize, b: usize) -> bool {
        // Links lead to lower numbers, and a number that is linked directly needs no walk.
        b <= a && (self.links.above(a).contains(b) || above(&self.links, a).contains(b))
    }
}
