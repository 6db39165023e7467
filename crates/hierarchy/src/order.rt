//! What every order over the declared numbers offers.
ghost use Rattle.std.specs.Prelude.{◌≡◌, ℕ, ◌<◌, true, map, length, MatchOption};
ghost use Rattle.sets.specs.Members.{Iff};
ghost use Rattle.hierarchy.specs.Order.{Below, Falling, Means};
ghost use Rattle.hierarchy.specs.Linking.{linked};

use crate::links::{Linked, Links};

/// An order over the declared numbers: each of its pairs is a number that lies at or below another.
pub trait Hierarchy: Sized {
    /// How many numbers are declared.
    ghost declared: { Self → ℕ };

    /// The first number lies at or below the second.
    ghost pairs: { Self → ℕ → ℕ → Type 0 };

    /// The order that the links make.
    fn from_links(links: &Links) -> Self
        ensures count { declared result ≡ length (linked links.now) }
        ensures order { (a b : ℕ) → Iff (pairs result a b) (Below (linked links.now) a b) };

    /// Whether a lies at or below b, for every two numbers.
    fn at_or_below(&self, a: usize, b: usize) -> bool
        ensures { Iff (result ≡ true) (pairs self.now a b) };

    ghost reflexive: { (s : Self) (a : ℕ) → a < declared s → pairs s a a };

    ghost antisymmetric: { (s : Self) (a b : ℕ) → pairs s a b → pairs s b a → a ≡ b };

    ghost transitive: { (s : Self) (a b c : ℕ) → pairs s a b → pairs s b c → pairs s a c };

    ghost within: { (s : Self) (a b : ℕ) → pairs s a b → (a < declared s) × (b < declared s) };
}

/// The order of records, if each names only lower numbers and there are at most 64.
pub fn order_of<H: Hierarchy, R: Linked>(records: &[R]) -> Option<H>
    ensures { MatchOption result (Falling (map R.Linked.above records.now) → ⊥) (λ h. Means (H.Hierarchy.pairs h) (map R.Linked.above records.now)) }
{
    let links = Links::of(records)?;
    Some(H::from_links(&links))
}
