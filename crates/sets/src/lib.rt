//! Sets of the numbers 0 to 63, kept as the bits of one word.
#![tactic(auto)]

ghost use Rattle.std.specs.Prelude.{◌≡◌, ◌≢◌, ℕ, ◌-◌, ◌/◌, ◌%◌, ◌<◌, true, ◌⊎◌, [], MatchOption, slice_index};
ghost use Rattle.sets.specs.Members.{Bit, In, Iff};
ghost use Rattle.sets.specs.Counting.{HowMany};
ghost use Rattle.sets.specs.Bytes.{set_of};
ghost use Rattle.sets.specs.Tests.{is_empty, is_below};

pub mod members;

use members::Members;

/// A set of numbers, each at most 63.
#[derive(Clone, Copy, PartialEq, Eq, Default, Debug)]
pub struct NumberSet {
    bits: u64,
}

impl NumberSet {
    /// The set with no member.
    pub fn empty() -> NumberSet
        ensures value { result ≡ set_of [] }
        ensures members { (k : ℕ) → In k result → ⊥ }
    {
        NumberSet { bits: 0 }
    }

    /// Whether the number is a member; one past 63 never is.
    pub fn contains(self, number: usize) -> bool
        ensures { Iff (result ≡ true) (In number self) }
    {
        number < 64 && (self.bits >> number) & 1 == 1
    }

    /// Adds the number; one past 63 changes nothing.
    pub fn insert(&mut self, number: usize)
        ensures { (k : ℕ) → Iff (In k self.new) (In k self.old ⊎ ((k ≡ number) × (number < 64))) }
    {
        if number < 64 {
            self.bits |= 1 << number;
        }
    }

    /// The members other than the number.
    pub fn without(self, number: usize) -> NumberSet
        ensures { (k : ℕ) → Iff (In k result) (In k self × (k ≢ number)) }
    {
        if number >= 64 {
            return self;
        }
        NumberSet {
            bits: self.bits & !(1 << number),
        }
    }

    /// The numbers that are in either set.
    pub fn union(self, other: NumberSet) -> NumberSet
        ensures { (k : ℕ) → Iff (In k result) (In k self ⊎ In k other) }
    {
        NumberSet {
            bits: self.bits | other.bits,
        }
    }

    /// The numbers that are in both sets.
    pub fn intersection(self, other: NumberSet) -> NumberSet
        ensures { (k : ℕ) → Iff (In k result) (In k self × In k other) }
    {
        NumberSet {
            bits: self.bits & other.bits,
        }
    }

    /// Whether every member is in the other set too.
    pub fn is_subset(self, other: NumberSet) -> bool
        ensures { Iff (result ≡ true) ((k : ℕ) → In k self → In k other) }
    {
        self.bits & other.bits == self.bits
    }

    /// Whether every member is below the limit.
    pub fn is_below(self, limit: usize) -> bool
        ensures value { result ≡ is_below limit self }
        ensures members { Iff (result ≡ true) ((k : ℕ) → In k self → k < limit) }
    {
        limit >= 64 || self.bits >> limit == 0
    }

    /// Whether the set has no member.
    pub fn is_empty(self) -> bool
        ensures value { result ≡ is_empty self }
        ensures members { Iff (result ≡ true) ((k : ℕ) → In k self → ⊥) }
    {
        self.bits == 0
    }

    /// The lowest member, if there is any.
    pub fn lowest(self) -> Option<usize>
        ensures { MatchOption result ((k : ℕ) → In k self → ⊥) (λ i. (i < 64) × In i self × ((k : ℕ) → k < i → In k self → ⊥)) }
    {
        if self.is_empty() {
            return None;
        }
        Some(self.bits.trailing_zeros() as usize)
    }

    /// The members, in rising order.
    pub fn iter(self) -> Members
        ensures { result.left ≡ self }
    {
        Members { left: self }
    }

    /// How many members the set has.
    pub fn len(self) -> usize
        ensures { HowMany (λ k. In k self) result }
    {
        self.bits.count_ones() as usize
    }

    // The derived `==` says that the words are equal, so it is no plainer: this says it of the members.
    /// Whether both sets have the same members.
    pub fn same(self, other: NumberSet) -> bool
        ensures { Iff (result ≡ true) ((k : ℕ) → Iff (In k self) (In k other)) }
    {
        self == other
    }
}

impl From<u64> for NumberSet {
    ghost from_gives = { λ word s. s.bits ≡ word };

    /// The set whose members are the bits of a word.
    fn from(word: u64) -> NumberSet {
        NumberSet { bits: word }
    }
}

impl From<NumberSet> for u64 {
    ghost from_gives = { λ s word. word ≡ s.bits };

    /// The word whose bits are the members.
    fn from(set: NumberSet) -> u64 {
        set.bits
    }
}

impl From<[u8; 8]> for NumberSet {
    ghost from_gives = { λ bytes s. (s ≡ set_of bytes) × ((k : ℕ) → Iff (In k s) ((k < 64) × Bit (k % 8) (slice_index bytes (7 - k / 8)))) };

    /// The set that eight bytes stand for, the highest first: bit i of the whole stands for number i.
    fn from(bytes: [u8; 8]) -> NumberSet {
        NumberSet {
            bits: u64::from_be_bytes(bytes),
        }
    }
}
