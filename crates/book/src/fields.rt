//! The fields of a record, taken one after the other.
ghost use Rattle.std.specs.Prelude.{◌≡◌, ◌≤◌, true, false, MatchOption, length, take, drop, if◌then◌else◌, slice_index};
ghost use Rattle.sets.specs.Bytes.{set_of};
ghost use Rattle.book.specs.Form.{marked, piece, wrong_next, wrong_names, wrong_operations, wrong_controlled, wrong_modifiers, wrong_denials};
ghost use Rattle.book.specs.Reading.{Told, Moved};

use crate::refusal::Refusal;
use sets::NumberSet;

/// What is left of a record's fields: bit 0 of the map is that of the next field.
// No ghost field says that enough bytes are left, since how many are needed depends on which field is taken next.
#[derive(Clone, Copy)]
pub(crate) struct Fields<'a> {
    pub(crate) map: u8,
    pub(crate) rest: &'a [u8],
}

impl<'a> Fields<'a> {
    // The bytes of the next field, where it is present.
    fn next<const N: usize>(&mut self) -> Option<&'a [u8; N]>
        requires { (if marked self.old.map then N else 0) ≤ length self.old.rest.now }
        ensures moved { Moved N self.old.map self.old.rest.now self.new.map self.new.rest.now }
        ensures bytes { MatchOption result (marked self.old.map ≡ false) (λ bytes. (marked self.old.map ≡ true) × (bytes.now ≡ take N self.old.rest.now)) }
    {
        let there = self.map % 2 == 1;
        self.map /= 2;
        if !there {
            return None;
        }
        let (bytes, rest) = self.rest.split_first_chunk()?;
        self.rest = rest;
        Some(bytes)
    }

    /// The next set, none where it is absent; refused where it is present and empty.
    pub(crate) fn set(&mut self) -> Result<NumberSet, Refusal>
        requires { (if marked self.old.map then 8 else 0) ≤ length self.old.rest.now }
        ensures moved { Moved 8 self.old.map self.old.rest.now self.new.map self.new.rest.now }
        ensures told { Told result (wrong_next wrong_operations 8 self.old.map self.old.rest.now) (set_of (piece 8 self.old.map self.old.rest.now)) }
    {
        let Some(bytes) = self.next() else {
            return Ok(NumberSet::empty());
        };
        let set = NumberSet::from(*bytes);
        if set.is_empty() {
            return Err(Refusal::Empty);
        }
        Ok(set)
    }

    /// The next set, of numbers that are declared where they are below the limit.
    pub(crate) fn numbers(&mut self, declared: usize) -> Result<NumberSet, Refusal>
        requires { (if marked self.old.map then 8 else 0) ≤ length self.old.rest.now }
        ensures moved { Moved 8 self.old.map self.old.rest.now self.new.map self.new.rest.now }
        ensures told { Told result (wrong_next (wrong_names declared) 8 self.old.map self.old.rest.now) (set_of (piece 8 self.old.map self.old.rest.now)) }
    {
        let set = self.set()?;
        if !set.is_below(declared) {
            return Err(Refusal::Undeclared);
        }
        Ok(set)
    }

    /// The number of a type, which is declared where it is below the limit.
    pub(crate) fn controlled(&mut self, declared: usize) -> Result<u8, Refusal>
        requires { (if marked self.old.map then 1 else 0) ≤ length self.old.rest.now }
        ensures moved { Moved 1 self.old.map self.old.rest.now self.new.map self.new.rest.now }
        ensures told { Told result (wrong_next (wrong_controlled declared) 1 self.old.map self.old.rest.now) (slice_index (piece 1 self.old.map self.old.rest.now) 0) }
    {
        let Some([number]) = self.next::<1>() else {
            return Ok(0);
        };
        if usize::from(*number) >= declared {
            return Err(Refusal::Undeclared);
        }
        Ok(*number)
    }

    /// The modifiers of a view, 0 where they are absent.
    pub(crate) fn modifiers(&mut self) -> Result<u8, Refusal>
        requires { (if marked self.old.map then 1 else 0) ≤ length self.old.rest.now }
        ensures moved { Moved 1 self.old.map self.old.rest.now self.new.map self.new.rest.now }
        ensures told { Told result (wrong_next wrong_modifiers 1 self.old.map self.old.rest.now) (slice_index (piece 1 self.old.map self.old.rest.now) 0) }
    {
        match self.next::<1>() {
            None => Ok(0),
            Some([0]) => Err(Refusal::Empty),
            Some([sum]) if *sum > 7 => Err(Refusal::Undeclared),
            Some([sum]) => Ok(*sum),
        }
    }

    /// The operations denied weakly and those denied strongly; refused where they are present and both are empty.
    pub(crate) fn denials(&mut self) -> Result<(NumberSet, NumberSet), Refusal>
        requires { (if marked self.old.map then 16 else 0) ≤ length self.old.rest.now }
        ensures moved { Moved 16 self.old.map self.old.rest.now self.new.map self.new.rest.now }
        ensures told { Told result (wrong_next wrong_denials 16 self.old.map self.old.rest.now) (set_of (take 8 (piece 16 self.old.map self.old.rest.now)), set_of (drop 8 (piece 16 self.old.map self.old.rest.now))) }
    {
        let Some(bytes) = self.next::<16>() else {
            return Ok((NumberSet::empty(), NumberSet::empty()));
        };
        let (Some(weak), Some(strong)) = (bytes.first_chunk(), bytes.last_chunk()) else {
            unreachable!()
        };
        let weak = NumberSet::from(*weak);
        let strong = NumberSet::from(*strong);
        if weak.is_empty() && strong.is_empty() {
            return Err(Refusal::Empty);
        }
        Ok((weak, strong))
    }
}
