//! A table of a fixed number of places, filled from the front.
#![tactic(auto)]

ghost use Rattle.std.specs.Prelude.{◌≡◌, ◌<◌, ◌≤◌, ◌↔◌, [], ◌∷◌, ◌++◌, length, IsOk, OnOk, OnErr, MatchOption, slice_index_or};

use std::marker::Model;
use thiserror::Error;

/// The items in the order in which they came, numbered from 0.
// A project rule keeps it in fixed memory, so it is an array with a length and no `Vec`.
#[derive(Drop)]
pub struct Table<T, const N: usize> {
    items: [T; N],
    len: usize,
}

// Clauses see the items, in the order of their numbers.
impl<T, const N: usize> Model for Table<T, N> {
    ghost use Rattle.std.specs.Prelude.{◌≡◌, ◌≤◌, List, length, take};
    ghost use Rattle.std.specs.Coded.{coded_list};

    ghost Value = { List T };

    ghost coded = { coded_list T.code };

    ghost view = { λ t. take t.len t.items };

    ghost invariant = { λ t. (length t.items ≡ N) × (t.len ≤ N) };
}

/// There is no room for another item.
#[derive(Clone, Copy, PartialEq, Eq, Debug, Error)]
#[error("there is no room for another item")]
pub struct Full;

impl<T: Copy, const N: usize> Table<T, N> {
    /// A table with no item.
    pub fn empty(blank: T) -> Table<T, N>
        ensures { result ≡ [] }
    {
        Table {
            items: [blank; N],
            len: 0,
        }
    }

    /// Adds an item behind those that are there, where there is room for it.
    pub fn push(&mut self, item: T) -> Result<(), Full>
        ensures room { IsOk result ↔ (length self.old < N) }
        ensures ok { OnOk result (self.new ≡ self.old ++ item ∷ []) }
        ensures err { OnErr result (self.new ≡ self.old) }
        ensures within { length self.old ≤ N }
    {
        let at = self.len;
        if at >= N {
            return Err(Full);
        }
        self.items[at] = item;
        self.len = at + 1;
        Ok(())
    }

    /// The items, in the order of their numbers.
    pub fn as_slice(&self) -> &[T]
        ensures items { result.now ≡ self.now }
        ensures within { length result.now ≤ N }
    {
        &self.items[..self.len]
    }

    /// How many items there are.
    pub fn len(&self) -> usize
        ensures items { result ≡ length self.now }
        ensures within { result ≤ N }
    {
        self.len
    }

    /// The item of that number, if there is one.
    pub fn get(&self, number: usize) -> Option<T>
        ensures item { MatchOption result (length self.now ≤ number) (λ x. (number < length self.now) × ((d : T) → x ≡ slice_index_or self.now number d)) }
        ensures within { length self.now ≤ N }
    {
        self.as_slice().get(number).copied()
    }
}
