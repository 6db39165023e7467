//! What a view is besides its rights.
ghost use Rattle.std.specs.Prelude.{◌≡◌, true};
ghost use Rattle.sets.specs.Members.{Bit, Iff};
ghost use Rattle.records.specs.Modifiers.{bit_of};

use crate::View;
use sets::NumberSet;
use std::fmt;

/// What a view may be, in the order of the bits that stand for it.
#[derive(Clone, Copy, PartialEq, Eq, Debug)]
pub enum Modifier {
    /// A holder may pass it on.
    Assignable,
    /// It is there only to be extended.
    Virtual,
    /// It may be given to roles only.
    Static,
}

impl Modifier {
    /// All of them.
    pub const ALL: [Modifier; 3] = [Modifier::Assignable, Modifier::Virtual, Modifier::Static];
}

impl fmt::Display for Modifier {
    fn fmt<W: fmt::Write>(&self, f: &mut fmt::Formatter<W>) -> fmt::Result {
        f.write_str(match self {
            Modifier::Assignable => "assignable",
            Modifier::Virtual => "virtual",
            Modifier::Static => "static",
        })
    }
}

impl View {
    /// Whether the view is what the modifier says.
    pub fn is(&self, modifier: Modifier) -> bool
        ensures { Iff (result ≡ true) (Bit (bit_of modifier) self.now.modifiers) }
    {
        NumberSet::from(u64::from(self.modifiers)).contains(modifier as usize)
    }
}
