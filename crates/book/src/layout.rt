//! The format's table: how many records of a kind there may be, and how long their fields are.
ghost use Rattle.std.specs.Prelude.{◌≡◌, true, false, not, ◌&&◌, map, MatchOption};
ghost use Rattle.book.specs.Layout.{layout, width, limit, needs_first};
ghost use Rattle.book.specs.Form.{marked, span, unfit};

use crate::phase::Phase;

// The matches on a kind are the format's table itself, so closures or a table of functions would be no plainer.

// How many bytes each field of a record takes, from bit 0 of its map upwards.
fn widths(phase: Phase) -> &'static [u8]
    ensures { result.now ≡ map width (layout phase) }
{
    match phase {
        Phase::Types => &[8, 8],
        Phase::Roles => &[8],
        Phase::Groups => &[8, 8],
        Phase::Views => &[1, 8, 8, 8, 1, 8, 8, 16],
        Phase::Subjects => &[8],
    }
}

/// The most records of a kind.
pub(crate) fn most(phase: Phase) -> usize
    ensures { result ≡ limit phase }
{
    match phase {
        Phase::Types | Phase::Roles | Phase::Groups | Phase::Views => 64,
        Phase::Subjects => 256,
    }
}

// Whether the record is a view without its controlled type.
fn lacks_type(phase: Phase, map: u8) -> bool
    ensures { result ≡ (needs_first phase && not (marked map)) }
{
    phase == Phase::Views && map % 2 != 1
}

/// How many bytes the fields take that the map names; none where the map does not fit the kind.
pub(crate) fn measure(phase: Phase, map: u8) -> Option<usize>
    ensures { MatchOption result (unfit phase map ≡ true) (λ n. (unfit phase map ≡ false) × (n ≡ span (layout phase) map)) }
{
    let fields = widths(phase);
    // A chain is no plainer: it would number the fields to ask for bits that the map, halved, shows in turn.
    let mut size = 0;
    let mut left = map;
    for width in fields {
        if left % 2 == 1 {
            size += usize::from(*width);
        }
        left /= 2;
    }
    if left > 0 || lacks_type(phase, map) {
        return None;
    }
    Some(size)
}
