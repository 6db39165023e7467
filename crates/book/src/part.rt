//! One record of a book, as the reader hands it out.
use crate::phase::Phase;

/// A record's kind, the offset of its kind byte, and its bytes.
#[derive(Clone, Copy, PartialEq, Eq, Debug)]
pub struct Part<'a> {
    pub phase: Phase,
    pub place: usize,
    pub bytes: &'a [u8],
}
