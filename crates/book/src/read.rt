//! Reading a whole book.
ghost use Rattle.std.specs.Prelude.{◌≡◌, IfOk, Ok, Err, MatchResult};
ghost use Rattle.book.specs.Declarations.{Declares, WithinLimits};
ghost use Rattle.book.specs.Form.{opening, reading};
ghost use Rattle.book.specs.Reading.{Told};
ghost use Rattle.book.specs.FormLaws.{Exactly, PassesAsEncoded, PartsAreTheBook};

use crate::contents::Records;
use crate::reader::Reader;
use crate::refusal::{Fault, Refusal};

/// Whether a book may be read at all: its size, and its first byte.
pub fn check_opening(book: &[u8]) -> Result<(), Refusal>
    ensures { Told result (opening book.now) tt }
{
    if book.is_empty() || book.len() > 16384 {
        return Err(Refusal::Size);
    }
    if book[0] != 1 {
        return Err(Refusal::Version);
    }
    Ok(())
}

/// The records of a book, or why and where its form is refused.
pub fn read(book: &[u8]) -> Result<Records, Fault>
    ensures records { MatchResult result (λ t. reading book.now ≡ Ok t) (λ f. reading book.now ≡ Err f) }
    ensures exactly { MatchResult result (λ t. Exactly book.now (Ok t)) (λ f. Exactly book.now (Err f)) }
    ensures declared { IfOk result (λ t. Declares t) }
    ensures within { IfOk result (λ t. WithinLimits t) }
    ensures encoded { PassesAsEncoded }
    ensures parts { PartsAreTheBook }
{
    check_opening(book).map_err(|refusal| Fault { refusal, place: 0 })?;
    let mut reader = Reader::new(book);
    let mut records = Records::empty();
    // A loop over the reader itself is no plainer: it is no `Iterator`, as its `next` says.
    while let Some(part) = reader.next()? {
        let record = records.made_of(part).map_err(|refusal| Fault {
            refusal,
            place: part.place,
        })?;
        records.file(record);
    }
    Ok(records)
}
