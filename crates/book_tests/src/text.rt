//! What the author of a book is told.
use crate::books::plain_records;
use crate::checks::check_eq;
use book::phase::Phase;
use listing::report::report_on;
use std::alloc::Global;
use std::test::Fail;

// Checks the whole text of a report on a book.
fn check_text(heap: Global, book: &[u8], text: &str) -> Result<(), Fail> {
    let report = report_on(book);
    let written = format!(in heap; "{report}")?;
    check_eq(written.as_str(), text)
}

#[test]
fn refusals_of_the_whole_book_and_of_kinds(rt: HostRuntime) -> Result<(), Fail> {
    let heap = rt.alloc();
    check_text(
        heap,
        &[],
        "refused 1 at 0: the book is empty, or has more than 16384 bytes\n",
    )?;
    check_text(heap, &[2], "refused 2 at 0: the first byte is not 01\n")?;
    check_text(
        heap,
        &[1, 6],
        "refused 3 at 1: the kind byte is not 1 to 5, or is lower than the one before\n",
    )?;
    let many = plain_records(rt.alloc(), Phase::Types, 65)?;
    check_text(
        heap,
        &many,
        "refused 7 at 129: there are already as many records of this kind as there may be\n",
    )
}

#[test]
fn refusals_of_records(rt: HostRuntime) -> Result<(), Fail> {
    let heap = rt.alloc();
    check_text(
        heap,
        &[1, 1],
        "refused 4 at 1: the book ends inside the record\n",
    )?;
    check_text(
        heap,
        &[1, 1, 0, 4, 0],
        "refused 5 at 3: the map has a bit without a field, or the view has no controlled type\n",
    )?;
    check_text(
        heap,
        &[1, 1, 2, 0, 0, 0, 0, 0, 0, 0, 0],
        "refused 6 at 1: a set is present and empty, or the modifiers are 0\n",
    )?;
    check_text(
        heap,
        &[1, 1, 1, 0, 0, 0, 0, 0, 0, 0, 1],
        "refused 8 at 1: a number is not declared before, or the modifiers are above 7\n",
    )
}

#[test]
fn a_view_with_every_modifier(rt: HostRuntime) -> Result<(), Fail> {
    check_text(
        rt.alloc(),
        &[
            1, 1, 0, 2, 0, 4, 121, 0, 0, 0, 0, 0, 0, 0, 0, 1, 7, 0, 0, 0, 0, 0, 0, 0, 1, 128, 0, 0,
            0, 0, 0, 0, 0,
        ],
        "type 0 at 1\nrole 0 at 3\nview 0 at 5; type 0; role restriction 0; assignable; virtual; static; operation 0 weakly permitted; operation 63 strongly permitted\ntypes 1, roles 1, groups 0, views 1, subjects 0\n",
    )
}
