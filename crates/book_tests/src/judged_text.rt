//! What the author of a book is told of how it is judged.
use crate::checks::check;
use crate::made::{ViewFields, book_of};
use crate::worked::BOOK;
use listing::judged_report::judged_report_on;
use std::alloc::Global;
use std::test::Fail;

// Checks how the text of a report on a judged book ends.
fn check_end(heap: Global, book: &[u8], end: &str) -> Result<(), Fail> {
    let report = judged_report_on(book);
    let written = format!(in heap; "{report}")?;
    check(written.as_str().ends_with(end))
}

#[test]
fn the_worked_book(rt: HostRuntime) -> Result<(), Fail> {
    check_end(
        rt.alloc(),
        &BOOK,
        "type 0 at 1; operations 0 1 2\ntype 1 at 11; supertypes 0; operations 3; all operations 0 1 2 3\nrole 0 at 29\nrole 1 at 31; superroles 0\ngroup 0 at 41; roles 0 1\nview 0 at 51; type 0; operation 0 weakly permitted\nview 1 at 62; type 0; operation 1 weakly denied; operation 2 weakly denied\nview 2 at 81; type 0; bases 1; assignable; operation 1 weakly permitted; operation 2 weakly permitted\nsubject 0 at 101; groups 0; roles 0 1\nsubject 1 at 111; groups 0; roles 0 1\ntypes 2, roles 2, groups 1, views 3, subjects 2\naccepted\n",
    )
}

#[test]
fn a_view_with_every_modifier(rt: HostRuntime) -> Result<(), Fail> {
    check_end(
        rt.alloc(),
        &[
            1, 1, 0, 2, 0, 4, 121, 0, 0, 0, 0, 0, 0, 0, 0, 1, 7, 0, 0, 0, 0, 0, 0, 0, 1, 128, 0, 0,
            0, 0, 0, 0, 0,
        ],
        "types 1, roles 1, groups 0, views 1, subjects 0\nrefused 12 at 5: view 0: a right is for an operation that the controlled type does not have\n",
    )
}

#[test]
fn a_refusal_of_the_form(rt: HostRuntime) -> Result<(), Fail> {
    check_end(
        rt.alloc(),
        &[2],
        "refused 2 at 0: the first byte is not 01\n",
    )
}

#[test]
fn a_view_and_its_base(rt: HostRuntime) -> Result<(), Fail> {
    let base = ViewFields {
        strongly_denied: 1,
        ..ViewFields::default()
    };
    let view = ViewFields {
        bases: 2,
        weakly_permitted: 1,
        ..ViewFields::default()
    };
    check_end(
        rt.alloc(),
        &book_of(rt.alloc(), &[ViewFields::default(), base, view])?,
        "views 3, subjects 0\nrefused 18 at 75: view 2 against its base view 1: a right of the base is missing or changed in a way that is not allowed, or a new right denies\n",
    )
}

#[test]
fn two_views_that_clash(rt: HostRuntime) -> Result<(), Fail> {
    let permits = ViewFields {
        strongly_permitted: 1,
        ..ViewFields::default()
    };
    let denies = ViewFields {
        controlled: 1,
        strongly_denied: 1,
        ..ViewFields::default()
    };
    check_end(
        rt.alloc(),
        &book_of(rt.alloc(), &[permits, denies])?,
        "views 2, subjects 0\nrefused 19 at 53: view 0 and view 1: one strongly permits an operation that the other strongly denies, and a type lies at or below both controlled types\n",
    )
}
