//! Each rule, with the place and the other view of its rejection.
use crate::judged::{check_accepted, check_rejected};
use crate::made::{FIRST, ViewFields, book_of};
use std::test::Fail;

#[test]
fn two_rights(rt: HostRuntime) -> Result<(), Fail> {
    let view = ViewFields {
        weakly_permitted: 1,
        strongly_permitted: 1,
        ..ViewFields::default()
    };
    check_rejected(
        &book_of(rt.alloc(), &[ViewFields::default(), view])?,
        11,
        FIRST + 3,
        None,
    )
}

#[test]
fn foreign_operation(rt: HostRuntime) -> Result<(), Fail> {
    let view = ViewFields {
        weakly_permitted: 4,
        ..ViewFields::default()
    };
    check_rejected(&book_of(rt.alloc(), &[view])?, 12, FIRST, None)?;
    let inherited = ViewFields {
        controlled: 1,
        weakly_permitted: 7,
        ..ViewFields::default()
    };
    check_accepted(&book_of(rt.alloc(), &[inherited])?)
}

#[test]
fn assignable_denial(rt: HostRuntime) -> Result<(), Fail> {
    let view = ViewFields {
        modifiers: 1,
        weakly_denied: 1,
        ..ViewFields::default()
    };
    check_rejected(&book_of(rt.alloc(), &[view])?, 13, FIRST, None)
}

#[test]
fn virtual_right(rt: HostRuntime) -> Result<(), Fail> {
    let view = ViewFields {
        modifiers: 2,
        weakly_permitted: 1,
        ..ViewFields::default()
    };
    check_rejected(&book_of(rt.alloc(), &[view])?, 14, FIRST, None)
}

#[test]
fn controlled_type(rt: HostRuntime) -> Result<(), Fail> {
    let base = ViewFields {
        controlled: 1,
        ..ViewFields::default()
    };
    let view = ViewFields {
        bases: 1,
        ..ViewFields::default()
    };
    check_rejected(&book_of(rt.alloc(), &[base, view])?, 15, FIRST + 3, Some(0))?;
    let lower = ViewFields { bases: 1, ..base };
    check_accepted(&book_of(rt.alloc(), &[ViewFields::default(), lower])?)
}

#[test]
fn role_restriction(rt: HostRuntime) -> Result<(), Fail> {
    let base = ViewFields {
        restriction: 1,
        ..ViewFields::default()
    };
    let view = ViewFields {
        bases: 1,
        restriction: 6,
        ..ViewFields::default()
    };
    check_rejected(
        &book_of(rt.alloc(), &[base, view])?,
        16,
        FIRST + 11,
        Some(0),
    )?;
    let open = ViewFields {
        bases: 1,
        ..ViewFields::default()
    };
    check_rejected(
        &book_of(rt.alloc(), &[base, open])?,
        16,
        FIRST + 11,
        Some(0),
    )?;
    let lower = ViewFields {
        restriction: 2,
        ..view
    };
    check_accepted(&book_of(rt.alloc(), &[base, lower])?)
}

#[test]
fn requirement(rt: HostRuntime) -> Result<(), Fail> {
    let base = ViewFields {
        required: 1,
        ..ViewFields::default()
    };
    let view = ViewFields {
        bases: 2,
        ..ViewFields::default()
    };
    let book = book_of(rt.alloc(), &[ViewFields::default(), base, view])?;
    check_rejected(&book, 17, FIRST + 14, Some(1))?;
    let fixed = ViewFields {
        modifiers: 4,
        ..ViewFields::default()
    };
    let loose = ViewFields {
        bases: 1,
        ..ViewFields::default()
    };
    check_rejected(
        &book_of(rt.alloc(), &[fixed, loose])?,
        17,
        FIRST + 4,
        Some(0),
    )
}

#[test]
fn redefinition(rt: HostRuntime) -> Result<(), Fail> {
    let view = ViewFields {
        bases: 1,
        weakly_permitted: 1,
        ..ViewFields::default()
    };
    let strong = ViewFields {
        strongly_denied: 1,
        ..ViewFields::default()
    };
    check_rejected(
        &book_of(rt.alloc(), &[strong, view])?,
        18,
        FIRST + 19,
        Some(0),
    )?;
    let weak = ViewFields {
        weakly_denied: 1,
        ..ViewFields::default()
    };
    check_accepted(&book_of(rt.alloc(), &[weak, view])?)
}

#[test]
fn clashing(rt: HostRuntime) -> Result<(), Fail> {
    let permits = ViewFields {
        strongly_permitted: 1,
        ..ViewFields::default()
    };
    let denies = ViewFields {
        controlled: 1,
        strongly_denied: 1,
        ..ViewFields::default()
    };
    let book = book_of(rt.alloc(), &[ViewFields::default(), permits, denies])?;
    check_rejected(&book, 19, FIRST + 3, Some(2))?;
    let elsewhere = ViewFields {
        controlled: 2,
        ..denies
    };
    check_accepted(&book_of(rt.alloc(), &[permits, elsewhere])?)
}
