//! The worked book of two types, two roles, a group, three views and two subjects.
use crate::checks::{check, check_eq};
use book::read::read;
use records::modifiers::Modifier;
use std::test::Fail;

/// Its bytes.
pub const BOOK: [u8; 121] = [
    1, // the first byte
    1, 2, 0, 0, 0, 0, 0, 0, 0, 7, // type 0
    1, 3, 0, 0, 0, 0, 0, 0, 0, 1, 0, 0, 0, 0, 0, 0, 0, 8, // type 1
    2, 0, // role 0
    2, 1, 0, 0, 0, 0, 0, 0, 0, 1, // role 1
    3, 2, 0, 0, 0, 0, 0, 0, 0, 3, // group 0
    4, 33, 0, 0, 0, 0, 0, 0, 0, 0, 1, // view 0
    4, 129, 0, 0, 0, 0, 0, 0, 0, 0, 6, 0, 0, 0, 0, 0, 0, 0, 0, // view 1
    4, 51, 0, 0, 0, 0, 0, 0, 0, 0, 2, 1, 0, 0, 0, 0, 0, 0, 0, 6, // view 2
    5, 1, 0, 0, 0, 0, 0, 0, 0, 1, // subject 0
    5, 1, 0, 0, 0, 0, 0, 0, 0, 1, // subject 1
];

#[test]
fn counts() -> Result<(), Fail> {
    let records = read(&BOOK)?;
    check_eq(records.types.len(), 2)?;
    check_eq(records.roles.len(), 2)?;
    check_eq(records.groups.len(), 1)?;
    check_eq(records.views.len(), 3)?;
    check_eq(records.subjects.len(), 2)
}

#[test]
fn places_of_types_roles_and_groups() -> Result<(), Fail> {
    let records = read(&BOOK)?;
    check_eq(records.types.get(0).ok_or("type 0")?.place, 1)?;
    check_eq(records.types.get(1).ok_or("type 1")?.place, 11)?;
    check_eq(records.roles.get(0).ok_or("role 0")?.place, 29)?;
    check_eq(records.roles.get(1).ok_or("role 1")?.place, 31)?;
    check_eq(records.groups.get(0).ok_or("group 0")?.place, 41)
}

#[test]
fn places_of_views_and_subjects() -> Result<(), Fail> {
    let records = read(&BOOK)?;
    check_eq(records.views.get(0).ok_or("view 0")?.place, 51)?;
    check_eq(records.views.get(1).ok_or("view 1")?.place, 62)?;
    check_eq(records.views.get(2).ok_or("view 2")?.place, 81)?;
    check_eq(records.subjects.get(0).ok_or("subject 0")?.place, 101)?;
    check_eq(records.subjects.get(1).ok_or("subject 1")?.place, 111)
}

#[test]
fn fields_of_a_view() -> Result<(), Fail> {
    let view = read(&BOOK)?.views.get(2).ok_or("view 2")?;
    check_eq(view.controlled, 0)?;
    check_eq(view.bases.lowest(), Some(1))?;
    check(view.required.is_empty() && view.restriction.is_empty())?;
    check(
        view.is(Modifier::Assignable) && !view.is(Modifier::Virtual) && !view.is(Modifier::Static),
    )?;
    check_eq(view.weak.permitted.len(), 2)?;
    check(view.weak.permitted.contains(1) && view.weak.permitted.contains(2))?;
    check(
        view.strong.permitted.is_empty()
            && view.weak.denied.is_empty()
            && view.strong.denied.is_empty(),
    )
}

#[test]
fn no_record_past_the_last() -> Result<(), Fail> {
    let records = read(&BOOK)?;
    check(records.types.get(2).is_none())?;
    check(records.views.get(3).is_none())?;
    check(records.subjects.get(2).is_none())
}
