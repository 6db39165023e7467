//! Neighbours in the order of checks, where both apply: the first one answers.
use crate::books::{check_refused, plain_records};
use book::phase::Phase;
use std::test::Fail;

#[test]
fn size_before_version(rt: HostRuntime) -> Result<(), Fail> {
    let long = vec![in rt.alloc(); 2u8; 16385]?;
    check_refused(&long, 1, 0)
}

#[test]
fn version_before_order() -> Result<(), Fail> {
    check_refused(&[2, 6, 0], 2, 0)
}

#[test]
fn order_before_too_many(rt: HostRuntime) -> Result<(), Fail> {
    let mut book = plain_records(rt.alloc(), Phase::Types, 64)?;
    book.extend_from_slice(&[2, 0, 1, 0])?;
    check_refused(&book, 3, 131)
}

#[test]
fn too_many_before_map(rt: HostRuntime) -> Result<(), Fail> {
    let mut book = plain_records(rt.alloc(), Phase::Types, 64)?;
    book.extend_from_slice(&[1, 4])?;
    check_refused(&book, 7, 129)
}

#[test]
fn too_many_without_a_map(rt: HostRuntime) -> Result<(), Fail> {
    let mut book = plain_records(rt.alloc(), Phase::Types, 64)?;
    book.push(1)?;
    check_refused(&book, 7, 129)
}

#[test]
fn map_before_end() -> Result<(), Fail> {
    check_refused(&[1, 1, 5], 5, 1)
}

#[test]
fn end_before_empty() -> Result<(), Fail> {
    check_refused(&[1, 1, 3, 0, 0, 0, 0, 0, 0, 0, 0, 0], 4, 1)
}

#[test]
fn end_before_undeclared() -> Result<(), Fail> {
    check_refused(&[1, 1, 3, 0, 0, 0, 0, 0, 0, 0, 1, 0], 4, 1)
}

#[test]
fn empty_and_undeclared_field_by_field() -> Result<(), Fail> {
    check_refused(
        &[1, 3, 3, 0, 0, 0, 0, 0, 0, 0, 0, 0, 0, 0, 0, 0, 0, 0, 1],
        6,
        1,
    )?;
    check_refused(
        &[1, 1, 3, 0, 0, 0, 0, 0, 0, 0, 1, 0, 0, 0, 0, 0, 0, 0, 0],
        8,
        1,
    )
}
