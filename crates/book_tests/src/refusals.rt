//! Each refusal, with its place.
use crate::books::{check_passes, check_refused, plain_records};
use book::phase::Phase;
use std::test::Fail;

#[test]
fn size(rt: HostRuntime) -> Result<(), Fail> {
    check_refused(&[], 1, 0)?;
    let long = vec![in rt.alloc(); 1u8; 16385]?;
    check_refused(&long, 1, 0)?;
    let longest = vec![in rt.alloc(); 1u8; 16384]?;
    check_refused(&longest, 8, 1)?;
    check_passes(&[1])
}

#[test]
fn version() -> Result<(), Fail> {
    check_refused(&[2], 2, 0)?;
    check_refused(&[0, 1, 0], 2, 0)
}

#[test]
fn order() -> Result<(), Fail> {
    check_refused(&[1, 6, 0], 3, 1)?;
    check_refused(&[1, 0, 0], 3, 1)?;
    check_refused(&[1, 2, 0, 1, 0], 3, 3)?;
    check_passes(&[1, 1, 0, 3, 0, 3, 0, 5, 0])
}

#[test]
fn ends() -> Result<(), Fail> {
    check_refused(&[1, 1], 4, 1)?;
    check_refused(&[1, 1, 0, 2, 1, 0, 0, 0, 0, 0, 0, 0], 4, 3)?;
    check_refused(&[1, 1, 0, 4, 129, 0, 0, 0, 0, 0, 0, 0, 0, 1], 4, 3)
}

#[test]
fn map() -> Result<(), Fail> {
    check_refused(&[1, 1, 4], 5, 1)?;
    check_refused(&[1, 2, 2], 5, 1)?;
    check_refused(&[1, 3, 4], 5, 1)?;
    check_refused(&[1, 5, 2], 5, 1)?;
    check_refused(&[1, 1, 0, 4, 0], 5, 3)
}

#[test]
fn empty() -> Result<(), Fail> {
    check_refused(&[1, 1, 2, 0, 0, 0, 0, 0, 0, 0, 0], 6, 1)?;
    check_refused(&[1, 1, 0, 4, 17, 0, 0], 6, 3)?;
    check_refused(
        &[
            1, 1, 0, 4, 129, 0, 0, 0, 0, 0, 0, 0, 0, 0, 0, 0, 0, 0, 0, 0, 0, 0,
        ],
        6,
        3,
    )?;
    check_passes(&[
        1, 1, 0, 4, 129, 0, 0, 0, 0, 0, 0, 0, 0, 0, 0, 0, 0, 0, 0, 0, 0, 1,
    ])
}

#[test]
fn too_many(rt: HostRuntime) -> Result<(), Fail> {
    check_passes(&plain_records(rt.alloc(), Phase::Types, 64)?)?;
    check_refused(&plain_records(rt.alloc(), Phase::Types, 65)?, 7, 129)?;
    check_refused(&plain_records(rt.alloc(), Phase::Roles, 65)?, 7, 129)?;
    check_refused(&plain_records(rt.alloc(), Phase::Groups, 65)?, 7, 129)?;
    check_passes(&plain_records(rt.alloc(), Phase::Subjects, 256)?)?;
    check_refused(&plain_records(rt.alloc(), Phase::Subjects, 257)?, 7, 513)
}

#[test]
fn undeclared() -> Result<(), Fail> {
    check_refused(&[1, 1, 1, 0, 0, 0, 0, 0, 0, 0, 1], 8, 1)?;
    check_refused(&[1, 1, 0, 4, 1, 1], 8, 3)?;
    check_refused(&[1, 1, 0, 4, 17, 0, 8], 8, 3)?;
    check_refused(&[1, 5, 1, 0, 0, 0, 0, 0, 0, 0, 1], 8, 1)?;
    check_passes(&[1, 1, 0, 1, 1, 0, 0, 0, 0, 0, 0, 0, 1])?;
    check_passes(&[1, 1, 0, 4, 17, 0, 7])
}
