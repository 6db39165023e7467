//! What a test asks for; a failure is its error.
// A project rule keeps `Abort` out of tests too, so these stand for `assert!` and `assert_eq!`.
use std::fmt::Debug;
use std::test::Fail;

/// Fails where something that has to hold does not.
pub fn check(holds: bool) -> Result<(), Fail> {
    if holds {
        Ok(())
    } else {
        Err(Fail::new("it does not hold"))
    }
}

/// Fails where two values differ.
pub fn check_eq<T: PartialEq + Debug + Drop>(left: T, right: T) -> Result<(), Fail> {
    if left == right {
        Ok(())
    } else {
        Err(Fail::new(format_args!("{left:?} is not {right:?}")))
    }
}
