//! What a view says by itself, against one that it extends, and against another.
#![tactic(auto)]

pub mod extending;
pub mod opposing;
pub mod restrictions;
pub mod rights;
pub mod single;
