//! The records of a book. Each has its place, the offset of its kind byte; a field that the book leaves out is empty.
#![tactic(auto)]

use sets::NumberSet;

pub mod modifiers;
pub mod ordering;

/// A type of gates: the types above it, and its own operations.
#[derive(Clone, Copy, PartialEq, Eq, Default, Debug)]
pub struct TypeRecord {
    pub place: usize,
    pub supertypes: NumberSet,
    pub operations: NumberSet,
}

/// A role: the roles above it.
#[derive(Clone, Copy, PartialEq, Eq, Default, Debug)]
pub struct RoleRecord {
    pub place: usize,
    pub superroles: NumberSet,
}

/// A group of subjects: the groups above it, and the roles that its members have.
#[derive(Clone, Copy, PartialEq, Eq, Default, Debug)]
pub struct GroupRecord {
    pub place: usize,
    pub supergroups: NumberSet,
    pub roles: NumberSet,
}

/// The operations that a view permits and denies at one priority.
#[derive(Clone, Copy, PartialEq, Eq, Default, Debug)]
pub struct Rights {
    pub permitted: NumberSet,
    pub denied: NumberSet,
}

/// A view: rights on the objects of a type, to be assigned as one.
#[derive(Clone, Copy, PartialEq, Eq, Default, Debug)]
pub struct View {
    pub place: usize,
    pub controlled: u8,
    pub bases: NumberSet,
    pub required: NumberSet,
    pub restriction: NumberSet,
    // A byte, as in the book: a type of its own is no plainer, since the encoding makes that byte of it again.
    pub modifiers: u8,
    pub weak: Rights,
    pub strong: Rights,
}

/// A subject: the groups that it is a member of.
#[derive(Clone, Copy, PartialEq, Eq, Default, Debug)]
pub struct SubjectRecord {
    pub place: usize,
    pub groups: NumberSet,
}

/// One record of a book.
#[derive(Clone, Copy, PartialEq, Eq, Debug)]
pub enum Record {
    AType(TypeRecord),
    ARole(RoleRecord),
    AGroup(GroupRecord),
    AView(View),
    ASubject(SubjectRecord),
}
