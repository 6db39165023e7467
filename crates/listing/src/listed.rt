//! The records of a book as text.
use crate::lines::Numbered;
use crate::named::Named;
use acceptance::inherited::{subject_roles, type_operations};
use book::contents::Records;
use hierarchy::kept::Kept;
use hierarchy::order::order_of;
use records::TypeRecord;
use sets::NumberSet;
use std::fmt;

/// The records of a book, a line each, and how many there are.
#[derive(Drop)]
pub(crate) struct Listed<'a> {
    records: &'a Records,
    // The orders of the types and of the groups, where what is inherited along them is listed too.
    types: Option<Kept>,
    groups: Option<Kept>,
}

impl<'a> Listed<'a> {
    /// What the records themselves say.
    pub(crate) fn plain(records: &'a Records) -> Listed<'a> {
        Listed {
            records,
            types: None,
            groups: None,
        }
    }

    /// Also the operations that types inherit, and the roles that subjects have by their groups.
    pub(crate) fn inheriting(records: &'a Records) -> Listed<'a> {
        Listed {
            records,
            types: order_of(records.types.as_slice()),
            groups: order_of(records.groups.as_slice()),
        }
    }

    // The operations of a type with the inherited ones, where it has supertypes.
    fn all_operations(&self, number: usize, record: &TypeRecord) -> NumberSet {
        match &self.types {
            Some(types) if !record.supertypes.is_empty() => {
                type_operations(self.records, types, number)
            }
            _ => NumberSet::empty(),
        }
    }

    // The roles that the groups of a subject have.
    fn roles(&self, number: usize) -> NumberSet {
        match &self.groups {
            Some(groups) => subject_roles(self.records, groups, number),
            None => NumberSet::empty(),
        }
    }
}

// The lines of records, each with the set that it inherits, under its name.
fn write_lines<'a, T, F, W>(
    f: &mut fmt::Formatter<W>,
    records: &'a [T],
    name: &str,
    inherited: F,
) -> fmt::Result
where
    Numbered<'a, T>: fmt::Display,
    T: Copy,
    F: Fn(usize, &T) -> NumberSet,
    W: fmt::Write,
    requires { F.IsAlwaysCallable inherited }
{
    for (number, record) in records.iter().enumerate() {
        let set = Named(name, inherited(number, record));
        writeln!(f, "{}{set}", Numbered(number, record))?;
    }
    Ok(())
}

impl fmt::Display for Listed<'_> {
    fn fmt<W: fmt::Write>(&self, f: &mut fmt::Formatter<W>) -> fmt::Result {
        let records = self.records;
        let none = NumberSet::empty();
        write_lines(
            f,
            records.types.as_slice(),
            "all operations",
            |number, record| self.all_operations(number, record),
        )?;
        write_lines(f, records.roles.as_slice(), "", |_, _| none)?;
        write_lines(f, records.groups.as_slice(), "", |_, _| none)?;
        write_lines(f, records.views.as_slice(), "", |_, _| none)?;
        write_lines(
            f,
            records.subjects.as_slice(),
            "roles",
            |number, _| self.roles(number),
        )?;
        writeln!(
            f,
            "types {}, roles {}, groups {}, views {}, subjects {}",
            records.types.len(),
            records.roles.len(),
            records.groups.len(),
            records.views.len(),
            records.subjects.len(),
        )
    }
}
