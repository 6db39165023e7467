//! Records, made from the fields of a part.
ghost use Rattle.std.specs.Prelude.{ℕ, ◌≤◌, List, length};
ghost use Rattle.book.specs.declared.phase.Phase.{Phase};
ghost use Rattle.book.specs.declared.phase.Phase.TheVariants.{Types, Roles, Groups, Views, Subjects};
ghost use Rattle.book.specs.Layout.{layout, rights_fields, terms_fields};
ghost use Rattle.book.specs.Contents.{nothing};
ghost use Rattle.book.specs.Form.{span, pieces, first_wrong, type_from, role_from, group_from, rights_from, terms_from, view_from, subject_from};
ghost use Rattle.book.specs.Reading.{Told};

use crate::contents::Records;
use crate::fields::Fields;
use crate::refusal::Refusal;
use records::{GroupRecord, Rights, RoleRecord, SubjectRecord, TypeRecord, View};
use sets::NumberSet;

/// A record of one kind, made from fields after the records that are there.
pub(crate) trait FromFields: Sized {
    /// The kind.
    ghost kind: { Phase };

    /// The record that the fields' bytes make at a place.
    ghost made: { ℕ → List (List ℕ) → Self };

    /// The record that the fields make, or what is wrong with the first field of which something is wrong.
    fn from_fields(records: &Records, place: usize, fields: Fields<'_>) -> Result<Self, Refusal>
        requires { span (layout kind) fields.map ≤ length fields.rest.now }
        ensures { Told result (first_wrong records.now (layout kind) fields.entry.map fields.entry.rest.now) (made place (pieces (layout kind) fields.entry.map fields.entry.rest.now)) };
}

impl FromFields for TypeRecord {
    ghost kind = { Types };

    ghost made = { type_from };

    fn from_fields(
        records: &Records,
        place: usize,
        mut fields: Fields<'_>,
    ) -> Result<TypeRecord, Refusal> {
        let supertypes = fields.numbers(records.types.len())?;
        let operations = fields.set()?;
        Ok(TypeRecord {
            place,
            supertypes,
            operations,
        })
    }
}

impl FromFields for RoleRecord {
    ghost kind = { Roles };

    ghost made = { role_from };

    fn from_fields(
        records: &Records,
        place: usize,
        mut fields: Fields<'_>,
    ) -> Result<RoleRecord, Refusal> {
        let superroles = fields.numbers(records.roles.len())?;
        Ok(RoleRecord { place, superroles })
    }
}

impl FromFields for GroupRecord {
    ghost kind = { Groups };

    ghost made = { group_from };

    fn from_fields(
        records: &Records,
        place: usize,
        mut fields: Fields<'_>,
    ) -> Result<GroupRecord, Refusal> {
        let supergroups = fields.numbers(records.groups.len())?;
        let roles = fields.numbers(records.roles.len())?;
        Ok(GroupRecord {
            place,
            supergroups,
            roles,
        })
    }
}

impl FromFields for SubjectRecord {
    ghost kind = { Subjects };

    ghost made = { subject_from };

    fn from_fields(
        records: &Records,
        place: usize,
        mut fields: Fields<'_>,
    ) -> Result<SubjectRecord, Refusal> {
        let groups = fields.numbers(records.groups.len())?;
        Ok(SubjectRecord { place, groups })
    }
}

// Who may hold a view, how it may be held, and its rights. The modifiers are a byte, as those of a `View`.
#[derive(Clone, Copy)]
struct Terms {
    restriction: NumberSet,
    modifiers: u8,
    weak: Rights,
    strong: Rights,
}

// The rights of a view, weak and strong.
fn rights_of(mut fields: Fields<'_>) -> Result<(Rights, Rights), Refusal>
    requires { span rights_fields fields.map ≤ length fields.rest.now }
    ensures { Told result (first_wrong nothing rights_fields fields.entry.map fields.entry.rest.now) (rights_from (pieces rights_fields fields.entry.map fields.entry.rest.now)) }
{
    let weakly = fields.set()?;
    let strongly = fields.set()?;
    let (weak, strong) = fields.denials()?;
    Ok((
        Rights {
            permitted: weakly,
            denied: weak,
        },
        Rights {
            permitted: strongly,
            denied: strong,
        },
    ))
}

// The role restriction, the modifiers and the rights of a view.
fn terms_of(records: &Records, mut fields: Fields<'_>) -> Result<Terms, Refusal>
    requires { span terms_fields fields.map ≤ length fields.rest.now }
    ensures { Told result (first_wrong records.now terms_fields fields.entry.map fields.entry.rest.now) (terms_from (pieces terms_fields fields.entry.map fields.entry.rest.now)) }
{
    let restriction = fields.numbers(records.roles.len())?;
    let modifiers = fields.modifiers()?;
    let (weak, strong) = rights_of(fields)?;
    Ok(Terms {
        restriction,
        modifiers,
        weak,
        strong,
    })
}

impl FromFields for View {
    ghost kind = { Views };

    ghost made = { view_from };

    fn from_fields(
        records: &Records,
        place: usize,
        mut fields: Fields<'_>,
    ) -> Result<View, Refusal> {
        let controlled = fields.controlled(records.types.len())?;
        let bases = fields.numbers(records.views.len())?;
        let required = fields.numbers(records.views.len())?;
        let Terms {
            restriction,
            modifiers,
            weak,
            strong,
        } = terms_of(records, fields)?;
        Ok(View {
            place,
            controlled,
            bases,
            required,
            restriction,
            modifiers,
            weak,
            strong,
        })
    }
}
