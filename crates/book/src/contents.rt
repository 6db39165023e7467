//! The records of a book in tables, by their numbers.
ghost use Rattle.std.specs.Prelude.{◌≡◌, ◌+◌, ◌<◌, ◌≤◌, length, drop, slice_index};
ghost use Rattle.book.specs.Layout.{layout, limit};
ghost use Rattle.book.specs.Contents.{nothing, count, filed, phase_of};
ghost use Rattle.book.specs.Form.{span, pieces, first_wrong, record_from};
ghost use Rattle.book.specs.Reading.{Told};

use crate::fields::Fields;
use crate::making::FromFields;
use crate::part::Part;
use crate::phase::Phase;
use crate::refusal::Refusal;
use records::{GroupRecord, Record, RoleRecord, SubjectRecord, TypeRecord, View};
use tables::Table;

/// The records of a book.
#[derive(Drop)]
pub struct Records {
    pub types: Table<TypeRecord, 64>,
    pub roles: Table<RoleRecord, 64>,
    pub groups: Table<GroupRecord, 64>,
    pub views: Table<View, 64>,
    pub subjects: Table<SubjectRecord, 256>,
}

impl Records {
    /// No record at all.
    pub fn empty() -> Records
        ensures { result ≡ nothing }
    {
        Records {
            types: Table::empty(TypeRecord::default()),
            roles: Table::empty(RoleRecord::default()),
            groups: Table::empty(GroupRecord::default()),
            views: Table::empty(View::default()),
            subjects: Table::empty(SubjectRecord::default()),
        }
    }

    // The record of a kind that the fields make.
    fn record_from(&self, phase: Phase, place: usize, fields: Fields<'_>) -> Result<Record, Refusal>
        requires { span (layout phase) fields.map ≤ length fields.rest.now }
        ensures { Told result (first_wrong self.now (layout phase) fields.entry.map fields.entry.rest.now) (record_from phase place (pieces (layout phase) fields.entry.map fields.entry.rest.now)) }
    {
        // A table of closures is no plainer than this match: the kinds of records have types of their own.
        match phase {
            Phase::Types => TypeRecord::from_fields(self, place, fields).map(Record::AType),
            Phase::Roles => RoleRecord::from_fields(self, place, fields).map(Record::ARole),
            Phase::Groups => GroupRecord::from_fields(self, place, fields).map(Record::AGroup),
            Phase::Views => View::from_fields(self, place, fields).map(Record::AView),
            Phase::Subjects => SubjectRecord::from_fields(self, place, fields).map(
                Record::ASubject,
            ),
        }
    }

    /// The record that a part makes, after those that are there.
    pub(crate) fn made_of(&self, part: Part<'_>) -> Result<Record, Refusal>
        requires { length part.bytes.now ≡ 2 + span (layout part.phase) (slice_index part.bytes.now 1) }
        ensures { Told result (first_wrong self.now (layout part.entry.phase) (slice_index part.entry.bytes.now 1) (drop 2 part.entry.bytes.now)) (record_from part.entry.phase part.entry.place (pieces (layout part.entry.phase) (slice_index part.entry.bytes.now 1) (drop 2 part.entry.bytes.now))) }
    {
        // A project rule asks that a part be matched as its kind, its map and the rest before its fields are taken.
        match part.bytes {
            [_kind, map, rest @ ..] => self.record_from(
                part.phase,
                part.place,
                Fields { map: *map, rest },
            ),
            _ => unreachable!(),
        }
    }

    /// Adds a record behind those of its kind.
    pub(crate) fn file(&mut self, made: Record)
        requires { count (phase_of made) self.old < limit (phase_of made) }
        ensures { self.new ≡ filed self.old made }
    {
        // A match on the kind is the plainest here too: the tables have types of their own.
        let filed = match made {
            Record::AType(record) => self.types.push(record),
            Record::ARole(record) => self.roles.push(record),
            Record::AGroup(record) => self.groups.push(record),
            Record::AView(record) => self.views.push(record),
            Record::ASubject(record) => self.subjects.push(record),
        };
        filed.unwrap();
    }
}
