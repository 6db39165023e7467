//! What types, groups and subjects have by what lies above them.
ghost use Rattle.std.specs.Prelude.{ℕ};
ghost use Rattle.sets.specs.Members.{In, Iff};
ghost use Rattle.hierarchy.specs.Order.{Means};
ghost use Rattle.acceptance.specs.Orders.{type_links, group_links, OperationOf, RoleOf, SubjectRole};

use book::contents::Records;
use hierarchy::collecting::collect;
use hierarchy::order::Hierarchy;
use sets::NumberSet;

// One function for types and groups is no plainer: `collect` is the generic one, and these say what it gives in a book's words.
// Nor is a struct of records and an order: it could be made only of records that fall, and so would ask more of callers.
/// The operations of a type, under the order of the records' types.
pub fn type_operations<H: Hierarchy>(records: &Records, types: &H, number: usize) -> NumberSet
    ensures { Means (H.Hierarchy.pairs types.now) (type_links records.now) → (o : ℕ) → Iff (In o result) (OperationOf records.now number o) }
{
    collect(types, records.types.as_slice(), number)
}

/// The roles of a group, under the order of the records' groups.
pub fn group_roles<H: Hierarchy>(records: &Records, groups: &H, number: usize) -> NumberSet
    ensures { Means (H.Hierarchy.pairs groups.now) (group_links records.now) → (k : ℕ) → Iff (In k result) (RoleOf records.now number k) }
{
    collect(groups, records.groups.as_slice(), number)
}

/// The roles of a subject: those of its groups.
pub fn subject_roles<H: Hierarchy>(records: &Records, groups: &H, number: usize) -> NumberSet
    ensures { Means (H.Hierarchy.pairs groups.now) (group_links records.now) → (k : ℕ) → Iff (In k result) (SubjectRole records.now number k) }
{
    let Some(subject) = records.subjects.get(number) else {
        return NumberSet::empty();
    };
    let mut roles = NumberSet::empty();
    // One function for this loop and that of an order's rows is no plainer: it would take a closure from a member to a set,
    // with a contract of its own.
    for group in subject.groups.iter() {
        roles = roles.union(group_roles(records, groups, group));
    }
    roles
}
