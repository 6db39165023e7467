//! Records as numbers in an order, and as carriers of operations and roles.
use crate::{GroupRecord, RoleRecord, TypeRecord, View};
use hierarchy::collecting::Carrier;
use hierarchy::links::Linked;
use sets::NumberSet;

impl Linked for TypeRecord {
    ghost above = { λ s. s.supertypes };

    fn above(&self) -> NumberSet {
        self.supertypes
    }
}

impl Linked for RoleRecord {
    ghost above = { λ s. s.superroles };

    fn above(&self) -> NumberSet {
        self.superroles
    }
}

impl Linked for GroupRecord {
    ghost above = { λ s. s.supergroups };

    fn above(&self) -> NumberSet {
        self.supergroups
    }
}

impl Linked for View {
    ghost above = { λ s. s.bases };

    fn above(&self) -> NumberSet {
        self.bases
    }
}

impl Carrier for TypeRecord {
    ghost carried = { λ s. s.operations };

    fn carried(&self) -> NumberSet {
        self.operations
    }
}

impl Carrier for GroupRecord {
    ghost carried = { λ s. s.roles };

    fn carried(&self) -> NumberSet {
        self.roles
    }
}
