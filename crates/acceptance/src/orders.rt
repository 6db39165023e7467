//! The orders of a book's records.
ghost use Rattle.std.specs.Prelude.{◌≡◌, ℕ, ◌<◌, true, map, length};
ghost use Rattle.sets.specs.Members.{In, Iff};
ghost use Rattle.hierarchy.specs.Order.{Below, Falling, Means};
ghost use Rattle.book.specs.Declarations.{Declares, view_at};
ghost use Rattle.views.specs.Some.{Exists};
ghost use Rattle.acceptance.specs.Orders.{type_links, role_links, view_links, OperationOf};

use crate::inherited::type_operations;
use book::contents::Records;
use hierarchy::links::Linked;
use hierarchy::order::{Hierarchy, order_of};
use records::View;
use sets::NumberSet;
use views::restrictions::are_below;

/// Records, with the orders that the links of their types, roles and views make.
#[derive(Drop)]
pub(crate) struct Orders<'r, H: Hierarchy> {
    pub(crate) records: &'r Records,
    types: H,
    roles: H,
    views: H,
    ghost falls: { (i k : ℕ) → In k (view_at records.now i).bases → k < i },
    ghost of_types: { ∥ Means (H.Hierarchy.pairs types) (type_links records.now) ∥₁ },
    ghost of_roles: { ∥ Means (H.Hierarchy.pairs roles) (role_links records.now) ∥₁ },
    ghost of_views: { ∥ Means (H.Hierarchy.pairs views) (view_links records.now) ∥₁ },
}

// The order of records that name only lower numbers.
fn falling_order<H: Hierarchy, R: Linked>(records: &[R]) -> H
    requires { Falling (map R.Linked.above records.now) }
    ensures { Means (H.Hierarchy.pairs result) (map R.Linked.above records.now) }
{
    order_of(records).unwrap()
}

impl<'r, H: Hierarchy> Orders<'r, H> {
    /// The orders of records that name only declared numbers.
    pub(crate) fn of(records: &'r Records) -> Orders<'r, H>
        requires { Declares records.now }
        ensures { result.records.now ≡ records.now }
    {
        Orders {
            records,
            types: falling_order(records.types.as_slice()),
            roles: falling_order(records.roles.as_slice()),
            views: falling_order(records.views.as_slice()),
        }
    }

    // The bound stands at each number: a type for declared numbers is no plainer, since it would carry the records along.
    /// The view of a number that is declared.
    pub(crate) fn view(&self, number: usize) -> &View
        requires { number < length self.now.records.now.views }
        ensures { result.now ≡ view_at self.now.records.now number }
    {
        &self.records.views.as_slice()[number]
    }

    // One function for types and views is no plainer: it would need a parameter that says which order is asked.
    /// Whether a type lies at or below another.
    pub(crate) fn type_is_below(&self, number: usize, other: usize) -> bool
        ensures { Iff (result ≡ true) (Below (type_links self.now.records.now) number other) }
    {
        self.types.at_or_below(number, other)
    }

    /// Whether a view extends another, at any distance, or is that view.
    pub(crate) fn view_is_below(&self, number: usize, other: usize) -> bool
        ensures { Iff (result ≡ true) (Below (view_links self.now.records.now) number other) }
    {
        self.views.at_or_below(number, other)
    }

    /// Whether each role of a set lies at or below one of the other.
    pub(crate) fn roles_are_below(&self, set: NumberSet, other: NumberSet) -> bool
        ensures { Iff (result ≡ true) ((k : ℕ) → In k set → Exists (λ s. In s other × Below (role_links self.now.records.now) k s)) }
    {
        are_below(&self.roles, set, other)
    }

    /// The operations of a type.
    pub(crate) fn operations(&self, number: usize) -> NumberSet
        ensures { (o : ℕ) → Iff (In o result) (OperationOf self.now.records.now number o) }
    {
        type_operations(self.records, &self.types, number)
    }
}
