//! What a book is rejected for.
ghost use Rattle.std.specs.Prelude.{◌≡◌};
ghost use Rattle.acceptance.specs.Rejections.{rule_number, reason_number, breach, form_fault};
ghost use Rattle.acceptance.specs.declared.rejection.Reason.TheVariants.{OfForm, OfRule};

use book::refusal::{Fault, Refusal};
use records::View;
use thiserror::Error;

/// A rule that the records of a book have to keep. Each has the number that users see.
#[derive(Clone, Copy, PartialEq, Eq, Debug, Error)]
pub enum Rule {
    /// An operation has two rights in the view.
    #[error("an operation has two rights")]
    TwoRights = 11,
    /// A right is for an operation that the controlled type does not have.
    #[error("a right is for an operation that the controlled type does not have")]
    ForeignOperation = 12,
    /// The view is assignable and denies something.
    #[error("the view is assignable and has a denial")]
    AssignableDenial = 13,
    /// The view is virtual and has a right.
    #[error("the view is virtual and has a right")]
    VirtualRight = 14,
    /// The controlled type is not at or below that of the base.
    #[error("the controlled type is not at or below that of the base")]
    ControlledType = 15,
    /// The base is restricted, and the view is not, or to a role that is not at or below one of the base's.
    #[error("the base is restricted, and the view is not, or names a role that is at or below none of the base's")]
    RoleRestriction = 16,
    /// The view lacks a required view of the base, or its static.
    #[error("a required view of the base is missing, or the base is static and the view is not")]
    Requirement = 17,
    /// A right of the base is missing or changed in a way that is not allowed, or a new right denies.
    #[error("a right of the base is missing or changed in a way that is not allowed, or a new right denies")]
    Redefinition = 18,
    /// Two views that are not related hold strong rights of opposite mode for one operation.
    #[error("one strongly permits an operation that the other strongly denies, and a type lies at or below both controlled types")]
    Clashing = 19,
}

/// The number that users see.
impl From<Rule> for u8 {
    ghost from_gives = { λ rule number. number ≡ rule_number rule };

    fn from(rule: Rule) -> u8 {
        rule as u8
    }
}

/// Why a book is rejected: its form, or a rule.
#[derive(Clone, Copy, PartialEq, Eq, Debug, Error)]
pub enum Reason {
    #[error("{0}")]
    OfForm(Refusal),
    #[error("{0}")]
    OfRule(Rule),
}

impl From<Refusal> for Reason {
    ghost from_gives = { λ refusal reason. reason ≡ OfForm refusal };

    fn from(refusal: Refusal) -> Reason {
        Reason::OfForm(refusal)
    }
}

impl From<Rule> for Reason {
    ghost from_gives = { λ rule reason. reason ≡ OfRule rule };

    fn from(rule: Rule) -> Reason {
        Reason::OfRule(rule)
    }
}

/// The number that users see.
impl From<Reason> for u8 {
    ghost from_gives = { λ reason number. number ≡ reason_number reason };

    fn from(reason: Reason) -> u8 {
        match reason {
            Reason::OfForm(refusal) => u8::from(refusal),
            Reason::OfRule(rule) => u8::from(rule),
        }
    }
}

/// A rejection: why, the place of the record in the book, and for two views the other one's number.
#[derive(Clone, Copy, PartialEq, Eq, Debug, Error)]
#[error("refused {} at {place}: {reason}", u8::from(*reason))]
pub struct Rejection {
    pub reason: Reason,
    pub place: usize,
    pub other: Option<usize>,
}

/// The form is refused.
impl From<Fault> for Rejection {
    ghost from_gives = { λ fault rejection. rejection ≡ form_fault fault };

    fn from(fault: Fault) -> Rejection {
        Rejection {
            reason: fault.refusal.into(),
            place: fault.place,
            other: None,
        }
    }
}

impl Rejection {
    /// A view breaks a rule, by itself or against another.
    pub(crate) fn of_rule(rule: Rule, view: &View, other: Option<usize>) -> Rejection
        ensures { result ≡ breach rule view.now other }
    {
        Rejection {
            reason: rule.into(),
            place: view.place,
            other,
        }
    }
}
