//! Comparisons: the rules of two items, and what is read off a comparison.
ghost use Rattle.std.specs.Prelude.{◌≡◌, Bool, Option, Some, None, Ok};
ghost use Rattle.fallible_contract.specs.Comparing.{by_cmp, by_eq, decided_round, read_as, reads_eq, reads_ne, reads_lt, reads_le, reads_gt, reads_ge};
ghost use Rattle.std.specs.declared.cmp.Ordering.{Ordering};

use std::cmp::Ordering;

/// How two items compare; `None` if they can't be compared.
pub trait Comparison<A> {
    // What the rule says of two items.
    ghost rule: { A → A → Option Ordering };

    /// Compares the items.
    fn compare(left: &A, right: &A) -> Option<Ordering>
        ensures { result ≡ rule left.now right.now };
}

/// By the order of the items.
pub struct ByCmp;

impl<A: Ord> Comparison<A> for ByCmp {
    ghost rule = { by_cmp A.cmp };

    fn compare(left: &A, right: &A) -> Option<Ordering> {
        Some(left.cmp(right))
    }
}

/// By a partial order of the items.
pub struct ByPartialCmp;

impl<A: PartialOrd> Comparison<A> for ByPartialCmp {
    ghost rule = { A.partial_cmp };

    fn compare(left: &A, right: &A) -> Option<Ordering> {
        left.partial_cmp(right)
    }
}

/// By the equality of the items: unlike ones can't be compared.
pub struct ByEq;

impl<A: PartialEq> Comparison<A> for ByEq {
    ghost rule = { by_eq A.eq };

    fn compare(left: &A, right: &A) -> Option<Ordering> {
        if left.eq(right) {
            Some(Ordering::Equal)
        } else {
            None
        }
    }
}

/// What one round decides, if neither side failed: `None` for two items that are equal by the rule, so that the comparison goes on.
pub fn decide<A: Drop, K: Comparison<A>>(
    left: Option<A>,
    right: Option<A>,
) -> Option<Option<Ordering>>
    ensures { result ≡ decided_round K.rule left right }
{
    match (left, right) {
        (None, None) => Some(Some(Ordering::Equal)),
        (None, Some(_)) => Some(Some(Ordering::Less)),
        (Some(_), None) => Some(Some(Ordering::Greater)),
        (Some(x), Some(y)) => match K::compare(&x, &y) {
            Some(Ordering::Equal) => None,
            order => Some(order),
        },
    }
}

/// What is read off a comparison's result.
pub trait Reading {
    // What an order, or the lack of one, is read as.
    ghost reads: { Option Ordering → Bool };

    /// Reads the result, unless it is a failure.
    fn read<E>(answer: Result<Option<Ordering>, E>) -> Result<bool, E>
        ensures { result ≡ read_as reads answer };
}

/// Reads `eq`: whether the two are equal.
pub struct ReadEq;

impl Reading for ReadEq {
    ghost reads = { reads_eq };

    fn read<E>(answer: Result<Option<Ordering>, E>) -> Result<bool, E> {
        Ok(matches!(answer?, Some(Ordering::Equal)))
    }
}

/// Reads `ne`: whether they are not.
pub struct ReadNe;

impl Reading for ReadNe {
    ghost reads = { reads_ne };

    fn read<E>(answer: Result<Option<Ordering>, E>) -> Result<bool, E> {
        Ok(!matches!(answer?, Some(Ordering::Equal)))
    }
}

/// Reads `lt`: whether the left is less.
pub struct ReadLt;

impl Reading for ReadLt {
    ghost reads = { reads_lt };

    fn read<E>(answer: Result<Option<Ordering>, E>) -> Result<bool, E> {
        Ok(matches!(answer?, Some(Ordering::Less)))
    }
}

/// Reads `le`: whether the left is less or equal.
pub struct ReadLe;

impl Reading for ReadLe {
    ghost reads = { reads_le };

    fn read<E>(answer: Result<Option<Ordering>, E>) -> Result<bool, E> {
        Ok(matches!(answer?, Some(Ordering::Less | Ordering::Equal)))
    }
}

/// Reads `gt`: whether the left is greater.
pub struct ReadGt;

impl Reading for ReadGt {
    ghost reads = { reads_gt };

    fn read<E>(answer: Result<Option<Ordering>, E>) -> Result<bool, E> {
        Ok(matches!(answer?, Some(Ordering::Greater)))
    }
}

/// Reads `ge`: whether the left is greater or equal.
pub struct ReadGe;

impl Reading for ReadGe {
    ghost reads = { reads_ge };

    fn read<E>(answer: Result<Option<Ordering>, E>) -> Result<bool, E> {
        Ok(matches!(answer?, Some(Ordering::Greater | Ordering::Equal)))
    }
}

/// The order, if a comparison found one.
pub fn ordered<E>(answer: Result<Option<Ordering>, E>) -> Result<Ordering, E>
    requires { ¬ (answer ≡ Ok None) }
    ensures { read_as (λ o. Some o) result ≡ answer }
{
    match answer? {
        Some(order) => Ok(order),
        None => Ok(Ordering::Equal),
    }
}
