//! Comparisons: one loop of rounds over a rule of two items.
ghost use Rattle.std.specs.Prelude.{◌≡◌, ◌⊎◌};
ghost use Rattle.fallible_contract.specs.Clauses.{OverBoth};
ghost use Rattle.fallible_contract.specs.Comparing.{CompareDraws, OneIsFinite, ReadWith, read_as};
ghost use Rattle.fallible_contract.specs.Lists.{compared};

use crate::joining::Zip;
use crate::number::Number;
use crate::traits::FallibleIterator;
use crate::traits::conversion::IntoFallibleIterator;
use fallible_contract::comparing::{Comparison, Reading, decide};
use std::cmp::Ordering;

/// Draws the left and then the right in each round, until a failure, an `Ok(None)`, or two items that aren't equal by the rule.
pub fn compare<L, R, K>(left: L, right: R) -> Result<Option<Ordering>, L::Error>
where
    L: FallibleIterator,
    L::Item: Drop,
    R: FallibleIterator<Item = L::Item, Error = L::Error>,
    K: Comparison<L::Item>,
    requires left { L.contract.can_next left }
    requires right { R.contract.can_next right }
    requires finite { L.contract.is_finite left ⊎ R.contract.is_finite right }
    ensures { CompareDraws K.rule L.contract.steps R.contract.steps left right result }
{
    let mut both = Zip { left, right };
    let mut count = both.number();
    loop {
        let x = match both.left.next() {
            Ok(x) => x,
            Err(e) => return Err(e),
        };
        let y = match both.right.next() {
            Ok(y) => y,
            Err(e) => return Err(e),
        };
        match decide::<L::Item, K>(x, y) {
            Some(order) => return Ok(order),
            None => count = count.one_less(),
        }
    }
}

/// Returns the two, for a loop of rounds of one's own.
///
/// Proof: a bound of one of them comes with them, to count down by.
pub fn number_of_either<L, R>(left: L, right: R) -> (L, R, Number)
where
    L: FallibleIterator,
    L::Item: Drop,
    R: FallibleIterator<Error = L::Error>,
    R::Item: Drop,
    requires { L.contract.is_finite left ⊎ R.contract.is_finite right }
    ensures left { result.0 ≡ left }
    ensures right { result.1 ≡ right }
    ensures number { L.contract.bound left result.2.value ⊎ R.contract.bound right result.2.value }
{
    let both = Zip { left, right };
    let number = both.number();
    let Zip { left, right } = both;
    (left, right, number)
}

/// Compares the iterator with what the other value becomes, by the rule, and reads the result.
pub fn compare_read<L, I, K, R>(left: L, other: I) -> Result<bool, L::Error>
where
    L: FallibleIterator,
    L::Item: Drop,
    I: IntoFallibleIterator<Item = L::Item, Error = L::Error>,
    K: Comparison<L::Item>,
    R: Reading,
    requires can_next { L.contract.can_next left }
    requires right { (right : I.IntoFallibleIter) → I.into_gives other right
        → I.IntoFallibleIter.contract.can_next right }
    requires finite { OneIsFinite L.contract I.into_gives I.IntoFallibleIter.contract left other }
    ensures compared { ReadWith K.rule R.reads I.into_gives L.contract.steps
        I.IntoFallibleIter.contract.steps left other result }
    ensures value { OverBoth L.contract.steps left I.into_gives other
        I.IntoFallibleIter.contract.steps
        (λ a b. result ≡ read_as R.reads (compared K.rule a b)) }
{
    let answer = compare::<L, I::IntoFallibleIter, K>(left, other.into_fallible_iter());
    R::read(answer)
}
