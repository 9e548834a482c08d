//! A fold over the items that a test accepts.
ghost use Rattle.std.specs.Prelude.{◌≡◌, Option, Result, Some};
ghost use Rattle.fallible_contract.specs.Clauses.{OverListWith};
ghost use Rattle.fallible_contract.specs.Closures.{call_by_reference, takes_by_reference};
ghost use Rattle.fallible_contract.specs.Contract.{Stays, parts_as};
ghost use Rattle.fallible_contract.specs.Folds.{CallableInFold, call_with, takes_with};
ghost use Rattle.fallible_contract.specs.Lists.{Acts, Lists};
ghost use Rattle.fallible_contract.specs.Traces.{item};
ghost use Rattle.fallible_core.specs.Peeking.Peekable.{held_item, peekable_contract, peekable_held, peekable_parts, peekable_step};
ghost use Rattle.fallible_iterator.specs.Taking.{AcceptedCall, FoldIfDrains, FoldsAs, TakesIf, TestsHeld, accepted_takes, folded_if, rest_fold_if};

use fallible_core::{FallibleIterator, Peekable};

/// Calls `f` on the value so far and each item in order, as long as the test returns true for the next item, and returns the last value. The test is called once on each item that comes next, and then `f` once on an accepted one.
///
/// It draws up to the first item that the test rejects, `Ok(None)`, the first failure or an item on which the test or `f` fails. A rejected item stays next, and an `Ok(None)` is buffered. It fails with the first failure, of the source, of the test or of `f`; an item on which either fails is lost. The iterator may be used again.
///
/// Precondition: the iterator is finite.
///
/// Requires: `next` may be called, the test on a reference to each item that may come after accepted ones, and `f` on the value so far and each such item for which the test may return true.
///
/// ```
/// let mut it = convert([Ok::<u32, u8>(1), Ok(2), Ok(30), Ok(4)].into_iter()).peekable();
/// let read = fold_if(
///     &mut it,
///     0,
///     |digit| Ok(*digit < 10),
///     |number: u32, digit: u32| Ok(number.wrapping_mul(10).wrapping_add(digit)),
/// );
/// assert_eq!(rt; read, Ok(12));
/// assert_eq!(rt; it.next(), Ok(Some(30)));
/// ```
pub fn fold_if<I, B, P, F>(ahead: &mut Peekable<I>, init: B, test: P, f: F) -> Result<B, I::Error>
where
    I: FallibleIterator,
    I::Item: Drop,
    B: Drop,
    P: FnMut(&I::Item) -> Result<bool, I::Error>,
    F: FnMut(B, I::Item) -> Result<B, I::Error>,
    requires can_next { (peekable_contract I.contract).can_next (peekable_parts ahead.old) }
    requires finite { (peekable_contract I.contract).is_finite (peekable_parts ahead.old) }
    requires callable { CallableInFold (peekable_contract I.contract).steps
        (AcceptedCall (call_by_reference P.FnMut) (call_with F.FnMut))
        (accepted_takes (call_by_reference P.FnMut) (call_with F.FnMut)
        (takes_by_reference P.FnMut) (takes_with F.FnMut)) (peekable_parts ahead.old) (test, f) init }
    ensures folded { FoldIfDrains I.contract.steps (call_by_reference P.FnMut) (call_with F.FnMut)
        (peekable_parts ahead.old) init test f result (peekable_parts ahead.new) }
    ensures value { OverListWith (Acts (call_by_reference P.FnMut) test)
        (parts_as peekable_parts (peekable_contract I.contract)).steps ahead.old
        (λ p l. (h : B → I.Item → Result B I.Error) → FoldsAs (call_with F.FnMut) f p h
        → result ≡ folded_if p h init l) }
    ensures rest { OverListWith (Acts (call_by_reference P.FnMut) test)
        (parts_as peekable_parts (peekable_contract I.contract)).steps ahead.old
        (λ p l. (h : B → I.Item → Result B I.Error) → FoldsAs (call_with F.FnMut) f p h
        → Lists (parts_as peekable_parts (peekable_contract I.contract)).steps ahead.new
        (rest_fold_if p h init l)) }
    ensures stays { Stays (parts_as peekable_parts (peekable_contract I.contract))
        ahead.old ahead.new }
{
    let mut test = test;
    let mut f = f;
    let mut left = (*ahead).number();
    let mut value = init;
    while let Some(x) = next_accepted(ahead, &mut test)? {
        left = left.one_less();
        value = f(value, x)?;
    }
    Ok(value)
}

// The next item, if the test accepts it, and otherwise `Ok(None)`.
fn next_accepted<I, P>(ahead: &mut Peekable<I>, test: &mut P) -> Result<Option<I::Item>, I::Error>
where
    I: FallibleIterator,
    I::Item: Drop,
    P: FnMut(&I::Item) -> Result<bool, I::Error>,
    requires can_next { (peekable_contract I.contract).can_next (peekable_parts ahead.old) }
    requires callable { (x : I.Item) (left : I × Option (Option I.Item))
        → peekable_step I.contract.steps (peekable_parts ahead.old) (item x) left
        → takes_by_reference P.FnMut test.old x }
    ensures { TakesIf I.contract.steps (call_by_reference P.FnMut) (peekable_parts ahead.old) test.old
        result (peekable_parts ahead.new) test.new }
{
    match ahead.fill() {
        Ok(()) => {}
        Err(e) => return Err(e),
    }
    match none_held_or_accepts(&*ahead, test) {
        Ok(true) => ahead.next(),
        Ok(false) => Ok(None),
        Err(e) => match ahead.next() {
            Ok(_) => Err(e),
            Err(_) => unreachable!(),
        },
    }
}

// What the test returns on the buffered item, and false if none is buffered.
fn none_held_or_accepts<I, P>(ahead: &Peekable<I>, test: &mut P) -> Result<bool, I::Error>
where
    I: FallibleIterator,
    I::Item: Drop,
    P: FnMut(&I::Item) -> Result<bool, I::Error>,
    requires { (x : I.Item) → held_item (peekable_held ahead.now) ≡ Some x
        → takes_by_reference P.FnMut test.old x }
    ensures { TestsHeld (call_by_reference P.FnMut) (held_item (peekable_held ahead.now))
        test.old result test.new }
{
    match ahead.held() {
        Some(item) => test(item),
        None => Ok(false),
    }
}
