// The adapter that looks ahead.
ghost use Rattle.std.specs.Prelude.{◌≡◌, Result, Option};
ghost use Rattle.fallible_contract.specs.Clauses.{OverList, OverListWith};
ghost use Rattle.fallible_contract.specs.Contract.{parts_as, Fewer, Stays};
ghost use Rattle.fallible_contract.specs.Lists.{Lists};
ghost use Rattle.fallible_contract.specs.Ends.{ends_parts_as};
ghost use Rattle.fallible_contract.specs.Laws.Contract.{lawful_parts};
ghost use Rattle.fallible_contract.specs.Laws.Ends.{lawful_ends_parts};
ghost use Rattle.fallible_core.specs.Peeking.Peekable.{peekable_contract, peekable_ends, NextIf, TestedBy, IsTestable, peekable_made, peekable_parts, LooksAs, first_if, rest_if};
ghost use Rattle.fallible_core.specs.Laws.Peeking.Peekable.{lawful_peekable, lawful_ends_peekable};

use crate::traits::FallibleIterator;
use crate::traits::double_ended::DoubleEndedFallibleIterator;
use fallible_contract::folds::Turn;
use fallible_contract::hints::one_more;
use std::ops::ControlFlow;

/// What the source yields; the next item can be looked at ahead. An item or an `Ok(None)` that was looked at is buffered, and comes first; a failure isn't buffered.
#[derive(Clone, Debug, Drop)]
pub struct Peekable<I: FallibleIterator> {
    pub(crate) it: I,
    // what was looked at, an item or an `Ok(None)`, and wasn't returned yet
    pub(crate) held: Option<Option<I::Item>>,
}

impl<I: FallibleIterator> FallibleIterator for Peekable<I>
where
    I::Item: Drop,
{
    type Item = I::Item;

    type Error = I::Error;

    ghost contract = { parts_as peekable_parts (peekable_contract I.contract) };

    /// Returns what is buffered without a draw, and draws once if nothing is.
    fn next(&mut self) -> Result<Option<I::Item>, I::Error> {
        match self.held.take() {
            Some(answer) => Ok(answer),
            None => self.it.next(),
        }
    }

    fn size_hint(&self) -> (usize, Option<usize>) {
        match &self.held {
            Some(Some(_)) => one_more(self.it.size_hint()),
            Some(None) => (0, Some(0)),
            None => self.it.size_hint(),
        }
    }

    /// The turn on a buffered item, and then the source's fold; a buffered `Ok(None)` ends the fold without a draw.
    fn drive<C, R, K: Turn<C, I::Item, R>>(
        &mut self,
        state: &mut C,
        turn: &K,
    ) -> Result<Option<R>, I::Error> {
        match self.held.take() {
            Some(Some(x)) => match turn.turn(state, x) {
                ControlFlow::Continue(()) => self.it.drive(state, turn),
                ControlFlow::Break(stop) => Ok(Some(stop)),
            },
            Some(None) => Ok(None),
            None => self.it.drive(state, turn),
        }
    }

    ghost lawful = { lawful_parts peekable_made (lawful_peekable I.lawful) };
}

impl<I: DoubleEndedFallibleIterator> DoubleEndedFallibleIterator for Peekable<I>
where
    I::Item: Drop,
{
    ghost ends = { ends_parts_as peekable_parts (peekable_ends I.contract I.ends) };

    /// Draws the source once from the back, and at its end there returns the buffered item, in whose place an `Ok(None)` is buffered. A buffered `Ok(None)` is returned without a draw, and stays buffered.
    ///
    /// ```
    /// let mut it = convert([Ok::<u32, u8>(150), Ok(7)].into_iter()).peekable();
    /// assert_eq!(rt; it.peek(), Ok(Some(&150)));
    /// assert_eq!(rt; it.next_back(), Ok(Some(7)));
    /// assert_eq!(rt; it.next_back(), Ok(Some(150)));
    /// assert_eq!(rt; it.next_back(), Ok(None));
    /// ```
    fn next_back(&mut self) -> Result<Option<I::Item>, I::Error> {
        if let Some(None) = &self.held {
            return Ok(None);
        }
        match self.it.next_back() {
            Ok(Some(x)) => Ok(Some(x)),
            Ok(None) => match self.held.take() {
                Some(answer) => {
                    self.held = Some(None);
                    Ok(answer)
                }
                None => Ok(None),
            },
            Err(e) => Err(e),
        }
    }

    ghost lawful_ends = { lawful_ends_parts peekable_made (lawful_ends_peekable I.lawful_ends) };
}

impl<I: FallibleIterator> Peekable<I>
where
    I::Item: Drop,
{
    /// Returns the next item, if the closure returns true for it, and otherwise `Ok(None)`. At an `Ok(None)` the closure isn't called.
    ///
    /// It draws once if nothing is buffered, and otherwise nothing. It fails as the source does; a failure isn't buffered. An item that is rejected stays buffered, and so does an `Ok(None)`. The iterator may be used again.
    ///
    /// Requires: `next` may be called, and the closure may be called on a reference to each item that may come.
    ///
    /// Proof: after an item each bound is lower.
    ///
    /// ```
    /// let mut it = convert([Ok::<u32, u8>(150), Ok(7)].into_iter()).peekable();
    /// assert_eq!(rt; it.next_if(|reading| *reading > 100), Ok(Some(150)));
    /// assert_eq!(rt; it.next_if(|reading| *reading > 100), Ok(None));
    /// assert_eq!(rt; it.next(), Ok(Some(7)));
    /// ```
    pub fn next_if<F: Fn(&I::Item) -> bool>(&mut self, f: F) -> Result<Option<I::Item>, I::Error>
    where
        requires can_next { (peekable_contract I.contract).can_next (peekable_parts self.old) }
        requires callable { IsTestable F.Fn f
            ((peekable_contract I.contract).may_give (peekable_parts self.old)) }
        ensures taken { NextIf I.contract.steps (TestedBy F.Fn f)
            (peekable_parts self.old) result (peekable_parts self.new) }
        ensures lists { OverListWith (LooksAs F.Fn f)
            (parts_as peekable_parts (peekable_contract I.contract)).steps self.old
            (λ h l. (result ≡ first_if h l)
            × Lists (parts_as peekable_parts (peekable_contract I.contract)).steps
            self.new (rest_if h l)) }
        ensures stays { Stays (peekable_contract I.contract)
            (peekable_parts self.old) (peekable_parts self.new) }
        ensures fewer { (x : I.Item) → result ≡ Ok (Some x)
            → Fewer (peekable_contract I.contract)
            (peekable_parts self.old) (peekable_parts self.new) }
    {
        match self.next() {
            Ok(Some(x)) => {
                if f(&x) {
                    Ok(Some(x))
                } else {
                    self.held = Some(Some(x));
                    Ok(None)
                }
            }
            Ok(None) => {
                self.held = Some(None);
                Ok(None)
            }
            Err(e) => Err(e),
        }
    }

    /// Returns the next item, if it equals the expected one, and otherwise `Ok(None)`.
    ///
    /// Draws, errors and what is buffered: as `next_if`. The iterator may be used again.
    ///
    /// Requires: `next` may be called.
    ///
    /// ```
    /// let mut it = convert([Ok::<u32, u8>(150), Ok(7)].into_iter()).peekable();
    /// assert_eq!(rt; it.next_if_eq(&150), Ok(Some(150)));
    /// assert_eq!(rt; it.next_if_eq(&150), Ok(None));
    /// assert_eq!(rt; it.next(), Ok(Some(7)));
    /// ```
    pub fn next_if_eq(&mut self, expected: &I::Item) -> Result<Option<I::Item>, I::Error>
    where
        I::Item: PartialEq,
        requires { (peekable_contract I.contract).can_next (peekable_parts self.old) }
        ensures taken { NextIf I.contract.steps (λ x b. b ≡ I.Item.eq x expected.now)
            (peekable_parts self.old) result (peekable_parts self.new) }
        ensures lists { OverList
            (parts_as peekable_parts (peekable_contract I.contract)).steps self.old
            (λ l. (result ≡ first_if (λ x. I.Item.eq x expected.now) l)
            × Lists (parts_as peekable_parts (peekable_contract I.contract)).steps self.new
            (rest_if (λ x. I.Item.eq x expected.now) l)) }
        ensures stays { Stays (peekable_contract I.contract)
            (peekable_parts self.old) (peekable_parts self.new) }
        ensures fewer { (x : I.Item) → result ≡ Ok (Some x)
            → Fewer (peekable_contract I.contract)
            (peekable_parts self.old) (peekable_parts self.new) }
    {
        self.next_if(|item: &I::Item| item.eq(expected))
    }
}
