//! The second end.
ghost use Rattle.std.specs.Prelude.{◌≡◌, List, Option, Result, reverse};
ghost use Rattle.fallible_contract.specs.BothEnds.{ListsBothEnds};
ghost use Rattle.fallible_contract.specs.Clauses.{OverListWith};
ghost use Rattle.fallible_contract.specs.Contract.{Stays};
ghost use Rattle.fallible_contract.specs.Ends.{Ends, from_front, from_back, LawfulEnds};
ghost use Rattle.fallible_contract.specs.Lists.{ActsWith, Converts, rest_first, rest_fold, folded, nth_of};
ghost use Rattle.fallible_contract.specs.Folds.{CallableDriving, Driven, CallableInFold, call_with, takes_with, FoldDrains};

use crate::traits::FallibleIterator;
use fallible_contract::folds::{TryFoldTurn, Turn};
use std::ops::ControlFlow;

/// A fallible iterator that is double-ended: it may be drawn from the back as well. Draws from both ends may follow one another in any order.
///
/// A type of one's own writes `next_back`.
///
/// Proof: a bound stays one after draws from both ends, and the hint is what the type's rule says of what is left. A type of one's own also writes `ends`: its step from the back, and what may come from either end. `counted_ends` of `specs/Ends` makes that of a step. A search then finds `lawful_ends`.
pub trait DoubleEndedFallibleIterator: FallibleIterator {
    // What the contract says of draws from the back.
    ghost ends: { Ends Self Self.Item Self.Error };

    /// Returns the next item from the back, a failure or `Ok(None)`.
    ///
    /// It is one draw, from the back. After that the iterator may be used again, from either end.
    ///
    /// Requires: `next` and `next_back` may be called.
    ///
    /// Proof: the type's step from the back says what it returns, where it fails and what is left. That the iterator may be used again is the type's law.
    ///
    /// ```
    /// let mut it = convert([Ok::<u32, u8>(1), Ok(2), Err(9)].into_iter());
    /// let drawn = [it.next_back(), it.next(), it.next_back(), it.next_back()];
    /// assert_eq!(rt; drawn, [Err(9), Ok(Some(1)), Ok(Some(2)), Ok(None)]);
    /// ```
    fn next_back(&mut self) -> Result<Option<Self::Item>, Self::Error>
        requires { ends.can_next self.old }
        ensures { ends.steps self.old result self.new };

    /// `drive` from the back. Every fold from the back goes through it. A caller uses `try_rfold`.
    fn drive_back<C, R, K: Turn<C, Self::Item, R>>(
        &mut self,
        state: &mut C,
        turn: &K,
    ) -> Result<Option<R>, Self::Error>
    where
        requires can_next { ends.can_next self.old }
        requires finite { Self.contract.is_finite self.old }
        requires callable { CallableDriving ends.steps (K.turns turn.now) (K.can_turn turn.now)
            self.old state.old }
        ensures { Driven ends.steps (K.turns turn.now) self.old state.old result
            self.new state.new }
    {
        let mut left = (*self).number();
        loop {
            match self.next_back() {
                Ok(Some(x)) => match turn.turn(state, x) {
                    ControlFlow::Continue(()) => {}
                    ControlFlow::Break(stop) => return Ok(Some(stop)),
                },
                Ok(None) => return Ok(None),
                Err(e) => return Err(e),
            }
            left = left.one_less();
        }
    }

    /// Calls the closure on the value so far and each item, the last one first, and returns the last value at `Ok(None)`.
    ///
    /// It draws from the back up to `Ok(None)`, the first failure or an item on which the closure fails. It fails with the iterator's failure, converted, or with the closure's error. Nothing is drawn after that, and the iterator may be used again, from either end.
    ///
    /// Precondition: the iterator is finite.
    ///
    /// Requires: `next` and `next_back` may be called, and the closure may be called on the value so far and each item that may come from the back.
    ///
    /// ```
    /// let mut it = convert([Ok::<u8, &str>(7), Ok(100), Ok(100), Ok(100)].into_iter());
    /// let sum: Result<u8, &str> = it.try_rfold(
    ///     0,
    ///     |sum: u8, x: u8| sum.checked_add(x).ok_or("too large"),
    /// );
    /// assert_eq!(rt; sum, Err("too large"));
    /// assert_eq!(rt; it.next_back(), Ok(Some(7)));
    /// ```
    final fn try_rfold<B, E, F>(&mut self, init: B, f: F) -> Result<B, E>
    where
        B: Drop,
        E: From<Self::Error>,
        F: FnMut(B, Self::Item) -> Result<B, E>,
        requires can_next { ends.can_next self.old }
        requires finite { Self.contract.is_finite self.old }
        requires callable { CallableInFold ends.steps (call_with F.FnMut) (takes_with F.FnMut)
            self.old f init }
        ensures folded { FoldDrains ends.steps (call_with F.FnMut) E.from_gives
            self.old init f result self.new }
        ensures value { (convert : Self.Error → E) → Converts E.from_gives convert
            → OverListWith (ActsWith (call_with F.FnMut) f) ends.steps self.old
            (λ h l. result ≡ folded convert h init l) }
        ensures rest { (h : B → Self.Item → Result B E) (l : List (Result Self.Item Self.Error))
            → ActsWith (call_with F.FnMut) f h
            → ListsBothEnds Self.contract.steps ends.steps self.old l
            → ListsBothEnds Self.contract.steps ends.steps self.new
            (reverse (rest_fold h init (reverse l))) }
        ensures stays { Stays (from_back Self.contract ends) self.old self.new }
    {
        let mut state = (Some(init), f);
        let answer = self.drive_back(&mut state, &TryFoldTurn);
        let (value, _) = state;
        match answer {
            Ok(None) => match value {
                Some(value) => Ok(value),
                None => unreachable!(),
            },
            Ok(Some(e)) => Err(e),
            Err(e) => Err(E::from(e)),
        }
    }

    /// As `try_rfold`, but the closure fails with the iterator's own error, and the iterator is consumed.
    ///
    /// Draws and errors: as `try_rfold`, but no failure is converted.
    ///
    /// Precondition: the iterator is finite.
    ///
    /// Requires: what `try_rfold` requires.
    ///
    /// Proof: no clause says what is left.
    ///
    /// ```
    /// let digits = [Ok::<u32, u8>(1), Ok(2), Ok(3)];
    /// let read = convert(digits.into_iter()).rfold(0, |number: u32, digit: u32| {
    ///     Ok(number.wrapping_mul(10).wrapping_add(digit))
    /// });
    /// assert_eq!(rt; read, Ok(321));
    /// ```
    final fn rfold<B, F>(mut self, init: B, f: F) -> Result<B, Self::Error>
    where
        B: Drop,
        F: FnMut(B, Self::Item) -> Result<B, Self::Error>,
        requires can_next { ends.can_next self }
        requires finite { Self.contract.is_finite self }
        requires callable { CallableInFold ends.steps (call_with F.FnMut) (takes_with F.FnMut)
            self f init }
        ensures folded { (left : Self) × FoldDrains ends.steps (call_with F.FnMut)
            (λ e d. d ≡ e) self init f result left }
        ensures value { OverListWith (ActsWith (call_with F.FnMut) f) ends.steps self
            (λ h l. result ≡ folded (λ e. e) h init l) }
    {
        self.try_rfold(init, f)
    }

    // What the other functions know of draws from both ends: see `KeptByDraw`.
    ghost lawful_ends: { LawfulEnds Self.contract ends };

    /// Returns what `next` returns. Of what is listed from both ends it is the first.
    ///
    /// It is one draw, and fails as `next` does. The iterator may be used again, from either end, where `draw` says it of the front alone. Of what is listed from both ends it leaves the rest.
    ///
    /// Requires: `next` and `next_back` may be called.
    ///
    /// ```
    /// let mut it = convert([Ok::<u32, u8>(1), Ok(2), Err(9)].into_iter());
    /// let drawn = [
    ///     it.draw_back(),
    ///     it.draw_front(),
    ///     it.draw_back(),
    ///     it.draw_back(),
    /// ];
    /// assert_eq!(rt; drawn, [Err(9), Ok(Some(1)), Ok(Some(2)), Ok(None)]);
    /// ```
    final fn draw_front(&mut self) -> Result<Option<Self::Item>, Self::Error>
    where
        requires { ends.can_next self.old }
        ensures drawn { Self.contract.steps self.old result self.new }
        ensures rest { (l : List (Result Self.Item Self.Error))
            → ListsBothEnds Self.contract.steps ends.steps self.old l
            → (result ≡ nth_of 0 l)
            × ListsBothEnds Self.contract.steps ends.steps self.new (rest_first l) }
        ensures stays { Stays (from_front Self.contract ends) self.old self.new }
    {
        self.next()
    }

    /// Returns what `next_back` returns. Of what is listed from both ends it is the last.
    ///
    /// It is one draw, from the back, and fails as `next_back` does. The iterator may be used again, from either end. Of what is listed from both ends it leaves what stands before it.
    ///
    /// Requires: `next` and `next_back` may be called.
    ///
    /// ```
    /// let mut it = convert([Ok::<u32, u8>(1), Ok(2), Err(9)].into_iter());
    /// let drawn = [
    ///     it.draw_back(),
    ///     it.draw_front(),
    ///     it.draw_back(),
    ///     it.draw_back(),
    /// ];
    /// assert_eq!(rt; drawn, [Err(9), Ok(Some(1)), Ok(Some(2)), Ok(None)]);
    /// ```
    final fn draw_back(&mut self) -> Result<Option<Self::Item>, Self::Error>
    where
        requires { ends.can_next self.old }
        ensures drawn { ends.steps self.old result self.new }
        ensures rest { (l : List (Result Self.Item Self.Error))
            → ListsBothEnds Self.contract.steps ends.steps self.old l
            → (result ≡ nth_of 0 (reverse l))
            × ListsBothEnds Self.contract.steps ends.steps self.new
            (reverse (rest_first (reverse l))) }
        ensures stays { Stays (from_back Self.contract ends) self.old self.new }
    {
        self.next_back()
    }
}
