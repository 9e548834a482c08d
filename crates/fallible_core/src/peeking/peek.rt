// `peek`, apart from its type, whose row its clause names.
ghost use Rattle.std.specs.Prelude.{◌≡◌, ⊤, Result, Option, Some, None, Ok, Err, MatchResult, option_copied};
ghost use Rattle.std.specs.Option.{option_copied_mut};
ghost use Rattle.std.specs.Borrow.{sem, follows_so, LendsIf};
ghost use mathlib.Core.Option.{none};
ghost use Rattle.fallible_contract.specs.Clauses.{OverList, OverListWith};
ghost use Rattle.fallible_contract.specs.Contract.{Stays, parts_as};
ghost use Rattle.fallible_contract.specs.Lists.{Lists, nth_of};
ghost use Rattle.fallible_core.specs.Peeking.Peekable.{peekable_contract, seen, seen_mut, held_item, held_of, failure_told, with_held, changed_first, Fills, Peeks, Looks, IsTestable, peekable_parts, peekable_held, LooksAs, rest_look, look_of};
ghost use Rattle.fallible_core.specs.contracts.peeking.peekable.Peekable.{the_row};

use crate::peeking::Peekable;
use crate::traits::FallibleIterator;

impl<I: FallibleIterator> Peekable<I>
where
    I::Item: Drop,
{
    /// Returns a reference to the next item, or `Ok(None)`. If something is buffered, it is that.
    ///
    /// It draws once if nothing is buffered, and otherwise nothing. It fails as the source does; a failure isn't buffered. An item or an `Ok(None)` is buffered then, so that `next` returns it without a draw. The iterator may be used again.
    ///
    /// The reference borrows the whole iterator while it is used.
    ///
    /// Requires: `next` may be called.
    ///
    /// Proof: to go on after it take `look`, which passes the item to a closure, or `peek_copied`.
    ///
    /// ```
    /// let mut it = convert([Ok::<u32, u8>(150), Err(9)].into_iter()).peekable();
    /// assert_eq!(rt; it.peek(), Ok(Some(&150)));
    /// assert_eq!(rt; it.peek(), Ok(Some(&150)));
    /// assert_eq!(rt; it.next(), Ok(Some(150)));
    /// assert_eq!(rt; it.peek(), Err(9));
    /// assert_eq!(rt; it.peek(), Ok(None));
    /// ```
    pub fn peek(&mut self) -> Result<Option<&I::Item>, I::Error>
    where
        requires { (peekable_contract I.contract).can_next (peekable_parts self.old) }
        ensures answer { (left : I × Option (Option I.Item))
            × Peeks I.contract.steps (peekable_parts self.old) (seen result) left }
        ensures* held { sem 𝓛 (follows_so (the_row I.row I.Item.row I.Error.row)
            (the_row I.row I.Item.row I.Error.row) self.entry.ghost_name none (λ _ _. ⊤)
            (λ v. Peeks I.contract.steps (peekable_parts self.old) (seen result) (peekable_parts v)
            × Stays (peekable_contract I.contract) (peekable_parts self.old)
            (peekable_parts v))) }
    {
        let filled = self.fill();
        let held = self.lend();
        Self::joined(filled, held)
    }

    /// Returns a mutable reference to the next item, or `Ok(None)`. What is written there is buffered, and `next` returns it.
    ///
    /// Draws, errors and what is buffered: as `peek`. The iterator may be used again.
    ///
    /// Requires: `next` may be called.
    ///
    /// Proof: nothing is said of the iterator afterwards. To go on call `fill` and then `held_mut`, which says what is buffered.
    ///
    /// ```
    /// let mut it = convert([Ok::<u32, u8>(150), Ok(7)].into_iter()).peekable();
    /// if let Ok(Some(reading)) = it.peek_mut() {
    ///     *reading = 151;
    /// }
    /// assert_eq!(rt; it.next(), Ok(Some(151)));
    /// assert_eq!(rt; it.next(), Ok(Some(7)));
    /// ```
    pub fn peek_mut(&mut self) -> Result<Option<&mut I::Item>, I::Error>
    where
        requires { (peekable_contract I.contract).can_next (peekable_parts self.old) }
        ensures { (left : I × Option (Option I.Item))
            × Peeks I.contract.steps (peekable_parts self.old) (seen_mut result) left }
    {
        self.fill()?;
        Ok(self.held_mut())
    }

    /// Returns what the closure returns for a reference to the next item, or `Ok(None)`.
    ///
    /// Draws, errors and what is buffered: as `peek`. The iterator may be used again.
    ///
    /// Requires: `next` may be called, and the closure may be called on a reference to each item that may come.
    ///
    /// Proof: a caller knows then what is buffered.
    ///
    /// ```
    /// let mut it = convert([Ok::<u32, u8>(150), Ok(7)].into_iter()).peekable();
    /// assert_eq!(rt; it.look(|reading| *reading > 100), Ok(Some(true)));
    /// assert_eq!(rt; it.next(), Ok(Some(150)));
    /// ```
    pub fn look<R, F: Fn(&I::Item) -> R>(&mut self, f: F) -> Result<Option<R>, I::Error>
    where
        requires can_next { (peekable_contract I.contract).can_next (peekable_parts self.old) }
        requires callable { IsTestable F.Fn f
            ((peekable_contract I.contract).may_give (peekable_parts self.old)) }
        ensures looked { Looks I.contract.steps F.Fn f
            (peekable_parts self.old) result (peekable_parts self.new) }
        ensures lists { OverListWith (LooksAs F.Fn f)
            (parts_as peekable_parts (peekable_contract I.contract)).steps self.old
            (λ h l. (result ≡ look_of h l)
            × Lists (parts_as peekable_parts (peekable_contract I.contract)).steps
            self.new (rest_look l)) }
        ensures stays { Stays (peekable_contract I.contract)
            (peekable_parts self.old) (peekable_parts self.new) }
    {
        self.fill()?;
        match self.held() {
            Some(x) => Ok(Some(f(x))),
            None => Ok(None),
        }
    }

    /// Returns a copy of the next item, or `Ok(None)`.
    ///
    /// Draws, errors and what is buffered: as `peek`. The iterator may be used again.
    ///
    /// Requires: `next` may be called.
    ///
    /// Proof: a caller knows then what is buffered.
    ///
    /// ```
    /// let mut it = convert([Ok::<u32, u8>(150), Ok(7)].into_iter()).peekable();
    /// assert_eq!(rt; it.peek_copied(), Ok(Some(150)));
    /// assert_eq!(rt; it.next(), Ok(Some(150)));
    /// ```
    pub fn peek_copied(&mut self) -> Result<Option<I::Item>, I::Error>
    where
        I::Item: Copy,
        requires { (peekable_contract I.contract).can_next (peekable_parts self.old) }
        ensures peeked { Peeks I.contract.steps
            (peekable_parts self.old) result (peekable_parts self.new) }
        ensures lists { OverList
            (parts_as peekable_parts (peekable_contract I.contract)).steps self.old
            (λ l. (result ≡ nth_of 0 l)
            × Lists (parts_as peekable_parts (peekable_contract I.contract)).steps
            self.new (rest_look l)) }
        ensures stays { Stays (peekable_contract I.contract)
            (peekable_parts self.old) (peekable_parts self.new) }
    {
        self.fill()?;
        Ok(self.held().copied())
    }

    /// Buffers what comes next, an item or an `Ok(None)`, as `peek` does, and returns `Ok(())`. Then `held` returns the item: with it this is `peek` in two steps.
    ///
    /// Draws, errors and what is buffered: as `peek`. The iterator may be used again.
    ///
    /// Requires: `next` may be called.
    ///
    /// Proof: a caller knows then what is buffered.
    ///
    /// ```
    /// let mut it = convert([Ok::<u32, u8>(150), Err(9)].into_iter()).peekable();
    /// assert_eq!(rt; it.fill(), Ok(()));
    /// assert_eq!(rt; it.held(), Some(&150));
    /// ```
    pub fn fill(&mut self) -> Result<(), I::Error>
    where
        requires { (peekable_contract I.contract).can_next (peekable_parts self.old) }
        ensures filled { Fills I.contract.steps
            (peekable_parts self.old) result (peekable_parts self.new) }
        ensures stays { Stays (peekable_contract I.contract)
            (peekable_parts self.old) (peekable_parts self.new) }
        ensures lists { OverList
            (parts_as peekable_parts (peekable_contract I.contract)).steps self.old
            (λ l. (result ≡ failure_told (nth_of 0 l))
            × (peekable_held self.new ≡ held_of (nth_of 0 l))
            × Lists (parts_as peekable_parts (peekable_contract I.contract)).steps
            self.new (rest_look l)) }
    {
        match self.held {
            Some(_) => Ok(()),
            None => self.hold(),
        }
    }

    // Draws once, if nothing is buffered, and buffers an item or an `Ok(None)`.
    fn hold(&mut self) -> Result<(), I::Error>
    where
        requires can_next { (peekable_contract I.contract).can_next (peekable_parts self.old) }
        requires empty { self.old.held ≡ None }
        ensures { Fills I.contract.steps
            (peekable_parts self.old) result (peekable_parts self.new) }
    {
        match self.it.next() {
            Ok(answer) => {
                self.held = Some(answer);
                Ok(())
            }
            Err(e) => Err(e),
        }
    }

    /// Returns the buffered item, and `None` if an `Ok(None)` or nothing is buffered.
    ///
    /// It draws nothing and never fails. What is buffered stays so.
    ///
    /// ```
    /// let mut it = convert([Ok::<u32, u8>(150), Err(9)].into_iter()).peekable();
    /// assert_eq!(rt; it.fill(), Ok(()));
    /// assert_eq!(rt; it.held(), Some(&150));
    /// ```
    pub fn held(&self) -> Option<&I::Item>
    where
        ensures { option_copied result ≡ held_item (peekable_held self.now) }
    {
        match &self.held {
            Some(Some(x)) => Some(x),
            Some(None) => None,
            None => None,
        }
    }

    /// Returns a mutable reference to the buffered item, and `None` if an `Ok(None)` or nothing is buffered. What is written there is buffered, and `next` returns it.
    ///
    /// It draws nothing and never fails. The iterator may be used again.
    ///
    /// Proof: a caller knows then what is buffered, and that the list has it in the place of its first item.
    ///
    /// ```
    /// let mut it = convert([Ok::<u32, u8>(150), Ok(7)].into_iter()).peekable();
    /// assert_eq!(rt; it.fill(), Ok(()));
    /// if let Some(reading) = it.held_mut() {
    ///     *reading = 151;
    /// }
    /// assert_eq!(rt; it.next(), Ok(Some(151)));
    /// assert_eq!(rt; it.next(), Ok(Some(7)));
    /// ```
    pub fn held_mut(&mut self) -> Option<&mut I::Item>
    where
        ensures value { option_copied_mut result ≡ held_item (peekable_held self.old) }
        ensures* writes_back { sem 𝓛 (LendsIf (the_row I.row I.Item.row I.Error.row) I.Item.row
            self.entry result (with_held self.old) self.old) }
        ensures lists { OverList
            (parts_as peekable_parts (peekable_contract I.contract)).steps self.old
            (λ l. (x w : I.Item) → held_item (peekable_held self.old) ≡ Some x
            → Lists (parts_as peekable_parts (peekable_contract I.contract)).steps
            (with_held self.old w) (changed_first w l)) }
    {
        match self.held.as_mut() {
            Some(answer) => answer.as_mut(),
            None => None,
        }
    }

    // The buffered item, borrowed from the whole.
    fn lend(&mut self) -> Option<&I::Item>
    where
        ensures shown { option_copied result ≡ held_item self.old.held }
        ensures* kept { sem 𝓛 (follows_so (the_row I.row I.Item.row I.Error.row)
            (the_row I.row I.Item.row I.Error.row) self.entry.ghost_name none (λ _ _. ⊤)
            (λ v. v ≡ self.old)) }
    {
        (*self).held()
    }

    // The buffered item, or the failure.
    fn joined(
        filled: Result<(), I::Error>,
        held: Option<&I::Item>,
    ) -> Result<Option<&I::Item>, I::Error>
        ensures { MatchResult filled (λ _. result ≡ Ok held.entry) (λ e. result ≡ Err e) }
    {
        match filled {
            Ok(()) => Ok(held),
            Err(e) => Err(e),
        }
    }
}
