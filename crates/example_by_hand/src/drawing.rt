//! Draws by hand.
ghost use Rattle.std.specs.Prelude.{◌≡◌, ◌+◌, ◌*◌, ◌%◌, ◌^◌, ℕ, List, [], ◌∷◌, Result, Option, Ok, Err, Some, None, false, min, nat_lt};
ghost use Rattle.fallible_iterator.specs.Lists.{Lists, rest_first, rest_nth, chained, filtered, first_if, folded, items, look_of, nth_of, on_value, results, taken, taken_while, zipped, rest_look};

use fallible_iterator::laws::{law_next, law_peek, law_take_for_good, law_take_while_for_good};
use fallible_iterator::{FallibleIterator, Peekable, convert};

/// The first two readings, of which the second is only looked at, or a failure in their place; `None` in the place of one that isn't there.
pub fn first_two(readings: Vec<Result<u32, u8>>) -> Result<(Option<u32>, Option<u32>), u8>
    ensures value { (first : ℕ) (rest : List (Result ℕ ℕ))
        → results readings.items ≡ Ok first ∷ rest
        → result ≡ on_value (look_of (λ x. x) rest) (λ second. Ok (Some first, second)) }
    ensures fails { (e : ℕ) (rest : List (Result ℕ ℕ))
        → results readings.items ≡ Err e ∷ rest → result ≡ Err e }
    ensures none { readings.items ≡ [] → result ≡ Ok (None, None) }
{
    let mut ahead = convert(readings.into_iter()).peekable();
    let first = ahead.peek_copied()?;
    ahead.draw()?;
    let second = ahead.look(|reading| *reading)?;
    Ok((first, second))
}

/// The second item, if it is above the first. Otherwise it is looked at and not drawn. A failure in the place of the first is returned.
pub fn second_if_above<I: FallibleIterator<Item = u32>>(it: I) -> Result<Option<u32>, I::Error>
where
    requires { I.contract.can_next it }
    ensures some { (l : List (Result ℕ I.Error)) (first : ℕ) → Lists I.contract.steps it l
        → nth_of 0 l ≡ Ok (Some first)
        → result ≡ first_if (λ second. nat_lt first second) (rest_first l) }
    ensures none { (l : List (Result ℕ I.Error)) → Lists I.contract.steps it l
        → nth_of 0 l ≡ Ok None → result ≡ Ok None }
    ensures fails { (l : List (Result ℕ I.Error)) (e : I.Error) → Lists I.contract.steps it l
        → nth_of 0 l ≡ Err e → result ≡ Err e }
{
    let mut ahead = it.peekable();
    match ahead.draw()? {
        Some(first) => ahead.next_if(|second| first < *second),
        None => Ok(None),
    }
}

/// The first item, or `limit` if it is above that; the failure in its place. It is looked at, changed and then drawn.
pub fn first_at_most<I: FallibleIterator<Item = u32>>(
    it: I,
    limit: u32,
) -> Result<Option<u32>, I::Error>
where
    requires { I.contract.can_next it }
    ensures some { (l : List (Result ℕ I.Error)) (x : ℕ) → Lists I.contract.steps it l
        → nth_of 0 l ≡ Ok (Some x) → result ≡ Ok (Some (min x limit)) }
    ensures none { (l : List (Result ℕ I.Error)) → Lists I.contract.steps it l
        → nth_of 0 l ≡ Ok None → result ≡ Ok None }
    ensures fails { (l : List (Result ℕ I.Error)) (e : I.Error) → Lists I.contract.steps it l
        → nth_of 0 l ≡ Err e → result ≡ Err e }
{
    let mut ahead = it.peekable();
    ahead.fill()?;
    if let Some(first) = ahead.held_mut() {
        if limit < *first {
            *first = limit;
        }
    }
    ahead.draw()
}

/// Draws until `Ok(None)`, or the first failure, and drops the items.
pub fn draw_all<I: FallibleIterator>(it: &mut I) -> Result<(), I::Error>
where
    I::Item: Drop,
    requires can_next { I.contract.can_next it.old }
    requires finite { I.contract.is_finite it.old }
    ensures { (l : List (Result I.Item I.Error)) → Lists I.contract.steps it.old l
        → result ≡ folded (λ e. e) (λ done _. Ok done) tt l }
{
    let mut left = (*it).number();
    while let Some(_) = it.draw()? {
        left = left.one_less();
    }
    Ok(())
}

/// The sum of the items up to the first that is 0, modulo 2 ^ 64, or the first failure before.
pub fn sum_up_to_zero<I: FallibleIterator<Item = u32>>(mut it: I) -> Result<u64, I::Error>
where
    requires can_next { I.contract.can_next it }
    requires finite { I.contract.is_finite it }
    ensures { (l : List (Result ℕ I.Error)) → Lists I.contract.steps it l
        → result ≡ folded (λ e. e) (λ s x. Ok ((s + x) % 2 ^ 64)) 0
        (taken_while (λ x. Ok (nat_lt 0 x)) l) }
{
    let mut left = it.number();
    let mut sum: u64 = 0;
    while let Some(item) = it.draw()? {
        if item == 0 {
            return Ok(sum);
        }
        left = left.one_less();
        sum = sum.wrapping_add(u64::from(item));
    }
    Ok(sum)
}

/// The sum of the first two items, modulo 2 ^ 32, which are taken of a borrow.
pub fn sum_of_two<I: FallibleIterator<Item = u32>>(it: &mut I) -> Result<u32, I::Error>
where
    requires { I.contract.can_next it.old }
    ensures value { (l : List (Result ℕ I.Error)) → Lists I.contract.steps it.old l
        → result ≡ folded (λ e. e) (λ s x. Ok ((s + x) % 2 ^ 32)) 0 (taken 2 l) }
    ensures rest { (l : List (Result ℕ I.Error)) (sum second : ℕ)
        → Lists I.contract.steps it.old l
        → result ≡ Ok sum → nth_of 1 l ≡ Ok (Some second)
        → Lists I.contract.steps it.new (rest_nth 1 l) }
    ensures can_next { I.contract.can_next it.new }
{
    (&mut *it)
        .take(2)
        .try_fold(0, |sum: u32, x: u32| Ok(sum.wrapping_add(x)))
}

/// The sum of the first three items, modulo 2 ^ 32, or the first failure among them. `by_ref` lends the iterator; no clause says what it leaves.
pub fn sum_of_three<I: FallibleIterator<Item = u32>>(it: &mut I) -> Result<u32, I::Error>
where
    requires { I.contract.can_next it.old }
    ensures { (l : List (Result ℕ I.Error)) → Lists I.contract.steps it.old l
        → result ≡ folded (λ e. e) (λ s x. Ok ((s + x) % 2 ^ 32)) 0 (taken 3 l) }
{
    it.by_ref()
        .take(3)
        .try_fold(0, |sum: u32, x: u32| Ok(sum.wrapping_add(x)))
}

/// The sum of the first two items of a source that is lent, and lent on to a function that borrows what it is given.
pub fn sum_of_two_lent_twice<I: FallibleIterator<Item = u32>>(it: &mut I) -> Result<u32, I::Error>
where
    requires { I.contract.can_next it.old }
    ensures { (l : List (Result ℕ I.Error)) → Lists I.contract.steps it.old l
        → result ≡ folded (λ e. e) (λ s x. Ok ((s + x) % 2 ^ 32)) 0 (taken 2 l) }
{
    let mut lent = it.by_ref();
    sum_of_two(&mut lent)
}

/// The sum of the products of two sources, position by position, modulo 2 ^ 64, or the failure that comes first. Each is lent for a time of its own.
pub fn sum_of_products<'a, 'b, I, J>(left: &'a mut I, right: &'b mut J) -> Result<u64, I::Error>
where
    I: FallibleIterator<Item = u32>,
    J: FallibleIterator<Item = u32, Error = I::Error>,
    requires left { I.contract.can_next left.old }
    requires right { J.contract.can_next right.old }
    requires finite { I.contract.is_finite left.old }
    ensures { (a : List (Result ℕ I.Error)) (b : List ℕ) → Lists I.contract.steps left.old a
        → Lists J.contract.steps right.old (items b)
        → result ≡ folded (λ e. e) (λ s p. Ok ((s + p.0 * p.1) % 2 ^ 64)) 0 (zipped a (items b)) }
{
    left.zip(right).fold(
        0,
        |sum: u64, pair: (u32, u32)| Ok(sum.wrapping_add(u64::from(pair.0) * u64::from(pair.1))),
    )
}

/// The sum of the first two readings above 100, and the one after them, or the first failure among the three. No clause says what it returns if there are fewer than two.
pub fn two_and_the_next(readings: Vec<Result<u32, u8>>) -> Result<(u32, Option<u32>), u8>
    ensures value { let l : List (Result ℕ ℕ) = filtered (λ r. Ok (nat_lt 100 r))
        (results readings.items) in (last : ℕ) → nth_of 1 l ≡ Ok (Some last)
        → result ≡ on_value (folded (λ e. e) (λ s x. Ok ((s + x) % 2 ^ 32)) 0 (taken 2 l))
        (λ sum. on_value (nth_of 0 (rest_nth 1 l)) (λ next. Ok (sum, next))) }
    ensures fails { let l : List (Result ℕ ℕ) = filtered (λ r. Ok (nat_lt 100 r))
        (results readings.items) in (e : ℕ)
        → folded (λ e. e) (λ s x. Ok ((s + x) % 2 ^ 32)) 0 (taken 2 l) ≡ Err e → result ≡ Err e }
{
    let mut above = convert(readings.into_iter()).filter(|reading| Ok(*reading > 100));
    let sum = sum_of_two(&mut above)?;
    Ok((sum, above.draw()?))
}

/// How many of the first ten items are above 100, modulo 2 ^ 64, which are taken of a borrow.
pub fn above_100_of_first_ten<I: FallibleIterator<Item = u32>>(it: &mut I) -> Result<u64, I::Error>
where
    requires { I.contract.can_next it.old }
    ensures value { (l : List (Result ℕ I.Error)) → Lists I.contract.steps it.old l
        → result ≡ folded (λ e. e) (λ n x. Ok ((n + 1) % 2 ^ 64)) 0
        (filtered (λ x. Ok (nat_lt 100 x)) (taken 10 l)) }
    ensures rest { (l : List (Result ℕ I.Error)) (n tenth : ℕ)
        → Lists I.contract.steps it.old l
        → result ≡ Ok n → nth_of 9 l ≡ Ok (Some tenth)
        → Lists I.contract.steps it.new (rest_nth 9 l) }
    ensures can_next { I.contract.can_next it.new }
{
    (&mut *it)
        .take(10)
        .filter(|x| Ok(*x > 100))
        .try_fold(0, |n: u64, _| Ok(n.wrapping_add(1)))
}

/// The item after the first three, which are dropped, or the first failure among the four. No clause says what it returns if there are fewer than three.
pub fn after_three<I: FallibleIterator>(it: &mut I) -> Result<Option<I::Item>, I::Error>
where
    I::Item: Drop,
    requires { I.contract.can_next it.old }
    ensures { (l : List (Result I.Item I.Error)) → Lists I.contract.steps it.old l
        → ¬ (nth_of 2 l ≡ Ok None)
        → result ≡ on_value (nth_of 2 l) (λ _. nth_of 0 (rest_nth 2 l)) }
{
    (&mut *it).take(3).nth(2)?;
    it.draw()
}

/// The first item of a chain of both sides, after the first pair of both, or a failure in the place of that pair. No clause says what it returns if there is no pair.
pub fn after_a_pair<I, J>(mut left: I, mut right: J) -> Result<Option<I::Item>, I::Error>
where
    I: FallibleIterator,
    J: FallibleIterator<Item = I::Item, Error = I::Error>,
    I::Item: Drop,
    requires left { I.contract.can_next left }
    requires right { J.contract.can_next right }
    ensures { (a b : List (Result I.Item I.Error))
        → Lists I.contract.steps left a → Lists J.contract.steps right b
        → ¬ (nth_of 0 (zipped a b) ≡ Ok None)
        → result ≡ on_value (nth_of 0 (zipped a b))
        (λ _. nth_of 0 (chained (rest_first a) (rest_first b))) }
{
    (&mut left).zip(&mut right).draw()?;
    left.chain(right).draw()
}

/// The first pair of both sides, after the first item of a chain of both, or a failure in its place. No clause says what it returns if the left has none, or if the right fails.
pub fn pair_after_first<I, J>(
    mut left: I,
    mut right: J,
) -> Result<Option<(I::Item, I::Item)>, I::Error>
where
    I: FallibleIterator,
    J: FallibleIterator<Item = I::Item, Error = I::Error>,
    I::Item: Drop,
    requires left { I.contract.can_next left }
    requires right { J.contract.can_next right }
    ensures { (a : List (Result I.Item I.Error)) (b : List I.Item)
        → Lists I.contract.steps left a → Lists J.contract.steps right (items b)
        → ¬ (nth_of 0 a ≡ Ok None)
        → result ≡ on_value (nth_of 0 a) (λ _. nth_of 0 (zipped (rest_first a) (items b))) }
{
    (&mut left).chain(&mut right).draw()?;
    left.zip(right).draw()
}

/// The second item, by two plain calls of `next`, the first of which is dropped, or a failure in its place. No clause says what it returns if there is no first one. The law says what each `next` returns and leaves.
pub fn second_of<I: FallibleIterator>(mut it: I) -> Result<Option<I::Item>, I::Error>
where
    I::Item: Drop,
    requires { I.contract.can_next it }
    ensures value { (l : List (Result I.Item I.Error)) (x : I.Item) → Lists I.contract.steps it l
        → nth_of 0 l ≡ Ok (Some x) → result ≡ nth_of 0 (rest_first l) }
    ensures fails { (l : List (Result I.Item I.Error)) (e : I.Error) → Lists I.contract.steps it l
        → nth_of 0 l ≡ Err e → result ≡ Err e }
{
    law_next::<I>();
    it.next()?;
    it.next()
}

/// Whether there is a first item and it is above 100, or a failure in its place. It is looked at and not drawn. The law says what `peek` returns.
pub fn begins_above_100<I: FallibleIterator<Item = u32>>(it: I) -> Result<bool, I::Error>
where
    requires { I.contract.can_next it }
    ensures some { (l : List (Result ℕ I.Error)) (x : ℕ) → Lists I.contract.steps it l
        → nth_of 0 l ≡ Ok (Some x) → result ≡ Ok (nat_lt 100 x) }
    ensures none { (l : List (Result ℕ I.Error)) → Lists I.contract.steps it l
        → nth_of 0 l ≡ Ok None → result ≡ Ok false }
    ensures fails { (l : List (Result ℕ I.Error)) (e : I.Error) → Lists I.contract.steps it l
        → nth_of 0 l ≡ Err e → result ≡ Err e }
{
    law_peek::<I>();
    let mut ahead = it.peekable();
    match ahead.peek()? {
        Some(first) => Ok(*first > 100),
        None => Ok(false),
    }
}

/// The first item, in whose place a 0 is buffered, or a failure in its place; `None` if there is none. The law says what `peek_mut` returns.
pub fn first_cleared<I: FallibleIterator<Item = u32>>(
    ahead: &mut Peekable<I>,
) -> Result<Option<u32>, I::Error>
where
    requires { ⟦<Peekable<I> as FallibleIterator>⟧.contract.can_next ahead.old }
    ensures { (l : List (Result ℕ I.Error))
        → Lists ⟦<Peekable<I> as FallibleIterator>⟧.contract.steps ahead.old l
        → result ≡ nth_of 0 l }
{
    law_peek::<I>();
    let Some(first) = ahead.peek_mut()? else {
        return Ok(None);
    };
    let item = *first;
    *first = 0;
    Ok(Some(item))
}

/// Whether the next item is above 100, or a failure in its place; `None` if there is none. The item is buffered first, then looked at, and stays.
pub fn next_above_100<I: FallibleIterator<Item = u32>>(
    ahead: &mut Peekable<I>,
) -> Result<Option<bool>, I::Error>
where
    requires { ⟦<Peekable<I> as FallibleIterator>⟧.contract.can_next ahead.old }
    ensures some { (l : List (Result ℕ I.Error)) (x : ℕ)
        → Lists ⟦<Peekable<I> as FallibleIterator>⟧.contract.steps ahead.old l
        → nth_of 0 l ≡ Ok (Some x) → result ≡ Ok (Some (nat_lt 100 x)) }
    ensures none { (l : List (Result ℕ I.Error))
        → Lists ⟦<Peekable<I> as FallibleIterator>⟧.contract.steps ahead.old l
        → nth_of 0 l ≡ Ok None → result ≡ Ok None }
    ensures fails { (l : List (Result ℕ I.Error)) (e : I.Error)
        → Lists ⟦<Peekable<I> as FallibleIterator>⟧.contract.steps ahead.old l
        → nth_of 0 l ≡ Err e → result ≡ Err e }
    ensures rest { (l : List (Result ℕ I.Error))
        → Lists ⟦<Peekable<I> as FallibleIterator>⟧.contract.steps ahead.old l
        → Lists ⟦<Peekable<I> as FallibleIterator>⟧.contract.steps ahead.new (rest_look l) }
{
    ahead.fill()?;
    let Some(item) = ahead.held() else {
        return Ok(None);
    };
    Ok(Some(*item > 100))
}

/// What the third draw of `take(1)` returns, if the first reading is no failure: `None`, also if more readings come. The law says that it is fused.
pub fn drawn_past_one(readings: Vec<Result<u32, u8>>) -> Result<Option<u32>, u8>
    ensures { (x : ℕ) (rest : List (Result ℕ ℕ)) → results readings.items ≡ Ok x ∷ rest
        → result ≡ Ok None }
{
    let mut one = convert(readings.into_iter()).take(1);
    law_take_for_good(&one);
    let _ = one.draw();
    let _ = one.draw();
    one.draw()
}

/// What the second draw of the readings before the first that is at least 100 returns, if that is the first of all: `None`, also if lower ones come. The law says that they are fused.
pub fn drawn_past_high(readings: Vec<Result<u32, u8>>) -> Result<Option<u32>, u8>
    ensures { (x : ℕ) (rest : List (Result ℕ ℕ)) → results readings.items ≡ Ok x ∷ rest
        → nat_lt x 100 ≡ false → result ≡ Ok None }
{
    let mut low = convert(readings.into_iter()).take_while(|reading| Ok(*reading < 100));
    law_take_while_for_good(&low);
    let _ = low.draw();
    low.draw()
}
