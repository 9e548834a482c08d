//! Draws from the back.
ghost use Rattle.std.specs.Prelude.{eqb, ◌*◌, nat_lt, not, reverse, ◌≡◌, ℕ, ◌+◌, ◌++◌, ◌%◌, ◌^◌, [], ◌∷◌, List, Result, Ok, Err, IfOk, Option, Some, None, if◌then◌else◌};
ghost use Rattle.std.specs.Vec.Iter.{into_iter_items};
ghost use Rattle.fallible_iterator.specs.Side.{Side};
ghost use Rattle.fallible_iterator.specs.Traces.{Answered};
ghost use Rattle.fallible_iterator.specs.BothEnds.{ListsBothEnds};
ghost use Rattle.fallible_iterator.specs.Lists.{Lists, answers_at_ends, results, reversed, folded, counted, rest_true, rest_first, rest_nth, found, nth_of, mapped, filtered, skipped_while, chained, CollectedAs, on_value};
ghost use Rattle.fallible_iterator.specs.Listing.{DrawsInterleave};
ghost use Rattle.fallible_iterator.specs.Sources.Convert.{convert_parts};
ghost use Rattle.std.specs.declared.vec.IntoIter.{IntoIter};
ghost use Rattle.std.specs.declared.alloc.Global.{Global};
ghost use Rattle.example_by_hand.specs.Alike.{alike};
ghost use Rattle.fallible_iterator.specs.declared.sources.convert.Convert.{Convert};

use fallible_iterator::laws::{
    answers_at, law_after_front, law_back_convert, law_draws, law_interleave, law_listed_vec,
    law_lists, law_lists_chain, law_lists_filter, law_lists_map,
};
use fallible_iterator::{
    Answer, Convert, DoubleEndedFallibleIterator, FallibleIterator, Fault, Side, convert,
};
use std::alloc::{AllocError, Global};

/// The first reading and the last one, which are drawn in turn, or a failure in the place of one; `None` if there are fewer than two.
pub fn first_and_last(readings: Vec<Result<u32, u8>>) -> Result<Option<(u32, u32)>, u8>
    ensures both { (first last : ℕ) (between : List (Result ℕ ℕ))
        → readings.items ≡ Ok first ∷ (between ++ Ok last ∷ []) → result ≡ Ok (Some (first, last)) }
    ensures first_fails { (e : ℕ) (rest : List (Result ℕ ℕ))
        → readings.items ≡ Err e ∷ rest → result ≡ Err e }
    ensures last_fails { (first e : ℕ) (between : List (Result ℕ ℕ))
        → readings.items ≡ Ok first ∷ (between ++ Err e ∷ []) → result ≡ Err e }
    ensures one { (only : ℕ) → readings.items ≡ Ok only ∷ [] → result ≡ Ok None }
    ensures none { readings.items ≡ [] → result ≡ Ok None }
{
    let mut it = convert(readings.into_iter());
    match it.next()? {
        Some(first) => match it.next_back()? {
            Some(last) => Ok(Some((first, last))),
            None => Ok(None),
        },
        None => Ok(None),
    }
}

/// How many readings there are besides the first and the last, or a failure: that of the first or of the last, and otherwise the first between. It is 0 if there are fewer than two.
pub fn count_between(readings: Vec<Result<u32, u8>>) -> Result<usize, u8>
    ensures value { (first last : ℕ) (between : List (Result ℕ ℕ))
        → readings.items ≡ Ok first ∷ (between ++ Ok last ∷ []) → result ≡ counted between }
    ensures first_fails { (e : ℕ) (rest : List (Result ℕ ℕ))
        → readings.items ≡ Err e ∷ rest → result ≡ Err e }
    ensures last_fails { (first e : ℕ) (between : List (Result ℕ ℕ))
        → readings.items ≡ Ok first ∷ (between ++ Err e ∷ []) → result ≡ Err e }
    ensures one { (only : ℕ) → readings.items ≡ Ok only ∷ [] → result ≡ Ok 0 }
    ensures none { readings.items ≡ [] → result ≡ Ok 0 }
{
    law_listed_vec::<u32, u8>();
    law_draws::<Convert<std::vec::IntoIter<Result<u32, u8>, Global>>>();
    let mut it = convert(readings.into_iter());
    it.next()?;
    it.next_back()?;
    it.count()
}

/// The sum of the readings from the back, modulo 2 ^ 64, or the first failure from the back. The law says what `convert` lists from the back; no `rev` is needed.
pub fn sum_from_back(readings: Vec<Result<u32, u8>>) -> Result<u64, u8>
    ensures { result ≡ folded (λ e. e) (λ s x. Ok ((s + x) % 2 ^ 64)) 0
        (reversed (results readings.items)) }
{
    law_back_convert::<u32, u8, std::vec::IntoIter<Result<u32, u8>, Global>>();
    convert(readings.into_iter()).rfold(
        0,
        |sum: u64, reading: u32| Ok(sum.wrapping_add(u64::from(reading))),
    )
}

/// The sum of the readings, drawn from the back, or the failure that comes first: the code 7 where the sum reaches 2 ^ 32.
pub fn checked_sum_from_back(readings: Vec<Result<u32, u8>>) -> Result<u32, u8>
    ensures { result ≡ folded (λ e. e)
        (λ s x. if nat_lt (s + x) (2 ^ 32) then Ok (s + x) else Err 7) 0
        (reversed (results readings.items)) }
{
    law_back_convert::<u32, u8, std::vec::IntoIter<Result<u32, u8>, Global>>();
    convert(readings.into_iter()).try_rfold(
        0,
        |sum: u32, reading: u32| sum.checked_add(reading).ok_or(7u8),
    )
}

/// What three draws return, the first of which is from the front.
pub fn three_answers(
    alloc: Global,
    readings: Vec<Result<u32, u8>>,
) -> Result<Vec<Answer<u32, u8>>, AllocError>
    ensures { IfOk result
        (λ v. v.items ≡ answers_at_ends (Side.Front ∷ Side.Back ∷ Side.Back ∷ [])
        (results readings.items)) }
{
    law_listed_vec::<u32, u8>();
    let mut it = convert(readings.into_iter());
    answers_at(alloc, &mut it, &[Side::Front, Side::Back, Side::Back])
}

/// The last but one item, once the last and the first were drawn, of any fallible iterator with two ends, or a failure in the place of one of these.
pub fn last_but_one_of<I: DoubleEndedFallibleIterator>(
    it: &mut I,
) -> Result<Option<I::Item>, I::Error>
where
    I::Item: Drop,
    requires { I.ends.can_next it.old }
    ensures { (l : List (Result I.Item I.Error))
        → ListsBothEnds I.contract.steps I.ends.steps it.old l
        → let left : List (Result I.Item I.Error) = reverse (rest_first (reverse l)) in
        result ≡ on_value (nth_of 0 (reverse l)) (λ _. on_value (nth_of 0 left)
        (λ _. nth_of 0 (reverse (rest_first left)))) }
{
    it.draw_back()?;
    it.draw_front()?;
    it.draw_back()
}

/// The last but one of the doubled readings above 1000, once the last and the first were drawn, or a failure from the back in the place of the last.
pub fn last_but_one(readings: Vec<Result<u32, u8>>) -> Result<Option<u64>, u8>
    ensures { let l : List (Result ℕ ℕ) = filtered (λ x. Ok (nat_lt 1000 x))
        (mapped (λ x. Ok (x * 2)) (results readings.items)) in
        let left : List (Result ℕ ℕ) = reverse (rest_first (reverse l)) in
        result ≡ on_value (nth_of 0 (reverse l)) (λ _. on_value (nth_of 0 left)
        (λ _. nth_of 0 (reverse (rest_first left)))) }
{
    let doubled = convert(readings.into_iter()).map(|reading| Ok(u64::from(reading) * 2));
    law_listed_vec::<u32, u8>();
    law_lists(&doubled);
    let mut above = doubled.filter(|double| Ok(*double > 1000));
    law_lists(&above);
    last_but_one_of(&mut above)
}

/// The last of the doubled readings after the first three, or a failure among these; `None` if there are fewer than three.
pub fn last_after_three(readings: Vec<Result<u32, u8>>) -> Result<Option<u64>, u8>
    ensures value { (third : ℕ)
        → nth_of 2 (mapped (λ x. Ok (x * 2)) (results readings.items)) ≡ Ok (Some third)
        → result ≡ nth_of 0 (reverse (rest_nth 2
        (mapped (λ x. Ok (x * 2)) (results readings.items)))) }
    ensures fails { (e : ℕ)
        → nth_of 2 (mapped (λ x. Ok (x * 2)) (results readings.items)) ≡ Err e
        → result ≡ Err e }
    ensures none { nth_of 2 (mapped (λ x. Ok (x * 2)) (results readings.items)) ≡ Ok None
        → result ≡ Ok None }
{
    let mut it = convert(readings.into_iter()).map(|reading| Ok(u64::from(reading) * 2));
    law_listed_vec::<u32, u8>();
    law_lists(&it);
    match it.nth(2)? {
        Some(_) => it.draw_back(),
        None => Ok(None),
    }
}

/// What a vector's readings list from both ends, said by the laws: the readings that are left. So of draws from both ends what came from the front, what is left and what came from the back, reversed, are those readings.
pub fn law_readings()
    ensures listed { (s : Convert (IntoIter (Result ℕ ℕ) Global))
        → ListsBothEnds
        ⟦<Convert<std::vec::IntoIter<Result<u32, u8>, Global>> as FallibleIterator>⟧.contract.steps
        ⟦<Convert<std::vec::IntoIter<Result<u32, u8>, Global>> as DoubleEndedFallibleIterator>⟧.ends.steps
        s (results (into_iter_items (convert_parts s))) }
    ensures interleaves { (s t : Convert (IntoIter (Result ℕ ℕ) Global))
        (drawn : List (Side × Answered ℕ ℕ))
        → DrawsInterleave
        ⟦<Convert<std::vec::IntoIter<Result<u32, u8>, Global>> as FallibleIterator>⟧.contract.steps
        ⟦<Convert<std::vec::IntoIter<Result<u32, u8>, Global>> as DoubleEndedFallibleIterator>⟧.ends.steps
        (results (into_iter_items (convert_parts s))) s drawn t }
{
    law_listed_vec::<u32, u8>();
    law_interleave::<Convert<std::vec::IntoIter<Result<u32, u8>, Global>>>();
}

/// The last item after the first 0, of any fallible iterator with two ends; `None` if there is no 0, and the first failure before.
pub fn last_after_zero<I: DoubleEndedFallibleIterator<Item = u32>>(
    it: &mut I,
) -> Result<Option<u32>, I::Error>
where
    requires can_next { I.ends.can_next it.old }
    requires finite { I.contract.is_finite it.old }
    ensures some { (l : List (Result ℕ I.Error)) (x : ℕ)
        → ListsBothEnds I.contract.steps I.ends.steps it.old l
        → found (λ r. Ok (eqb r 0)) l ≡ Ok (Some x)
        → result ≡ nth_of 0 (reverse (rest_true (λ r. Ok (eqb r 0)) l)) }
    ensures none { (l : List (Result ℕ I.Error))
        → Lists I.contract.steps it.old l
        → found (λ r. Ok (eqb r 0)) l ≡ Ok None → result ≡ Ok None }
    ensures fails { (l : List (Result ℕ I.Error)) (e : I.Error)
        → Lists I.contract.steps it.old l
        → found (λ r. Ok (eqb r 0)) l ≡ Err e → result ≡ Err e }
{
    law_after_front::<I>();
    law_draws::<I>();
    match it.find(|x| Ok(*x == 0))? {
        Some(_) => it.draw_back(),
        None => Ok(None),
    }
}

/// How many readings come after the first one that isn't 0, up to the last one that isn't: zeros at the front and at the back are left out. Or the failure that comes first: from the front up to that one, and then from the back.
pub fn count_trimmed(readings: Vec<Result<u32, u8>>) -> Result<usize, u8>
    ensures some { (x : ℕ)
        → found (λ r. Ok (not (eqb r 0))) (results readings.items) ≡ Ok (Some x)
        → result ≡ counted (skipped_while (λ r. Ok (eqb r 0))
        (reverse (rest_true (λ r. Ok (not (eqb r 0))) (results readings.items)))) }
    ensures none { found (λ r. Ok (not (eqb r 0))) (results readings.items) ≡ Ok None
        → result ≡ Ok 0 }
    ensures fails { (e : ℕ) → found (λ r. Ok (not (eqb r 0))) (results readings.items) ≡ Err e
        → result ≡ Err e }
{
    law_listed_vec::<u32, u8>();
    law_draws::<Convert<std::vec::IntoIter<Result<u32, u8>, Global>>>();
    let mut left = convert(readings.into_iter());
    match left.find(|reading| Ok(*reading != 0))? {
        Some(_) => left.rev().skip_while(|reading| Ok(*reading == 0)).count(),
        None => Ok(0),
    }
}

/// The doubled readings, the last one first, or the first failure from the back. The laws say what `map` lists from the back of what `convert` does.
pub fn doubled_from_back(
    alloc: Global,
    readings: Vec<Result<u32, u8>>,
) -> Result<Vec<u64>, Fault<u8>>
    ensures { CollectedAs (λ xs v. v.items ≡ xs)
        (mapped (λ x. Ok (x * 2)) (reversed (results readings.items))) result }
{
    let doubled = convert(readings.into_iter()).map(|reading| Ok(u64::from(reading) * 2));
    law_back_convert::<u32, u8, std::vec::IntoIter<Result<u32, u8>, Global>>();
    law_lists_map(&doubled);
    doubled.rev().collect(alloc)
}

/// The readings above 100, the last one first, or the first failure from the back. The laws say what `filter` lists from the back of what `convert` does.
pub fn above_100_from_back(
    alloc: Global,
    readings: Vec<Result<u32, u8>>,
) -> Result<Vec<u32>, Fault<u8>>
    ensures { CollectedAs (λ xs v. v.items ≡ xs)
        (filtered (λ x. Ok (nat_lt 100 x)) (reversed (results readings.items))) result }
{
    let above = convert(readings.into_iter()).filter(|reading| Ok(*reading > 100));
    law_back_convert::<u32, u8, std::vec::IntoIter<Result<u32, u8>, Global>>();
    law_lists_filter(&above);
    above.rev().collect(alloc)
}

/// The readings of both, those of the right first, each the last one first, or the first failure from the back. The laws say what `chain` lists from the back of what both sides do.
pub fn readings_of_both_reversed(
    alloc: Global,
    left: Vec<Result<u32, u8>>,
    right: Vec<Result<u32, u8>>,
) -> Result<Vec<u32>, Fault<u8>>
    ensures { CollectedAs (λ xs v. v.items ≡ xs)
        (chained (reversed (results right.items)) (reversed (results left.items))) result }
{
    let both = convert(left.into_iter()).chain(convert(right.into_iter()));
    law_back_convert::<u32, u8, std::vec::IntoIter<Result<u32, u8>, Global>>();
    law_lists_chain(&both);
    both.rev().collect(alloc)
}

/// Whether the items read the same from both ends, up to the first two that differ, or the failure that comes first as they are drawn in turn.
pub fn read_alike<I: DoubleEndedFallibleIterator<Item = u32>>(mut it: I) -> Result<bool, I::Error>
where
    requires can_next { I.ends.can_next it }
    requires finite { I.contract.is_finite it }
    ensures { (l : List (Result ℕ I.Error))
        → ListsBothEnds I.contract.steps I.ends.steps it l → result ≡ alike l }
{
    let mut left = it.number();
    while let Some(first) = it.draw_front()? {
        left = left.one_less();
        let Some(last) = it.draw_back()? else {
            return Ok(true);
        };
        if first != last {
            return Ok(false);
        }
    }
    Ok(true)
}
