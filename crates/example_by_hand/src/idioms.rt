//! Idioms of Rust, over fallible iterators.
ghost use Rattle.std.specs.Prelude.{◌≡◌, ◌+◌, ◌%◌, ◌^◌, ℕ, Bool, List, Option, Result, Some, None, Ok, Err, min};
ghost use Rattle.fallible_iterator.specs.Closures.{IsCallable, call_by_reference, takes_by_reference};
ghost use Rattle.fallible_iterator.specs.Filtering.Filter.{filter_parts};
ghost use Rattle.fallible_iterator.specs.Lists.{Acts, Lists, failures_mapped, rest_first, filtered, folded, nth_of, results, skipped, taken, ListsForGood};
ghost use Rattle.example_by_hand.specs.declared.idioms.NoRow.{NoRow};

use fallible_iterator::{FallibleIterator, Filter, Fuse, Skip, Take, convert};

// The sum and one more number, modulo 2 ^ 64.
fn add(sum: u64, x: u32) -> Result<u64, u8>
    ensures { result ≡ Ok ((sum + x) % 2 ^ 64) }
{
    Ok(sum.wrapping_add(u64::from(x)))
}

/// The sum of the readings, modulo 2 ^ 64, or the first failure: a fold by a named function.
pub fn sum_by_name(readings: Vec<Result<u32, u8>>) -> Result<u64, u8>
    ensures { result ≡ folded (λ e. e) (λ s x. Ok ((s + x) % 2 ^ 64)) 0 (results readings.items) }
{
    convert(readings.into_iter()).fold(0, add)
}

/// Why there is not one row.
#[derive(Debug, Drop, PartialEq)]
pub enum NoRow {
    /// There is no row.
    Missing,
    /// There is more than one row.
    Several,
    /// A row can't be had, with this code.
    Failed(u8),
}

impl From<u8> for NoRow {
    ghost use Rattle.example_by_hand.specs.declared.idioms.NoRow.TheVariants.{Failed};

    ghost from_gives = { λ code why. why ≡ Failed code };

    /// `NoRow::Failed`
    fn from(code: u8) -> NoRow {
        NoRow::Failed(code)
    }
}

/// The only row of any source; or why there is none: there is no row, there are several, or a row can't be had.
pub fn query_one<I: FallibleIterator<Error = u8>>(mut rows: I) -> Result<I::Item, NoRow>
where
    I::Item: Drop,
    requires { I.contract.can_next rows }
    ensures one { (l : List (Result I.Item ℕ)) (x : I.Item) → Lists I.contract.steps rows l
        → nth_of 0 l ≡ Ok (Some x) → nth_of 0 (rest_first l) ≡ Ok None → result ≡ Ok x }
    ensures none { (l : List (Result I.Item ℕ)) → Lists I.contract.steps rows l
        → nth_of 0 l ≡ Ok None → result ≡ Err NoRow.Missing }
    ensures several { (l : List (Result I.Item ℕ)) (x y : I.Item) → Lists I.contract.steps rows l
        → nth_of 0 l ≡ Ok (Some x) → nth_of 0 (rest_first l) ≡ Ok (Some y)
        → result ≡ Err NoRow.Several }
    ensures first_fails { (l : List (Result I.Item ℕ)) (e : ℕ) → Lists I.contract.steps rows l
        → nth_of 0 l ≡ Err e → result ≡ Err (NoRow.Failed e) }
    ensures second_fails { (l : List (Result I.Item ℕ)) (x : I.Item) (e : ℕ)
        → Lists I.contract.steps rows l → nth_of 0 l ≡ Ok (Some x)
        → nth_of 0 (rest_first l) ≡ Err e → result ≡ Err (NoRow.Failed e) }
{
    let Some(first) = rows.draw()? else {
        return Err(NoRow::Missing);
    };
    match rows.draw()? {
        Some(_) => Err(NoRow::Several),
        None => Ok(first),
    }
}

/// The only row of the readings; or why there is none. Each failure is converted into the program's own before it is drawn.
pub fn only_row(readings: Vec<Result<u32, u8>>) -> Result<u32, NoRow>
    ensures one { let l : List (Result ℕ NoRow) = failures_mapped (λ e. NoRow.Failed e)
        (results readings.items) in (x : ℕ) → nth_of 0 l ≡ Ok (Some x)
        → nth_of 0 (rest_first l) ≡ Ok None → result ≡ Ok x }
    ensures none { let l : List (Result ℕ NoRow) = failures_mapped (λ e. NoRow.Failed e)
        (results readings.items) in nth_of 0 l ≡ Ok None → result ≡ Err NoRow.Missing }
    ensures several { let l : List (Result ℕ NoRow) = failures_mapped (λ e. NoRow.Failed e)
        (results readings.items) in (x y : ℕ) → nth_of 0 l ≡ Ok (Some x)
        → nth_of 0 (rest_first l) ≡ Ok (Some y) → result ≡ Err NoRow.Several }
    ensures first_fails { let l : List (Result ℕ NoRow) = failures_mapped (λ e. NoRow.Failed e)
        (results readings.items) in (why : NoRow) → nth_of 0 l ≡ Err why → result ≡ Err why }
    ensures second_fails { let l : List (Result ℕ NoRow) = failures_mapped (λ e. NoRow.Failed e)
        (results readings.items) in (x : ℕ) (why : NoRow) → nth_of 0 l ≡ Ok (Some x)
        → nth_of 0 (rest_first l) ≡ Err why → result ≡ Err why }
{
    let mut rows = convert(readings.into_iter()).map_err(|code: u8| NoRow::Failed(code));
    let Some(first) = rows.draw()? else {
        return Err(NoRow::Missing);
    };
    match rows.draw()? {
        Some(_) => Err(NoRow::Several),
        None => Ok(first),
    }
}

/// The only reading; or why there is none. Each failure is converted into the program's own as it is drawn.
pub fn only_reading(readings: Vec<Result<u32, u8>>) -> Result<u32, NoRow>
    ensures one { (x : ℕ) → nth_of 0 (results readings.items) ≡ Ok (Some x)
        → nth_of 0 (rest_first (results readings.items)) ≡ Ok None → result ≡ Ok x }
    ensures none { nth_of 0 (results readings.items) ≡ Ok None → result ≡ Err NoRow.Missing }
    ensures several { (x y : ℕ) → nth_of 0 (results readings.items) ≡ Ok (Some x)
        → nth_of 0 (rest_first (results readings.items)) ≡ Ok (Some y)
        → result ≡ Err NoRow.Several }
    ensures first_fails { (e : ℕ) → nth_of 0 (results readings.items) ≡ Err e
        → result ≡ Err (NoRow.Failed e) }
    ensures second_fails { (x e : ℕ) → nth_of 0 (results readings.items) ≡ Ok (Some x)
        → nth_of 0 (rest_first (results readings.items)) ≡ Err e
        → result ≡ Err (NoRow.Failed e) }
{
    let mut rows = convert(readings.into_iter());
    let Some(first) = rows.draw()? else {
        return Err(NoRow::Missing);
    };
    match rows.draw()? {
        Some(_) => Err(NoRow::Several),
        None => Ok(first),
    }
}

/// The items of one page: those from `first` on, and no more than `size`. An adapter that a function returns is named by its type.
pub fn page<I: FallibleIterator>(it: I, first: usize, size: usize) -> Take<Skip<I>>
where
    I::Item: Drop,
    ensures { (l : List (Result I.Item I.Error)) → Lists I.contract.steps it l
        → Lists ⟦<Take<Skip<I>> as FallibleIterator>⟧.contract.steps result
        (taken size (skipped first l)) }
{
    it.skip(first).take(size)
}

/// The items for which a predicate returns true. A closure, which has no name, is a type parameter of the adapter that is returned.
pub fn kept_by<I, F>(it: I, keep: F) -> Filter<I, F>
where
    I: FallibleIterator,
    I::Item: Drop,
    F: FnMut(&I::Item) -> Result<bool, I::Error>,
    requires finite { I.contract.is_finite it }
    requires callable { IsCallable (call_by_reference F.FnMut) (takes_by_reference F.FnMut)
        (I.contract.may_give it) keep }
    ensures parts { filter_parts result ≡ (it, keep) }
    ensures lists { (h : I.Item → Result Bool I.Error) → Acts (call_by_reference F.FnMut) keep h
        → (l : List (Result I.Item I.Error)) → Lists I.contract.steps it l
        → Lists ⟦<Filter<I, F> as FallibleIterator>⟧.contract.steps result (filtered h l) }
{
    it.filter(keep)
}

/// The items, and `Ok(None)` at each draw after the first one: a source for code that draws on.
pub fn ending_for_good<I: FallibleIterator>(it: I) -> Fuse<I>
    ensures { (l : List (Result I.Item I.Error)) → Lists I.contract.steps it l
        → ListsForGood ⟦<Fuse<I> as FallibleIterator>⟧.contract.steps result l }
{
    it.fuse()
}

/// How many items a vector for all of an iterator's should have room for, up to 1024: as many as its hint says that come at least.
pub fn room_for<I: FallibleIterator>(it: &I) -> usize
    ensures { (hint : ℕ × Option ℕ) × I.contract.hints it.now hint × (result ≡ min hint.0 1024) }
{
    let (least, _) = it.size_hint();
    least.min(1024)
}

// The sum of a number and the items, modulo 2 ^ 64, or the first failure.
fn sum_from<I: FallibleIterator<Item = u32>>(start: u64, it: I) -> Result<u64, I::Error>
where
    requires can_next { I.contract.can_next it }
    requires finite { I.contract.is_finite it }
    ensures { (l : List (Result ℕ I.Error)) → Lists I.contract.steps it l
        → result ≡ folded (λ e. e) (λ s x. Ok ((s + x) % 2 ^ 64)) start l }
{
    it.fold(start, |sum: u64, x: u32| Ok(sum.wrapping_add(u64::from(x))))
}

/// The sum of the cells of all rows, modulo 2 ^ 64, or the failure that comes first: of a row, or of a cell.
pub fn sum_of_cells(rows: Vec<Result<Vec<Result<u32, u8>>, u8>>) -> Result<u64, u8>
    ensures { result ≡ folded (λ e. e)
        (λ s row. folded (λ e. e) (λ n x. Ok ((n + x) % 2 ^ 64)) s (results row.items))
        0 (results rows.items) }
{
    convert(rows.into_iter()).fold(
        0,
        |sum: u64, row: Vec<Result<u32, u8>>| sum_from(sum, convert(row.into_iter())),
    )
}
