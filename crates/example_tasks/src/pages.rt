//! A cursor over pages of rows.
ghost use Rattle.std.specs.Prelude.{◌≡◌, ◌+◌, ◌%◌, ◌^◌, ℕ, List, Result, Ok, Option};
ghost use Rattle.fallible_iterator.specs.Contract.{unbounded_contract, seen_as};
ghost use Rattle.fallible_iterator.specs.Laws.Contract.{lawful_seen};
ghost use Rattle.fallible_iterator.specs.Laws.BoundsRuns.{lawful_unbounded};
ghost use Rattle.fallible_iterator.specs.Lists.{Lists, folded, taken};
ghost use Rattle.example_tasks.specs.Pages.{rows_of, cursor_parts, at_start, DrawsRow, AnswersBook, GivesPage, pages_of, rows_in};
ghost use Rattle.example_tasks.specs.declared.pages.PageRefused.{PageRefused};

use fallible_iterator::FallibleIterator;
use std::alloc::Global;
use std::vec::IntoIter;

/// A page was refused.
#[derive(Clone, Copy, Debug, PartialEq, Eq)]
pub struct PageRefused;

/// Something that returns pages of rows by their places, and may refuse one.
pub trait Pages: Drop + Sized {
    // What a request for the page at a place may return, and leave.
    ghost gives: { Self → ℕ → Result (List ℕ) PageRefused → Self → Type 0 };

    /// Returns the rows of the page at this place. There are none after the last page.
    fn page(&mut self, place: u32) -> Result<IntoIter<u32, Global>, PageRefused>
        ensures { gives self.old place (rows_of result) self.new };
}

/// The rows of pages, in order. A draw requests a page if no row is buffered, and no other. If the page is refused, it fails, and the next draw requests the same page again. An empty page is an `Ok(None)`.
///
/// It states no bound, so it is drained through `take`.
#[derive(Drop)]
pub struct Cursor<P> {
    pages: P,
    rows: IntoIter<u32, Global>,
    place: u32,
}

impl<P: Pages> Cursor<P> {
    /// The rows of these pages from page 0 on. Creating them requests no page.
    pub fn new(alloc: Global, pages: P) -> Cursor<P>
        ensures parts { cursor_parts result ≡ at_start pages }
        ensures lists { (book : List (Result (List ℕ) PageRefused))
            → AnswersBook P.gives pages 0 book
            → Lists (seen_as cursor_parts (unbounded_contract (DrawsRow P.gives))).steps
            result (rows_in book) }
    {
        Cursor {
            pages,
            rows: Vec::new(alloc).into_iter(),
            place: 0,
        }
    }

    /// The pages, as they are now.
    pub fn pages(&self) -> &P
        ensures { result.now ≡ (cursor_parts self.now).0 }
    {
        &self.pages
    }
}

impl<P: Pages> FallibleIterator for Cursor<P> {
    type Item = u32;

    type Error = PageRefused;

    ghost contract = { seen_as cursor_parts (unbounded_contract (DrawsRow P.gives)) };

    fn next(&mut self) -> Result<Option<u32>, PageRefused> {
        if let Some(row) = self.rows.next() {
            return Ok(Some(row));
        }
        let mut rows = self.pages.page(self.place)?;
        let Some(row) = rows.next() else {
            return Ok(None);
        };
        self.rows = rows;
        self.place = self.place.wrapping_add(1);
        Ok(Some(row))
    }

    fn size_hint(&self) -> (usize, Option<usize>) {
        (0, None)
    }

    ghost lawful = { lawful_seen cursor_parts (lawful_unbounded (DrawsRow P.gives)) };
}

/// The sum of the first n rows of these pages, modulo 2 ^ 64. It draws up to the n-th row, `Ok(None)` or the first refusal, which is returned then.
pub fn sum_of_first<P: Pages>(alloc: Global, pages: P, n: usize) -> Result<u64, PageRefused>
    ensures { (book : List (Result (List ℕ) PageRefused)) → AnswersBook P.gives pages 0 book
        → result ≡ folded (λ e. e) (λ s x. Ok ((s + x) % 2 ^ 64)) 0 (taken n (rows_in book)) }
{
    Cursor::new(alloc, pages).take(n).fold(
        0,
        |sum: u64, row: u32| Ok(sum.wrapping_add(u64::from(row))),
    )
}

/// Pages that are known, in order.
#[derive(Drop)]
pub struct Book {
    alloc: Global,
    pages: IntoIter<Vec<u32>, Global>,
}

impl Book {
    /// These pages.
    pub fn new(alloc: Global, pages: Vec<Vec<u32>>) -> Book
        ensures { AnswersBook GivesPage result 0 (pages_of pages.items) }
    {
        Book {
            alloc,
            pages: pages.into_iter(),
        }
    }
}

impl Pages for Book {
    ghost gives = { GivesPage };

    fn page(&mut self, _: u32) -> Result<IntoIter<u32, Global>, PageRefused> {
        match self.pages.next() {
            Some(rows) => Ok(rows.into_iter()),
            None => Ok(Vec::new(self.alloc).into_iter()),
        }
    }
}

/// The sum of the first n rows of known pages up to the first empty one, modulo 2 ^ 64.
pub fn sum_of_first_in(alloc: Global, pages: Vec<Vec<u32>>, n: usize) -> Result<u64, PageRefused>
    ensures { result ≡ folded (λ e. e) (λ s x. Ok ((s + x) % 2 ^ 64)) 0
        (taken n (rows_in (pages_of pages.items))) }
{
    sum_of_first(alloc, Book::new(alloc, pages), n)
}
