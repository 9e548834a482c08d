//! The cells of a row.
ghost use Rattle.std.specs.Prelude.{◌≡◌, ◌≤◌, length, drop};
ghost use Rattle.fallible_iterator.specs.Laws.Own.{lawful_bounded_by};
ghost use Rattle.fallible_iterator.specs.Own.{bounded_by};
ghost use Rattle.fallible_pg.specs.Along.{taking};
ghost use Rattle.fallible_pg.specs.Cells.{shows_cells, cells_of, first_cell, is_row, FindsCell, TakesCell};
ghost use Rattle.fallible_pg.specs.Laws.Along.{lawful_taking};
ghost use Rattle.fallible_pg.specs.Laws.Cells.{cell_leaves_rest};

use crate::fault::Damage;
use crate::numbers::{u16_at, u32_at};
use fallible_iterator::FallibleIterator;

/// The cells of the message of a row: the bytes of each, or `None` at a NULL. It fails with `Row` where a cell doesn't fit the message, and at bytes after the last cell; then it ends. Those of a row that `Rows` yields never fail.
#[derive(Drop)]
pub struct Cells<'a> {
    bytes: &'a [u8],
    left: u16,
}

impl<'a> Cells<'a> {
    // The cells of a message.
    pub(crate) fn new(message: &'a [u8]) -> Cells<'a>
        requires { 5 ≤ length message.now }
        ensures { shows_cells result ≡ cells_of message.now }
    {
        if message.len() < 7 {
            return Cells {
                bytes: message,
                left: 0,
            };
        }
        Cells {
            bytes: after(message, 7),
            left: u16_at(message, 5),
        }
    }
}

impl Cells<'_> {
    // How many are left at most.
    pub(crate) fn left(&self) -> u16
        ensures { result ≡ self.now.left }
    {
        self.left
    }
}

// The bytes after so many.
pub(crate) fn after(bytes: &[u8], count: usize) -> &[u8]
    requires { count ≤ length bytes.now }
    ensures { result.now ≡ drop count bytes.now }
{
    &bytes[count..]
}

// The first cell, and what follows it.
fn first_cell(bytes: &[u8]) -> Option<(Option<&[u8]>, &[u8])>
    ensures { FindsCell (first_cell bytes.now) result }
{
    if bytes.len() < 4 {
        return None;
    }
    let length = u32_at(bytes, 0);
    let rest = after(bytes, 4);
    if length == u32::MAX {
        return Some((None, rest));
    }
    let size = length as usize;
    if rest.len() < size {
        return None;
    }
    Some((Some(&rest[..size]), after(rest, size)))
}

impl<'a> FallibleIterator for Cells<'a> {
    type Item = Option<&'a [u8]>;

    type Error = Damage;

    ghost contract = { bounded_by (λ s. s.left)
        (taking TakesCell shows_cells) };

    fn next(&mut self) -> Result<Option<Option<&'a [u8]>>, Damage> {
        if self.left == 0 {
            if self.bytes.is_empty() {
                return Ok(None);
            }
            self.bytes = &[];
            return Err(Damage::Row);
        }
        match first_cell(self.bytes) {
            Some((cell, rest)) => {
                self.left -= 1;
                self.bytes = rest;
                Ok(Some(cell))
            }
            None => {
                self.left = 0;
                self.bytes = &[];
                Err(Damage::Row)
            }
        }
    }

    fn size_hint(&self) -> (usize, Option<usize>) {
        (0, None)
    }

    ghost lawful = { lawful_bounded_by (λ s. s.left)
        (lawful_taking TakesCell shows_cells cell_leaves_rest) };
}

// Whether the cells of a message fill it.
pub(crate) fn is_row(message: &[u8]) -> bool
    requires { 5 ≤ length message.now }
    ensures { result ≡ is_row message.now }
{
    let mut cells = Cells::new(message);
    let count = cells.left;
    for _ in 0..count {
        match cells.next() {
            Ok(Some(_)) => {}
            Ok(None) => return true,
            Err(_) => return false,
        }
    }
    cells.bytes.is_empty()
}
