//! The columns that a message describes.
ghost use Rattle.std.specs.Prelude.{◌≡◌, ◌≤◌, length};
ghost use Rattle.fallible_iterator.specs.Laws.Own.{lawful_bounded_by};
ghost use Rattle.fallible_iterator.specs.Own.{bounded_by};
ghost use Rattle.fallible_pg.specs.Along.{taking};
ghost use Rattle.fallible_pg.specs.Columns.{columns_of, first_column, shows_columns, FindsColumn, TakesColumn};
ghost use Rattle.fallible_pg.specs.Laws.Along.{lawful_taking};
ghost use Rattle.fallible_pg.specs.Laws.Columns.{column_leaves_rest};

use crate::cells::after;
use crate::fault::Damage;
use crate::numbers::{u16_at, u32_at};
use crate::strings::before_zero;
use fallible_iterator::FallibleIterator;

/// What a server says of a column. Its types are known to it by numbers, those of its catalogue `pg_type`.
#[derive(Clone, Copy, Debug, PartialEq, Eq)]
pub struct Column<'a> {
    /// Its name.
    pub name: &'a [u8],
    /// The number of the table that it is of; 0 where it is of none.
    pub table_oid: u32,
    /// Its number in that table, from 1; 0 where it is of none.
    pub attribute: u16,
    /// The number of its type.
    pub type_oid: u32,
    /// How many bytes a value of the type has; 65535 where that varies.
    pub type_size: u16,
    /// What its type has in parentheses, as the type encodes it; 4294967295 where it has nothing.
    pub type_modifier: u32,
    /// The format of its cells: 0 is text, and 1 binary.
    pub format: u16,
}

/// The columns that a message describes. It fails with `Columns` where a column doesn't fit the message, and at bytes after the last; then it ends.
#[derive(Drop)]
pub struct Columns<'a> {
    bytes: &'a [u8],
    left: u16,
}

impl<'a> Columns<'a> {
    // The columns of a message.
    pub(crate) fn new(message: &'a [u8]) -> Columns<'a>
        requires { 5 ≤ length message.now }
        ensures { shows_columns result ≡ columns_of message.now }
    {
        if message.len() < 7 {
            return Columns {
                bytes: message,
                left: 0,
            };
        }
        Columns {
            bytes: after(message, 7),
            left: u16_at(message, 5),
        }
    }
}

// The first column, and what follows it.
fn first_column(bytes: &[u8]) -> Option<(Column<'_>, &[u8])>
    ensures { FindsColumn (first_column bytes.now) result }
{
    let name = before_zero(bytes);
    if bytes.len() < name.len() + 19 {
        return None;
    }
    let fixed = after(bytes, name.len() + 1);
    let column = Column {
        name,
        table_oid: u32_at(fixed, 0),
        attribute: u16_at(fixed, 4),
        type_oid: u32_at(fixed, 6),
        type_size: u16_at(fixed, 10),
        type_modifier: u32_at(fixed, 12),
        format: u16_at(fixed, 16),
    };
    Some((column, after(fixed, 18)))
}

impl<'a> FallibleIterator for Columns<'a> {
    type Item = Column<'a>;

    type Error = Damage;

    ghost contract = { bounded_by (λ s. s.left)
        (taking TakesColumn shows_columns) };

    fn next(&mut self) -> Result<Option<Column<'a>>, Damage> {
        if self.left == 0 {
            if self.bytes.is_empty() {
                return Ok(None);
            }
            self.bytes = &[];
            return Err(Damage::Columns);
        }
        match first_column(self.bytes) {
            Some((column, rest)) => {
                self.left -= 1;
                self.bytes = rest;
                Ok(Some(column))
            }
            None => {
                self.left = 0;
                self.bytes = &[];
                Err(Damage::Columns)
            }
        }
    }

    fn size_hint(&self) -> (usize, Option<usize>) {
        (0, None)
    }

    ghost lawful = { lawful_bounded_by (λ s. s.left)
        (lawful_taking TakesColumn shows_columns column_leaves_rest) };
}
