//! A text of the items that can be shown.
ghost use Rattle.std.specs.Prelude.{◌≡◌, ⊤};
ghost use Rattle.fallible_itertools.specs.Join.{Appended, IsJoinTurn};

use fallible_iterator::Turn;
use std::alloc::AllocError;
use std::fmt::Display;
use std::ops::ControlFlow;

// Appends the separator, if an item stands before it, and then the item.
fn append<T: Display + Drop>(
    text: &mut String,
    begun: bool,
    separator: &str,
    item: T,
) -> Result<(), AllocError>
    ensures { Appended T.output separator.now begun text.old item result text.new }
{
    if begun {
        text.push_str(separator)?;
    }
    text.write(item)
}

/// The turn of `join`, whose state is the text so far, and whether an item was written.
#[derive(Drop)]
pub struct JoinTurn<'a> {
    /// what stands between each two items
    pub separator: &'a str,
}

impl<'a, A: Display + Drop> Turn<(bool, String), A, AllocError> for JoinTurn<'a> {
    ghost can_turn = { λ _ _ _. ⊤ };

    ghost turns = { λ k c x r d. IsJoinTurn A.output k.separator.now c x r d };

    /// Appends the item to the others.
    #[inline(always)]
    fn turn(&self, state: &mut (bool, String), item: A) -> ControlFlow<AllocError, ()> {
        match append(&mut state.1, state.0, self.separator, item) {
            Ok(()) => {
                state.0 = true;
                ControlFlow::Continue(())
            }
            Err(refused) => ControlFlow::Break(refused),
        }
    }
}
