//! Loops by hand over any iterator, of which the check proves that they end. No clause says what they leave; of the loops of `drawing` and `digits` one does.
use fallible_iterator::{FallibleIterator, Peekable};

/// Draws up to the first 0, which is drawn too, or to `Ok(None)`.
pub fn drop_up_to_zero<I: FallibleIterator<Item = u32>>(it: &mut I) -> Result<(), I::Error>
where
    requires can_next { I.contract.can_next it.old }
    requires finite { I.contract.is_finite it.old }
    ensures { I.contract.can_next it.new }
{
    let mut left = (*it).number();
    while let Some(item) = it.next()? {
        if item == 0 {
            return Ok(());
        }
        left = left.one_less();
    }
    Ok(())
}

/// Takes the items below 10 that stand first, and leaves the others.
pub fn drop_below_ten<I: FallibleIterator<Item = u32>>(
    ahead: &mut Peekable<I>,
) -> Result<(), I::Error>
where
    requires can_next { ⟦<Peekable<I> as FallibleIterator>⟧.contract.can_next ahead.old }
    requires finite { ⟦<Peekable<I> as FallibleIterator>⟧.contract.is_finite ahead.old }
    ensures { ⟦<Peekable<I> as FallibleIterator>⟧.contract.can_next ahead.new }
{
    let mut left = (*ahead).number();
    while let Some(_) = ahead.next_if(|item| *item < 10)? {
        left = left.one_less();
    }
    Ok(())
}

/// Takes the items below 10 that stand first, and leaves the others. Each is looked at before it is drawn.
pub fn drop_small<I: FallibleIterator<Item = u32>>(ahead: &mut Peekable<I>) -> Result<(), I::Error>
where
    requires can_next { ⟦<Peekable<I> as FallibleIterator>⟧.contract.can_next ahead.old }
    requires finite { ⟦<Peekable<I> as FallibleIterator>⟧.contract.is_finite ahead.old }
    ensures { ⟦<Peekable<I> as FallibleIterator>⟧.contract.can_next ahead.new }
{
    let mut left = (*ahead).number();
    while let Some(item) = ahead.peek_copied()? {
        if item >= 10 {
            return Ok(());
        }
        if ahead.next()?.is_some() {
            left = left.one_less();
        }
    }
    Ok(())
}
