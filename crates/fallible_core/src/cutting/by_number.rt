// The draws that skip items, and count down how many.
ghost use Rattle.std.specs.Prelude.{[], ◌∷◌};
ghost use Rattle.fallible_core.specs.Cutting.Skip.{SkipTrace};

use crate::traits::FallibleIterator;

// Skips as many items as `to_skip` says, and returns the item after them, or a failure or an `Ok(None)` before it. Each skipped item lowers `to_skip` by one.
pub(crate) fn next_past<I: FallibleIterator>(
    it: &mut I,
    to_skip: &mut usize,
) -> Result<Option<I::Item>, I::Error>
where
    I::Item: Drop,
    requires { I.contract.can_next it.old }
    ensures { SkipTrace I.contract.steps (it.old, to_skip.old) (result ∷ []) (it.new, to_skip.new) }
{
    loop {
        match it.next() {
            Ok(Some(x)) => {
                if *to_skip == 0 {
                    return Ok(Some(x));
                }
            }
            Ok(None) => return Ok(None),
            Err(e) => return Err(e),
        }
        *to_skip -= 1;
    }
}
