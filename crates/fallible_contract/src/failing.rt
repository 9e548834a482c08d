//! What adapters make of the failures of their sources.
ghost use Rattle.std.specs.Prelude.{Option, Result};
ghost use Rattle.fallible_contract.specs.Failing.{FailingAnswer, TakesFailure};

/// What an adapter makes of one failure of its source, with the state that it keeps from failure to failure: its closure.
pub trait Fail<P, D> {
    /// What the adapter fails with.
    type Failure;

    // Holds of a state and a failure on which the closure may be called.
    ghost can_fail: { Self → P → D → Type 0 };

    // Holds of those, of what the adapter fails with, and of the state that the call leaves.
    ghost call: { Self → P → D → Self.Failure → P → Type 0 };

    /// Calls the closure once on the failure.
    fn fail(&self, state: &mut P, failure: D) -> Self::Failure
        requires { can_fail self.now state.old failure }
        ensures { call self.now state.old failure result state.new };
}

/// What such an adapter makes of one answer of its source, or of the result of a call on its source: the closure is called if that is a failure.
#[inline(always)]
pub fn failed<C, P, D, A: Fail<P, D>>(
    made: Result<C, D>,
    state: &mut P,
    adapter: &A,
) -> Result<C, A::Failure>
    requires { TakesFailure (A.can_fail adapter.now) state.old made }
    ensures { FailingAnswer (A.call adapter.now) state.old made result state.new }
{
    match made {
        Ok(c) => Ok(c),
        Err(e) => Err(adapter.fail(state, e)),
    }
}
