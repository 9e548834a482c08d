//! Adapters of one source by what is emitted at each of its answers: nothing, or one answer and what is due after it.
ghost use Rattle.std.specs.Prelude.{◌≡◌, Some, None, Ok, Err};
ghost use Rattle.fallible_iterator.specs.Folds.{CallableDriving, Driven, TurnThrough, beside, beside_names};
ghost use Rattle.fallible_iterator.specs.Passing.{IfItem};
ghost use Rattle.fallible_itertools_adapters.specs.Staging.{before_stop, held_hint, DrawsUpTo, DueTakes, TurnsOnDue, IsStage, EmittedTakes, EmittedTold, Met, MetTakes, PassesNoneOver, Rule, StageTurns, TakesAll, Told, due_gives, rule_meets, stage_step, stop_answer, hint_unless_end};
ghost use Rattle.std.specs.declared.ops.ControlFlow.TheVariants.{Break};

use fallible_iterator::extending::Beside;
use fallible_iterator::{FallibleIterator, Turn};
use std::mem::replace;
use std::ops::ControlFlow;

/// A stop of the source: `None` is `Ok(None)`, `Some` a failure.
pub type Stop<E> = Option<E>;

/// An answer, and what is due after it.
pub type AnswerAndDue<B, D, E> = (Result<Option<B>, E>, Option<D>);

/// What is emitted at an answer of the source: nothing, or an answer, and what is due after it.
pub type Emitted<B, D, E> = Option<AnswerAndDue<B, D, E>>;

/// One answer.
#[inline(always)]
pub fn one<B, D, E>(answer: Result<Option<B>, E>) -> Emitted<B, D, E>
    ensures { result ≡ Some (answer, None) }
{
    Some((answer, None))
}

/// One answer, after which `due` is due.
#[inline(always)]
pub fn one_then<B, D, E>(answer: Result<Option<B>, E>, due: D) -> Emitted<B, D, E>
    ensures { result ≡ Some (answer, Some due) }
{
    Some((answer, Some(due)))
}

/// A stop as an answer.
#[inline(always)]
pub fn stop_answer<B, E>(stop: Stop<E>) -> Result<Option<B>, E>
    ensures { result ≡ stop_answer stop }
{
    match stop {
        None => Ok(None),
        Some(e) => Err(e),
    }
}

/// What is emitted at a stop where this is buffered: the buffered item, after which the stop is due; or the stop, where none is buffered.
#[inline(always)]
pub fn let_go<B, E>(held: Option<B>, stop: Stop<E>) -> Emitted<B, Stop<E>, E>
    ensures { result ≡ before_stop held stop }
{
    match held {
        Some(y) => one_then(Ok(Some(y)), stop),
        None => one(stop_answer(stop)),
    }
}

/// The hint of an adapter that buffers an item or none, if no end is due: at least one item if the source has at least one or one is buffered, and at most the source's and what is buffered.
pub fn with_held<H>(hint: (usize, Option<usize>), held: &Option<H>) -> (usize, Option<usize>)
    ensures { result ≡ held_hint held.now hint }
{
    let is_held = held.is_some();
    let low = if hint.0 > 0 || is_held { 1 } else { 0 };
    let high = match hint.1 {
        Some(bound) => bound.checked_add(if is_held { 1 } else { 0 }),
        None => None,
    };
    (low, high)
}

/// The hint of such an adapter: no item comes once an end is due, and otherwise it is `with_held` of the source's.
pub fn hint_with_held<I: FallibleIterator, H>(
    it: &I,
    due: &Option<Stop<I::Error>>,
    held: &Option<H>,
) -> (usize, Option<usize>)
    ensures { hint_unless_end (held_hint held.now) due.now (I.contract.hints it.now) result }
{
    match *due {
        Some(None) => (0, Some(0)),
        _ => with_held(it.size_hint(), held),
    }
}

/// What an adapter emits at each answer of its source. It holds a `P`; the source yields `X`.
pub trait Stage<P, X, E> {
    /// What the adapter yields.
    type Kept;

    /// What may be due after an answer.
    type Due;

    // What it emits, takes and holds.
    ghost rule: { Rule P X Self.Kept Self.Due E };

    /// What becomes of an item.
    fn on_item(&self, p: &mut P, item: X) -> Emitted<Self::Kept, Self::Due, E>
        requires { rule.takes p.old item }
        ensures { rule.items p.old item result p.new };

    /// What becomes of a stop of the source.
    fn on_stop(&self, p: &mut P, stop: Stop<E>) -> Emitted<Self::Kept, Self::Due, E>
        ensures { rule.stops p.old stop result p.new };

    /// The answer that was due, and what is due after it.
    fn answer_due(&self, due: Self::Due) -> AnswerAndDue<Self::Kept, Self::Due, E>
        ensures { result ≡ due_gives due (rule.comes due) };

    // So many answers are emitted and held; at a stop a stop is.
    ghost is_stage: { IsStage rule.comes (rule_meets rule) rule.most rule.held };
}

/// What becomes of an answer of the source.
#[inline(always)]
pub fn emitted_of<P, X, E, G: Stage<P, X, E>>(
    answer: Result<Option<X>, E>,
    p: &mut P,
    stage: &G,
) -> Emitted<G::Kept, G::Due, E>
    requires { IfItem (G.rule.takes p.old) answer }
    ensures { rule_meets G.rule p.old answer result p.new }
{
    match answer {
        Ok(Some(x)) => stage.on_item(p, x),
        Ok(None) => stage.on_stop(p, None),
        Err(e) => stage.on_stop(p, Some(e)),
    }
}

/// What is due from now on, where nothing was.
#[inline(always)]
pub fn put_due<D>(due: &mut Option<D>, next: Option<D>)
    requires { due.old ≡ None }
    ensures { due.new ≡ next }
{
    match replace(due, next) {
        None => {}
        Some(_) => unreachable!(),
    }
}

// The caller's turn on an answer.
#[inline(always)]
fn tell<B, E, C, R, K: Turn<C, B, R>>(
    answer: Result<Option<B>, E>,
    state: &mut C,
    turn: &K,
) -> ControlFlow<Result<Option<R>, E>, ()>
    requires { IfItem (K.can_turn turn.now state.old) answer }
    ensures { Told (K.turns turn.now) state.old answer result state.new }
{
    match answer {
        Ok(Some(y)) => match turn.turn(state, y) {
            ControlFlow::Continue(()) => ControlFlow::Continue(()),
            ControlFlow::Break(stop) => ControlFlow::Break(Ok(Some(stop))),
        },
        Ok(None) => ControlFlow::Break(Ok(None)),
        Err(e) => ControlFlow::Break(Err(e)),
    }
}

// The caller's turn on what is due. If it stops the fold, it says what is due then.
#[inline(always)]
fn tell_due<P, X, E, G: Stage<P, X, E>, C, R, K: Turn<C, G::Kept, R>>(
    due: Option<G::Due>,
    adapter: &G,
    state: &mut C,
    turn: &K,
) -> ControlFlow<AnswerAndDue<R, G::Due, E>, ()>
    requires { DueTakes (K.turns turn.now) G.rule.comes (K.can_turn turn.now) state.old due }
    ensures { TurnsOnDue (K.turns turn.now) G.rule.comes state.old due result state.new }
{
    match due {
        None => ControlFlow::Continue(()),
        Some(due) => {
            let (answer, left) = adapter.answer_due(due);
            match (tell(answer, state, turn), left) {
                (ControlFlow::Continue(()), None) => ControlFlow::Continue(()),
                (ControlFlow::Continue(()), Some(_)) => unreachable!(),
                (ControlFlow::Break(answer), left) => ControlFlow::Break((answer, left)),
            }
        }
    }
}

// The caller's turn on what is emitted at an answer of the source.
#[inline(always)]
fn tell_emitted<P, X, E, G: Stage<P, X, E>, C, R, K: Turn<C, G::Kept, R>>(
    emitted: Emitted<G::Kept, G::Due, E>,
    adapter: &G,
    state: &mut C,
    turn: &K,
) -> ControlFlow<AnswerAndDue<R, G::Due, E>, ()>
    requires { EmittedTakes (K.turns turn.now) G.rule.comes (K.can_turn turn.now) state.old emitted }
    ensures { EmittedTold (K.turns turn.now) G.rule.comes state.old emitted result state.new }
{
    match emitted {
        None => ControlFlow::Continue(()),
        Some((first, due)) => match tell(first, state, turn) {
            ControlFlow::Continue(()) => tell_due(due, adapter, state, turn),
            ControlFlow::Break(answer) => ControlFlow::Break((answer, due)),
        },
    }
}

/// One answer of an adapter that emits something at each answer of its source: what is due, without a draw, or what is emitted at one draw.
pub fn next_stage<I: FallibleIterator, P, G: Stage<P, I::Item, I::Error>>(
    it: &mut I,
    stage: &mut (P, Option<G::Due>),
    adapter: &G,
) -> Result<Option<G::Kept>, I::Error>
where
    requires can_next { I.contract.can_next it.old }
    requires takes { TakesAll I.contract (rule_meets G.rule) G.rule.takes it.old stage.old.0 }
    requires makes { PassesNoneOver (rule_meets G.rule) stage.old.0 }
    ensures { stage_step G.rule.comes (rule_meets G.rule) I.contract.steps (it.old, stage.old)
        result (it.new, stage.new) }
{
    match stage.1.take() {
        Some(due) => {
            let (answer, left) = adapter.answer_due(due);
            put_due(&mut stage.1, left);
            answer
        }
        None => match emitted_of(it.next(), &mut stage.0, adapter) {
            Some((answer, next)) => {
                put_due(&mut stage.1, next);
                answer
            }
            None => unreachable!(),
        },
    }
}

/// One answer of an adapter that may emit nothing at a draw: what is due, without a draw, or what is emitted at draws, at the last of which something is.
pub fn next_until<I: FallibleIterator, P, G: Stage<P, I::Item, I::Error>>(
    it: &mut I,
    stage: &mut (P, Option<G::Due>),
    adapter: &G,
) -> Result<Option<G::Kept>, I::Error>
where
    requires can_next { I.contract.can_next it.old }
    requires finite { I.contract.is_finite it.old }
    requires takes { TakesAll I.contract (rule_meets G.rule) G.rule.takes it.old stage.old.0 }
    ensures { stage_step G.rule.comes (rule_meets G.rule) I.contract.steps (it.old, stage.old)
        result (it.new, stage.new) }
{
    match stage.1.take() {
        Some(due) => {
            let (answer, left) = adapter.answer_due(due);
            put_due(&mut stage.1, left);
            answer
        }
        None => {
            let (answer, due) = drawn_until(it, &mut stage.0, adapter);
            put_due(&mut stage.1, due);
            answer
        }
    }
}

/// Draws until something is emitted at a draw, where nothing is due: the answer, and what is due after it.
#[inline(always)]
pub fn drawn_until<I: FallibleIterator, P, G: Stage<P, I::Item, I::Error>>(
    it: &mut I,
    held: &mut P,
    adapter: &G,
) -> AnswerAndDue<G::Kept, G::Due, I::Error>
where
    requires can_next { I.contract.can_next it.old }
    requires finite { I.contract.is_finite it.old }
    requires takes { TakesAll I.contract (rule_meets G.rule) G.rule.takes it.old held.old }
    ensures { DrawsUpTo G.rule.comes (rule_meets G.rule) I.contract.steps it.old held.old result.0
        it.new (held.new, result.1) }
{
    let mut left = it.number();
    loop {
        match emitted_of(it.draw(), held, adapter) {
            Some(emitted) => return emitted,
            None => left = left.one_less(),
        }
        // two draws a turn: a compiler would search a loop of one for its end many items at a time, which doesn't pay for short runs
        match emitted_of(it.draw(), held, adapter) {
            Some(emitted) => return emitted,
            None => left = left.one_less(),
        }
    }
}

// The turn of the source's fold. It knows nothing of what is due: nothing is, and what is due where it stops goes with what it stops with. So a compiler may keep what is held in registers.
#[derive(Drop)]
struct StageTurn<'a, G, K> {
    adapter: &'a G,
    turn: &'a K,
}

impl<'a, 'b, P, X, E, C, R, G: Stage<P, X, E>, K: Turn<C, G::Kept, R>> Turn<
    Beside<'b, C, P>,
    X,
    AnswerAndDue<R, G::Due, E>,
> for StageTurn<'a, G, K> {
    ghost can_turn = { λ k b x. MetTakes G.rule.comes
        (rule_meets G.rule) (K.turns k.turn.now)
        G.rule.takes (K.can_turn k.turn.now) (beside b) (Ok (Some x)) };

    ghost turns = { λ k b x r d. TurnThrough beside beside_names
        (StageTurns G.rule.comes
        (rule_meets G.rule) (K.turns k.turn.now))
        b x r d };

    #[inline(always)]
    fn turn(
        &self,
        state: &mut Beside<'b, C, P>,
        item: X,
    ) -> ControlFlow<AnswerAndDue<R, G::Due, E>, ()> {
        tell_emitted(
            self.adapter.on_item(state.p, item),
            self.adapter,
            state.c,
            self.turn,
        )
    }
}

/// The fold of such an adapter: what is due, without a draw, and then the source's fold, whose turn is the caller's on what is emitted at each item, and then what is emitted at its stop.
pub fn drive_stage<
    I: FallibleIterator,
    P,
    G: Stage<P, I::Item, I::Error>,
    C,
    R,
    K: Turn<C, G::Kept, R>,
>(
    it: &mut I,
    stage: &mut (P, Option<G::Due>),
    adapter: &G,
    state: &mut C,
    turn: &K,
) -> Result<Option<R>, I::Error>
where
    requires can_next { I.contract.can_next it.old }
    requires finite { I.contract.is_finite it.old }
    requires takes { TakesAll I.contract (rule_meets G.rule) G.rule.takes it.old stage.old.0 }
    requires callable { CallableDriving (stage_step G.rule.comes (rule_meets G.rule)
        I.contract.steps) (K.turns turn.now) (K.can_turn turn.now) (it.old, stage.old) state.old }
    ensures { Driven (stage_step G.rule.comes (rule_meets G.rule) I.contract.steps)
        (K.turns turn.now) (it.old, stage.old) state.old result (it.new, stage.new) state.new }
{
    match tell_due(stage.1.take(), adapter, state, turn) {
        ControlFlow::Break((answer, left)) => {
            put_due(&mut stage.1, left);
            answer
        }
        ControlFlow::Continue(()) => {
            let (answer, left) = drive_undue(it, &mut stage.0, adapter, state, turn);
            put_due(&mut stage.1, left);
            answer
        }
    }
}

// The fold where nothing is due, and what is due after it.
#[inline(always)]
fn drive_undue<
    I: FallibleIterator,
    P,
    G: Stage<P, I::Item, I::Error>,
    C,
    R,
    K: Turn<C, G::Kept, R>,
>(
    it: &mut I,
    held: &mut P,
    adapter: &G,
    state: &mut C,
    turn: &K,
) -> AnswerAndDue<R, G::Due, I::Error>
where
    requires can_next { I.contract.can_next it.old }
    requires finite { I.contract.is_finite it.old }
    requires takes { TakesAll I.contract (rule_meets G.rule) G.rule.takes it.old held.old }
    requires callable { CallableDriving (stage_step G.rule.comes
        (rule_meets G.rule) I.contract.steps)
        (K.turns turn.now) (K.can_turn turn.now) (it.old, (held.old, None)) state.old }
    ensures { Driven (stage_step G.rule.comes (rule_meets G.rule) I.contract.steps)
        (K.turns turn.now) (it.old, (held.old, None)) state.old result.0 (
          it.new,
          (held.new, result.1),
        ) state.new }
{
    match drive_items(it, held, adapter, state, turn) {
        Ok(Some(told)) => told,
        Ok(None) => tell_stop(None, held, adapter, state, turn),
        Err(e) => tell_stop(Some(e), held, adapter, state, turn),
    }
}

// The source's fold, which stops with the answer of the adapter's and what is due then.
#[inline(always)]
fn drive_items<
    I: FallibleIterator,
    P,
    G: Stage<P, I::Item, I::Error>,
    C,
    R,
    K: Turn<C, G::Kept, R>,
>(
    it: &mut I,
    held: &mut P,
    adapter: &G,
    state: &mut C,
    turn: &K,
) -> Result<Option<AnswerAndDue<R, G::Due, I::Error>>, I::Error>
where
    requires can_next { I.contract.can_next it.old }
    requires finite { I.contract.is_finite it.old }
    requires callable { CallableDriving I.contract.steps (StageTurns G.rule.comes
        (rule_meets G.rule) (K.turns turn.now)) (λ b x. MetTakes G.rule.comes (rule_meets G.rule)
        (K.turns turn.now) G.rule.takes (K.can_turn turn.now) b (Ok (Some x))) it.old
        (state.old, held.old) }
    ensures { Driven I.contract.steps (StageTurns G.rule.comes (rule_meets G.rule)
        (K.turns turn.now)) it.old (state.old, held.old) result it.new (state.new, held.new) }
{
    let mut both = Beside { c: state, p: held };
    it.drive(&mut both, &StageTurn { adapter, turn })
}

// What the fold returns at a stop of its source, and what is due then.
fn tell_stop<P, X, E, G: Stage<P, X, E>, C, R, K: Turn<C, G::Kept, R>>(
    stop: Stop<E>,
    held: &mut P,
    adapter: &G,
    state: &mut C,
    turn: &K,
) -> AnswerAndDue<R, G::Due, E>
    requires { MetTakes G.rule.comes (rule_meets G.rule) (K.turns turn.now) G.rule.takes
        (K.can_turn turn.now) (state.old, held.old) (stop_answer stop) }
    ensures { Met G.rule.comes (rule_meets G.rule) (K.turns turn.now) (state.old, held.old)
        (stop_answer stop) (Break result) (state.new, held.new) }
{
    match tell_emitted(adapter.on_stop(held, stop), adapter, state, turn) {
        ControlFlow::Break(told) => told,
        ControlFlow::Continue(()) => unreachable!(),
    }
}
