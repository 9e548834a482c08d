//! Which tokens may come, token by token.
ghost use Rattle.std.specs.Prelude.{◌≡◌, ◌≢◌, MatchResult, Err, None, Ok, Some, reverse};
ghost use Rattle.fallible_json.specs.Grammar.{after_token, expected_first_in, is_whole, next_in, step_of, taken, value_step};
ghost use Rattle.fallible_json.specs.Wanted.{wanted_of};

use crate::token::Token;
use crate::wanted::Wanted;

// What encloses values.
#[derive(Clone, Copy, PartialEq, Eq)]
pub(crate) enum Container {
    Array,
    Object,
}

// What may come next.
#[derive(Clone, Copy)]
pub(crate) enum Expects {
    // A value.
    Value,
    // A value, or the end of an array without values.
    ValueOrEnd,
    // A name, or the end of an object without members.
    NameOrEnd,
    // A name.
    Name,
    // The separator after a name.
    Separator,
    // What comes after a value: a separator, the end of the container, or the end of the text.
    AfterValue,
}

// What a token is where it may stand.
#[derive(Clone, Copy)]
pub(crate) enum Step {
    // A value that encloses nothing.
    Scalar,
    // The begin of a container.
    Opens(Container),
    // The end of a container.
    Closes(Container),
    // The name of a member.
    Names,
    // The separator after a name.
    Separates,
    // The separator after a value.
    GoesOn,
}

// Why a token was not taken.
#[derive(Clone, Copy, PartialEq, Eq)]
pub(crate) enum Stop {
    // It may not stand there.
    Unexpected,
    // An allocation failed.
    Memory,
}

// What a token is where a value may come.
fn value_step(token: Token) -> Option<Step>
    ensures { result ≡ value_step token }
{
    match token {
        Token::Text | Token::Number | Token::Literal => Some(Step::Scalar),
        Token::BeginArray => Some(Step::Opens(Container::Array)),
        Token::BeginObject => Some(Step::Opens(Container::Object)),
        _ => None,
    }
}

// What a token is where this may come.
fn step_of(expects: Expects, token: Token) -> Option<Step>
    ensures { result ≡ step_of expects token }
{
    match (expects, token) {
        (Expects::ValueOrEnd, Token::EndArray) => Some(Step::Closes(Container::Array)),
        (Expects::Value | Expects::ValueOrEnd, _) => value_step(token),
        (Expects::NameOrEnd, Token::EndObject) => Some(Step::Closes(Container::Object)),
        (Expects::Name | Expects::NameOrEnd, Token::Text) => Some(Step::Names),
        (Expects::Separator, Token::NameSeparator) => Some(Step::Separates),
        (Expects::AfterValue, Token::ValueSeparator) => Some(Step::GoesOn),
        (Expects::AfterValue, Token::EndArray) => Some(Step::Closes(Container::Array)),
        (Expects::AfterValue, Token::EndObject) => Some(Step::Closes(Container::Object)),
        _ => None,
    }
}

// What may come first in a container.
fn expected_first_in(container: Container) -> Expects
    ensures { result ≡ expected_first_in container }
{
    match container {
        Container::Array => Expects::ValueOrEnd,
        Container::Object => Expects::NameOrEnd,
    }
}

// What may come after a separator in a container.
fn next_in(container: Container) -> Expects
    ensures { result ≡ next_in container }
{
    match container {
        Container::Array => Expects::Value,
        Container::Object => Expects::Name,
    }
}

// Where tokens have come to: the containers that are open, of which each is within the one before, and what may come next.
#[derive(Drop)]
pub(crate) struct Nesting {
    pub(crate) containers: Vec<Container>,
    pub(crate) expects: Expects,
}

impl Nesting {
    // A step more. One that may not come leaves it as it was.
    fn take(&mut self, step: Step) -> Result<(), Stop>
        ensures state { MatchResult result
            (λ _. taken (reverse self.old.containers.items) step
            ≡ Some (reverse self.new.containers.items, self.new.expects))
            (λ e. e ≢ Stop.Memory → taken (reverse self.old.containers.items) step ≡ None) }
        ensures unchanged { result ≡ Err Stop.Unexpected → self.new ≡ self.old }
        ensures memory { result ≡ Err Stop.Memory
            → (container : Container) × (step ≡ Step.Opens container) }
    {
        match step {
            Step::Scalar => self.expects = Expects::AfterValue,
            Step::Opens(container) => {
                // No memory: a push fails only if an allocation does.
                if self.containers.push(container).is_err() {
                    return Err(Stop::Memory);
                }
                self.expects = expected_first_in(container);
            }
            Step::Closes(container) => {
                match (self.containers.last(), container) {
                    (Some(Container::Array), Container::Array) => {}
                    (Some(Container::Object), Container::Object) => {}
                    _ => return Err(Stop::Unexpected),
                }
                let _innermost = self.containers.pop();
                self.expects = Expects::AfterValue;
            }
            Step::Names => self.expects = Expects::Separator,
            Step::Separates => self.expects = Expects::Value,
            Step::GoesOn => {
                let Some(innermost) = self.containers.last() else {
                    return Err(Stop::Unexpected);
                };
                self.expects = next_in(*innermost);
            }
        }
        Ok(())
    }

    // Whether the tokens so far are one JSON text.
    pub(crate) fn is_whole(&self) -> bool
        ensures { result ≡ is_whole (reverse self.now.containers.items, self.now.expects) }
    {
        match self.expects {
            Expects::AfterValue => self.containers.is_empty(),
            _ => false,
        }
    }

    // The tokens that may come.
    pub(crate) fn wanted(&self) -> Wanted
        ensures { result ≡ wanted_of (reverse self.now.containers.items, self.now.expects) }
    {
        match self.expects {
            Expects::Value => Wanted::Value,
            Expects::ValueOrEnd => Wanted::ValueOrEnd,
            Expects::NameOrEnd => Wanted::NameOrEnd,
            Expects::Name => Wanted::Name,
            Expects::Separator => Wanted::Colon,
            Expects::AfterValue => match self.containers.last() {
                Some(Container::Array) => Wanted::CommaOrBracket,
                Some(Container::Object) => Wanted::CommaOrBrace,
                None => Wanted::End,
            },
        }
    }

    // One token more. One that may not come leaves it as it was.
    pub(crate) fn after(&mut self, token: Token) -> Result<(), Stop>
        ensures state { MatchResult result
            (λ _. after_token (reverse self.old.containers.items, self.old.expects) token
            ≡ Some (reverse self.new.containers.items, self.new.expects))
            (λ e. e ≢ Stop.Memory
            → after_token (reverse self.old.containers.items, self.old.expects) token ≡ None) }
        ensures unchanged { result ≡ Err Stop.Unexpected → self.new ≡ self.old }
        ensures memory { result ≡ Err Stop.Memory
            → (container : Container) × (step_of self.old.expects token ≡ Some (Step.Opens container)) }
    {
        match step_of(self.expects, token) {
            Some(step) => self.take(step),
            None => Err(Stop::Unexpected),
        }
    }
}
