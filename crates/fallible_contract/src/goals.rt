//! What `count`, `last` and `nth` ask of an iterator, for types that override one of them.

/// What a call asks for. It is the state of a fold: what the items so far have made of it.
#[derive(Drop)]
pub enum Goal<A> {
    /// `count`: the number of items so far
    Count(usize),
    /// `last`: the item that came last
    Last(Option<A>),
    /// `nth`: how many items are still to be skipped
    Nth(usize),
}
