//! Vectors: the sources, the consumers, the trait's own calls and both ends on small inputs, with answers that come from outside.
#![tactic(auto)]

#[cfg(test)]
mod borrowed;
#[cfg(test)]
mod borrowed_items;
#[cfg(test)]
mod bridges;
#[cfg(test)]
mod collecting;
#[cfg(test)]
mod draining;
#[cfg(test)]
mod ends;
#[cfg(test)]
mod exact_count;
#[cfg(test)]
mod overriding;
#[cfg(test)]
mod sources;
#[cfg(test)]
mod traits;
