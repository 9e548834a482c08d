//! Scripts: which calls adapters make of their source, by an iterator that counts the calls which it gets.
#![tactic(auto)]

#[cfg(test)]
mod back;
#[cfg(test)]
mod front;
#[cfg(test)]
mod joining;
#[cfg(test)]
mod numbering;
