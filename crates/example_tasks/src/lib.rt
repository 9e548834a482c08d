//! Uses of `fallible_iterator` that a reader recognises: sorted sources, rows of a client, pages, lines, a lexer, sums of tokens. Each states what it computes as far as the contracts of the calls allow.
#![tactic(auto)]

pub mod client;
pub mod edges;
pub mod evaluating;
pub mod generic;
pub mod lexing;
pub mod lines;
pub mod merging;
pub mod nesting;
pub mod pages;
pub mod tokens;
