//! JSON: its tokens, over any iterator of bytes with their places; its grammar, over any iterator of tokens; and a text without the blanks between its tokens.
#![tactic(auto)]

mod bytes;
mod checked;
mod fault;
mod grammar;
mod json;
pub mod laws;
mod lexer;
mod making;
mod minifying;
mod place;
mod report;
mod text;
mod texts;
mod token;
mod wanted;

pub use bytes::PlacedBytes;
pub use checked::{CheckedToken, CheckedTokens, Kind, TokenFault};
pub use fault::{JsonFault, TextFault};
pub use json::MakeJson;
pub use lexer::{LexFault, Tokens};
pub use making::MakeTexts;
pub use minifying::{Misplaced, minify};
pub use place::place_of;
pub use report::{Prints, run};
pub use texts::Texts;
pub use token::Token;
pub use wanted::Wanted;
