//! Rows from a server that speaks version 3 of PostgreSQL's protocol, over any reader.
#![tactic(auto)]

mod base64;
mod cells;
mod columns;
mod csv;
mod fault;
mod holding;
mod kind;
pub mod laws;
mod message;
mod messages;
mod numbers;
mod printing;
mod progress;
mod putting;
mod reading;
mod report;
mod rows;
mod scram;
mod sending;
mod strings;
mod text;

pub use cells::Cells;
pub use columns::{Column, Columns};
pub use fault::{Damage, PgFault};
pub use holding::{HoldText, RowText};
pub use kind::Kind;
pub use message::Message;
pub use messages::Messages;
pub use printing::PgInput;
pub use putting::PutBytes;
pub use reading::{Broken, ReadMessage};
pub use report::print_rows;
pub use rows::{Reply, Row, Rows};
pub use scram::{Answer, Hash, answer_of, scram_first_message};
pub use sending::{
    CancelKey, Request, Unsent, cancel_key_of, cancel_message, password_message, query_message,
    request_data, request_of, startup_message, terminate_message,
};
pub use text::{Format, write_row};
