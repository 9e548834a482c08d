//! Reads JSON texts of RFC 8259, one after another, from the file that its word names or from standard input, and prints each without the blanks between its tokens, and a newline.
//!
//! Where one has a fault, it says why on standard error, with the line and the column, and ends with status 1; with 2 where a read fails, the file can't be opened, or a word is none that it takes, 3 where memory runs out, and 4 where a text cannot be printed. The texts before the fault are printed; of the faulty one nothing, or after `--tokens` the tokens before the fault.
#![tactic(auto)]

mod program;
mod words;

use program::program;
use program_io::arguments::{Given, input_asked, told, words_of};
use std::process::ExitCode;
use words::{Wanted, wanted_by};

const USAGE: &str = "usage: json_tokens [--tokens] [FILE]
       json_tokens -h | --help
Reads JSON texts, one after another, and prints each without the blanks between
its tokens, and a newline: when the text ends, or with --tokens each token of
an array or an object soon after it came. Of a text that has a fault nothing is
printed, or with --tokens the tokens before the fault.
It reads one FILE at most, and standard input where FILE is - or none is given.
A FILE whose name begins with - is given after --, or as ./-NAME.";

fn main(rt: HostRuntime) -> ExitCode {
    let mut output = rt.stdout();
    let mut errors = rt.stderr();
    let Wanted { prints, asked } = match words_of(&rt) {
        Ok(words) => wanted_by(words),
        Err(fault) => return ExitCode::from(told(&fault, &mut errors)),
    };
    let given = input_asked(&rt, asked, rt.stdin(), USAGE, &mut output, &mut errors);
    let Given { mut input, name } = match given {
        Ok(given) => given,
        Err(status) => return ExitCode::from(status),
    };
    match program(
        rt.alloc(),
        &rt.alloc(),
        prints,
        &mut input,
        &mut output,
        name.as_deref(),
        &mut errors,
    ) {
        Ok(status) | Err(status) => ExitCode::from(status),
    }
}
