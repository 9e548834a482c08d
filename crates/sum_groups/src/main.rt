//! Reads rows `key,amount`, which are sorted by key, from the file that its word names or from standard input. It prints one line a group of rows with one key: the key, how many rows it has, and the sum of their amounts, or `too large` where that doesn't fit. Then come the same rows in batches of three, each with the key of its first row. Both have a heading.
//!
//! Where that cannot be told, it says why on standard error, and prints nothing. It ends with status 1 at the first fault: a line that is no row or whose key is below the one before, of which it tells the place, or a byte that is no UTF-8; with 2 where a read fails, the file can't be opened, or a word is none that it takes, 3 where memory runs out, and 4 where the report can't be printed. It reads the rest only if the first line is a row.
#![tactic(auto)]

mod fault;
mod groups;
mod program;

use fault::GroupsFault;
use program::program;
use program_io::arguments::{Given, input_of};
use program_io::ending::ended;
use program_io::fault::RunFault;
use std::io::BufReader;
use std::process::ExitCode;

const USAGE: &str = "usage: sum_groups [FILE]
       sum_groups -h | --help
Reads rows `key,amount`, sorted by key, and prints a line for each group of rows
with one key, and then for each three rows: the key, the number of rows, and the
sum of their amounts.
It reads one FILE at most, and standard input where FILE is - or none is given.
A FILE whose name begins with - is given after --, or as ./-NAME.
The status is 0 where all was printed, 1 at a line that is no row or not sorted,
and at bytes that are no text, 2 where a read fails or a word is refused, 3
where memory is, and 4 where a write fails.";

fn main(rt: HostRuntime) -> ExitCode {
    let mut output = rt.stdout();
    let mut errors = rt.stderr();
    let Given { input, name } = match input_of(&rt, rt.stdin(), USAGE, &mut output, &mut errors) {
        Ok(given) => given,
        Err(status) => return ExitCode::from(status),
    };
    let ended = match BufReader::new(rt.alloc(), input) {
        Ok(mut rows) => program(
            rt.alloc(),
            &rt.alloc(),
            &mut rows,
            &mut output,
            name.as_deref(),
            &mut errors,
        ),
        Err(_) => ended::<GroupsFault, _>(Err(RunFault::Memory), None, &mut errors),
    };
    match ended {
        Ok(status) | Err(status) => ExitCode::from(status),
    }
}
