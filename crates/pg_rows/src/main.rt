//! Reads what a PostgreSQL server sent in a session, from its start or from a query on, from the file that its word names or from standard input, and prints the rows as `psql -A -t` does, or as `psql --csv -t`, each as it comes. It tells of the notices on standard error.
//!
//! At the first fault it says why on standard error, and ends with status 1 where the server refused a statement, 2 where a read fails, the file can't be opened, or a word is none that it takes, 3 where memory runs out, 4 where the rows cannot be printed or the notices told, 5 at damage, 6 where the bytes are cut, and 7 at what isn't read: COPY and a function's call.
#![tactic(auto)]

mod program;
mod words;

use fallible_pg::{Messages, PgInput, RowText, Rows};
use program::program;
use program_io::arguments::{Given, input_asked, told, words_of};
use program_io::ending::ended;
use program_io::fault::RunFault;
use program_io::reading::Buffered;
use std::io::BufReader;
use std::process::ExitCode;
use words::{Wanted, format_of, wanted_by};

const USAGE: &str = "usage: pg_rows [--csv] [--null TEXT] [FILE]
       pg_rows -h | --help
Reads what a PostgreSQL server sent in a session, and prints the rows as
`psql -A -t` does; with --csv as `psql --csv -t`. A NULL is printed as TEXT.
It reads one FILE at most, and standard input where FILE is - or none is given.
A FILE whose name begins with - is given after --, or as ./-NAME.
The status is 0 where all was printed, 1 where the server refused a statement,
2 where a read fails or a word is refused, 3 where memory is, 4 where a write
fails, 5 at damage, 6 where the bytes are cut, 7 at COPY and a function's call.";

fn main(rt: HostRuntime) -> ExitCode {
    let mut output = rt.stdout();
    let mut errors = rt.stderr();
    let Wanted { null, csv, asked } = match words_of(&rt) {
        Ok(words) => wanted_by(words),
        Err(fault) => return ExitCode::from(told(&fault, &mut errors)),
    };
    let given = input_asked(&rt, asked, rt.stdin(), USAGE, &mut output, &mut errors);
    let Given { input, name } = match given {
        Ok(given) => given,
        Err(status) => return ExitCode::from(status),
    };
    let ended = match BufReader::new(rt.alloc(), input) {
        Ok(reader) => {
            let mut rows = Rows::recorded(Messages::new(rt.alloc(), Buffered::new(reader)));
            let mut text = RowText::new(rt.alloc());
            program(
                &mut rows,
                format_of(&null, csv),
                &mut text,
                &mut output,
                name.as_deref(),
                &mut errors,
            )
        }
        Err(_) => ended::<PgInput, _>(Err(RunFault::Memory), None, &mut errors),
    };
    match ended {
        Ok(status) | Err(status) => ExitCode::from(status),
    }
}
