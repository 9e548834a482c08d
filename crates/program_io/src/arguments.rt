//! The input that a program's words ask for: standard input, or the one file that they name.
ghost use Rattle.std.specs.Prelude.{◌≡◌, ◌≢◌, ◌⊎◌, Err, None, [], ◌∷◌, ◌++◌, IfErr, IfOk, OnOk, OnErr};
ghost use Rattle.std.specs.Vec.Iter.{into_iter_items};
ghost use Rattle.std.specs.IoError.{error_kind};
ghost use Rattle.std.specs.Io.KnownBytes.{Appends, Keeps};
ghost use Rattle.program_io.specs.Arguments.{EndsTold, IsFaultOfWords, IsGiven, asked_by, asked_first, asked_from, asked_named, input_left, reason_of, reason_text, text_of, unopened_text, with_further, word_text};
ghost use Rattle.program_io.specs.Faults.{line_of, status_of};

use crate::fault::{InputFault, RunFault, fault_line};
use crate::writing::{WriteText, write_shown};
use std::env::{Args, Env};
use std::fs::{File, OpenFile};
use std::io::{ErrorKind, Read};
use std::rt::Files;
use std::{env, io};

/// What a program's words ask for.
#[derive(Debug, PartialEq, Eq, Drop)]
pub enum Asked {
    /// The usage text.
    Help,
    /// Nothing that there is: this word is an option other than `--help` and `-h`, or comes after the first.
    Unexpected(String),
    /// That it reads standard input.
    Standard,
    /// That it reads the file at this path.
    File(String),
}

// What a word asks for that is no option: `-` for standard input.
fn asked_named(word: String) -> Asked
    ensures { result ≡ asked_named word }
{
    if word.as_str() == "-" {
        Asked::Standard
    } else {
        Asked::File(word)
    }
}

// What the first word asks for.
fn asked_first(word: String) -> Asked
    ensures { result ≡ asked_first word }
{
    match word.as_str() {
        "--help" | "-h" => Asked::Help,
        "-" => Asked::Standard,
        text => {
            if text.as_bytes().first() == Some(&b'-') {
                Asked::Unexpected(word)
            } else {
                Asked::File(word)
            }
        }
    }
}

// What a word asks for, by the words after it: an input has none.
fn with_further(asked: Asked, mut words: Args) -> Asked
    ensures { result ≡ with_further asked (into_iter_items words) }
{
    match (asked, words.next()) {
        (Asked::Standard | Asked::File(_), Some(further)) => Asked::Unexpected(further),
        (asked, _) => asked,
    }
}

/// What a word and those after it ask for, as `asked_by` says of the second word on.
pub fn asked_from(word: String, mut words: Args) -> Asked
    ensures { result ≡ asked_from word (into_iter_items words) }
{
    if word.as_str() != "--" {
        return with_further(asked_first(word), words);
    }
    match words.next() {
        Some(path) => with_further(asked_named(path), words),
        None => Asked::Standard,
    }
}

/// What a program's words ask for, of which the first is its name. No other word asks for standard input, and so does `-`; `--help` and `-h` ask for the usage text, and a word that doesn't begin with `-` for the file at that path. After `--`, which ends the options, so does each other word than `-`. `Unexpected` tells the first word that is none of these, or that comes after one for an input.
pub fn asked_by(mut words: Args) -> Asked
    ensures { result ≡ asked_by (into_iter_items words) }
{
    let _ = words.next();
    match words.next() {
        Some(word) => asked_from(word, words),
        None => Asked::Standard,
    }
}

/// Why a file can't be opened.
#[derive(Clone, Copy, Debug)]
pub enum Reason {
    /// There is none.
    Missing,
    /// It is a folder.
    Folder,
    /// The system doesn't permit it.
    Forbidden,
    /// Something else.
    Other,
}

impl Reason {
    // What is told of it after the file's name.
    fn text(self) -> &'static str
        ensures { result.now ≡ reason_text self }
    {
        match self {
            Reason::Missing => ": no such file",
            Reason::Folder => ": a folder",
            Reason::Forbidden => ": not permitted",
            Reason::Other => "",
        }
    }
}

// The reason of a failed opening.
fn reason_of(error: &io::Error) -> Reason
    ensures { result ≡ reason_of (error_kind error.now) }
{
    match error.kind() {
        ErrorKind::NotFound => Reason::Missing,
        ErrorKind::IsADirectory => Reason::Folder,
        ErrorKind::PermissionDenied => Reason::Forbidden,
        _ => Reason::Other,
    }
}

// The file at a path, to be read, or why it can't be opened. The system opens a folder too, and fails where that is read.
fn opened<R: Files>(rt: &R, path: &str) -> Result<R::File, Reason> {
    let file = match File::open(rt, path) {
        Ok(file) => file,
        Err(error) => return Err(reason_of(&error)),
    };
    match file.metadata() {
        Ok(found) if found.is_dir() => Err(Reason::Folder),
        _ => Ok(file),
    }
}

/// What is wrong with a program's words.
#[derive(Drop)]
pub enum Refusal<'a> {
    /// This word asks for nothing that there is. The usage text is told after it.
    Word(String, &'a str),
    /// The file at this path can't be opened.
    Unopened(String, Reason),
    /// A word is not UTF-8.
    NoText,
}

// Writes what is told of a word that asks for nothing, without the last newline.
fn write_word<W: WriteText>(word: &str, usage: &str, errors: &mut W) -> io::Result<()>
    ensures text { OnOk result (Appends (W.written errors.old) (W.written errors.new)
        (word_text word.now usage.now)) }
    ensures failed { OnErr result (W.failed errors.new) }
{
    write_shown(word, errors)?;
    errors.write_text(format_args!(": unexpected\n{usage}"))
}

// Writes what is told of a file that can't be opened, without the newline.
fn write_unopened<W: WriteText>(path: &str, reason: Reason, errors: &mut W) -> io::Result<()>
    ensures text { OnOk result (Appends (W.written errors.old) (W.written errors.new)
        (unopened_text path.now reason)) }
    ensures failed { OnErr result (W.failed errors.new) }
{
    errors.write_text("cannot open ")?;
    write_shown(path, errors)?;
    errors.write_text(reason.text())
}

impl Refusal<'_> {
    // Writes the line that tells of it, without its newline.
    fn write<W: WriteText>(&self, errors: &mut W) -> io::Result<()>
        ensures text { OnOk result
            (Appends (W.written errors.old) (W.written errors.new) (text_of self.now)) }
        ensures failed { OnErr result (W.failed errors.new) }
    {
        match self {
            Refusal::Word(word, usage) => write_word(word.as_str(), usage, errors),
            Refusal::Unopened(path, reason) => write_unopened(path.as_str(), *reason, errors),
            Refusal::NoText => errors.write_text("not UTF-8"),
        }
    }
}

impl InputFault for Refusal<'_> {
    ghost status = { λ _. 2 };

    ghost text = { text_of };

    // 2
    fn status(&self) -> u8 {
        2
    }

    fn write_line<W: WriteText>(&self, errors: &mut W) -> io::Result<()> {
        self.write(errors)?;
        errors.write_bytes(b"\n")
    }
}

/// Tells `errors` of a fault of the program's words, if that can be written. The status that the program ends with.
pub fn told<E: WriteText>(fault: &RunFault<Refusal<'_>>, errors: &mut E) -> u8
    ensures status { result ≡ status_of (λ _. 2) fault.now }
    ensures line { Appends (E.written errors.old) (E.written errors.new)
        (line_of text_of None fault.now) ⊎ E.failed errors.new }
{
    match fault_line(fault, None, errors) {
        Ok(status) | Err(status) => status,
    }
}

/// What a program reads.
#[derive(Drop)]
pub enum Input<S, F> {
    /// Its standard input.
    Standard(S),
    /// A file.
    File(F),
}

impl<S: Read, F: Read> Read for Input<S, F> {
    ghost remaining = { input_left S.remaining F.remaining };

    fn read(&mut self, buf: &mut [u8]) -> io::Result<usize> {
        match self {
            Input::Standard(reader) => reader.read(buf),
            Input::File(reader) => reader.read(buf),
        }
    }
}

/// What a program reads, and the word that named it.
#[derive(Drop)]
pub struct Given<S, F> {
    /// What it reads.
    pub input: Input<S, F>,
    /// The path of a file; none of standard input.
    pub name: Option<String>,
}

// Prints the usage text. The status that the program ends with: 0, or 4 where the text can't be printed, which `errors` is told.
fn help<W: WriteText, E: WriteText>(usage: &str, output: &mut W, errors: &mut E) -> u8
    ensures printed { result ≡ 0
        → Appends (W.written output.old) (W.written output.new) (usage.now ++ 10 ∷ [])
        × Keeps (E.written errors.old) (E.written errors.new) }
    ensures failed { result ≢ 0 → (result ≡ 4) × W.failed output.new }
    ensures told { EndsTold (E.written errors.old) (E.written errors.new) (E.failed errors.new) result }
{
    if output.write_text(format_args!("{usage}\n")).is_ok() {
        return 0;
    }
    told(&RunFault::Write, errors)
}

// Why the system's words are not known, by the error that it has of them.
fn fault_of_words<'a>(error: &io::Error) -> RunFault<Refusal<'a>>
    ensures { IsFaultOfWords (error_kind error.now) result }
{
    match error.kind() {
        ErrorKind::OutOfMemory => RunFault::Memory,
        _ => RunFault::Input(Refusal::NoText),
    }
}

/// The program's words, of which the first is its name; or why they are not known: memory runs out, or one is not UTF-8.
pub fn words_of<'a, R: Env + AllocGlobal>(rt: &R) -> Result<Args, RunFault<Refusal<'a>>>
    ensures { IfErr result (λ fault. (kind : ErrorKind) × IsFaultOfWords kind fault) }
{
    match env::args(rt) {
        Ok(words) => Ok(words),
        Err(error) => Err(fault_of_words(&error)),
    }
}

/// What the program reads, by its words (`asked_by`). Where that is nothing, the status that it ends with, as of `input_asked`; also 2 at a word that is not UTF-8, and 3 where there is no memory for the words.
pub fn input_of<R: Env + Files + AllocGlobal, S: Read + Drop, W: WriteText, E: WriteText>(
    rt: &R,
    standard: S,
    usage: &str,
    output: &mut W,
    errors: &mut E,
) -> Result<Given<S, R::File>, u8>
    ensures given { IfOk result (IsGiven standard) }
    ensures input { OnOk result (Keeps (W.written output.old) (W.written output.new)
        × Keeps (E.written errors.old) (E.written errors.new)) }
    ensures help { result ≡ Err 0
        → Appends (W.written output.old) (W.written output.new) (usage.now ++ 10 ∷ [])
        × Keeps (E.written errors.old) (E.written errors.new) }
    ensures print { result ≡ Err 4 → W.failed output.new }
    ensures refused { OnErr result (result ≢ Err 0 → result ≢ Err 4
        → Keeps (W.written output.old) (W.written output.new)) }
    // Each status but 0 is that of a fault, of which `errors` is told.
    ensures told { IfErr result
        (EndsTold (E.written errors.old) (E.written errors.new) (E.failed errors.new)) }
{
    match words_of(rt) {
        Ok(words) => input_asked(rt, asked_by(words), standard, usage, output, errors),
        Err(fault) => Err(told(&fault, errors)),
    }
}

/// What the program reads, by what its words ask for. Where that is nothing, the status that the program ends with: 0 after `--help`, for which the usage text is printed; 4 where that fails; 2 at a word that it doesn't take, and where the file can't be opened. `errors` is told of all but the first, of a word with the usage text. `output` is written to at `--help` alone.
pub fn input_asked<R: Files, S: Read + Drop, W: WriteText, E: WriteText>(
    rt: &R,
    asked: Asked,
    standard: S,
    usage: &str,
    output: &mut W,
    errors: &mut E,
) -> Result<Given<S, R::File>, u8>
    ensures given { IfOk result (IsGiven standard) }
    ensures input { OnOk result (Keeps (W.written output.old) (W.written output.new)
        × Keeps (E.written errors.old) (E.written errors.new)) }
    ensures help { result ≡ Err 0
        → Appends (W.written output.old) (W.written output.new) (usage.now ++ 10 ∷ [])
        × Keeps (E.written errors.old) (E.written errors.new) }
    ensures print { result ≡ Err 4 → W.failed output.new }
    ensures refused { OnErr result (result ≢ Err 0 → result ≢ Err 4
        → Keeps (W.written output.old) (W.written output.new)) }
    // Each status but 0 is that of a fault, of which `errors` is told.
    ensures told { IfErr result
        (EndsTold (E.written errors.old) (E.written errors.new) (E.failed errors.new)) }
{
    let fault = match asked {
        Asked::Standard => {
            return Ok(Given {
                input: Input::Standard(standard),
                name: None,
            });
        }
        Asked::File(path) => match opened(rt, path.as_str()) {
            Ok(file) => {
                return Ok(Given {
                    input: Input::File(file),
                    name: Some(path),
                });
            }
            Err(reason) => RunFault::Input(Refusal::Unopened(path, reason)),
        },
        Asked::Help => return Err(help(usage, output, errors)),
        Asked::Unexpected(word) => RunFault::Input(Refusal::Word(word, usage)),
    };
    Err(told(&fault, errors))
}
