//! The rows of a result.
ghost use Rattle.std.specs.Prelude.{◌≡◌, true, false};
ghost use Rattle.fallible_iterator.specs.Contract.{around};
ghost use Rattle.fallible_pg.specs.Cells.{shows_cells, cells_of};
ghost use Rattle.fallible_pg.specs.Columns.{AreColumns};
ghost use Rattle.fallible_pg.specs.Laws.Rows.{lawful_rows};
ghost use Rattle.fallible_pg.specs.Messages.{message_bytes};
ghost use Rattle.fallible_pg.specs.Progress.{begun};
ghost use Rattle.fallible_pg.specs.Reading.{messages_parts, place_of};
ghost use Rattle.fallible_pg.specs.Rows.{at_end, row_in, rows_parts};
ghost use Rattle.fallible_pg.specs.Traces.{rows_contract};

use crate::cells::Cells;
use crate::columns::Columns;
use crate::fault::{Damage, PgFault};
use crate::kind::{Kind, kind_of};
use crate::message::Message;
use crate::messages::Messages;
use crate::progress::Progress;
use crate::reading::ReadMessage;
use fallible_iterator::FallibleIterator;

/// A row, whose cells are undamaged.
#[derive(Debug, Drop)]
pub struct Row {
    message: Message,
    statement: u64,
}

impl Row {
    /// Its message.
    pub fn message(&self) -> &Message
        ensures { result.now ≡ self.now.message }
    {
        &self.message
    }

    /// Which statement it is of: how many ended before it, among those of which rows were drawn. A refused one ends too. At most 2 ^ 64 - 1 are counted.
    pub fn statement(&self) -> u64
        ensures { result ≡ self.now.statement }
    {
        self.statement
    }

    /// Its cells: `None` at a NULL, which an empty cell isn't.
    pub fn cells(&self) -> Cells<'_>
        ensures { shows_cells result ≡ cells_of (message_bytes self.now.message) }
    {
        Cells::new(self.message.bytes())
    }
}

/// What the results of a query bring.
#[derive(Debug, Drop)]
pub enum Reply {
    /// A row.
    Row(Row),
    /// A notice of the server, by its message.
    Notice(Message),
}

impl Reply {
    /// The row that it is, if it is one.
    pub fn into_row(self) -> Option<Row>
        ensures { result ≡ row_in self }
    {
        match self {
            Reply::Row(row) => Some(row),
            Reply::Notice(_) => None,
        }
    }
}

/// The rows that messages of a server bring, and its notices between them: those of one query (`new`), or of a recording (`recorded`).
///
/// A draw passes the other messages: the description of rows, the end of a statement, those of a prepared statement and such. It reads the bytes of these and of the one that decides, and none of the next. A refusal of the server is the failure `Server`, and the next draw goes on. A row whose cells don't fill it, a message of a tag that isn't read, and each fault of the messages is a failure after which each call returns `Ok(None)` and reads no more. So is an end of the messages before the server is ready: `Damaged` and `Cut`.
///
/// Over a reader that tells its bytes they are a function of these (`law_turns`). It states no bound, so it is drained through `take`.
#[derive(Drop)]
pub struct Rows<R> {
    messages: Messages<R>,
    progress: Progress,
    ended: bool,
}

// What is made of the end of the messages at a place: the end where the server was ready, and else damage.
fn at_end(ready: bool, place: u64) -> Result<Option<Reply>, PgFault>
    ensures { result ≡ at_end ready place }
{
    if ready {
        Ok(None)
    } else {
        Err(PgFault::Damaged(place, Damage::Cut))
    }
}

impl<R: ReadMessage> Rows<R> {
    /// The rows of the results of one query, over the messages that come after it. They end where the server is ready for the next query, and `into_messages` returns the messages after that. It reads nothing.
    pub fn new(messages: Messages<R>) -> Rows<R>
        ensures { rows_parts result ≡ (messages_parts messages, begun false, false) }
    {
        Rows {
            messages,
            progress: Progress::new(false),
            ended: false,
        }
    }

    /// The rows of a recording, over all that a server sent in a session, or from some query on. The messages that start a session are skipped. Where the server is ready they go on, up to the end of the messages. It reads nothing.
    pub fn recorded(messages: Messages<R>) -> Rows<R>
        ensures { rows_parts result ≡ (messages_parts messages, begun true, false) }
    {
        Rows {
            messages,
            progress: Progress::new(true),
            ended: false,
        }
    }

    /// How many bytes of messages were read; 0 after the end of the messages and after a fault of theirs.
    pub fn place(&self) -> u64
        ensures { result ≡ place_of (rows_parts self.now).0.1 }
    {
        self.messages.place()
    }

    /// The columns of the rows, by the description that came last among what was read; `None` where none came, or the server said after it that a statement has no rows.
    pub fn columns(&self) -> Option<Columns<'_>>
        ensures { AreColumns (rows_parts self.now).1.description result }
    {
        self.progress.columns()
    }

    /// The messages that come after what was read.
    pub fn into_messages(self) -> Messages<R>
        ensures { messages_parts result ≡ (rows_parts self).0 }
    {
        self.messages
    }
}

impl<R: ReadMessage> FallibleIterator for Rows<R> {
    type Item = Reply;

    type Error = PgFault;

    ghost contract = { around rows_parts (rows_contract R.left R.stays R.no_room) };

    fn next(&mut self) -> Result<Option<Reply>, PgFault> {
        if self.ended {
            return Ok(None);
        }
        self.ended = true;
        for _ in 0..u64::MAX {
            let place = self.messages.place();
            match self.messages.next() {
                Ok(Some(message)) => match kind_of(self.progress.is_recorded(), &message) {
                    Kind::Row => {
                        self.ended = false;
                        let statement = self.progress.statements();
                        self.progress.pass_row();
                        return Ok(Some(Reply::Row(Row { message, statement })));
                    }
                    Kind::Notice => {
                        self.ended = false;
                        return Ok(Some(Reply::Notice(message)));
                    }
                    Kind::Skipped => self.progress.pass(message),
                    Kind::Refusal => {
                        self.ended = false;
                        self.progress.pass_refusal();
                        return Err(PgFault::Server(message));
                    }
                    Kind::Ready => return Ok(None),
                    Kind::Damaged(damage) => return Err(PgFault::Damaged(place, damage)),
                },
                Ok(None) => return at_end(self.progress.is_ready(), place),
                Err(fault) => return Err(fault),
            }
        }
        // Not reached: each message has at least five bytes, and their place fits a `u64`.
        Err(PgFault::Damaged(self.messages.place(), Damage::Cut))
    }

    fn size_hint(&self) -> (usize, Option<usize>) {
        (0, None)
    }

    ghost lawful = { lawful_rows R.left R.stays R.no_room };
}
