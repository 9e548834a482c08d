//! What the words of the clauses come to, as functions whose body is empty.
ghost use Rattle.std.specs.Prelude.{◌≡◌, ℕ, ◌+◌, ◌^◌, ◌≤◌, List, length, Option, Some, Result, false};
ghost use Rattle.fallible_pg.specs.Progress.{Reached};
ghost use Rattle.fallible_pg.specs.Text.{Form, row_text};
ghost use Rattle.fallible_iterator.specs.Traces.{Answered};
ghost use Rattle.fallible_pg.specs.Draws.{DrawsBytes};
ghost use Rattle.fallible_pg.specs.Putting.{LacksRoom};
ghost use Rattle.fallible_pg.specs.Report.{ComesTo, IsReportOf};
ghost use Rattle.fallible_pg.specs.Rows.{rows_parts};
ghost use Rattle.fallible_pg.specs.declared.printing.PgInput.{PgInput};
ghost use Rattle.program_io.specs.declared.fault.RunFault.{RunFault};
ghost use Rattle.fallible_pg.specs.Turns.{GivesTurns, turns_of};
ghost use Rattle.program_io.specs.Bytes.{NoReadFails};
ghost use Rattle.fallible_pg.specs.declared.fault.PgFault.{PgFault};
ghost use Rattle.fallible_pg.specs.declared.rows.Reply.{Reply};

use crate::holding::HoldText;
use crate::reading::ReadMessage;
use crate::rows::Rows;
use fallible_iterator::FallibleIterator;
use program_io::writing::WriteText;

/// A draw of rows reads the bytes of the messages that it skips and of the one that its answer is made of, one at a time, and no byte after these. A row tells how many statements ended before it.
pub fn law_draw<R: ReadMessage>()
    ensures { (s t : Rows R) (r : R) (place : ℕ) (reached : Reached) (answer : Answered Reply PgFault)
        → rows_parts s ≡ ((r, Some place), reached, false)
        → ⟦<Rows<R> as FallibleIterator>⟧.contract.steps s answer t
        → DrawsBytes R.left R.stays R.no_room place reached r answer
        (rows_parts t).0 (rows_parts t).1 (rows_parts t).2 }
{}

/// Over a reader that tells its bytes, and none of whose reads fails, rows are a function of these bytes, and so is the first failure: up to an allocation failure, draws return what comes of the bytes, in order, and then `Ok(None)`. They are at most 2 ^ 63.
pub fn law_turns<R: ReadMessage>()
    ensures { (s : Rows R) (r : R) (place : ℕ) (reached : Reached) (bytes : List ℕ)
        → NoReadFails R.stays
        → rows_parts s ≡ ((r, Some place), reached, false) → R.left r ≡ Some bytes
        → place + length bytes ≤ 2 ^ 63
        → GivesTurns ⟦<Rows<R> as FallibleIterator>⟧.contract.steps s
        (turns_of reached place bytes) }
{}

/// Over a reader that tells its bytes what `print_rows` prints and tells is a function of these, and so is the fault that it returns, unless a read, an allocation or a write fails.
pub fn law_report<R: ReadMessage, T: HoldText, W: WriteText, E: WriteText>()
    ensures { (reached : Reached) (form : Form) (input after : R) (written written' told told' : Option (List ℕ)) (output : W) (errors : E) (bytes : List ℕ)
        (outcome : Result (Unit {0}) (RunFault PgInput)) → R.left input ≡ Some bytes
        → ComesTo R.left R.stays R.no_room (λ message. LacksRoom T.written T.refuses (row_text form message)) reached form input after W.failed written written' output E.failed told told' errors outcome
        → IsReportOf form (turns_of reached 0 bytes) written written' told told' outcome }
{}
