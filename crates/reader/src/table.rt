// Reading a message into a lent table: the whole message is judged first, and only then are its rows filled in. A good message is mostly
// judged by the quick path, which notes the rows; what that leaves is read exactly.
ghost use Rattle.std.specs.Prelude.{◌≡◌, ◌*◌, ◌≤◌, IfOk, OnOk, OnErr};
ghost use Rattle.label.specs.Limits.{most_rows};
ghost use Rattle.label.specs.Answer.{answer_of, room_of, read_answer, table_after};
ghost use Rattle.noted.specs.Noted.{note_width};
ghost use Rattle.sweeps.specs.Quick.{Headed, Handed};

use crate::quick::{Notes, framed, sweep};
use label::{Counts, Edition, Reading};
use noted::{NOTE, NOTES};
use sweeps::{Unswept, Wanted};

// Most labels have no more rows than this, and notes for the most rows take long to clear.
const FEW_ROWS: usize = 64;

const FEW_NOTES: usize = NOTE * FEW_ROWS;

// The answer for a message that was swept, whose rows are noted. Edition and message stand in the contract alone: without this function the
// proof of `read_noting` doesn't close, as that the notes keep their length is learnt where they are handed on.
fn hand_over(
    edition: Edition,
    message: &[u8],
    found: Counts,
    notes: &[u16],
    table: &mut [u32],
) -> Reading
    requires { Handed edition message.now found notes.now }
    ensures answer { answer_of result ≡ read_answer edition message.now (room_of table.old) }
    ensures rows { table.new ≡ table_after edition message.now table.old }
{
    let end = NOTE * found.rows;
    noted::hand_over(found.envelopes, &notes[..end], table)
}

// Reads with notes for as many rows as so many numbers are.
fn read_noting<const NUMBERS: usize>(
    edition: Edition,
    message: &[u8],
    table: &mut [u32],
) -> Result<Reading, Unswept>
    requires { (NUMBERS ≤ note_width * most_rows) × Headed message.now }
    ensures answer { IfOk result (λ reading. answer_of reading ≡ read_answer edition message.now (room_of table.old)) }
    ensures rows { OnOk result (table.new ≡ table_after edition message.now table.old) }
    ensures left { OnErr result (table.new ≡ table.old) }
{
    let wanted = Wanted {
        from: 0,
        most: NUMBERS / NOTE,
    };
    let mut notes = Notes {
        rows: 0,
        numbers: [0u16; NUMBERS],
    };
    let counts = sweep(edition, message, wanted, &mut notes)?;
    Ok(hand_over(edition, message, counts, &notes.numbers, table))
}

// Reads a message of any bytes and any length, in an edition, into a table of any length, whose room is its length divided by the
// numbers of a row. Accepted: the counts of envelopes and rows, and the table's first numbers are the rows'; what follows them
// stays as it was. Refused: why, and where; the table stays as it was.
pub fn read(edition: Edition, message: &[u8], table: &mut [u32]) -> Reading
    ensures answer { answer_of result ≡ read_answer edition message.now (room_of table.old) }
    ensures rows { table.new ≡ table_after edition message.now table.old }
{
    if !framed(message) {
        return exact::read_exactly(edition, message, table);
    }
    let swept = match read_noting::<FEW_NOTES>(edition, message, table) {
        Err(Unswept::Full) => read_noting::<NOTES>(edition, message, table),
        few => few,
    };
    match swept {
        Ok(reading) => reading,
        Err(_) => exact::read_exactly(edition, message, table),
    }
}
