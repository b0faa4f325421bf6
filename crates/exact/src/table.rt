// Reading a message into a lent table: the whole message is judged first, and only then are its rows filled in.
ghost use Rattle.std.specs.Prelude.{◌≡◌};
ghost use Rattle.label.specs.Answer.{answer_of, room_of, read_answer, table_after};

use crate::rows::fill;
use label::{Edition, ROW, Reading, Reason, Refusal};

// The exact reader: it takes every message, and decides alone.
pub fn read_exactly(edition: Edition, message: &[u8], table: &mut [u32]) -> Reading
    ensures answer { answer_of result ≡ read_answer edition message.now (room_of table.old) }
    ensures rows { table.new ≡ table_after edition message.now table.old }
{
    let counts = judge::judge(edition, message)?;
    if table.len() / ROW < counts.rows {
        return Err(Refusal {
            reason: Reason::NoRoom,
            place: 0,
        });
    }
    fill(message, counts.rows, table);
    Ok(counts)
}
