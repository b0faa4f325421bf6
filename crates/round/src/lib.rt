// Reading and writing in a circle: what is read of a good message writes that message.
#![tactic(auto)]

ghost use Rattle.std.specs.Prelude.{◌*◌, ◌≤◌, ◌≡◌, length};
ghost use Rattle.label.specs.Limits.{most_rows, row_width};
ghost use Rattle.label.specs.ReadMessage.{reading};
ghost use Rattle.label.specs.Answer.{numbers_read};
ghost use Rattle.label.specs.Writing.{write_answer_of, write_answer, output_after};
ghost use Rattle.round.specs.Round.{HoldsRead, GoesRound};

use label::{Edition, ROW, TABLE, Writing};

// Reads a message into a table with room for any, and answers how many numbers the rows read are.
fn numbers_into(edition: Edition, message: &[u8], table: &mut [u32]) -> usize
    requires { row_width * most_rows ≤ length table.old }
    ensures { HoldsRead edition message.now result table.new }
{
    match reader::read(edition, message, table) {
        Ok(counts) => ROW * counts.rows,
        Err(_) => 0,
    }
}

// Reads a message in an edition into a table of its own, and writes the rows read, taken from the message, to an output. Of a good message
// the output's first bytes are the message's own; of a refused one no row is read, and none is written.
pub fn write_again(edition: Edition, message: &[u8], output: &mut [u8]) -> Writing
    ensures answer { write_answer_of result ≡ write_answer edition message.now (numbers_read (reading edition message.now)) (length output.old) }
    ensures bytes { output.new ≡ output_after edition message.now (numbers_read (reading edition message.now)) output.old }
    ensures round { GoesRound edition message.now output.old output.new result }
{
    let mut table = [0u32; TABLE];
    let count = numbers_into(edition, message, &mut table);
    writer::write(edition, message, &table[..count], output)
}
