// What the programs share: bytes read into a buffer, a reading printed as document 01 has it under 'Cartons to try', and what the writer
// answers.
#![tactic(auto)]

ghost use Rattle.std.specs.Prelude.{◌≡◌, ◌+◌, ◌<◌, ◌≤◌, min, length, set, take, IfOk, OnOk};
ghost use Rattle.std.specs.Io.KnownBytes.{Appends, Consumes, IsAtEnd};
ghost use Rattle.label.specs.Answer.{answer_of};
ghost use Rattle.label.specs.Writing.{write_answer_of};
ghost use Rattle.report.specs.Lines.{line_of, row_line, row_lines, reading_lines};

use arrayvec::ArrayVec;
use label::{ROW, Reading, Writing};
use std::io;
use std::io::{Read, Write};

// The number that stands before what an accepted message has, and before the count of bytes written.
const ACCEPTED: u8 = 0;

// Room for a line of a row's numbers, the longest: each takes at most 20 digits and the byte behind it.
const LINE: usize = 21 * ROW;

// A line is put together here and goes out in one write: standard output is not buffered, and `writeln!` writes piece by piece.
type Line = ArrayVec<u8, LINE>;

// Prints the line of what the writer answers: 0 and the byte count, or the reason's number.
pub fn print_writing<W: Write>(out: &mut W, writing: Writing) -> io::Result<()>
    ensures { OnOk result (Appends (W.contents out.old) (W.contents out.new) (line_of (write_answer_of writing))) }
{
    let mut line = Line::new();
    match writing {
        Ok(count) => writeln!(line, "{ACCEPTED} {count}")?,
        Err(reason) => writeln!(line, "{}", numbers::write_number_of(reason))?,
    }
    out.write_all(&line)
}

// Prints a reading whole: its answer, and of an accepted message every row.
pub fn print_reading<W: Write>(out: &mut W, reading: Reading, table: &[u32]) -> io::Result<()>
    ensures { OnOk result (Appends (W.contents out.old) (W.contents out.new) (reading_lines reading table.now)) }
{
    print_answer(out, reading)?;
    match reading {
        Ok(counts) => print_rows(out, table, counts.rows),
        Err(_) => Ok(()),
    }
}

// Prints the line of the answer: 0, envelopes and rows, or the reason's number and the place.
pub fn print_answer<W: Write>(out: &mut W, reading: Reading) -> io::Result<()>
    ensures { OnOk result (Appends (W.contents out.old) (W.contents out.new) (line_of (answer_of reading))) }
{
    let mut line = Line::new();
    match reading {
        Ok(counts) => writeln!(line, "{ACCEPTED} {} {}", counts.envelopes, counts.rows)?,
        Err(refusal) => {
            let number = numbers::number_of(refusal.reason);
            writeln!(line, "{number} {}", refusal.place)?
        }
    }
    out.write_all(&line)
}

// Prints the table's first rows, a line each: by their numbers, as `print_row` is public and takes one.
fn print_rows<W: Write>(out: &mut W, table: &[u32], rows: usize) -> io::Result<()>
    ensures { OnOk result (Appends (W.contents out.old) (W.contents out.new) (row_lines table.now rows)) }
{
    for row in 0..rows {
        print_row(out, table, row)?;
    }
    Ok(())
}

// Prints a row, counted from 0: kind, format, start, length, ordinal. Prints nothing if the table has no such row.
pub fn print_row<W: Write>(out: &mut W, table: &[u32], row: usize) -> io::Result<()>
    ensures { OnOk result (Appends (W.contents out.old) (W.contents out.new) (row_line table.now row)) }
{
    if row < table.len() / ROW {
        let at = row * ROW;
        if let [kind, format, start, length, ordinal] = &table[at..at + ROW] {
            let mut line = Line::new();
            writeln!(line, "{kind} {format} {start} {length} {ordinal}")?;
            out.write_all(&line)?;
        }
    }
    Ok(())
}

// Reads until the buffer is full or the input ends, and answers how many bytes were read: they stand at the buffer's front.
// std's Read has no method for it: read_exact fails where the input ends, read_to_end allocates, bytes reads them one by one.
pub fn read_full<R: Read>(input: &mut R, buffer: &mut [u8]) -> io::Result<usize>
    ensures count { IfOk result (λ n. n ≤ length buffer.new) }
    ensures bytes { IfOk result (λ n. Consumes (R.remaining input.old) (R.remaining input.new) (take n buffer.new)) }
    ensures end { IfOk result (λ n. n < length buffer.new → IsAtEnd (R.remaining input.new)) }
    ensures kept { length buffer.new ≡ length buffer.old }
{
    let mut filled = 0;
    while filled < buffer.len() {
        let count = input.read(&mut buffer[filled..])?;
        if count == 0 {
            return Ok(filled);
        }
        filled += count;
    }
    Ok(filled)
}

// Puts a byte into a line at an index and answers the index behind it. A line that has no such index stays as it is, and the
// answer is its length. It is public and keeps its form: docs/promises names it.
pub fn put(b: u8, line: &mut [u8], at: usize) -> usize
    ensures value { result ≡ min (at + 1) (length line.old) }
    ensures prefix_len { result ≤ length line.new }
    ensures line_after { line.new ≡ set line.old at b }
{
    if at < line.len() {
        line[at] = b;
        at + 1
    } else {
        line.len()
    }
}
