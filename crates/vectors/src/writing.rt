// The vectors of the writer.
use crate::decimals::Table;
use crate::notation::{Message, ROOM};
use crate::{decimals, notation, shown, split};
use label::Edition;
use std::io;
use std::io::Write;

// Prints what the writer answers for an output's length, rows and data, and the whole output afterwards.
pub(crate) fn run_rows<W: Write>(out: &mut W, edition: Edition, text: &[u8]) -> io::Result<()> {
    let (length, more) = split::word(text);
    let (rows, data) = split::word(more);
    let mut table = Table::new();
    decimals::put_rows(rows, &mut table);
    let mut held = Message::new();
    notation::expand(data, &mut held);
    write(out, edition, &held, &table, decimals::number(length))
}

// The output holds dots before, so that it shows which bytes were written. The parameters are the writer's, and where to print.
fn write<W: Write>(
    out: &mut W,
    edition: Edition,
    held: &[u8],
    rows: &[u32],
    length: usize,
) -> io::Result<()> {
    let mut output = [b'.'; ROOM];
    let output = &mut output[..length.min(ROOM)];
    let writing = writer::write(edition, held, rows, output);
    report::print_writing(out, writing)?;
    shown::print_bytes(out, output)
}
