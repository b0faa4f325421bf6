// The vectors of the reader: a message's reading, and the part that a row names.
use crate::notation::Message;
use crate::{decimals, notation, shown, split};
use label::{Edition, Reading, TABLE};
use std::io;
use std::io::Write;

// Of a message that has more rows only the first and the last are printed.
const MANY: usize = 100;

// Prints the reading of a message.
pub(crate) fn run_message<W: Write>(out: &mut W, edition: Edition, text: &[u8]) -> io::Result<()> {
    let mut message = Message::new();
    notation::expand(text, &mut message);
    let mut table = [0u32; TABLE];
    let reading = reader::read(edition, &message, &mut table);
    print(out, reading, &table)
}

fn print<W: Write>(out: &mut W, reading: Reading, table: &[u32]) -> io::Result<()> {
    match reading {
        Ok(counts) => {
            let rows = counts.rows;
            if rows > MANY {
                report::print_answer(out, reading)?;
                report::print_row(out, table, 0)?;
                report::print_row(out, table, rows - 1)
            } else {
                report::print_reading(out, reading, table)
            }
        }
        Err(_) => report::print_answer(out, reading),
    }
}

// Prints the part of a message that a row names.
pub(crate) fn run_part<W: Write>(out: &mut W, edition: Edition, text: &[u8]) -> io::Result<()> {
    let (row, text) = split::word(text);
    let mut message = Message::new();
    notation::expand(text, &mut message);
    let part = reader::part(edition, &message, decimals::number(row));
    shown::print_part(out, part)
}
