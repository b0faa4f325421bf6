// Numbers in decimal, and rows: `1,6,4,2,0;3,6,7,3,0` is two rows, `3*5,3,0,0,0` a row three times, and `-` no number at all. A row may
// have more or fewer numbers than five.
use crate::split;
use arrayvec::ArrayVec;
use label::ROW;

// Room for more rows than a message may have.
const ROWS_TO_TRY: usize = 1100;

pub(crate) type Table = ArrayVec<u32, ROOM>;

const ROOM: usize = ROW * ROWS_TO_TRY;

// The number that a text's digits write; one that is too large is taken as the largest. What isn't a digit is passed over.
pub(crate) fn number(text: &[u8]) -> usize {
    text.iter()
        .filter_map(|b| char::from(*b).to_digit(10))
        .fold(0, |n, digit| with_digit(n, digit))
}

fn with_digit(n: usize, digit: u32) -> usize {
    n.saturating_mul(10).saturating_add(digit as usize)
}

// Puts the numbers of rows into a table, as far as it has room. It is lent, as a message is (notation.rt).
pub(crate) fn put_rows(text: &[u8], table: &mut Table) {
    for row in text.split(|b| *b == b';') {
        put_row(row, table);
    }
}

// Puts one row into a table, as many times as its text says.
fn put_row(text: &[u8], table: &mut Table) {
    match split::once(text, b'*') {
        Some((times, row)) => put_times(number(times), row, table),
        None => put_numbers(text, table),
    }
}

// A row with a number in it fills the table within so many times as there is room, and one without puts none however often.
fn put_times(times: usize, row: &[u8], table: &mut Table) {
    for _ in 0..times.min(ROOM) {
        put_numbers(row, table);
    }
}

// Puts numbers split by commas into a table. Behind a comma at the end there is none.
fn put_numbers(text: &[u8], table: &mut Table) {
    for part in text.split_inclusive(|b| *b == b',') {
        put(part.strip_suffix(b",").unwrap_or(part), table);
    }
}

// Puts one number into a table; where the text is `-` or the table is full, the table stays as it is. A number that doesn't fit in 32 bits
// is taken as the largest that does.
fn put(text: &[u8], table: &mut Table) {
    if text != b"-".as_slice() {
        let _ = table.try_push(u32::try_from(number(text)).unwrap_or(u32::MAX));
    }
}
