// The rows that the writer is given: whether they stand and their ordinals are true, one of them, and whether a cursor's row is like one.
#![tactic(auto)]

ghost use Rattle.std.specs.Prelude.{◌≡◌};
ghost use Rattle.std.specs.Option.{option_map};
ghost use Rattle.label.specs.Bytes.{every};
ghost use Rattle.label.specs.Writing.{rows_in, inside, rows_stand};
ghost use Rattle.walk.specs.Cursors.{row_of};
ghost use Rattle.given.specs.Given.{row_at, row_or_none, as_row, ordinals_counted, alike_row};

use label::{MOST_ROWS, ROW};
use walk::Cursor;

// A row's numbers but its ordinal.
#[derive(Clone, Copy)]
pub struct Given {
    pub kind: u32,
    pub format: u32,
    pub start: u32,
    pub length: u32,
}

// The row whose numbers stand from an index on, if they all do.
pub fn row_at(rows: &[u32], at: usize) -> Option<Given>
    ensures { option_map as_row result ≡ row_at rows.now at }
{
    match rows.get(at..)? {
        [kind, format, start, length, _, ..] => Some(Given {
            kind: *kind,
            format: *format,
            start: *start,
            length: *length,
        }),
        _ => None,
    }
}

// The same, and zeros where they don't all stand there: there is an answer in any case and for any index, as docs/promises has it.
pub fn row_from(rows: &[u32], at: usize) -> Given
    ensures { as_row result ≡ row_or_none rows.now at }
{
    row_at(rows, at).unwrap_or(Given {
        kind: 0,
        format: 0,
        start: 0,
        length: 0,
    })
}

// Whether every row's stretch lies in the data. Two 32-bit numbers are added as 64-bit ones, so that nothing wraps.
fn all_inside(held: &[u8], rows: &[u32]) -> bool
    ensures { result ≡ every (inside held.now) (rows_in rows.now) }
{
    let (rows, _) = rows.as_chunks::<ROW>();
    rows.iter().all(|[_, _, start, length, _]| *start as usize + *length as usize <= held.len())
}

// Whether the rows are whole, not too many, and their stretches in the data.
pub fn rows_stand(held: &[u8], rows: &[u32]) -> bool
    ensures { result ≡ rows_stand held.now rows.now }
{
    if rows.len() % ROW != 0 {
        return false;
    }
    if MOST_ROWS < rows.len() / ROW {
        return false;
    }
    all_inside(held, rows)
}

// Whether the ordinals are those that counting the indicators comes to. A message with these rows has no others.
pub fn ordinals_counted(rows: &[u32]) -> bool
    ensures { result ≡ ordinals_counted rows.now }
{
    let mut later = rows.chunks_exact(ROW);
    let Some(first) = later.next() else {
        return true;
    };
    if first[4] != 0 {
        return false;
    }
    let mut ordinal = 0;
    for row in later {
        // An indicator begins the next envelope, and no kind is below its own: the step that `raised` says, as in `noted` and `exact`.
        ordinal += usize::from(row[0] < 2);
        if row[4] as usize != ordinal {
            return false;
        }
    }
    true
}

// Whether there is a row from an index on, as `row_from` has it, with the kind, the format and the length of that a cursor stands at. Its
// promise, in docs/promises, is for any index, though the writer has each row's numbers alone and asks at 0.
pub fn like(c: Cursor, rows: &[u32], at: usize) -> bool
    ensures { result ≡ alike_row (row_of c) (row_or_none rows.now at) }
{
    let Some(row) = row_at(rows, at) else {
        return false;
    };
    let kind = walk::kind_of(c.stage);
    (kind == row.kind) & (c.format == row.format) & (c.length == row.length as usize)
}
