// Rows that are noted, in numbers of 16 bits. They are handed over to a lent table, or one of them is taken for the stretch that it names.
// What rows they are is no matter here; `reader` notes those of a message.
#![tactic(auto)]

ghost use Rattle.std.specs.Prelude.{◌≡◌, ◌++◌, map, ◌+◌, ◌*◌, ◌≤◌, length, take, drop};
ghost use Rattle.label.specs.Limits.{most_rows, row_width};
ghost use Rattle.label.specs.Layout.{Row, numbers, all_numbers};
ghost use Rattle.label.specs.Answer.{answer_of, room_of, overlaid};
ghost use Rattle.label.specs.Counting.{row_from, kinds_of, raised, by_counting};
ghost use Rattle.noted.specs.Noted.{rows_by, answer_from, table_from, stretch_from};

use label::{Counts, MOST_ROWS, ROW, Reading, Reason, Refusal, Stretch};

// How many numbers a row is in the notes, and the length of notes with room for the most rows. They are flat: `hand_over` is public and
// takes any list of numbers.
pub const NOTE: usize = 4;

pub const NOTES: usize = NOTE * MOST_ROWS;

// Copies a row's numbers from its note into a table, from an index on, its envelope's ordinal behind them.
// By index: of a table whose `as_chunks_mut` were written a proof knows the length alone, and `hand_over` promises each number. With an
// array of the five, copied, case d of the benchmark misses its bar (docs/PERFORMANCE.md).
fn copy_row(note: &[u16; NOTE], table: &mut [u32], at: usize, ordinal: u32)
    requires { at + row_width ≤ length table.old }
    ensures { table.new ≡ take at table.old ++ (numbers (row_from note.now 0) ordinal ++ drop (at + row_width) table.old) }
{
    let [kind, format, start, length] = *note;
    table[at] = u32::from(kind);
    table[at + 1] = u32::from(format);
    table[at + 2] = u32::from(start);
    table[at + 3] = u32::from(length);
    table[at + 4] = ordinal;
}

// Copies the rows of one envelope, or of none; what lies behind them in the table stays as it was.
fn copy_alone(notes: &[[u16; NOTE]], table: &mut [u32])
    requires { row_width * length notes.now ≤ length table.old }
    ensures { table.new ≡ overlaid (all_numbers (rows_by notes.now) (map (λ (r : Row). 0) (rows_by notes.now))) table.old }
{
    for (i, note) in notes.iter().enumerate() {
        copy_row(note, table, ROW * i, 0);
    }
}

// The ordinal at a row of a kind, behind a row with an ordinal: an indicator begins the next envelope, and no kind is below its own. The
// step stands in `given` and `exact` too, a line each: a public function couldn't ask that the count be small. It goes by the kind's
// number, as `raised` does, which takes any.
fn raised_by(ordinal: u32, kind: u16) -> u32
    requires { ordinal ≤ most_rows }
    ensures { result ≡ raised ordinal kind }
{
    if kind < 2 { ordinal + 1 } else { ordinal }
}

// Copies the rows of several envelopes, counted by their indicators.
fn copy_several(notes: &[[u16; NOTE]], table: &mut [u32])
    requires roomy { row_width * length notes.now ≤ length table.old }
    requires few { length notes.now ≤ most_rows }
    ensures { table.new ≡ overlaid (all_numbers (rows_by notes.now) (by_counting (kinds_of (rows_by notes.now)))) table.old }
{
    let [first, later @ ..] = notes else {
        return;
    };
    copy_row(first, table, 0, 0);
    let mut ordinal = 0;
    for (i, note) in later.iter().enumerate() {
        ordinal = raised_by(ordinal, note[0]);
        copy_row(note, table, ROW * (i + 1), ordinal);
    }
}

// Hands the rows noted, of a message with so many envelopes, over to a table of any length, whose room is its length divided by the numbers
// of a row: accepted, and the table's first numbers are the rows', each with its envelope's ordinal; or refused for lack of room, or for
// too many rows to be counted, and the table stays as it was. Most labels have one envelope, whose rows need no counting.
pub fn hand_over(envelopes: usize, notes: &[u16], table: &mut [u32]) -> Reading
    ensures answer { answer_of result ≡ answer_from envelopes notes.now (room_of table.old) }
    ensures rows { table.new ≡ table_from envelopes notes.now table.old }
{
    let (notes, _) = notes.as_chunks::<NOTE>();
    let rows = notes.len();
    if table.len() < ROW * rows {
        return Err(Refusal {
            reason: Reason::NoRoom,
            place: 0,
        });
    }
    if envelopes < 2 {
        copy_alone(notes, table);
        return Ok(Counts { envelopes, rows });
    }
    if MOST_ROWS < rows {
        return Err(Refusal {
            reason: Reason::TooManyRows,
            place: 0,
        });
    }
    copy_several(notes, table);
    Ok(Counts { envelopes, rows })
}

// The stretch of a row, by its number, of a message with so many rows, by the note of this row alone; the empty start where there is no
// such row, as `part_of` has it.
pub fn stretch_noted(row: usize, rows: usize, note: &[u16; NOTE]) -> Stretch
    ensures { result ≡ stretch_from row rows note.now }
{
    if row < rows {
        return Stretch {
            start: usize::from(note[2]),
            length: usize::from(note[3]),
        };
    }
    Stretch {
        start: 0,
        length: 0,
    }
}
