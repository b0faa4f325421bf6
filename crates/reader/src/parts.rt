// The part of a message that a row names, handed back uncopied.
ghost use Rattle.std.specs.Prelude.{◌+◌, ◌≡◌, take, drop};
ghost use Rattle.label.specs.Part.{part_of};
ghost use Rattle.label.specs.Limits.{most_rows};
ghost use Rattle.stretches.specs.Stretches.{Lies};
ghost use Rattle.sweeps.specs.Quick.{GoodSwept};

use crate::quick::{Notes, framed, sweep};
use label::{Counts, Edition, MOST_ROWS, Stretch};
use noted::NOTE;
use sweeps::Wanted;

// Where a row's part lies in a message that was swept, by the note of this row. It stands apart as `hand_over` does (table.rt).
fn stretch_swept(
    edition: Edition,
    m: &[u8],
    row: usize,
    found: Counts,
    note: &[u16; NOTE],
) -> Stretch
    requires { GoodSwept edition m.now (record { from = row; most = most_rows }) note.now found }
    ensures { Lies edition m.now row result.start result.length }
{
    noted::stretch_noted(row, found.rows, note)
}

// Where a row's part lies; the empty start where there is no such row. The quick path notes this row alone.
pub fn stretch_of(edition: Edition, m: &[u8], row: usize) -> Stretch
    ensures { Lies edition m.now row result.start result.length }
{
    if !framed(m) {
        return stretches::stretch_exactly(edition, m, row);
    }
    let mut notes = Notes {
        rows: 0,
        numbers: [0u16; NOTE],
    };
    let swept = sweep(
        edition,
        m,
        Wanted {
            from: row,
            most: MOST_ROWS,
        },
        &mut notes,
    );
    match swept {
        Ok(counts) => stretch_swept(edition, m, row, counts, &notes.numbers),
        Err(_) => stretches::stretch_exactly(edition, m, row),
    }
}

// The part of a message that a row names, counted from 0: these bytes, at this place in the caller's own slice. The empty
// part at the message's start for a refused message and for a row that it doesn't have.
pub fn part(edition: Edition, message: &[u8], row: usize) -> &[u8]
    ensures bytes { result.now ≡ take (part_of edition message.now row).length (drop (part_of edition message.now row).start message.now) }
    ensures block { result.ref_ptr.0 ≡ message.entry.ref_ptr.0 }
    ensures place { result.ref_ptr.1 ≡ (part_of edition message.now row).start + message.entry.ref_ptr.1 }
{
    let s = stretch_of(edition, message, row);
    let start = s.start;
    let end = start + s.length;
    &message[start..end]
}
