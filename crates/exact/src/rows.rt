// Filling a table by the walk, for a message that has been judged exactly.
ghost use Rattle.std.specs.Prelude.{◌+◌, ◌≡◌, ◌++◌, drop, take};
ghost use Rattle.label.specs.Limits.{row_width};
ghost use Rattle.label.specs.Layout.{numbers};
ghost use Rattle.walk.specs.Cursors.{row_of};
ghost use Rattle.exact.specs.Tables.{Fits, Room, FilledWith};

use label::ROW;
use walk::Cursor;

// Puts a row's numbers into a table, from an index on, its envelope's ordinal last; all other numbers stay as they were. `noted` has the
// like for a row that is noted: what the numbers come from is another thing there.
fn put_row(t: &mut [u32], at: usize, c: Cursor, ordinal: u32)
    requires { Fits t.old at c }
    ensures { t.new ≡ take at t.old ++ (numbers (row_of c) ordinal ++ drop (at + row_width) t.old) }
{
    let row = [
        walk::kind_of(c.stage),
        c.format,
        c.start as u32,
        c.length as u32,
        ordinal,
    ];
    t[at..at + ROW].copy_from_slice(&row);
}

// Fills a table with the rows of a message, whose number is known; what lies behind them stays as it was. By a row's number: of a table
// whose `as_chunks_mut` were written a proof knows the length alone.
pub(crate) fn fill(m: &[u8], rows: usize, table: &mut [u32])
    requires { Room m.now rows table.old }
    ensures { FilledWith m.now rows table.old table.new }
{
    let mut c = steps::first(m);
    let mut ordinal = 0;
    for i in 0..rows {
        put_row(table, ROW * i, c, ordinal);
        c = steps::next(m, c);
        // An indicator begins the next envelope, and no kind is below its own: the step that `raised` says, as in `noted` and `given`.
        ordinal += u32::from(walk::kind_of(c.stage) < 2);
    }
}
