// The row of an indicator, which says its own format.
ghost use Rattle.std.specs.Prelude.{◌-◌, ◌≡◌, get_or};
ghost use Rattle.walk.specs.Cursors.{indicator_at};

use walk::{Cursor, Stage, standing_at};

// The byte at an index; 0 where there is none, as `first_cursor` and `next_cursor` have it, by which `first` and `next` promise.
pub(crate) fn byte_at(m: &[u8], i: usize) -> u8
    ensures { result ≡ get_or m.now i 0 }
{
    m.get(i).copied().unwrap_or(0)
}

// What a byte counts as a digit, 0 below `0` and where there is none. `leaves::digit` doesn't fit: `first` and `next` promise so for every
// byte, by `indicator_at` of walk's specs/Cursors.
fn digit_at(m: &[u8], i: usize) -> u8
    ensures { result ≡ get_or m.now i 0 - 0x30 }
{
    byte_at(m, i).saturating_sub(b'0')
}

// The row of an indicator at an offset.
#[tactic(auto, unfolding(walk::specs::Cursors::indicator_at))]
pub(crate) fn indicator_at(m: &[u8], at: usize) -> Cursor
    ensures { result ≡ indicator_at m.now at }
{
    if m.len() <= at {
        return standing_at(Stage::Indicator, 0, at, 2);
    }
    let tens = digit_at(m, at);
    let units = digit_at(m, at + 1);
    standing_at(
        Stage::Indicator,
        10 * u32::from(tens) + u32::from(units),
        at,
        2,
    )
}
