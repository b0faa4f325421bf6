// What is counted in a stretch of bytes: how often a byte is there, how many agree with a text; and whether a message begins with its
// header. Every function takes every input.
#![tactic(auto)]

mod header;
mod text;

ghost use Rattle.std.specs.Prelude.{◌≡◌, ◌≤◌, length};
ghost use Rattle.leaves.specs.Seek.{tally_of};

pub use header::is_headed;
pub use text::agree;

// How many of a few bytes are c: counted in a byte, so that many go at a time.
fn tally_few(s: &[u8], c: u8) -> u8
    requires { length s.now ≤ 64 }
    ensures { result ≡ tally_of c s.now }
{
    let mut n: u8 = 0;
    for b in s {
        n += u8::from(*b == c);
    }
    n
}

// How many bytes are c, 64 bytes at a time: by the library's filter and count each byte is a branch, and a label that is judged by the exact
// reader takes up to 3.9 times the instructions (docs/LOOK-BACK.md).
pub fn tally(s: &[u8], c: u8) -> usize
    ensures { result ≡ tally_of c s.now }
{
    let mut n = 0;
    let mut rest = s;
    while let Some((block, behind)) = rest.split_at_checked(64) {
        n += usize::from(tally_few(block, c));
        rest = behind;
    }
    n + usize::from(tally_few(rest, c))
}
