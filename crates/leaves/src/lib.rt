// What is asked of a stretch of bytes: whether all are of a class, and where a byte is; and what a digit is worth. Every function takes
// every input.
#![tactic(auto)]

ghost use Rattle.std.specs.Prelude.{◌≡◌, not, ◌+◌, ◌-◌, eqb, drop};
ghost use Rattle.label.specs.Bytes.{every, plain};
ghost use Rattle.leaves.specs.Classes.{class_of, digit_of};
ghost use Rattle.leaves.specs.Seek.{seek};

// Control bytes (001, clause 4).
pub const EOT: u8 = 0x04;

pub const FS: u8 = 0x1C;

pub const GS: u8 = 0x1D;

pub const RS: u8 = 0x1E;

pub const US: u8 = 0x1F;

// A class of bytes; `class_of` of specs/Classes has each one's definition.
#[derive(Clone, Copy)]
pub enum Class {
    Plain,
    Digit,
    CapitalOrDigit,
    PlainOrGs,
    SegmentByte,
    TextByte,
    RestByte,
}

// Whether a byte is plain: 20 to 7E.
#[tactic(auto, unfolding(label::specs::Bytes::plain, label::specs::Bytes::between))]
fn is_plain(b: u8) -> bool
    ensures { result ≡ plain b }
{
    matches!(b, b' '..=b'~')
}

// Whether a byte is of a class: no branch within a test, so that a fold over it is vectorised.
#[tactic(auto, unfolding(label::specs::Bytes::digit, label::specs::Bytes::capital, label::specs::Bytes::capital_or_digit, label::specs::Bytes::between, label::specs::Bytes::below80, label::specs::Bytes::control, label::specs::Formats::rest_byte, label::specs::Formats::text_byte, label::specs::ReadEnvelope::plain_or_gs, label::specs::ReadEnvelope::segment_byte))]
pub fn in_class(k: Class, b: u8) -> bool
    ensures { result ≡ class_of k b }
{
    match k {
        Class::Plain => is_plain(b),
        Class::Digit => b.is_ascii_digit(),
        Class::CapitalOrDigit => b.is_ascii_uppercase() | b.is_ascii_digit(),
        Class::PlainOrGs => is_plain(b) | (b == GS),
        Class::SegmentByte => is_plain(b) | (b == FS) | (b == GS) | (b == US),
        Class::TextByte => b.is_ascii() & !matches!(b, EOT | FS | GS | RS | US),
        Class::RestByte => b.is_ascii() & !matches!(b, RS | EOT),
    }
}

// What a digit is worth.
#[tactic(auto, unfolding(label::specs::Bytes::digit, label::specs::Bytes::between))]
pub fn digit(b: u8) -> Option<u8>
    ensures { result ≡ digit_of b }
{
    match b {
        b'0'..=b'9' => Some(b - b'0'),
        _ => None,
    }
}

// Whether all bytes are of a class. It runs to the end whatever it meets, so that it is vectorised.
pub fn all_in(k: Class, s: &[u8]) -> bool
    ensures { result ≡ every (class_of k) s.now }
{
    s.iter().fold(true, |ok, b| ok & in_class(k, *b))
}

// The bytes from an index on; none where it lies behind the end.
fn from_on(s: &[u8], from: usize) -> &[u8]
    ensures { result.now ≡ drop from s.now }
{
    s.get(from..).unwrap_or(&[])
}

// How many bytes stand before the first c; all where there is none, as `seek` says.
fn before(s: &[u8], c: u8) -> usize
    ensures { result ≡ seek c s.now }
{
    s.iter().position(|b| *b == c).unwrap_or(s.len())
}

// The index of the first c at or after an index; the length where there is none, or the index where it lies behind that.
// It answers an index and no Option: its contract, by `seek`, is public.
pub fn find(s: &[u8], from: usize, c: u8) -> usize
    ensures { result ≡ from + seek c (drop from s.now) }
{
    from + before(from_on(s, from), c)
}

// Whether none of the bytes is c. It runs to the end whatever it meets, as `all_in` does, so that it is vectorised.
fn lacks(s: &[u8], c: u8) -> bool
    ensures { result ≡ every (λ b. not (eqb b c)) s.now }
{
    s.iter().fold(true, |ok, b| ok & (*b != c))
}

// The same as `find`, for a byte that is likely far: 64 bytes at a time are passed over.
pub fn find_far(s: &[u8], from: usize, c: u8) -> usize
    ensures { result ≡ from + seek c (drop from s.now) }
{
    let blocks = from_on(s, from)
        .chunks_exact(64)
        .take_while(|block| lacks(block, c))
        .count();
    find(s, from + 64 * blocks, c)
}
