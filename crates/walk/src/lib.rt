// What the walk over the rows of a good message stands at: a cursor by value holds a row's format, start and length, and its stage, which
// tells the row's kind and where the next row is. Where it goes is specs/Cursors, and that on a message that is read it goes over exactly
// its rows is `walked` of proofs/Promises; `steps` goes.
#![tactic(auto)]

ghost use Rattle.std.specs.Prelude.{◌≡◌, drop};
ghost use Rattle.walk.specs.Cursors.{count_from, kind_of, standing};

use label::LONGEST;

// What a row is: the indicator; a header value (the version of 01, the six bytes of 03 and 04, type, compression and count
// of 09 and 15); a field or an element of 01, 05, 06 or 12; a tag, the first sub-element of a later element, or a further one; a body.
// `kind_of` of specs/Cursors has each one's kind.
#[derive(Clone, Copy)]
pub enum Stage {
    Indicator,
    VersionValue,
    ReleaseValue,
    TypeValue,
    CompressionValue,
    CountValue,
    Piece,
    Tag,
    LaterElement,
    FurtherSubElement,
    Body,
}

// Where the walk stands: at a row, with all that is to be told of it.
#[derive(Clone, Copy)]
pub struct Cursor {
    pub stage: Stage,
    pub format: u32,
    pub start: usize,
    pub length: usize,
}

// The kind of a row. Kinds are the paper's numbers, and several stages share one, so that a stage has no discriminant of its own.
pub fn kind_of(stage: Stage) -> u32
    ensures { result ≡ kind_of stage }
{
    match stage {
        Stage::Indicator => 1,
        Stage::VersionValue
        | Stage::ReleaseValue
        | Stage::TypeValue
        | Stage::CompressionValue
        | Stage::CountValue => 2,
        Stage::Piece => 3,
        Stage::Tag => 4,
        Stage::LaterElement => 5,
        Stage::FurtherSubElement => 6,
        Stage::Body => 7,
    }
}

// A row of a known length.
pub fn standing_at(stage: Stage, format: u32, at: usize, n: usize) -> Cursor
    ensures { result ≡ standing stage format at n }
{
    Cursor {
        stage,
        format,
        start: at,
        length: n,
    }
}

// The number that the digits from an offset on make; at the length of the longest message or more it grows no further.
pub fn count_from(m: &[u8], at: usize) -> usize
    ensures { result ≡ count_from 0 (drop at m.now) }
{
    m.get(at..)
        .unwrap_or(&[])
        .iter()
        .map_while(|b| leaves::digit(*b))
        .fold(
            0,
            |n, d| if n < LONGEST {
                10 * n + usize::from(d)
            } else {
                n
            },
        )
}
