// What is asked of one piece of a body that runs to an RS: of a transport field, a segment or an element (01, Envelope rules and Transport
// fields). That the whole body keeps its rules is said in `bodies`.
#![tactic(auto)]

mod elements;
mod fields;
mod segments;

ghost use Rattle.std.specs.Prelude.{◌≡◌};
ghost use Rattle.pieces.specs.PieceTests.{piece_test};

pub use elements::MOST_DIGITS;
use label::Version;

// A body that runs to an RS, by its format, and for 01 its version.
#[derive(Clone, Copy)]
pub enum Kind {
    Fields(Version),
    Segments03,
    Segments04,
    Elements05,
    Elements06,
    Text,
    Elements12,
}

// What is asked of the piece with an index.
pub fn piece_holds(k: Kind, i: usize, p: &[u8]) -> bool
    ensures { result ≡ piece_test k i p.now }
{
    match k {
        Kind::Fields(version) => fields::field_holds(version, i, p),
        Kind::Segments03 => segments::tag_03(segments::first_element(p)),
        Kind::Segments04 => segments::tag_04(segments::first_element(p)),
        Kind::Elements05 => elements::element_05(p),
        Kind::Elements06 => elements::element_06(p),
        Kind::Text => true,
        Kind::Elements12 => elements::element_12(p),
    }
}
