// The marks around rows: between two, and behind the last. Which they are follows from kinds and formats.
ghost use Rattle.std.specs.Prelude.{◌≡◌, ◌&&◌, leb, eqb};
ghost use Rattle.label.specs.Formats.{widest, rule_of};
ghost use Rattle.label.specs.Written.{value_row, tag_row, sub_element_row};
ghost use Rattle.label.specs.Rendered.{before_value, closing, marks_between, ending};
ghost use Rattle.writer.specs.Kinds.{IsKind};

use formats::Shape;
use given::Given;
use leaves::{EOT, FS, GS, RS, US};

// What a row is, by the number of its kind.
#[derive(Clone, Copy)]
enum RowKind {
    Indicator,
    HeaderValue,
    Piece,
    Tag,
    LaterElement,
    FurtherSubElement,
    Body,
}

// Any other number is taken as a body's.
impl From<u32> for RowKind {
    ghost from_gives = { λ number kind. IsKind number kind };

    fn from(number: u32) -> RowKind {
        match number {
            1 => RowKind::Indicator,
            2 => RowKind::HeaderValue,
            3 => RowKind::Piece,
            4 => RowKind::Tag,
            5 => RowKind::LaterElement,
            6 => RowKind::FurtherSubElement,
            _ => RowKind::Body,
        }
    }
}

// Before a header value, by the format.
fn before_value(format: u32) -> &'static [u8]
    ensures { result.now ≡ before_value (rule_of widest format) }
{
    match formats::shape_of(format as usize) {
        Shape::Segments03 | Shape::Segments04 | Shape::CountOnly => &[],
        _ => &[GS],
    }
}

// Whether a row is a header value.
fn is_value(row: Given) -> bool
    ensures { result ≡ eqb row.kind value_row }
{
    matches!(RowKind::from(row.kind), RowKind::HeaderValue)
}

// Whether a row stands in a segment.
fn in_segment(row: Given) -> bool
    ensures { result ≡ leb tag_row row.kind && leb row.kind sub_element_row }
{
    matches!(
        RowKind::from(row.kind),
        RowKind::Tag | RowKind::LaterElement | RowKind::FurtherSubElement
    )
}

// Behind an envelope's last row: FS ends a segment, RS the envelope.
fn closing_of(last: Given) -> &'static [u8]
    ensures { result.now ≡ closing last.kind }
{
    if in_segment(last) { &[FS, RS] } else { &[RS] }
}

// Between two rows.
pub(crate) fn between(before: Given, row: Given) -> &'static [u8]
    ensures { result.now ≡ marks_between (rule_of widest row.format) before.kind row.kind }
{
    let behind_value = is_value(before);
    match RowKind::from(row.kind) {
        RowKind::Indicator => closing_of(before),
        RowKind::HeaderValue => before_value(row.format),
        RowKind::Piece => if behind_value { &[] } else { &[GS] },
        RowKind::Tag => if behind_value { &[FS, GS, US] } else { &[FS] },
        RowKind::LaterElement => &[GS],
        RowKind::FurtherSubElement => &[US],
        RowKind::Body => if behind_value { &[GS] } else { &[] },
    }
}

// Behind the last row: the envelope's and the message's end; nothing where the format takes all the rest.
pub(crate) fn ending_of(last: Given) -> &'static [u8]
    ensures { result.now ≡ ending (rule_of widest last.format) last.kind }
{
    match formats::shape_of(last.format as usize) {
        Shape::Rest => &[],
        _ => if in_segment(last) {
            &[FS, RS, EOT]
        } else {
            &[RS, EOT]
        },
    }
}
