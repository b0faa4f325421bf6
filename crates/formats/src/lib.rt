// The table of formats in code: which shape a number has in an edition. Judge, walk, quick path and writer go by the shape.
#![tactic(auto)]

ghost use Rattle.std.specs.Prelude.{◌≡◌};
ghost use Rattle.label.specs.Formats.{added, widest, rule_in, rule_of};
ghost use Rattle.formats.specs.Shapes.{rule_for};

use label::Edition;

// What a format's body is made of, with what tells formats of one rule apart; `rule_for` of specs/Shapes has each shape's rule.
#[derive(Clone, Copy)]
pub enum Shape {
    Fields,
    Rest,
    Segments03,
    Segments04,
    Elements05,
    Elements06,
    Text,
    Counted,
    Elements12,
    CountOnly,
    Unknown,
}

// The shape of a format that an edition adds to those of 2005.
fn shape_added(edition: Edition, format: usize) -> Shape
    ensures { rule_for result ≡ rule_in format (added edition) }
{
    match edition {
        Edition::Edition2005 => Shape::Unknown,
        Edition::Edition2025 => match format {
            12 => Shape::Elements12,
            15 => Shape::CountOnly,
            _ => Shape::Unknown,
        },
    }
}

// The shape of a format in an edition. `Unknown` is a shape and no `None`: the variants are public, and `rule_for` gives each its rule.
#[tactic(auto, unfolding(label::specs::Formats::rule_of))]
pub fn shape_in(edition: Edition, format: usize) -> Shape
    ensures { rule_for result ≡ rule_of edition format }
{
    match format {
        1 => Shape::Fields,
        2 => Shape::Rest,
        3 => Shape::Segments03,
        4 => Shape::Segments04,
        5 => Shape::Elements05,
        6 => Shape::Elements06,
        7 => Shape::Text,
        9 => Shape::Counted,
        _ => shape_added(edition, format),
    }
}

// The shape of a format in the widest edition, by which rows are laid out and walked over.
pub fn shape_of(format: usize) -> Shape
    ensures { rule_for result ≡ rule_of widest format }
{
    shape_in(Edition::Edition2025, format)
}
