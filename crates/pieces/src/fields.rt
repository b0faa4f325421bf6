// Transport fields of 01. Field No. i + 1 is field i here.
ghost use Rattle.std.specs.Prelude.{◌≡◌, MatchOption, get_or};
ghost use Rattle.label.specs.Pieces.{cut, absent, found};
ghost use Rattle.label.specs.Bytes.{plain, every};
ghost use Rattle.label.specs.declared.Version.TheVariants.{Version02};
ghost use Rattle.label.specs.Fields.{few_digits, n_of_x, amount, unit, weight, yes_or_no, field_bytes, field};

use label::{LEAST_FIELDS, Version};
use leaves::Class;

// How long a weight's unit is.
const UNIT_LENGTH: usize = 2;

// The bytes on both sides of the first c; none where there is no c.
fn cut_at(s: &[u8], c: u8) -> Option<(&[u8], &[u8])>
    ensures { MatchOption result (cut c s.now ≡ absent) (λ p. cut c s.now ≡ found p.0.now p.1.now) }
{
    let at = leaves::find(s, 0, c);
    if at < s.len() {
        Some((&s[..at], &s[at + 1..]))
    } else {
        None
    }
}

// 1 to 4 digits.
#[tactic(auto, unfolding(label::specs::Fields::few_digits, label::specs::Limits::long_as))]
fn few_digits(s: &[u8]) -> bool
    ensures { result ≡ few_digits s.now }
{
    (1 <= s.len()) & (s.len() <= 4) & leaves::all_in(Class::Digit, s)
}

// No. 9: 1 to 4 digits, `/`, 1 to 4 digits.
#[tactic(auto, unfolding(label::specs::Fields::n_of_x, label::specs::Fields::both_sides))]
fn n_of_x(s: &[u8]) -> bool
    ensures { result ≡ n_of_x s.now }
{
    match cut_at(s, b'/') {
        Some((n, x)) => few_digits(n) & few_digits(x),
        None => false,
    }
}

// A weight's number: digits with at most one point, and at least one digit.
#[tactic(auto, unfolding(label::specs::Fields::amount, label::specs::Fields::amount_by))]
fn is_amount(s: &[u8]) -> bool
    ensures { result ≡ amount s.now }
{
    match cut_at(s, b'.') {
        Some((before, behind)) => leaves::all_in(Class::Digit, before)
            & leaves::all_in(Class::Digit, behind)
            & !(before.is_empty() & behind.is_empty()),
        None => leaves::all_in(Class::Digit, s) & !s.is_empty(),
    }
}

// A weight's unit: `LB` or `KG`.
#[tactic(auto, unfolding(label::specs::Fields::unit))]
fn is_unit(s: &[u8]) -> bool
    ensures { result ≡ unit s.now }
{
    matches!(s, b"LB" | b"KG")
}

// No. 10 in version 02: a number, and behind it a unit.
fn amount_and_unit(s: &[u8]) -> bool
    ensures { result ≡ weight Version02 s.now }
{
    if s.len() < UNIT_LENGTH {
        return false;
    }
    let at = s.len() - UNIT_LENGTH;
    is_amount(&s[..at]) & is_unit(&s[at..])
}

// No. 10: version 96 has no unit.
fn is_weight(version: Version, s: &[u8]) -> bool
    ensures { result ≡ weight version s.now }
{
    match version {
        Version::Version02 => amount_and_unit(s),
        Version::Version96 => is_amount(s),
    }
}

// No. 11: `Y` or `N`.
#[tactic(auto, unfolding(label::specs::Fields::yes_or_no))]
fn yes_or_no(s: &[u8]) -> bool
    ensures { result ≡ yes_or_no s.now }
{
    matches!(s, b"Y" | b"N")
}

// The column Bytes.
fn field_bytes(version: Version, i: usize, s: &[u8]) -> bool
    ensures { result ≡ get_or (field_bytes version) i (every plain) s.now }
{
    match i {
        1 | 6 => leaves::all_in(Class::Digit, s),
        8 => n_of_x(s),
        9 => is_weight(version, s),
        10 => yes_or_no(s),
        _ => leaves::all_in(Class::Plain, s),
    }
}

// A field has its length and its bytes; a later one may be empty.
#[tactic(auto, unfolding(label::specs::Limits::long_as, label::specs::Fields::field))]
pub(crate) fn field_holds(version: Version, i: usize, s: &[u8]) -> bool
    ensures { result ≡ field version i s.now }
{
    (limits::fits(version, i, s.len()) & field_bytes(version, i, s))
        | ((LEAST_FIELDS <= i) & s.is_empty())
}
