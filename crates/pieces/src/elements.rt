// Elements of 05, 06 and 12.
ghost use Rattle.std.specs.Prelude.{◌≡◌, drop};
ghost use Rattle.label.specs.Elements.{element05, capital_and_more, element06, element12};

use leaves::Class;

// How many digits an element of 06 begins with at most.
pub const MOST_DIGITS: usize = 3;

// 05: at least three bytes, the first two digits.
pub(crate) fn element_05(s: &[u8]) -> bool
    ensures { result ≡ element05 s.now }
{
    match s {
        [a, b, _, ..] => leaves::in_class(Class::Digit, *a) & leaves::in_class(Class::Digit, *b),
        _ => false,
    }
}

// A capital, and at least one byte behind it.
fn capital_and_more(s: &[u8]) -> bool
    ensures { result ≡ capital_and_more s.now }
{
    matches!(s, [b'A'..=b'Z', _, ..])
}

// 06: zero to three digits, one capital, then at least one byte.
pub(crate) fn element_06(s: &[u8]) -> bool
    ensures { result ≡ element06 s.now }
{
    let digits = s
        .iter()
        .take(MOST_DIGITS)
        .take_while(|b| leaves::in_class(Class::Digit, **b))
        .count();
    capital_and_more(&s[digits..])
}

// 12: three capitals or digits, a space, then at least one byte.
pub(crate) fn element_12(s: &[u8]) -> bool
    ensures { result ≡ element12 s.now }
{
    match s {
        [a, b, c, b' ', _, ..] => leaves::in_class(Class::CapitalOrDigit, *a)
            & leaves::in_class(Class::CapitalOrDigit, *b)
            & leaves::in_class(Class::CapitalOrDigit, *c),
        _ => false,
    }
}
