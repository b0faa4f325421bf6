// Tags of 03 and 04.
ghost use Rattle.std.specs.Prelude.{◌≡◌, take};
ghost use Rattle.label.specs.Bytes.{ascii, GS, same_bytes};
ghost use Rattle.leaves.specs.Seek.{seek};
ghost use Rattle.label.specs.Segments.{tag, tag03};

use leaves::Class;

// Two or three capitals or digits, the first a capital.
pub(crate) fn tag_04(s: &[u8]) -> bool
    ensures { result ≡ tag s.now }
{
    match s {
        [first, _] | [first, _, _] => first.is_ascii_uppercase()
            & leaves::all_in(Class::CapitalOrDigit, s),
        _ => false,
    }
}

// `BIN`.
fn is_binary(s: &[u8]) -> bool
    ensures { result ≡ same_bytes s.now (ascii "BIN") }
{
    matches!(s, b"BIN")
}

// 03: a tag, and not `BIN`.
#[tactic(auto, unfolding(label::specs::Segments::tag03))]
pub(crate) fn tag_03(s: &[u8]) -> bool
    ensures { result ≡ tag03 s.now }
{
    tag_04(s) & !is_binary(s)
}

// A segment's first element, as it stands: up to the first GS. A segment is judged by it as its tag: a tag has no sub-elements, since US is
// neither capital nor digit.
pub(crate) fn first_element(s: &[u8]) -> &[u8]
    ensures { result.now ≡ take (seek GS s.now) s.now }
{
    let end = leaves::find(s, 0, leaves::GS);
    &s[..end]
}
