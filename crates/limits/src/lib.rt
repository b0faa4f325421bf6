// The least and the greatest length of a transport field, and how many fields a version has at most. The definitions are `label`'s, the
// limits with a row for each version; here stands version 02's row alone, and version 96's pairs are worked out (02, No. 5). It is a crate
// of its own, so that no edit of a definition is tried with its proof.
#![tactic(auto)]

ghost use Rattle.std.specs.Prelude.{◌≡◌};
ghost use Rattle.label.specs.Limits.{limit_of};
ghost use Rattle.label.specs.Fields.{version_row, most_fields};
ghost use Rattle.limits.specs.Worked.{for96};
ghost use Rattle.limits.specs.Sizes.{size_within};

use label::{Limit, MOST_FIELDS_02, MOST_FIELDS_96, Version};

// 'Transport fields', version 02: a pair for each field in its order.
const LIMITS: [Limit; MOST_FIELDS_02] = [
    Limit(0, 11),
    Limit(3, 3),
    Limit(1, 3),
    Limit(1, 20),
    Limit(2, 4),
    Limit(1, 10),
    Limit(3, 3),
    Limit(1, 30),
    Limit(3, 9),
    Limit(3, 10),
    Limit(1, 1),
    Limit(1, 35),
    Limit(1, 35),
    Limit(2, 2),
    Limit(1, 35),
];

// The fields in which the versions differ, counted from 0: No. 1, 10 and 15.
const POSTAL_CODE: usize = 0;

const WEIGHT: usize = 9;

const NAME: usize = 14;

// A field's pair in version 96, from its pair in version 02: a postal code has at least three bytes, a weight at least one, as it has no
// unit, and there is no name.
fn for_96(field: usize, limit: Limit) -> Limit
    ensures { result ≡ for96 field limit }
{
    match field {
        POSTAL_CODE => Limit(3, limit.1),
        WEIGHT => Limit(1, limit.1),
        NAME => Limit(0, 0),
        _ => limit,
    }
}

// The limits of a field of a version, 0 for field No. 1; 0 and 0 where there is none.
pub fn limits_in(version: Version, field: usize) -> Limit
    ensures { result ≡ limit_of (version_row version) field }
{
    let limit = LIMITS.get(field).copied().unwrap_or(Limit(0, 0));
    match version {
        Version::Version02 => limit,
        Version::Version96 => for_96(field, limit),
    }
}

// The same by the version's number, 0 for 02 and 1 for 96; 0 and 0 for any other. It takes every number, as docs/promises has it.
pub fn limits_of(version: usize, field: usize) -> Limit
    ensures { result ≡ limit_of version field }
{
    match version {
        0 => limits_in(Version::Version02, field),
        1 => limits_in(Version::Version96, field),
        _ => Limit(0, 0),
    }
}

// Whether a field may have so many bytes.
pub fn fits(version: Version, field: usize, size: usize) -> bool
    ensures { result ≡ size_within (limit_of (version_row version) field) size }
{
    let limit = limits_in(version, field);
    (usize::from(limit.0) <= size) & (size <= usize::from(limit.1))
}

// How many fields a version has at most.
pub fn most_fields(version: Version) -> usize
    ensures { result ≡ most_fields version }
{
    match version {
        Version::Version02 => MOST_FIELDS_02,
        Version::Version96 => MOST_FIELDS_96,
    }
}
