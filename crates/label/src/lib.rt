// The types and constants that every other crate shares, in the forms that document 01 names under 'What to write where'.
// What a message is, how it is read and what is answered stands in specs/.
#![tactic(auto)]

// The most bytes and the most rows in a message, how many numbers a row is, and the length of a table with room for the most rows
// (01, Rows; 02, No. 9).
pub const LONGEST: usize = 4096;

pub const MOST_ROWS: usize = 1024;

pub const ROW: usize = 5;

pub const TABLE: usize = ROW * MOST_ROWS;

// Which edition of the standard a message is read or written in: the caller picks it (02, No. 3). Each has its `formats` (specs/Formats).
#[derive(Clone, Copy)]
pub enum Edition {
    Edition2005,
    Edition2025,
}

// The version of format 01's fields; its number is its row in the list of their limits (01, Transport fields).
#[derive(Clone, Copy)]
pub enum Version {
    Version02 = 0,
    Version96 = 1,
}

// `[)>` RS, in front of every message, and its length.
pub const HEADER_LENGTH: usize = 4;

pub const HEADER: [u8; HEADER_LENGTH] = [0x5B, 0x29, 0x3E, 0x1E];

// How long the header values of 03, 04, 09 and 15 are (01, Envelope rules; 02, No. 3).
pub const RELEASE_LENGTH: usize = 6;

pub const LEAST_TYPE: usize = 1;

pub const MOST_TYPE: usize = 30;

pub const LEAST_COMPRESSION: usize = 0;

pub const MOST_COMPRESSION: usize = 30;

pub const LEAST_COUNT: usize = 1;

pub const MOST_COUNT: usize = 15;

// How many fields format 01 has, at least and by its version at most (01, Transport fields).
pub const LEAST_FIELDS: usize = 5;

pub const MOST_FIELDS_02: usize = 15;

pub const MOST_FIELDS_96: usize = 14;

// Why a message is refused: 'Numbers for the receiving desk', in its order, and then the faults of transport fields (02, No. 1). `number`
// of specs/Answer has each one's number.
#[derive(Clone, Copy)]
pub enum Reason {
    TooLong = 1,
    NoMessageHeader = 2,
    NoIndicator = 3,
    NoTrailer = 4,
    BytesAfterTrailer = 5,
    UnknownFormat = 6,
    NotFirst = 7,
    BadFormatHeader = 8,
    PayloadDoesNotFit = 9,
    ByteNotPermitted = 10,
    BodyBreaksRules = 11,
    NoRecordSeparator = 12,
    TooManyRows = 13,
    NoRoom = 14,
    BadFieldCount = 30,
    FieldTooShort = 31,
    FieldTooLong = 32,
    BadFieldBytes = 33,
}

// A refusal holds its reason and its place, an offset in the message, or in the body that it was looked for in (`faults`).
#[derive(Clone, Copy)]
pub struct Refusal {
    pub reason: Reason,
    pub place: usize,
}

// A stretch of a message.
#[derive(Clone, Copy)]
pub struct Stretch {
    pub start: usize,
    pub length: usize,
}

// How many envelopes and rows an accepted message has.
#[derive(Clone, Copy)]
pub struct Counts {
    pub envelopes: usize,
    pub rows: usize,
}

// What a reading answers. `answer_of` of specs/Answer has the paper's number and values for each case.
pub type Reading = Result<Counts, Refusal>;

// Why rows are not written (paragraph Writer). `write_number` of specs/Writing has each one's number.
#[derive(Clone, Copy)]
pub enum WriteReason {
    BadRows = 20,
    NoSuchMessage = 21,
    NoOutputRoom = 22,
}

// What the writer answers: the byte count, or why not. `write_answer_of` of specs/Writing has the paper's number and values.
pub type Writing = Result<usize, WriteReason>;

// The least and the greatest length of a transport field. In a byte each, since `limits` lays its table out anew at each call.
#[derive(Clone, Copy)]
pub struct Limit(pub u8, pub u8);
