// The library for other programs: reading, writing and parts, with answers as structs of numbers. `rt lib` here makes
// the archive; zielorad.h tells C and C++ of it. Each function is thin over the proved one and has the same equations.
#![tactic(auto)]

ghost use Rattle.std.specs.Prelude.{◌≡◌};
ghost use Rattle.label.specs.Answer.{table_after};
ghost use Rattle.label.specs.Writing.{output_after};
ghost use Rattle.zielorad.specs.Crossing.{edition_in, reading_for, written_for, part_for};

use label::Edition;

// What reading answers: number 0 is acceptance, with the counts; any other a refusal, with its place. C has no Result.
#[repr(C)]
#[derive(Clone, Copy)]
pub struct ZieloradReading {
    pub number: u32,
    pub place: u32,
    pub envelopes: u32,
    pub rows: u32,
}

// What writing answers: number 0 and the byte count, or a refusal.
#[repr(C)]
#[derive(Clone, Copy)]
pub struct ZieloradWritten {
    pub number: u32,
    pub count: u32,
}

// Where a row's part lies in the message.
#[repr(C)]
#[derive(Clone, Copy)]
pub struct ZieloradPart {
    pub start: usize,
    pub length: usize,
}

// The first year that the edition of 2025 is meant by.
const YEAR_2025: u32 = 2025;

// The edition that a year means (02, No. 3): every number means one.
fn edition_in(year: u32) -> Edition
    ensures { result ≡ edition_in year }
{
    if year < YEAR_2025 {
        Edition::Edition2005
    } else {
        Edition::Edition2025
    }
}

// Reads a message into a table, in the edition that a year means; see `reader::read`.
#[unsafe(no_mangle)]
pub extern "C" fn zielorad_read(edition: u32, message: &[u8], table: &mut [u32]) -> ZieloradReading
    ensures answer { result ≡ reading_for edition message.now table.old }
    ensures rows { table.new ≡ table_after (edition_in edition) message.now table.old }
{
    match reader::read(edition_in(edition), message, table) {
        Ok(counts) => ZieloradReading {
            number: 0,
            place: 0,
            envelopes: counts.envelopes as u32,
            rows: counts.rows as u32,
        },
        Err(refusal) => ZieloradReading {
            number: numbers::number_of(refusal.reason),
            place: refusal.place as u32,
            envelopes: 0,
            rows: 0,
        },
    }
}

// Writes rows over data to an output; see `writer::write`.
#[unsafe(no_mangle)]
pub extern "C" fn zielorad_write(
    edition: u32,
    held: &[u8],
    rows: &[u32],
    output: &mut [u8],
) -> ZieloradWritten
    ensures answer { result ≡ written_for edition held.now rows.now output.old }
    ensures bytes { output.new ≡ output_after (edition_in edition) held.now rows.now output.old }
{
    match writer::write(edition_in(edition), held, rows, output) {
        Ok(count) => ZieloradWritten {
            number: 0,
            count: count as u32,
        },
        Err(reason) => ZieloradWritten {
            number: numbers::write_number_of(reason),
            count: 0,
        },
    }
}

// Where the part of a row lies; see `reader::part`, which hands it back.
#[unsafe(no_mangle)]
pub extern "C" fn zielorad_part_of(edition: u32, message: &[u8], row: usize) -> ZieloradPart
    ensures { result ≡ part_for edition message.now row }
{
    let stretch = reader::stretch_of(edition_in(edition), message, row);
    ZieloradPart {
        start: stretch.start,
        length: stretch.length,
    }
}
