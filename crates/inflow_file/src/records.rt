//! The records of a table, read one after the other.
ghost use Rattle.std.specs.Prelude.{◌≡◌, ◌<◌, [], length, slice_index_or, true, IfOk};
ghost use Rattle.csv.specs.Records.{fields_of};
ghost use Rattle.inflow_file.specs.CsvRecords.{records_of, is_header, is_kind_header, with_kind, IsThree, IsFour};
ghost use Rattle.inflow_file.specs.RecordsLeft.{records_left, IsReading, TakesFirst};

use csv::{ByteRecord, Reader, ReaderBuilder};
use std::alloc::{AllocError, Global};

/// A reader of the records of a table. It takes none as a header, and they may have any number of fields.
#[tactic(auto, unfolding(crate::specs::RecordsLeft::records_left, crate::specs::CsvRecords::records_of))]
pub(crate) fn reader_of(alloc: Global, text: &[u8]) -> Reader<&[u8]>
    ensures reading { IsReading result }
    ensures all { records_left result ≡ records_of text.now }
{
    ReaderBuilder::new()
        .has_headers(false)
        .flexible(true)
        .from_reader(alloc, text)
}

/// Reads the next record into `row`, and says whether there was one. It takes an error of the reader underneath for
/// want of memory: one over bytes in memory has no other.
pub(crate) fn read_row(reader: &mut Reader<&[u8]>, row: &mut ByteRecord) -> Result<bool, AllocError>
    requires { IsReading reader.old }
    ensures reading { IfOk result (λ found. found ≡ true → IsReading reader.new) }
    ensures takes { IfOk result
        (λ found. TakesFirst found (fields_of row.new) (records_left reader.old) (records_left reader.new)) }
{
    let Ok(found) = reader.read_byte_record(row) else {
        return Err(AllocError);
    };
    Ok(found)
}

/// The field at an index that a record has.
#[tactic(auto, using(crate::proofs::FieldLaws::fields))]
fn field(row: &ByteRecord, index: usize) -> &[u8]
    requires { index < length (fields_of row.now) }
    ensures { result.now ≡ slice_index_or (fields_of row.now) index [] }
{
    match row.get(index) {
        Some(field) => field,
        None => unreachable!(),
    }
}

/// The three fields of a record, or `None` where it has another number of fields.
#[tactic(auto, using(crate::proofs::FieldLaws::fields))]
fn three_fields(row: &ByteRecord) -> Option<(&[u8], &[u8], &[u8])>
    ensures { IsThree (fields_of row.now) result }
{
    if row.len() != 3 {
        return None;
    }
    Some((field(row, 0), field(row, 1), field(row, 2)))
}

/// The four fields of a record, or `None` where it has another number of fields.
#[tactic(auto, using(crate::proofs::FieldLaws::fields))]
fn four_fields(row: &ByteRecord) -> Option<(&[u8], &[u8], &[u8], &[u8])>
    ensures { IsFour (fields_of row.now) result }
{
    if row.len() != 4 {
        return None;
    }
    Some((field(row, 0), field(row, 1), field(row, 2), field(row, 3)))
}

/// The month, the kind, the name and the amount in a record after a header with kinds, or without, where the kind is
/// `inflow`. `None` where the record has another number of fields than the header.
#[tactic(auto, using(crate::proofs::FieldLaws::fields))]
pub(crate) fn fields_with_kind(
    row: &ByteRecord,
    kinds: bool,
) -> Option<(&[u8], &[u8], &[u8], &[u8])>
    ensures { IsFour (with_kind kinds (fields_of row.now)) result }
{
    if kinds {
        return four_fields(row);
    }
    match three_fields(row) {
        Some((month, name, amount)) => Some((month, b"inflow".as_slice(), name, amount)),
        None => None,
    }
}

/// Whether a record is the header with kinds.
pub(crate) fn is_kind_header(row: &ByteRecord) -> bool
    ensures { result ≡ is_kind_header (fields_of row.now) }
{
    match four_fields(row) {
        Some((first, second, third, fourth)) => {
            (first == b"month".as_slice() && second == b"kind".as_slice())
                && (third == b"name".as_slice() && fourth == b"amount".as_slice())
        }
        None => false,
    }
}

/// Whether a record is the header without kinds.
pub(crate) fn is_header(row: &ByteRecord) -> bool
    ensures { result ≡ is_header (fields_of row.now) }
{
    match three_fields(row) {
        Some((first, second, third)) => first == b"month".as_slice()
            && second == b"node".as_slice()
            && third == b"amount".as_slice(),
        None => false,
    }
}
