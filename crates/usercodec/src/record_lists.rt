// Writes and reads several records, one after the other.
ghost use Rattle.std.specs.Prelude.{◌≡◌, ◌≤◌, ◌<◌, ◌+◌, ◌++◌, length, OnOk, OnErr, IfErr, vec_capacity, vec_len};
ghost use Rattle.std.specs.List.{AllByRecursion, flat_map};
ghost use Rattle.usercodec.specs.Answers.{Finds, Passes};
ghost use Rattle.usercodec.specs.Records.{record_bytes, HasShape, so_many_records_at};
ghost use Rattle.usercodec.specs.Old.{so_many_records_at_old};

use crate::fault::CodecError;
use crate::old::tagged_record_old;
use crate::reader::Reader;
use crate::records::{Record, pass_record, put_record, tagged_record};
use bytetext::NoMemory;
use std::alloc::Global;

/// Appends the one spelling of each of the `records` to `out`, one after the other, without their number.
///
/// # Errors
/// `NoMemory` if `out` must grow and cannot, never if it has the capacity. A part of the spellings may then be
/// appended.
pub fn put_records(out: &mut Vec<u8>, records: &[Record]) -> Result<(), NoMemory>
    requires { AllByRecursion HasShape records.now }
    ensures bytes { OnOk result (out.new.items ≡ out.old.items ++ flat_map record_bytes records.now) }
    ensures memory { OnErr result (vec_capacity out.old < vec_len out.old + length (flat_map record_bytes records.now)) }
    ensures capacity { vec_capacity out.old ≤ vec_capacity out.new }
{
    for value in records {
        put_record(out, value)?;
    }
    Ok(())
}

pub(crate) fn tagged_records(
    alloc: Global,
    reader: &mut Reader<'_>,
    count: usize,
) -> Result<Vec<Record>, CodecError>
    ensures value { Finds (λ records. (records.items, reader.new)) result (so_many_records_at count reader.old) }
    ensures memory { IfErr result (λ _. 0 < count) }
{
    let mut records = Vec::new(alloc);
    for _ in 0..count {
        match tagged_record(alloc, reader) {
            Ok(value) => records.push(value)?,
            Err(error) => return Err(error),
        }
    }
    Ok(records)
}

// Passes over `count` records without building them.
pub(crate) fn pass_records(reader: &mut Reader<'_>, count: usize) -> Result<(), CodecError>
    ensures { Passes result (so_many_records_at count reader.old) reader.new }
{
    for _ in 0..count {
        pass_record(reader)?;
    }
    Ok(())
}

// Reads records as layout 1 spelled them.
pub(crate) fn tagged_records_old(
    alloc: Global,
    reader: &mut Reader<'_>,
    count: usize,
) -> Result<Vec<Record>, CodecError>
    ensures value { Finds (λ records. (records.items, reader.new)) result (so_many_records_at_old count reader.old) }
    ensures memory { IfErr result (λ _. 0 < count) }
{
    let mut records = Vec::new(alloc);
    for _ in 0..count {
        match tagged_record_old(alloc, reader) {
            Ok(value) => records.push(value)?,
            Err(error) => return Err(error),
        }
    }
    Ok(records)
}
