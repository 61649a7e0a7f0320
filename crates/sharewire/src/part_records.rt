// The records of one part: their count in a byte, and each of them.
ghost use Rattle.std.specs.Prelude.{◌≡◌, ◌++◌, OnOk};
ghost use Rattle.usercodec.specs.Answers.{Finds};
ghost use Rattle.usercodec.specs.Fields.{counted};
ghost use Rattle.usercodec.specs.Records.{record_bytes};
ghost use Rattle.sharewire.specs.Frames.{HoldsPart};
ghost use Rattle.sharewire.specs.Bodies.{part_records_at};

use crate::limits::MAX_PART_RECORDS;
use bytetext::{Failure, NoMemory, Seq};
use std::alloc::Global;
use usercodec::{CodecError, CodecFault, Reader, Record, put_records};

pub(crate) fn put_part_records(out: &mut Vec<u8>, records: &[Record]) -> Result<(), NoMemory>
    requires { HoldsPart records.now }
    ensures { OnOk result (out.new.items ≡ out.old.items ++ counted record_bytes records.now) }
{
    out.push(records.len() as u8)?;
    put_records(out, records)
}

#[tactic(auto, unfolding(crate::specs::Bodies::part_records_at, usercodec::specs::Fields::count_at))]
pub(crate) fn part_records(
    alloc: Global,
    reader: &mut Reader<'_>,
) -> Result<Seq<Record>, CodecError>
    ensures { Finds (λ records. (records, reader.new)) result (part_records_at reader.old) }
{
    let count = reader.byte()? as usize;
    if count > MAX_PART_RECORDS {
        return Err(Failure::Refused(CodecFault::NotCanonical));
    }
    let records = reader.records(alloc, count)?;
    Ok(Seq::new(records))
}
