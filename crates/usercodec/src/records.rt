// Writes and reads records as bytes.
ghost use Rattle.std.specs.Prelude.{◌≡◌, ℕ, List, ◌++◌, ◌∷◌, length, take, IfOk, OnOk};
ghost use Rattle.std.specs.Prelude.{◌≤◌, ◌<◌, ◌+◌, OnErr, vec_capacity, vec_len};
ghost use Rattle.usercodec.specs.declared.records.Record.{Record};
ghost use Rattle.usercodec.specs.Answers.{Makes, Passes, Decodes, Reads};
ghost use Rattle.usercodec.specs.Records.{record_bytes, HasShape, IsGoodRecord, record_fields_at, record_at};

use crate::bans::{held_ban_fields, put_ban};
use crate::decoded::Decoded;
use crate::fault::{CodecError, CodecFault};
use crate::reader::Reader;
use crate::user_fields::user_fields;
use crate::users::put_user;
use bytetext::{Failure, NoMemory, TryCopy};
use std::alloc::Global;
use userfile::{Ban, User};

/// One record of a userfile.
#[derive(Debug, Drop)]
pub enum Record {
    /// A user.
    User(User),
    /// A ban.
    Ban(Ban),
}

impl TryCopy for Record {
    fn copy(&self, alloc: Global) -> Result<Record, NoMemory> {
        match self {
            Record::User(user) => Ok(Record::User(user.copy(alloc)?)),
            Record::Ban(ban) => Ok(Record::Ban(ban.copy(alloc)?)),
        }
    }
}

/// Returns the one spelling of the record `value`. The record must have a good shape, as each record of a userfile has.
///
/// # Errors
/// `NoMemory` if the spelling cannot be allocated.
pub fn write_record(alloc: Global, value: &Record) -> Result<Vec<u8>, NoMemory>
    requires { HasShape value.now }
    ensures { IfOk result (λ bytes. bytes.items ≡ record_bytes value.now) }
{
    let mut bytes = Vec::new(alloc);
    put_record(&mut bytes, value)?;
    Ok(bytes)
}

/// Appends the one spelling of the record `value` to `out`.
///
/// # Errors
/// `NoMemory` if `out` must grow and cannot, never if it has the capacity. A part of the spelling may then be appended.
pub fn put_record(out: &mut Vec<u8>, value: &Record) -> Result<(), NoMemory>
    requires { HasShape value.now }
    ensures bytes { OnOk result (out.new.items ≡ out.old.items ++ record_bytes value.now) }
    ensures memory { OnErr result (vec_capacity out.old < vec_len out.old + length (record_bytes value.now)) }
    ensures capacity { vec_capacity out.old ≤ vec_capacity out.new }
{
    match value {
        Record::User(user) => put_user(out, user),
        Record::Ban(ban) => put_ban(out, ban),
    }
}

/// Reads the record at the front of `bytes`.
///
/// # Errors
/// `Refused` with the first fault of the bytes from the left: [`CodecFault::Short`](crate::CodecFault::Short),
/// `BadTag` or `NotCanonical`. `NoMemory` if there is no fault and the record cannot be allocated.
pub fn read_record(alloc: Global, bytes: &[u8]) -> Result<Decoded<Record>, CodecError>
    ensures good { IfOk result (λ read. IsGoodRecord read.value) }
    // The front of the bytes is the spelling of what is read.
    ensures front { IfOk result (λ read. take read.used bytes.now ≡ record_bytes read.value) }
    ensures used { IfOk result (λ read. read.used ≡ length (record_bytes read.value)) }
    // If the front of the bytes is the spelling of a record, that record is read.
    ensures only { (value : Record) (rest : List ℕ) → IsGoodRecord value
        → bytes.now ≡ record_bytes value ++ rest → Reads result value (length (record_bytes value)) }
    // Which fault a failed read returns.
    ensures exact { Decodes bytes.now result (record_at bytes.now) }
{
    decode(alloc, bytes)
}

fn decode(alloc: Global, bytes: &[u8]) -> Result<Decoded<Record>, CodecError>
    ensures { Decodes bytes.now result (record_at bytes.now) }
{
    let mut reader = Reader::new(bytes);
    let value = tagged_record(alloc, &mut reader)?;
    Ok(Decoded {
        value,
        used: bytes.len() - reader.len(),
    })
}

#[tactic(auto, unfolding(crate::specs::Records::record_at))]
pub(crate) fn tagged_record(alloc: Global, reader: &mut Reader<'_>) -> Result<Record, CodecError>
    ensures { Makes (λ value. (value, reader.new)) result (record_at reader.old) }
{
    let tag = reader.byte()?;
    fields(alloc, tag, reader)
}

#[tactic(auto, unfolding(crate::specs::Records::record_fields_at))]
fn fields(alloc: Global, tag: u8, reader: &mut Reader<'_>) -> Result<Record, CodecError>
    ensures { Makes (λ value. (value, reader.new)) result (record_fields_at tag reader.old) }
{
    match tag {
        3 => {
            let user = user_fields(reader)?;
            Ok(Record::User(user.copy(alloc)?))
        }
        4 => {
            let ban = held_ban_fields(reader)?;
            Ok(Record::Ban(ban.copy(alloc)?))
        }
        _ => Err(Failure::Refused(CodecFault::BadTag)),
    }
}

// Passes over a record without building it.
#[tactic(auto, unfolding(crate::specs::Records::record_at))]
pub(crate) fn pass_record(reader: &mut Reader<'_>) -> Result<(), CodecError>
    ensures { Passes result (record_at reader.old) reader.new }
{
    let tag = reader.byte()?;
    pass_fields(tag, reader)
}

#[tactic(auto, unfolding(crate::specs::Records::record_fields_at))]
fn pass_fields(tag: u8, reader: &mut Reader<'_>) -> Result<(), CodecError>
    ensures { Passes result (record_fields_at tag reader.old) reader.new }
{
    match tag {
        3 => {
            user_fields(reader)?;
            Ok(())
        }
        4 => {
            held_ban_fields(reader)?;
            Ok(())
        }
        _ => Err(Failure::Refused(CodecFault::BadTag)),
    }
}
