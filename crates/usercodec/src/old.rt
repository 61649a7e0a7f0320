// Reads changes and records as older layouts spelled them. A journal of an older layout is read once, and rewritten in
// the present one.
ghost use Rattle.std.specs.Prelude.{◌≡◌, ℕ, List, ◌++◌, length, take, IfOk};
ghost use Rattle.userfile.specs.declared.change.Change.{Change};
ghost use Rattle.usercodec.specs.declared.records.Record.{Record};
ghost use Rattle.usercodec.specs.Answers.{Makes, Decodes, Reads};
ghost use Rattle.usercodec.specs.Changes.{change_bytes};
ghost use Rattle.usercodec.specs.Old.{IsGoodNamelessChange, nameless_change_at};
ghost use Rattle.usercodec.specs.Old.{change_bytes_old, IsGoodChangeOld, fields_at_old, change_at_old};
ghost use Rattle.usercodec.specs.Old.{record_bytes_old, IsGoodRecordOld, record_fields_at_old, record_at_old};

use crate::bans::ban_fields;
use crate::change_fields::nameless_change;
use crate::decoded::Decoded;
use crate::edit_fields::edit_fields;
use crate::fault::{CodecError, CodecFault};
use crate::reader::Reader;
use crate::records::Record;
use crate::user_fields::plain_user_fields;
use bytetext::Failure;
use std::alloc::Global;
use userfile::Change;

/// Reads the change at the front of `bytes`, as the layouts 2 and 3 spelled it: as now, but without the tag 12, so that
/// each change is in nobody's name.
///
/// # Errors
/// Those of [`read_change`](crate::read_change).
pub fn read_nameless_change(alloc: Global, bytes: &[u8]) -> Result<Decoded<Change>, CodecError>
    ensures good { IfOk result (λ read. IsGoodNamelessChange read.value) }
    // The front of the bytes is the spelling of what is read.
    ensures front { IfOk result (λ read. take read.used bytes.now ≡ change_bytes read.value) }
    ensures used { IfOk result (λ read. read.used ≡ length (change_bytes read.value)) }
    // If the front of the bytes is the spelling of a change in nobody's name, that change is read.
    ensures only { (change : Change) (rest : List ℕ) → IsGoodNamelessChange change
        → bytes.now ≡ change_bytes change ++ rest → Reads result change (length (change_bytes change)) }
    // Which fault a failed read returns.
    ensures exact { Decodes bytes.now result (nameless_change_at bytes.now) }
{
    decode_nameless(alloc, bytes)
}

fn decode_nameless(alloc: Global, bytes: &[u8]) -> Result<Decoded<Change>, CodecError>
    ensures { Decodes bytes.now result (nameless_change_at bytes.now) }
{
    let mut reader = Reader::new(bytes);
    let value = nameless_change(alloc, &mut reader)?;
    Ok(Decoded {
        value,
        used: bytes.len() - reader.len(),
    })
}

/// Reads the change at the front of `bytes`, as layout 1 spelled it: as now, but without the tags 10 to 12.
///
/// # Errors
/// Those of [`read_change`](crate::read_change).
pub fn read_change_old(alloc: Global, bytes: &[u8]) -> Result<Decoded<Change>, CodecError>
    ensures good { IfOk result (λ read. IsGoodChangeOld read.value) }
    // The front of the bytes is layout 1's spelling of what is read.
    ensures front { IfOk result (λ read. take read.used bytes.now ≡ change_bytes_old read.value) }
    ensures used { IfOk result (λ read. read.used ≡ length (change_bytes_old read.value)) }
    // If the front of the bytes is layout 1's spelling of a change, that change is read.
    ensures only { (change : Change) (rest : List ℕ) → IsGoodChangeOld change
        → bytes.now ≡ change_bytes_old change ++ rest → Reads result change (length (change_bytes_old change)) }
    // Which fault a failed read returns.
    ensures exact { Decodes bytes.now result (change_at_old bytes.now) }
{
    decode_change(alloc, bytes)
}

fn decode_change(alloc: Global, bytes: &[u8]) -> Result<Decoded<Change>, CodecError>
    ensures { Decodes bytes.now result (change_at_old bytes.now) }
{
    let mut reader = Reader::new(bytes);
    let value = change_old(alloc, &mut reader)?;
    Ok(Decoded {
        value,
        used: bytes.len() - reader.len(),
    })
}

#[tactic(auto, unfolding(crate::specs::Old::change_at_old))]
pub(crate) fn change_old(alloc: Global, reader: &mut Reader<'_>) -> Result<Change, CodecError>
    ensures { Makes (λ change. (change, reader.new)) result (change_at_old reader.old) }
{
    let tag = reader.byte()?;
    fields_old(alloc, tag, reader)
}

#[tactic(auto, unfolding(crate::specs::Old::fields_at_old))]
fn fields_old(alloc: Global, tag: u8, reader: &mut Reader<'_>) -> Result<Change, CodecError>
    ensures { Makes (λ change. (change, reader.new)) result (fields_at_old tag reader.old) }
{
    if 1 <= tag && tag <= 9 {
        let edit = edit_fields(alloc, tag, reader)?;
        return Ok(Change::by_nobody(edit));
    }
    Err(Failure::Refused(CodecFault::BadTag))
}

/// Reads the record at the front of `bytes`, as layout 1 spelled it: the tags 1 and 2, a user without an info text and
/// a ban that isn't sticky.
///
/// # Errors
/// Those of [`read_record`](crate::read_record).
pub fn read_record_old(alloc: Global, bytes: &[u8]) -> Result<Decoded<Record>, CodecError>
    ensures good { IfOk result (λ read. IsGoodRecordOld read.value) }
    // The front of the bytes is layout 1's spelling of what is read.
    ensures front { IfOk result (λ read. take read.used bytes.now ≡ record_bytes_old read.value) }
    ensures used { IfOk result (λ read. read.used ≡ length (record_bytes_old read.value)) }
    // If the front of the bytes is layout 1's spelling of a record, that record is read.
    ensures only { (value : Record) (rest : List ℕ) → IsGoodRecordOld value
        → bytes.now ≡ record_bytes_old value ++ rest → Reads result value (length (record_bytes_old value)) }
    // Which fault a failed read returns.
    ensures exact { Decodes bytes.now result (record_at_old bytes.now) }
{
    decode_record(alloc, bytes)
}

fn decode_record(alloc: Global, bytes: &[u8]) -> Result<Decoded<Record>, CodecError>
    ensures { Decodes bytes.now result (record_at_old bytes.now) }
{
    let mut reader = Reader::new(bytes);
    let value = tagged_record_old(alloc, &mut reader)?;
    Ok(Decoded {
        value,
        used: bytes.len() - reader.len(),
    })
}

#[tactic(auto, unfolding(crate::specs::Old::record_at_old))]
pub(crate) fn tagged_record_old(
    alloc: Global,
    reader: &mut Reader<'_>,
) -> Result<Record, CodecError>
    ensures { Makes (λ value. (value, reader.new)) result (record_at_old reader.old) }
{
    let tag = reader.byte()?;
    record_fields_old(alloc, tag, reader)
}

#[tactic(auto, unfolding(crate::specs::Old::record_fields_at_old))]
fn record_fields_old(alloc: Global, tag: u8, reader: &mut Reader<'_>) -> Result<Record, CodecError>
    ensures { Makes (λ value. (value, reader.new)) result (record_fields_at_old tag reader.old) }
{
    match tag {
        1 => {
            let user = plain_user_fields(reader)?;
            Ok(Record::User(user.copy(alloc)?))
        }
        2 => {
            let ban = ban_fields(reader)?;
            Ok(Record::Ban(ban.copy(alloc)?))
        }
        _ => Err(Failure::Refused(CodecFault::BadTag)),
    }
}
