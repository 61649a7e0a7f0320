// Entries as bytes.
ghost use Rattle.std.specs.Prelude.{◌≡◌, None, IfOk, IfErr, IfSome, OnOk, ◌++◌, ◌∷◌};
ghost use Rattle.userfile.specs.Apply.{bad_shape};
ghost use Rattle.std.specs.Int.{w16, w32};
ghost use Rattle.usercodec.specs.Answers.{Gives};
ghost use Rattle.usercodec.specs.Fields.{number};
ghost use Rattle.usercodec.specs.Changes.{change_bytes};
ghost use Rattle.botjournal.specs.declared.entry.Entry.{Entry};
ghost use Rattle.botjournal.specs.Entries.{entry_bytes, entry_in, IsGoodEntry, IsGoodEntryBy, HasShape, IsEntryOf, FindsEntry};
ghost use Rattle.botjournal.specs.Entries.{entry_at, entry_fields_at, accepted_at, settled_at, applied_at};
ghost use Rattle.botjournal.specs.Entries.{request_out_at, request_done_at, MakesEntry, TakesMemory};
ghost use Rattle.botjournal.specs.declared.layouts.Layout.TheVariants.{Fourth};

use crate::entry::Entry;
use crate::layouts::{Layout, change};
use bytetext::{Failure, NoMemory};
use std::alloc::Global;
use usercodec::{CodecError, CodecFault, Reader, byte_of_fault, put_change, put_u16, put_u32};
use userfile::Change;

/// Returns the one spelling of `entry`.
///
/// # Errors
/// `NoMemory` if it cannot allocate room for it.
pub fn write_entry(alloc: Global, entry: &Entry) -> Result<Vec<u8>, NoMemory>
    requires { HasShape entry.now }
    ensures { IfOk result (λ bytes. bytes.items ≡ entry_bytes entry.now) }
{
    let mut bytes = Vec::new(alloc);
    put_entry(&mut bytes, entry)?;
    Ok(bytes)
}

fn put_entry(out: &mut Vec<u8>, entry: &Entry) -> Result<(), NoMemory>
    requires { HasShape entry.now }
    ensures { OnOk result (out.new.items ≡ out.old.items ++ entry_bytes entry.now) }
{
    match entry {
        Entry::Accepted {
            origin,
            request,
            change,
        } => {
            put_request(out, 1, *origin, *request)?;
            put_change(out, change)
        }
        Entry::Settled {
            leaf,
            request,
            fault,
        } => {
            put_request(out, 2, *leaf, *request)?;
            out.push(byte_of_fault(*fault))?;
            Ok(())
        }
        Entry::Applied { number, change } => put_numbered(out, 3, *number, change),
        Entry::ReqOut { request, change } => put_numbered(out, 4, *request, change),
        Entry::ReqDone { request } => {
            out.push(5)?;
            put_u32(out, *request)
        }
    }
}

// A tag, a bot and the number of its request.
fn put_request(out: &mut Vec<u8>, tag: u8, bot: u16, request: u32) -> Result<(), NoMemory>
    ensures { OnOk result (out.new.items ≡ out.old.items ++ tag ∷ (number w16 bot ++ number w32 request)) }
{
    out.push(tag)?;
    put_u16(out, bot)?;
    put_u32(out, request)
}

// A tag, a number and a change.
fn put_numbered(out: &mut Vec<u8>, tag: u8, n: u32, change: &Change) -> Result<(), NoMemory>
    requires { bad_shape change.now ≡ None }
    ensures { OnOk result (out.new.items ≡ out.old.items ++ tag ∷ (number w32 n ++ change_bytes change.now)) }
{
    out.push(tag)?;
    put_u32(out, n)?;
    put_change(out, change)
}

/// Returns the entry whose spelling is all of `bytes`, or `None` if they are no entry's spelling.
///
/// # Errors
/// `NoMemory` if it cannot allocate room for the entry's change; never if the bytes begin with no entry, or with one
/// that has no change.
pub fn read_entry(alloc: Global, bytes: &[u8]) -> Result<Option<Entry>, NoMemory>
    ensures exact { IfOk result (λ read. read ≡ entry_in Fourth bytes.now) }
    // What it reads is spelled by the bytes.
    ensures spelled { IfOk result (λ read. IsEntryOf Fourth bytes.now read) }
    // It reads whatever has a spelling.
    ensures only { (entry : Entry) → IsGoodEntry entry → bytes.now ≡ entry_bytes entry → FindsEntry entry result }
    ensures memory { IfErr result (λ _. TakesMemory (entry_at Fourth bytes.now)) }
{
    read_entry_by(alloc, Layout::Fourth, bytes)
}

/// Returns the entry whose spelling in `layout` is all of `bytes`, or `None` if they are no entry's spelling.
pub(crate) fn read_entry_by(
    alloc: Global,
    layout: Layout,
    bytes: &[u8],
) -> Result<Option<Entry>, NoMemory>
    ensures exact { IfOk result (λ read. read ≡ entry_in layout bytes.now) }
    // What it reads is spelled by the bytes.
    ensures spelled { IfOk result (λ read. IsEntryOf layout bytes.now read) }
    // It reads whatever has a spelling.
    ensures only { (entry : Entry) → IsGoodEntryBy layout entry → bytes.now ≡ entry_bytes entry → FindsEntry entry result }
    // What any layout spelled may be written.
    ensures good { IfOk result (λ read. IfSome read IsGoodEntry) }
    ensures memory { IfErr result (λ _. TakesMemory (entry_at layout bytes.now)) }
{
    read_whole(alloc, layout, bytes)
}

fn read_whole(alloc: Global, layout: Layout, bytes: &[u8]) -> Result<Option<Entry>, NoMemory>
    ensures read { IfOk result (λ read. read ≡ entry_in layout bytes.now) }
    ensures memory { IfErr result (λ _. TakesMemory (entry_at layout bytes.now)) }
{
    let mut reader = Reader::new(bytes);
    match entry(alloc, layout, &mut reader) {
        Ok(entry) => {
            if reader.is_empty() {
                return Ok(Some(entry));
            }
            Ok(None)
        }
        Err(Failure::Refused(_)) => Ok(None),
        Err(Failure::NoMemory) => Err(NoMemory),
    }
}

#[tactic(auto, unfolding(crate::specs::Entries::entry_at))]
fn entry(alloc: Global, layout: Layout, reader: &mut Reader<'_>) -> Result<Entry, CodecError>
    ensures { MakesEntry result reader.new (entry_at layout reader.old) }
{
    let tag = reader.byte()?;
    tagged(alloc, layout, tag, reader)
}

#[tactic(auto, unfolding(crate::specs::Entries::entry_fields_at))]
fn tagged(
    alloc: Global,
    layout: Layout,
    tag: u8,
    reader: &mut Reader<'_>,
) -> Result<Entry, CodecError>
    ensures { MakesEntry result reader.new (entry_fields_at layout tag reader.old) }
{
    match tag {
        1 => accepted(alloc, layout, reader),
        2 => settled(reader),
        3 => applied(alloc, layout, reader),
        4 => request_out(alloc, layout, reader),
        5 => request_done(reader),
        _ => Err(Failure::Refused(CodecFault::BadTag)),
    }
}

#[tactic(auto, unfolding(crate::specs::Entries::accepted_at))]
fn accepted(alloc: Global, layout: Layout, reader: &mut Reader<'_>) -> Result<Entry, CodecError>
    ensures { MakesEntry result reader.new (accepted_at layout reader.old) }
{
    let origin = reader.u16()?;
    let request = reader.u32()?;
    let change = change(alloc, layout, reader)?;
    Ok(Entry::Accepted {
        origin,
        request,
        change,
    })
}

#[tactic(auto, unfolding(crate::specs::Entries::settled_at))]
fn settled(reader: &mut Reader<'_>) -> Result<Entry, CodecError>
    ensures { Gives (λ entry. (entry, reader.new)) result (settled_at reader.old) }
{
    let leaf = reader.u16()?;
    let request = reader.u32()?;
    let fault = reader.fault()?;
    Ok(Entry::Settled {
        leaf,
        request,
        fault,
    })
}

#[tactic(auto, unfolding(crate::specs::Entries::applied_at))]
fn applied(alloc: Global, layout: Layout, reader: &mut Reader<'_>) -> Result<Entry, CodecError>
    ensures { MakesEntry result reader.new (applied_at layout reader.old) }
{
    let number = reader.u32()?;
    let change = change(alloc, layout, reader)?;
    Ok(Entry::Applied { number, change })
}

#[tactic(auto, unfolding(crate::specs::Entries::request_out_at))]
fn request_out(alloc: Global, layout: Layout, reader: &mut Reader<'_>) -> Result<Entry, CodecError>
    ensures { MakesEntry result reader.new (request_out_at layout reader.old) }
{
    let request = reader.u32()?;
    let change = change(alloc, layout, reader)?;
    Ok(Entry::ReqOut { request, change })
}

#[tactic(auto, unfolding(crate::specs::Entries::request_done_at))]
fn request_done(reader: &mut Reader<'_>) -> Result<Entry, CodecError>
    ensures { Gives (λ entry. (entry, reader.new)) result (request_done_at reader.old) }
{
    let request = reader.u32()?;
    Ok(Entry::ReqDone { request })
}
