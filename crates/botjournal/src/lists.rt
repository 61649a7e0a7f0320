// Lists of records and replies, each after its count.
ghost use Rattle.std.specs.Prelude.{◌≡◌, ◌++◌, ◌<◌, ◌^◌, IfErr, OnOk, [], length, true};
ghost use Rattle.std.specs.List.{AllByRecursion};
ghost use Rattle.usercodec.specs.Answers.{Gives, Finds};
ghost use Rattle.usercodec.specs.Fields.{number};
ghost use Rattle.usercodec.specs.Records.{record_bytes, HasShape, items_at};
ghost use Rattle.botjournal.specs.Bases.{listed, answer_bytes, reply_bytes};
ghost use Rattle.botjournal.specs.Bases.{are_rising, is_next_reply, may_follow, are_kept, are_kept_by};
ghost use Rattle.botjournal.specs.Empty.{FindsSome};
ghost use Rattle.botjournal.specs.Passing.{PassesSome};
ghost use Rattle.botjournal.specs.declared.TheConstants.{WINDOW};
ghost use Rattle.botjournal.specs.Bases.{answer_at, answer_from, reply_at, records_at, replies_at, replies_listed_at};

use crate::WINDOW;
use crate::layouts::{Layout, pass_so_many_records, so_many_records};
use crate::reply::{Reply, Verdict};
use bytetext::{Failure, NoMemory, Seq};
use std::alloc::Global;
use usercodec::{
    CodecError, CodecFault, Reader, Record, byte_of_fault, fault_of_byte, put_u16, put_u32,
};

// ---- written

pub(crate) fn put_records(out: &mut Vec<u8>, records: &[Record]) -> Result<(), NoMemory>
    requires few { length records.now < 2 ^ 16 }
    requires good { AllByRecursion HasShape records.now }
    ensures { OnOk result (out.new.items ≡ out.old.items ++ listed record_bytes records.now) }
{
    put_u16(out, records.len() as u16)?;
    usercodec::put_records(out, records)
}

pub(crate) fn put_replies(out: &mut Vec<u8>, replies: &[Reply]) -> Result<(), NoMemory>
    requires few { length replies.now < 2 ^ 16 }
    ensures { OnOk result (out.new.items ≡ out.old.items ++ listed reply_bytes replies.now) }
{
    put_u16(out, replies.len() as u16)?;
    for reply in replies {
        put_reply(out, *reply)?;
    }
    Ok(())
}

fn put_reply(out: &mut Vec<u8>, reply: Reply) -> Result<(), NoMemory>
    ensures { OnOk result (out.new.items ≡ out.old.items ++ reply_bytes reply) }
{
    put_u16(out, reply.leaf)?;
    put_u32(out, reply.request)?;
    put_answer(out, reply.answer)
}

fn put_answer(out: &mut Vec<u8>, answer: Verdict) -> Result<(), NoMemory>
    ensures { OnOk result (out.new.items ≡ out.old.items ++ answer_bytes answer) }
{
    match answer {
        Verdict::Taken(number) => {
            out.push(0)?;
            put_u32(out, number)
        }
        Verdict::Refused(fault) => {
            out.push(byte_of_fault(fault))?;
            Ok(())
        }
    }
}

// ---- read

#[tactic(auto, unfolding(crate::specs::Bases::records_at))]
pub(crate) fn records(
    alloc: Global,
    layout: Layout,
    reader: &mut Reader<'_>,
) -> Result<Seq<Record>, CodecError>
    ensures { FindsSome (λ records. (records, reader.new)) (λ x. 0 < length x.0) result (records_at layout reader.old) }
{
    let count = reader.u16()?;
    let records = so_many_records(alloc, layout, reader, count as usize)?;
    Ok(Seq::new(records))
}

// Passes over the records that follow their count.
#[tactic(auto, unfolding(crate::specs::Bases::records_at))]
pub(crate) fn pass_records(
    alloc: Global,
    layout: Layout,
    reader: &mut Reader<'_>,
) -> Result<(), CodecError>
    ensures { PassesSome result (records_at layout reader.old) reader.new }
{
    let count = reader.u16()?;
    pass_so_many_records(alloc, layout, reader, count as usize)
}

#[tactic(auto, unfolding(crate::specs::Bases::replies_at))]
pub(crate) fn replies(
    alloc: Global,
    layout: Layout,
    reader: &mut Reader<'_>,
) -> Result<Seq<Reply>, CodecError>
    ensures { FindsSome (λ replies. (replies, reader.new)) (λ x. 0 < length x.0) result (replies_at layout reader.old) }
{
    let replies = listed_replies(alloc, reader)?;
    if !are_kept_by(layout, &replies) {
        return Err(Failure::Refused(CodecFault::NotCanonical));
    }
    Ok(Seq::new(replies))
}

#[tactic(auto, unfolding(crate::specs::Bases::replies_listed_at))]
fn listed_replies(alloc: Global, reader: &mut Reader<'_>) -> Result<Vec<Reply>, CodecError>
    ensures { FindsSome (λ replies. (replies.items, reader.new)) (λ x. 0 < length x.0) result (replies_listed_at reader.old) }
{
    let count = reader.u16()?;
    so_many_replies(alloc, reader, count)
}

fn so_many_replies(
    alloc: Global,
    reader: &mut Reader<'_>,
    count: u16,
) -> Result<Vec<Reply>, CodecError>
    ensures value { Finds (λ replies. (replies.items, reader.new)) result
        (items_at (λ held bytes. reply_at bytes) count [] reader.old) }
    ensures memory { IfErr result (λ _. 0 < count) }
{
    let mut replies = Vec::new(alloc);
    for _ in 0..count {
        match reply(reader) {
            Ok(reply) => replies.push(reply)?,
            Err(error) => return Err(error),
        }
    }
    Ok(replies)
}

#[tactic(auto, unfolding(crate::specs::Bases::reply_at))]
fn reply(reader: &mut Reader<'_>) -> Result<Reply, CodecError>
    ensures { Gives (λ reply. (reply, reader.new)) result (reply_at reader.old) }
{
    let leaf = reader.u16()?;
    let request = reader.u32()?;
    let answer = answer(reader)?;
    Ok(Reply {
        leaf,
        request,
        answer,
    })
}

#[tactic(auto, unfolding(crate::specs::Bases::answer_at))]
fn answer(reader: &mut Reader<'_>) -> Result<Verdict, CodecError>
    ensures { Gives (λ answer. (answer, reader.new)) result (answer_at reader.old) }
{
    let byte = reader.byte()?;
    answer_of(byte, reader)
}

#[tactic(auto, unfolding(crate::specs::Bases::answer_from))]
fn answer_of(byte: u8, reader: &mut Reader<'_>) -> Result<Verdict, CodecError>
    ensures { Gives (λ answer. (answer, reader.new)) result (answer_from byte reader.old) }
{
    if byte == 0 {
        return Ok(Verdict::Taken(reader.u32()?));
    }
    match fault_of_byte(byte) {
        Some(fault) => Ok(Verdict::Refused(fault)),
        None => Err(Failure::Refused(CodecFault::NotCanonical)),
    }
}

// ---- which replies a hub keeps

fn are_kept_by(layout: Layout, replies: &[Reply]) -> bool
    ensures { result ≡ are_kept_by layout replies.now }
{
    match layout {
        Layout::First => rise(replies),
        Layout::Second => rise(replies),
        Layout::Third => are_kept(replies),
        Layout::Fourth => are_kept(replies),
    }
}

// Whether each reply is to a leaf above that of the reply before it.
fn rise(replies: &[Reply]) -> bool
    ensures { result ≡ are_rising replies.now }
{
    let mut least = 0;
    for reply in replies {
        if (reply.leaf as u32) < least {
            return false;
        }
        least = reply.leaf as u32 + 1;
    }
    true
}

// Whether these are the last replies to each leaf, leaf by leaf.
fn are_kept(replies: &[Reply]) -> bool
    ensures { result ≡ are_kept replies.now }
{
    match replies {
        [] => true,
        [reply, rest @ ..] => may_follow(*reply, rest),
    }
}

// Whether `replies` may follow `first`, the first one to its leaf.
fn may_follow(first: Reply, replies: &[Reply]) -> bool
    ensures { result ≡ may_follow first 1 replies.now }
{
    let mut before = first;
    let mut count = 1;
    for reply in replies {
        if before.leaf < reply.leaf {
            count = 1;
        } else if is_next_reply(before, *reply) && count < WINDOW {
            count += 1;
        } else {
            return false;
        }
        before = *reply;
    }
    true
}

// Whether the second reply is to the first one's leaf, and to its next request.
fn is_next_reply(first: Reply, second: Reply) -> bool
    ensures { result ≡ is_next_reply first second }
{
    second.leaf == first.leaf && second.request as u64 == first.request as u64 + 1
}
