// Bases as bytes.
ghost use Rattle.std.specs.Prelude.{◌≡◌, ◌<◌, ◌++◌, IfOk, IfErr, IfSome, OnOk};
ghost use Rattle.std.specs.Option.{is_some};
ghost use Rattle.botjournal.specs.declared.base.Base.{Base};
ghost use Rattle.botjournal.specs.Empty.{item_count, FindsSome};
ghost use Rattle.botjournal.specs.Bases.{base_bytes, base_in, IsGoodBase, HasShapes, IsBaseOf};
ghost use Rattle.botjournal.specs.Bases.{base_bytes_by, IsGoodBaseBy, IsBaseBy, FindsBase, is_of_its_bot};
ghost use Rattle.botjournal.specs.Bases.{parts_at, base_at};
ghost use Rattle.botjournal.specs.Passing.{FindsAround};
ghost use Rattle.botjournal.specs.declared.layouts.Layout.TheVariants.{Fourth};

use crate::base::Base;
use crate::layouts::Layout;
use crate::lists::{pass_records, put_records, put_replies, records, replies};
use crate::requests::{out, put_requests};
use bytetext::{Failure, NoMemory, Seq};
use std::alloc::Global;
use usercodec::{CodecError, CodecFault, Reader, put_u16, put_u32};

/// Returns the one spelling of `base`.
///
/// # Errors
/// `NoMemory` if it cannot allocate room for it.
pub fn write_base(alloc: Global, base: &Base) -> Result<Vec<u8>, NoMemory>
    requires { HasShapes base.now }
    ensures { IfOk result (λ bytes. bytes.items ≡ base_bytes base.now) }
{
    let mut bytes = Vec::new(alloc);
    put_base(&mut bytes, base)?;
    Ok(bytes)
}

fn put_base(out: &mut Vec<u8>, base: &Base) -> Result<(), NoMemory>
    requires { HasShapes base.now }
    ensures { OnOk result (out.new.items ≡ out.old.items ++ base_bytes base.now) }
{
    put_u16(out, base.bot)?;
    put_u32(out, base.version)?;
    put_records(out, base.records.as_slice())?;
    put_replies(out, base.replies.as_slice())?;
    put_u32(out, base.last_request)?;
    put_requests(out, base.out.as_slice())
}

/// Returns the base whose spelling is all of `bytes`, or `None` if they are no base's spelling.
///
/// # Errors
/// `NoMemory` if it cannot allocate room for the base; never if the bytes begin with a base that holds no record, no
/// reply and no request.
pub fn read_base(alloc: Global, bytes: &[u8]) -> Result<Option<Base>, NoMemory>
    ensures exact { IfOk result (λ read. read ≡ base_in Fourth bytes.now) }
    // What it reads is spelled by the bytes.
    ensures spelled { IfOk result (λ read. IsBaseOf bytes.now read) }
    // It reads whatever has a spelling.
    ensures only { (base : Base) → IsGoodBase base → bytes.now ≡ base_bytes base → FindsBase base result }
    ensures memory { IfErr result (λ _. IfOk (base_at Fourth bytes.now) (λ x. 0 < item_count x.0)) }
{
    read_base_by(alloc, Layout::Fourth, bytes)
}

/// Returns the base whose spelling in `layout` is all of `bytes`, or `None` if they are no base's spelling.
pub(crate) fn read_base_by(
    alloc: Global,
    layout: Layout,
    bytes: &[u8],
) -> Result<Option<Base>, NoMemory>
    ensures exact { IfOk result (λ read. read ≡ base_in layout bytes.now) }
    // What it reads is spelled by the bytes.
    ensures spelled { IfOk result (λ read. IsBaseBy layout bytes.now read) }
    // It reads whatever has a spelling.
    ensures only { (base : Base) → IsGoodBaseBy layout base → bytes.now ≡ base_bytes_by layout base → FindsBase base result }
    // What any layout spelled may be written.
    ensures good { IfOk result (λ read. IfSome read IsGoodBase) }
    ensures memory { IfErr result (λ _. IfOk (base_at layout bytes.now) (λ x. 0 < item_count x.0)) }
{
    read_whole(alloc, layout, bytes)
}

fn read_whole(alloc: Global, layout: Layout, bytes: &[u8]) -> Result<Option<Base>, NoMemory>
    ensures read { IfOk result (λ read. read ≡ base_in layout bytes.now) }
    ensures memory { IfErr result (λ _. IfOk (base_at layout bytes.now) (λ x. 0 < item_count x.0)) }
{
    let mut reader = Reader::new(bytes);
    match base(alloc, layout, &mut reader) {
        Ok(base) => {
            if reader.is_empty() {
                return Ok(Some(base));
            }
            Ok(None)
        }
        Err(Failure::Refused(_)) => Ok(None),
        Err(Failure::NoMemory) => Err(NoMemory),
    }
}

#[tactic(auto, unfolding(crate::specs::Bases::base_at))]
fn base(alloc: Global, layout: Layout, reader: &mut Reader<'_>) -> Result<Base, CodecError>
    ensures { FindsSome (λ base. (base, reader.new)) (λ x. 0 < item_count x.0) result (base_at layout reader.old) }
{
    let base = parts(alloc, layout, reader)?;
    if !is_of_its_bot(&base) {
        return Err(Failure::Refused(CodecFault::NotCanonical));
    }
    Ok(base)
}

#[tactic(auto, unfolding(crate::specs::Bases::parts_at))]
fn parts(alloc: Global, layout: Layout, reader: &mut Reader<'_>) -> Result<Base, CodecError>
    ensures { FindsSome (λ base. (base, reader.new)) (λ x. 0 < item_count x.0) result (parts_at layout reader.old) }
{
    let bot = reader.u16()?;
    let version = reader.u32()?;
    let records = records(alloc, layout, reader)?;
    let replies = replies(alloc, layout, reader)?;
    let (last_request, out) = out(alloc, layout, reader)?;
    Ok(Base {
        bot,
        version,
        records,
        replies,
        last_request,
        out,
    })
}

/// Returns whether all of `bytes` are the spelling of a base in `layout`. Builds its replies and requests, but no
/// record, except in layout 1.
///
/// # Errors
/// `NoMemory` if it cannot allocate room for what it builds.
pub(crate) fn is_base_by(alloc: Global, layout: Layout, bytes: &[u8]) -> Result<bool, NoMemory>
    ensures { IfOk result (λ is. is ≡ is_some (base_in layout bytes.now)) }
{
    let mut reader = Reader::new(bytes);
    match base_around(alloc, layout, &mut reader) {
        Ok(_) => Ok(reader.is_empty()),
        Err(Failure::Refused(_)) => Ok(false),
        Err(Failure::NoMemory) => Err(NoMemory),
    }
}

// Reads a base, and passes over its records: the result has none.
#[tactic(auto, unfolding(crate::specs::Bases::base_at))]
fn base_around(alloc: Global, layout: Layout, reader: &mut Reader<'_>) -> Result<Base, CodecError>
    ensures { FindsAround result (base_at layout reader.old) reader.new }
{
    let base = parts_around(alloc, layout, reader)?;
    if !is_of_its_bot(&base) {
        return Err(Failure::Refused(CodecFault::NotCanonical));
    }
    Ok(base)
}

#[tactic(auto, unfolding(crate::specs::Bases::parts_at))]
fn parts_around(alloc: Global, layout: Layout, reader: &mut Reader<'_>) -> Result<Base, CodecError>
    ensures { FindsAround result (parts_at layout reader.old) reader.new }
{
    let bot = reader.u16()?;
    let version = reader.u32()?;
    pass_records(alloc, layout, reader)?;
    let replies = replies(alloc, layout, reader)?;
    let (last_request, out) = out(alloc, layout, reader)?;
    Ok(Base {
        bot,
        version,
        records: Seq::empty(alloc),
        replies,
        last_request,
        out,
    })
}

// Whether the content of a base fits its bot: a leaf has no replies, and the hub no request.
fn is_of_its_bot(base: &Base) -> bool
    ensures { result ≡ is_of_its_bot base.now }
{
    if base.bot == 0 {
        base.last_request == 0 && base.out.is_empty()
    } else {
        base.replies.is_empty()
    }
}
