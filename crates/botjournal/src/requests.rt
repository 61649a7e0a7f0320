// The outstanding requests as bytes: in the layout that is written, and the one change of an older layout.
ghost use Rattle.std.specs.Prelude.{◌≡◌, ◌<◌, ◌≤◌, ◌++◌, [], IfOk, IfErr, IsSome, OnOk, length};
ghost use Rattle.std.specs.List.{AllByRecursion, list_all};
ghost use Rattle.usercodec.specs.Answers.{Finds};
ghost use Rattle.botjournal.specs.Empty.{FindsSome};
ghost use Rattle.usercodec.specs.Fields.{counted};
ghost use Rattle.usercodec.specs.Records.{items_at};
ghost use Rattle.botjournal.specs.declared.TheConstants.{WINDOW};
ghost use Rattle.botjournal.specs.Bases.{request_bytes, HasShapeOut, are_out, numbers_rise_from, is_near};
ghost use Rattle.botjournal.specs.Bases.{change_out_from, change_out_at, one_out, one_out_at};
ghost use Rattle.botjournal.specs.Bases.{request_at, requests_listed_at, window_at, out_at};

use crate::WINDOW;
use crate::layouts::{Layout, change};
use crate::request::Request;
use bytetext::{Failure, NoMemory, Seq};
use std::alloc::Global;
use usercodec::{CodecError, CodecFault, Reader, put_change, put_u32};
use userfile::Change;

// ---- written

pub(crate) fn put_requests(out: &mut Vec<u8>, requests: &[Request]) -> Result<(), NoMemory>
    requires few { length requests.now ≤ WINDOW }
    requires good { AllByRecursion HasShapeOut requests.now }
    ensures { OnOk result (out.new.items ≡ out.old.items ++ counted request_bytes requests.now) }
{
    out.push(requests.len() as u8)?;
    for request in requests {
        put_request(out, request)?;
    }
    Ok(())
}

fn put_request(out: &mut Vec<u8>, request: &Request) -> Result<(), NoMemory>
    requires { HasShapeOut request.now }
    ensures { OnOk result (out.new.items ≡ out.old.items ++ request_bytes request.now) }
{
    put_u32(out, request.number)?;
    put_change(out, &request.change)
}

// ---- read

// Reads the number of the last request, and the outstanding requests.
pub(crate) fn out(
    alloc: Global,
    layout: Layout,
    reader: &mut Reader<'_>,
) -> Result<(u32, Seq<Request>), CodecError>
    ensures { FindsSome (λ out. (out, reader.new)) (λ x. 0 < length x.0.1) result (out_at layout reader.old) }
{
    match layout {
        Layout::First => one_out(alloc, layout, reader),
        Layout::Second => one_out(alloc, layout, reader),
        Layout::Third => window(alloc, layout, reader),
        Layout::Fourth => window(alloc, layout, reader),
    }
}

#[tactic(auto, unfolding(crate::specs::Bases::window_at))]
fn window(
    alloc: Global,
    layout: Layout,
    reader: &mut Reader<'_>,
) -> Result<(u32, Seq<Request>), CodecError>
    ensures { FindsSome (λ out. (out, reader.new)) (λ x. 0 < length x.0.1) result (window_at layout reader.old) }
{
    let last = reader.u32()?;
    let requests = listed_requests(alloc, layout, reader)?;
    if !are_out(last, &requests) {
        return Err(Failure::Refused(CodecFault::NotCanonical));
    }
    Ok((last, Seq::new(requests)))
}

#[tactic(auto, unfolding(crate::specs::Bases::requests_listed_at, usercodec::specs::Fields::count_at))]
fn listed_requests(
    alloc: Global,
    layout: Layout,
    reader: &mut Reader<'_>,
) -> Result<Vec<Request>, CodecError>
    ensures { FindsSome (λ requests. (requests.items, reader.new)) (λ x. 0 < length x.0) result (requests_listed_at layout reader.old) }
{
    let count = reader.byte()?;
    if count as usize > WINDOW {
        return Err(Failure::Refused(CodecFault::NotCanonical));
    }
    so_many_requests(alloc, layout, reader, count)
}

fn so_many_requests(
    alloc: Global,
    layout: Layout,
    reader: &mut Reader<'_>,
    count: u8,
) -> Result<Vec<Request>, CodecError>
    ensures value { Finds (λ requests. (requests.items, reader.new)) result
        (items_at (λ held bytes. request_at layout bytes) count [] reader.old) }
    ensures memory { IfErr result (λ _. 0 < count) }
{
    let mut requests = Vec::new(alloc);
    for _ in 0..count {
        match request(alloc, layout, reader) {
            Ok(request) => requests.push(request)?,
            Err(error) => return Err(error),
        }
    }
    Ok(requests)
}

#[tactic(auto, unfolding(crate::specs::Bases::request_at))]
fn request(alloc: Global, layout: Layout, reader: &mut Reader<'_>) -> Result<Request, CodecError>
    ensures { Finds (λ request. (request, reader.new)) result (request_at layout reader.old) }
{
    let number = reader.u32()?;
    let change = change(alloc, layout, reader)?;
    Ok(Request { number, change })
}

// Whether these requests may be outstanding when the last request has the number `last`.
fn are_out(last: u32, requests: &[Request]) -> bool
    ensures { result ≡ are_out last requests.now }
{
    numbers_rise(requests) && are_near(last, requests)
}

fn numbers_rise(requests: &[Request]) -> bool
    ensures { result ≡ numbers_rise_from 0 requests.now }
{
    let mut least = 0;
    for request in requests {
        if (request.number as u64) < least {
            return false;
        }
        least = request.number as u64 + 1;
    }
    true
}

fn are_near(last: u32, requests: &[Request]) -> bool
    ensures { result ≡ list_all (is_near last) requests.now }
{
    requests.iter().all(|request| is_near(last, request))
}

// Whether `last` is the request's number, or at most 7 above it.
fn is_near(last: u32, request: &Request) -> bool
    ensures { result ≡ is_near last request.now }
{
    request.number <= last && (last as u64) < request.number as u64 + WINDOW as u64
}

// ---- read in an older layout

#[tactic(auto, unfolding(crate::specs::Bases::one_out_at))]
fn one_out(
    alloc: Global,
    layout: Layout,
    reader: &mut Reader<'_>,
) -> Result<(u32, Seq<Request>), CodecError>
    ensures { FindsSome (λ out. (out, reader.new)) (λ x. 0 < length x.0.1) result (one_out_at layout reader.old) }
{
    let last = reader.u32()?;
    let change = change_out(alloc, layout, reader)?;
    Ok((last, numbered(alloc, last, change)?))
}

// Returns the request of the number `last`, if a change is outstanding.
fn numbered(alloc: Global, last: u32, change: Option<Change>) -> Result<Seq<Request>, NoMemory>
    ensures out { IfOk result (λ out. out ≡ one_out last change) }
    ensures memory { IfErr result (λ _. IsSome change) }
{
    let mut requests = Seq::empty(alloc);
    if let Some(change) = change {
        requests.push(Request {
            number: last,
            change,
        })?;
    }
    Ok(requests)
}

#[tactic(auto, unfolding(crate::specs::Bases::change_out_at))]
fn change_out(
    alloc: Global,
    layout: Layout,
    reader: &mut Reader<'_>,
) -> Result<Option<Change>, CodecError>
    ensures { FindsSome (λ change. (change, reader.new)) (λ x. IsSome x.0) result (change_out_at layout reader.old) }
{
    let byte = reader.byte()?;
    change_out_of(alloc, layout, byte, reader)
}

#[tactic(auto, unfolding(crate::specs::Bases::change_out_from))]
fn change_out_of(
    alloc: Global,
    layout: Layout,
    byte: u8,
    reader: &mut Reader<'_>,
) -> Result<Option<Change>, CodecError>
    ensures { FindsSome (λ change. (change, reader.new)) (λ x. IsSome x.0) result (change_out_from layout byte reader.old) }
{
    match byte {
        0 => Ok(None),
        1 => Ok(Some(change(alloc, layout, reader)?)),
        _ => Err(Failure::Refused(CodecFault::NotCanonical)),
    }
}
