// Reads a request.
ghost use Rattle.std.specs.Prelude.{◌≡◌, ◌≢◌, ◌≤◌, false, All, IfOk, IfSome, List, None, ℕ, codes, length, map};
ghost use Rattle.httparse.specs.Grammar.{ReadsRequest, RequestHead};
ghost use Rattle.httparse.specs.Spans.{IsHeaderWithin, IsWithin, header_bytes, span_bytes};
ghost use Rattle.page.specs.Requests.{IsAsked, head_refusal, is_reading, lone, refusal_of, status_of};
ghost use Rattle.page.specs.Sites.{is_allowed};
ghost use Rattle.page.specs.declared.reading.TheConstants.{MAX_FIELDS};
ghost use Rattle.page.specs.declared.request.PageWant.TheVariants.{Refused};
ghost use Rattle.page.specs.declared.status.PageStatus.TheVariants.{Fine};

use crate::heading::lone;
use crate::request::{MAX_HEAD, PageRequest, PageWant};
use crate::site::PageSite;
use crate::status::PageStatus;
use crate::target::want_of;
use bytetext::NoMemory;
use httparse::spans::{EMPTY_HEADER_SPAN, HeaderSpan, RequestSpans, parse_request};
use httparse::{Error, Status};
use std::alloc::Global;

// The most fields of a head.
const MAX_FIELDS: usize = 64;

impl PageRequest {
    /// Reads the request whose head begins `heard`, what a connection has sent so far. `None` if the head is not all there
    /// yet; never once `heard` has [`MAX_HEAD`] bytes.
    ///
    /// # Errors
    /// `NoMemory` if an allocation fails.
    pub fn read(
        alloc: Global,
        heard: &[u8],
        site: &PageSite,
    ) -> Result<Option<PageRequest>, NoMemory>
        // A method other than GET and HEAD never gets a page.
        ensures reads { (head : RequestHead) (rest : List ℕ) → ReadsRequest heard.now head rest → is_reading head.method ≡ false
            → IfOk result (λ read. IfSome read (λ request. status_of request.want ≢ Fine)) }
        // Whoever gets a page has asked this host for it, and has shown the password if there is one.
        ensures served { IfOk result (λ read. IfSome read (λ request. status_of request.want ≡ Fine
            → (head : RequestHead) × (rest : List ℕ) × (ReadsRequest heard.now head rest × (head_refusal site.now head ≡ None)))) }
        // A head of at most 64 fields that is refused gets just this refusal.
        ensures refused { (head : RequestHead) (rest : List ℕ) → ReadsRequest heard.now head rest → length head.fields ≤ MAX_FIELDS
            → IfSome (head_refusal site.now head) (λ status. IfOk result (λ read. IfSome read (λ request. request.want ≡ Refused status))) }
        ensures ends { MAX_HEAD ≤ length heard.now → IfOk result (λ read. read ≢ None) }
    {
        let mut fields = [EMPTY_HEADER_SPAN; MAX_FIELDS];
        match parse_request(heard, &mut fields) {
            Ok(Status::Complete(spans)) => {
                let fields = &fields[..spans.headers];
                Ok(Some(request_of(alloc, heard, fields, spans, site)?))
            }
            Ok(Status::Partial) if heard.len() < MAX_HEAD => Ok(None),
            Ok(Status::Partial) | Err(Error::TooManyHeaders) => {
                Ok(Some(refused(PageStatus::LongHead)))
            }
            Err(_) => Ok(Some(refused(PageStatus::BadRequest))),
        }
    }
}

// A request that gets no page.
fn refused(status: PageStatus) -> PageRequest
    ensures { result.want ≡ Refused status }
{
    PageRequest {
        is_head: false,
        want: PageWant::Refused(status),
    }
}

// What a head asks for, whose parts are at these places in `heard`.
fn request_of(
    alloc: Global,
    heard: &[u8],
    fields: &[HeaderSpan],
    spans: RequestSpans,
    site: &PageSite,
) -> Result<PageRequest, NoMemory>
    requires method { IsWithin (length heard.now) spans.method }
    requires path { IsWithin (length heard.now) spans.path }
    requires fields { All (IsHeaderWithin (length heard.now)) fields.now }
    ensures { IfOk result (λ request. IsAsked site.now (span_bytes heard.now spans.method) (map (header_bytes heard.now) fields.now)
        (span_bytes heard.now spans.path) request.want) }
{
    let method = spans.method.of(heard);
    let is_head = method == b"HEAD".as_slice();
    let target = spans.path.of(heard);
    let want = want_by(alloc, heard, fields, method, target, site)?;
    Ok(PageRequest { is_head, want })
}

// What a request of this method, these fields and this `target` asks for.
fn want_by(
    alloc: Global,
    heard: &[u8],
    fields: &[HeaderSpan],
    method: &[u8],
    target: &[u8],
    site: &PageSite,
) -> Result<PageWant, NoMemory>
    requires fields { All (IsHeaderWithin (length heard.now)) fields.now }
    ensures { IfOk result (λ want. IsAsked site.now method.now (map (header_bytes heard.now) fields.now) target.now want) }
{
    match refusal_of(alloc, heard, fields, method, site)? {
        Some(status) => Ok(PageWant::Refused(status)),
        None => want_of(alloc, target),
    }
}

// Why a request is refused, whatever it asks for.
fn refusal_of(
    alloc: Global,
    heard: &[u8],
    fields: &[HeaderSpan],
    method: &[u8],
    site: &PageSite,
) -> Result<Option<PageStatus>, NoMemory>
    requires fields { All (IsHeaderWithin (length heard.now)) fields.now }
    ensures { IfOk result (λ refusal. refusal ≡ refusal_of site.now method.now (map (header_bytes heard.now) fields.now)) }
{
    if !is_reading(method) {
        return Ok(Some(PageStatus::BadMethod));
    }
    let Some(host) = lone(heard, fields, b"host") else {
        return Ok(Some(PageStatus::BadRequest));
    };
    if !site.is_ours(host) {
        return Ok(Some(PageStatus::OtherHost));
    }
    if is_allowed(alloc, heard, fields, site)? {
        Ok(None)
    } else {
        Ok(Some(PageStatus::NoPassword))
    }
}

// Whether a request shows the password, if the page has one.
fn is_allowed(
    alloc: Global,
    heard: &[u8],
    fields: &[HeaderSpan],
    site: &PageSite,
) -> Result<bool, NoMemory>
    requires fields { All (IsHeaderWithin (length heard.now)) fields.now }
    ensures { IfOk result (λ allowed. allowed ≡ is_allowed site.now (lone (codes "authorization") (map (header_bytes heard.now) fields.now))) }
{
    match lone(heard, fields, b"authorization") {
        Some(value) => site.allows(alloc, value),
        None => Ok(site.is_open()),
    }
}

// Whether a method only reads.
fn is_reading(method: &[u8]) -> bool
    ensures { result ≡ is_reading method.now }
{
    method == b"GET".as_slice() || method == b"HEAD".as_slice()
}
