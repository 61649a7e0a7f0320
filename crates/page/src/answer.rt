// The answer to a request.
ghost use Rattle.std.specs.Prelude.{◌≡◌, ◌≤◌, ◌⊎◌, ◌+◌, ◌++◌, [], IfOk, true, length, vec_len};
ghost use Rattle.page.specs.Answers.{BeginsWith};
ghost use Rattle.page.specs.Marks.{ArePrinted};
ghost use Rattle.page.specs.Requests.{status_of};
ghost use Rattle.page.specs.Statuses.{status_line};
ghost use Rattle.page.specs.declared.answer.TheConstants.{MAX_ANSWER};
ghost use Rattle.page.specs.declared.sheet.TheConstants.{MAX_PAGE};
ghost use Rattle.page.specs.declared.status.PageStatus.TheVariants.{LongPage, Fine};

use crate::heads::{Kind, head_of};
use crate::log_page::put_log_page;
use crate::metrics::put_metrics;
use crate::net_page::put_net_page;
use crate::records_page::put_records_page;
use crate::refusals::refusal_text;
use crate::request::{PageRequest, PageWant};
use crate::sheet::{MAX_PAGE, Sheet};
use crate::status::PageStatus;
use crate::style::STYLE;
use crate::view::PageView;
use bytetext::{Failure, NoMemory};
use std::alloc::Global;

/// The most bytes of an answer, with its head.
pub const MAX_ANSWER: usize = MAX_PAGE + 1_024;

/// An answer: the bytes of its head, and those of its body.
#[derive(Drop)]
pub struct PageAnswer {
    /// The status.
    pub status: PageStatus,
    /// The head, with the empty line at its end.
    pub head: Vec<u8>,
    /// The body; nothing if the method was HEAD.
    pub body: Vec<u8>,
}

/// Returns the answer to a `request` at a bot that is as `view` shows it. The connection is to be closed after it.
///
/// # Errors
/// `NoMemory` if an allocation fails.
pub fn answer_to(
    alloc: Global,
    request: &PageRequest,
    view: &PageView<'_>,
) -> Result<PageAnswer, NoMemory>
    // A request that is refused gets that refusal, and one for a page the page, or 500 if it would be too long.
    ensures status { IfOk result (λ answer. (answer.status ≡ status_of request.now.want)
        ⊎ ((status_of request.now.want ≡ Fine) × (answer.status ≡ LongPage))) }
    ensures line { IfOk result (λ answer. BeginsWith (status_line answer.status) answer.head.items) }
    // Each byte is LF, CR or a space to `~`.
    ensures head { IfOk result (λ answer. ArePrinted answer.head.items) }
    ensures body { IfOk result (λ answer. ArePrinted answer.body.items) }
    ensures bound { IfOk result (λ answer. length answer.head.items + length answer.body.items ≤ MAX_ANSWER) }
    ensures bodiless { request.now.is_head ≡ true → IfOk result (λ answer. answer.body.items ≡ []) }
{
    let Page {
        status,
        kind,
        mut body,
    } = page_of(alloc, request, view)?;
    let head = head_of(alloc, status, kind, body.len(), view.now)?;
    if request.is_head {
        body.clear();
    }
    Ok(PageAnswer { status, head, body })
}

// What is shown, and its status.
#[derive(Drop)]
struct Page {
    status: PageStatus,
    kind: Kind,
    body: Vec<u8>,
}

// Returns what is to be shown.
fn page_of(alloc: Global, request: &PageRequest, view: &PageView<'_>) -> Result<Page, NoMemory>
    ensures status { IfOk result (λ page. (page.status ≡ status_of request.now.want)
        ⊎ ((status_of request.now.want ≡ Fine) × (page.status ≡ LongPage))) }
    ensures printed { IfOk result (λ page. ArePrinted page.body.items) }
    ensures bound { IfOk result (λ page. length page.body.items ≤ MAX_PAGE) }
{
    let status = request.want.status();
    if !matches!(status, PageStatus::Fine) {
        return refused(alloc, status);
    }
    let mut sheet = Sheet::new(alloc);
    let kind = put_page(&mut sheet, &request.want, view);
    shown(alloc, kind, sheet)
}

// Appends the page that is wanted. Returns what it is.
fn put_page(sheet: &mut Sheet, want: &PageWant, view: &PageView<'_>) -> Kind {
    match want {
        PageWant::Net { from } => {
            put_net_page(sheet, view, *from);
            Kind::Html
        }
        PageWant::Records { from, who } => {
            put_records_page(sheet, view, *from, who);
            Kind::Html
        }
        PageWant::Log => {
            put_log_page(sheet, view);
            Kind::Html
        }
        PageWant::Metrics => {
            put_metrics(sheet, view);
            Kind::Metrics
        }
        PageWant::Style => {
            sheet.put(STYLE);
            Kind::Style
        }
        PageWant::Refused(status) => {
            sheet.put(refusal_text(*status));
            Kind::Text
        }
    }
}

// A page that was written, or why none is shown.
fn shown(alloc: Global, kind: Kind, sheet: Sheet) -> Result<Page, NoMemory>
    ensures status { IfOk result (λ page. (page.status ≡ Fine) ⊎ (page.status ≡ LongPage)) }
    ensures printed { IfOk result (λ page. ArePrinted page.body.items) }
    ensures bound { IfOk result (λ page. length page.body.items ≤ MAX_PAGE) }
{
    match sheet.finish() {
        Ok(body) => Ok(Page {
            status: PageStatus::Fine,
            kind,
            body,
        }),
        Err(Failure::Refused(_)) => refused(alloc, PageStatus::LongPage),
        Err(Failure::NoMemory) => Err(NoMemory),
    }
}

// A page that says why no other is shown.
fn refused(alloc: Global, status: PageStatus) -> Result<Page, NoMemory>
    ensures status { IfOk result (λ page. page.status ≡ status) }
    ensures printed { IfOk result (λ page. ArePrinted page.body.items) }
    ensures bound { IfOk result (λ page. length page.body.items ≤ MAX_PAGE) }
{
    Ok(Page {
        status,
        kind: Kind::Text,
        body: Vec::from_slice(alloc, refusal_text(status))?,
    })
}
