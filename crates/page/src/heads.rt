// The head of an answer.
ghost use Rattle.std.specs.Prelude.{◌≡◌, ◌≤◌, IfOk, length};
ghost use Rattle.page.specs.Answers.{BeginsWith};
ghost use Rattle.page.specs.Marks.{ArePrinted};
ghost use Rattle.page.specs.Statuses.{status_line};
ghost use Rattle.page.specs.Writing.{AddsSome};

use crate::marks::are_bare;
use crate::sheet::Sheet;
use crate::status::PageStatus;
use bytetext::NoMemory;
use httpdate::HttpDate;
use std::alloc::Global;

// What the body of an answer is.
#[derive(Clone, Copy)]
pub(crate) enum Kind {
    Html,
    Style,
    Metrics,
    Text,
}

// Returns the head of an answer whose body has `count` bytes, at second `now`.
pub(crate) fn head_of(
    alloc: Global,
    status: PageStatus,
    kind: Kind,
    count: usize,
    now: u64,
) -> Result<Vec<u8>, NoMemory>
    ensures line { IfOk result (λ head. BeginsWith (status_line status) head.items) }
    ensures printed { IfOk result (λ head. ArePrinted head.items) }
    ensures bound { IfOk result (λ head. length head.items ≤ 1024) }
{
    let mut head = Sheet::new(alloc);
    head.put(status.line());
    put_fields(&mut head, status, kind, count, now);
    match head.finish() {
        Ok(bytes) => Ok(bytes),
        // It is never too long.
        Err(_) => Err(NoMemory),
    }
}

// Appends the fields of the head, from the end of its first line to the empty line.
fn put_fields(head: &mut Sheet, status: PageStatus, kind: Kind, count: usize, now: u64)
    ensures { AddsSome head.old 900 head.new }
{
    head.put(SAFETY);
    head.put(status_field(status));
    head.put(kind_field(kind));
    put_date(head, now);
    head.put(b"Content-Length: ");
    head.put_number(count as u64);
    head.put(b"\r\n\r\n");
}

// The fields of every answer. A browser runs no script of it, loads nothing but its style sheet, shows it in no frame,
// keeps no copy, and tells no other site where the reader came from.
const SAFETY: &[u8] =
    b"\r\nConnection: close\r\nCache-Control: no-store\r\nContent-Security-Policy: default-src 'none'; style-src 'self'; form-action 'self'; base-uri 'none'; frame-ancestors 'none'\r\nX-Content-Type-Options: nosniff\r\nReferrer-Policy: no-referrer\r\n";

// The field that a status wants.
fn status_field(status: PageStatus) -> &'static [u8]
    ensures printed { ArePrinted result.now }
    ensures short { length result.now ≤ 100 }
{
    match status {
        PageStatus::BadMethod => b"Allow: GET, HEAD\r\n",
        PageStatus::NoPassword =>
            b"WWW-Authenticate: Basic realm=\"eggnet\", charset=\"UTF-8\"\r\n",
        PageStatus::Fine
        | PageStatus::BadRequest
        | PageStatus::NoPage
        | PageStatus::OtherHost
        | PageStatus::LongHead
        | PageStatus::LongPage => b"",
    }
}

// The field that says what the body is.
fn kind_field(kind: Kind) -> &'static [u8]
    ensures printed { ArePrinted result.now }
    ensures short { length result.now ≤ 100 }
{
    match kind {
        Kind::Html => b"Content-Type: text/html; charset=utf-8\r\n",
        Kind::Style => b"Content-Type: text/css; charset=utf-8\r\n",
        Kind::Metrics => b"Content-Type: text/plain; version=0.0.4; charset=utf-8\r\n",
        Kind::Text => b"Content-Type: text/plain; charset=utf-8\r\n",
    }
}

// Appends the field of the date; none after the year 9999.
#[tactic(auto, using(crate::proofs::MarkLemmas::bare_printed))]
fn put_date(head: &mut Sheet, now: u64)
    ensures { AddsSome head.old 40 head.new }
{
    let Ok(date) = HttpDate::from_unix_secs(now) else {
        return;
    };
    let text = date.to_bytes();
    if are_bare(&text) {
        head.put(b"Date: ");
        head.put(&text);
        head.put(b"\r\n");
    }
}
