// What the target of a request asks for.
ghost use Rattle.std.specs.Prelude.{◌≡◌, ◌⊎◌, IfOk, Some};
ghost use Rattle.http_uri.specs.Uri.{uri_path};
ghost use Rattle.page.specs.Requests.{IsWantAt, IsWantOf, path_in};
ghost use Rattle.page.specs.declared.request.PageWant.TheVariants.{Refused};
ghost use Rattle.page.specs.declared.status.PageStatus.TheVariants.{BadRequest};

use crate::request::{PagePath, PageWant};
use crate::status::PageStatus;
use bytetext::{Failure, NoMemory, Text};
use form_urlencoded::parse;
use http_uri::{Uri, UriError};
use std::alloc::Global;

// Returns what a `target` asks for (RFC 9112 section 3.2).
pub(crate) fn want_of(alloc: Global, target: &[u8]) -> Result<PageWant, NoMemory>
    ensures { IfOk result (λ want. IsWantOf target.now want) }
{
    match Uri::from_bytes(alloc, target) {
        Ok(uri) => want_in(alloc, &uri),
        Err(UriError::OutOfMemory) => Err(NoMemory),
        Err(UriError::Invalid(_)) => Ok(PageWant::Refused(PageStatus::BadRequest)),
    }
}

// Returns what a URI asks for.
fn want_in(alloc: Global, uri: &Uri) -> Result<PageWant, NoMemory>
    ensures { IfOk result (λ want. IsWantAt (uri_path uri.now) want) }
{
    let Some(path) = PagePath::of(uri.path()) else {
        return Ok(PageWant::Refused(PageStatus::NoPage));
    };
    match uri.query() {
        Some(query) => want_at(alloc, path, query.as_bytes()),
        None => want_at(alloc, path, b""),
    }
}

// Returns what a page and a query ask for.
fn want_at(alloc: Global, path: PagePath, query: &[u8]) -> Result<PageWant, NoMemory>
    ensures { IfOk result (λ want. (want ≡ Refused BadRequest) ⊎ (path_in want ≡ Some path)) }
{
    let PageQuery { from, who, fault } = query_of(alloc, query);
    match fault {
        None => Ok(want_by(path, from, who)),
        Some(Failure::Refused(NoNumber)) => Ok(PageWant::Refused(PageStatus::BadRequest)),
        Some(Failure::NoMemory) => Err(NoMemory),
    }
}

// What a page asks for, from this row on, and of this person.
fn want_by(path: PagePath, from: u64, who: Option<Text>) -> PageWant
    ensures { path_in result ≡ Some path }
{
    match path {
        PagePath::Net => PageWant::Net {
            from: from.min(65_535) as u16,
        },
        PagePath::Records => PageWant::Records {
            from: from.min(65_535) as usize,
            who,
        },
        PagePath::Log => PageWant::Log,
        PagePath::Metrics => PageWant::Metrics,
        PagePath::Style => PageWant::Style,
    }
}

// The `from` of a query is not a number.
#[derive(Clone, Copy)]
struct NoNumber;

// What a query says, up to its first fault; nothing after one counts. So whoever reads looks at no single step.
#[derive(Drop)]
struct PageQuery {
    // The first row that is to be shown.
    from: u64,
    // The person that is searched for.
    who: Option<Text>,
    // Why it asks for no page.
    fault: Option<Failure<NoNumber>>,
}

// Reads a query.
fn query_of(alloc: Global, query: &[u8]) -> PageQuery {
    let mut read = PageQuery {
        from: 0,
        who: None,
        fault: None,
    };
    for pair in parse(alloc, query) {
        match pair {
            Ok((name, value)) => read.take(alloc, name.as_str(), value.as_str()),
            Err(_) => read.fail(Failure::NoMemory),
        }
    }
    read
}

impl PageQuery {
    // Takes a name and its value.
    fn take(&mut self, alloc: Global, name: &str, value: &str) {
        match name {
            "from" => match value.parse::<u64>() {
                Ok(number) => self.from = number,
                Err(_) => self.fail(Failure::Refused(NoNumber)),
            },
            "who" if !value.is_empty() => match Text::from_slice(alloc, value.as_bytes()) {
                Ok(who) => self.who = Some(who),
                Err(_) => self.fail(Failure::NoMemory),
            },
            _ => {}
        }
    }

    // Keeps a fault, unless there was one before.
    fn fail(&mut self, fault: Failure<NoNumber>) {
        if self.fault.is_none() {
            self.fault = Some(fault);
        }
    }
}
