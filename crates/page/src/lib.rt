//! A read-only page that shows a bot: from the head of a request, and a view of the bot, to the bytes of an answer; and
//! the connections of its readers, served inside the one poll loop of a bot.
//!
//! [`PageRequest::read`] reads a request of HTTP/1.1 or HTTP/1.0 (RFC 9112), and [`answer_to`] answers it. Neither uses a
//! socket: the caller hears the bytes, shows the bot as a [`PageView`], and sends the answer.
//!
//! ```text
//! let site = PageSite::new(alloc, b"127.0.0.1", 8300)?;
//! let heard = b"GET /metrics HTTP/1.1\r\nHost: 127.0.0.1:8300\r\n\r\n";
//! if let Some(request) = PageRequest::read(alloc, heard, &site)? {
//!     let answer = answer_to(alloc, &request, &view)?;    // HTTP/1.1 200 OK ..
//! }
//! ```
//!
//! # Pages
//!
//! | Path | What it shows |
//! |---|---|
//! | `/` | this bot, its server and channels, and the linked bots: at most [`MAX_ROWS`], from the number of `?from=` on |
//! | `/records` | users and bans, at most [`MAX_ROWS`], from the place of `?from=` on; and who `?who=nick!user@host` would be, and by which hostmask |
//! | `/log` | the last lines of the log, at most 500 and 64 KiB |
//! | `/metrics` | numbers in Prometheus' text form, version 0.0.4 |
//! | `/style.css` | the style sheet |
//!
//! # Who gets a page
//!
//! Only GET and HEAD get one. The request must have one `Host`, which is the page's own address and port, or `localhost`
//! and that port: so a page of another site can't read it under a name that leads to this machine. If the page has a
//! password, the request must show it (RFC 7617), under any name. [`PageStatus`] lists what others get.
//!
//! # Texts from outside
//!
//! Handles, hostmasks, comments and lines of the log are others' texts. In an answer each of their bytes is a space to
//! `~`, and none is `<`, `>`, `"` or `'` ([`law_of_page_texts`]): a character that HTML reads as markup, or one above `~`,
//! becomes a reference, and a control character, or a byte that is not UTF-8, `\x` and two hexadecimal digits.
//!
//! # Readers
//!
//! A [`PageServer`] listens at an address. It accepts at most [`MAX_READERS`] connections at once, hears one request from
//! each, and closes the connection after the answer, or [`LIMIT`] seconds after it came. Nothing in it blocks, and nothing
//! returns an error: a connection for which an allocation fails is closed. So what readers do is no fault of the bot.
//!
//! ```text
//! let mut server = PageServer::open(rt, watch.registry(), address, site)?;
//! let came = server.read(rt, &watch, steady);                  // each turn
//! if let Some(ask) = server.take_request(alloc) {              // at most one a turn
//!     server.answer(ask.number, answer_to(alloc, &ask.request, &view));
//! }
//! let more = server.send(steady);
//! ```
//!
//! # Costs
//!
//! An answer has at most [`MAX_ANSWER`] bytes. It shows at most [`MAX_ROWS`] rows, and begins no further one after 256
//! KiB. So it takes well under 2 milliseconds, whatever the bot holds.
#![tactic(auto)]

mod answer;
mod forms;
mod heading;
mod heads;
mod layout;
mod log_page;
mod marks;
mod metrics;
mod net_page;
mod person;
mod reading;
mod records_page;
mod refusals;
mod request;
mod seat;
mod server;
mod sheet;
mod site;
mod status;
mod style;
mod target;
mod view;

pub use crate::answer::{MAX_ANSWER, PageAnswer, answer_to};
pub use crate::layout::MAX_ROWS;
pub use crate::marks::law_of_page_texts;
pub use crate::request::{MAX_HEAD, PageRequest, PageWant};
pub use crate::seat::LIMIT;
pub use crate::server::{MAX_READERS, PageAsk, PageServer};
pub use crate::sheet::MAX_PAGE;
pub use crate::site::PageSite;
pub use crate::status::PageStatus;
pub use crate::view::{
    ChannelView, LinkView, LinksView, LogView, OwnView, PageView, PlaceView, ServerView,
    SessionView,
};
