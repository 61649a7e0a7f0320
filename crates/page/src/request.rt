// What a request asks for.
ghost use Rattle.std.specs.Prelude.{◌≡◌};
ghost use Rattle.page.specs.Requests.{path_of};

use crate::status::PageStatus;
use bytetext::Text;

/// The most bytes of the head of a request, with the empty line at its end.
pub const MAX_HEAD: usize = 4_096;

/// What a request asks for.
pub struct PageRequest {
    /// Whether the method is HEAD, so that the answer has no body.
    pub is_head: bool,
    /// The page that is to be shown, or why none is.
    pub want: PageWant,
}

// By hand, so that this is proved once, and not in each function in which one ends.
impl Drop for PageRequest {
    fn drop(self) {
        let PageRequest {
            is_head: _,
            want: _,
        } = self;
    }
}

/// The page that is to be shown, or why none is.
pub enum PageWant {
    /// `/`: the net and this bot, and of the linked bots those from this number on.
    Net {
        /// The number of a bot.
        from: u16,
    },
    /// `/records`: the records from this one on, and who a person would be.
    Records {
        /// The place of a record: the users come first, and then the bans.
        from: usize,
        /// The person, as `nick!user@host`, if the request names one.
        who: Option<Text>,
    },
    /// `/log`: the end of the log.
    Log,
    /// `/metrics`: numbers for Prometheus.
    Metrics,
    /// `/style.css`: the style sheet.
    Style,
    /// No page is shown.
    Refused(PageStatus),
}

// By hand, so that this is proved once, and not in each function in which one ends.
impl Drop for PageWant {
    fn drop(self) {
        match self {
            PageWant::Net { from: _ }
            | PageWant::Records { from: _, who: _ }
            | PageWant::Log
            | PageWant::Metrics
            | PageWant::Style
            | PageWant::Refused(_) => {}
        }
    }
}

impl PageWant {
    ghost use Rattle.std.specs.Prelude.{◌≡◌};
    ghost use Rattle.page.specs.Requests.{status_of};

    /// Returns the status of the answer, unless the page would be too long.
    pub fn status(&self) -> PageStatus
        ensures { result ≡ status_of self.now }
    {
        match self {
            PageWant::Refused(status) => *status,
            PageWant::Net { from: _ }
            | PageWant::Records { from: _, who: _ }
            | PageWant::Log
            | PageWant::Metrics
            | PageWant::Style => PageStatus::Fine,
        }
    }
}

// A page, without what is to be shown of it.
#[derive(Clone, Copy, PartialEq)]
pub(crate) enum PagePath {
    Net,
    Records,
    Log,
    Metrics,
    Style,
}

impl PagePath {
    // The page at a path.
    pub(crate) fn of(path: &str) -> Option<PagePath>
        ensures { result ≡ path_of path.now }
    {
        match path {
            "/" => Some(PagePath::Net),
            "/records" => Some(PagePath::Records),
            "/log" => Some(PagePath::Log),
            "/metrics" => Some(PagePath::Metrics),
            "/style.css" => Some(PagePath::Style),
            _ => None,
        }
    }
}
