// The status of an answer.
ghost use Rattle.std.specs.Prelude.{◌≡◌, ◌≤◌, length};
ghost use Rattle.page.specs.Statuses.{code, status_line};

/// The status of an answer (RFC 9110 section 15, RFC 6585 section 5).
#[derive(Clone, Copy)]
pub enum PageStatus {
    /// 200: what was asked for.
    Fine,
    /// 400: the request is not HTTP/1.1 or HTTP/1.0, has not one Host, or its query has a bad number.
    BadRequest,
    /// 401: the page has a password, and the request does not show it.
    NoPassword,
    /// 404: there is no page at this path.
    NoPage,
    /// 405: the method is neither GET nor HEAD.
    BadMethod,
    /// 421: the Host is not one of this page.
    OtherHost,
    /// 431: the head of the request is too long.
    LongHead,
    /// 500: the page would be longer than [`MAX_PAGE`](crate::MAX_PAGE) bytes.
    LongPage,
}

impl PageStatus {
    /// Returns the status as a number.
    pub fn code(self) -> u16
        ensures { result ≡ code self }
    {
        match self {
            PageStatus::Fine => 200,
            PageStatus::BadRequest => 400,
            PageStatus::NoPassword => 401,
            PageStatus::NoPage => 404,
            PageStatus::BadMethod => 405,
            PageStatus::OtherHost => 421,
            PageStatus::LongHead => 431,
            PageStatus::LongPage => 500,
        }
    }

    // The first line of an answer, without its CR LF.
    pub(crate) fn line(self) -> &'static [u8]
        ensures value { result.now ≡ status_line self }
        ensures short { length result.now ≤ 100 }
    {
        match self {
            PageStatus::Fine => b"HTTP/1.1 200 OK",
            PageStatus::BadRequest => b"HTTP/1.1 400 Bad Request",
            PageStatus::NoPassword => b"HTTP/1.1 401 Unauthorized",
            PageStatus::NoPage => b"HTTP/1.1 404 Not Found",
            PageStatus::BadMethod => b"HTTP/1.1 405 Method Not Allowed",
            PageStatus::OtherHost => b"HTTP/1.1 421 Misdirected Request",
            PageStatus::LongHead => b"HTTP/1.1 431 Request Header Fields Too Large",
            PageStatus::LongPage => b"HTTP/1.1 500 Internal Server Error",
        }
    }
}
