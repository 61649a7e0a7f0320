// What an answer says that shows no page.
ghost use Rattle.std.specs.Prelude.{◌≤◌, length};
ghost use Rattle.page.specs.Marks.{ArePrinted};

use crate::status::PageStatus;

// What to change in a request with this status.
pub(crate) fn refusal_text(status: PageStatus) -> &'static [u8]
    ensures printed { ArePrinted result.now }
    ensures short { length result.now ≤ 200 }
{
    match status {
        PageStatus::Fine => b"fine\n",
        PageStatus::BadRequest => {
            b"400: this is no request of HTTP/1.1 with one Host, or its query has a bad number\n"
        }
        PageStatus::NoPassword => b"401: give any name, and the password of the line page\n",
        PageStatus::NoPage => b"404: the pages are / /records /log /metrics\n",
        PageStatus::BadMethod => b"405: this page is only read: use GET or HEAD\n",
        PageStatus::OtherHost => {
            b"421: ask for the address and port of the line page, or localhost and that port\n"
        }
        PageStatus::LongHead =>
            b"431: send at most 4096 bytes and 64 fields before the empty line\n",
        PageStatus::LongPage => b"500: the page is longer than 1 MiB\n",
    }
}
