// The record at the front of some bytes.
ghost use Rattle.sealing.specs.Steps.{IsNext};

use crate::fault::SealFault;
use crate::key::Key;
use crate::limits::{MAX_BODY, TAG};
use crate::tags::is_same_tag;

// A whole record with the right tag, or how the stream ends.
#[derive(Drop)]
pub(crate) enum Next<'a> {
    Whole { body: &'a [u8], rest: &'a [u8] },
    End { fault: Option<SealFault> },
}

// Returns the record of `count` at the front of `bytes`.
pub(crate) fn record_at<'a>(key: &Key, count: u64, bytes: &'a [u8]) -> Next<'a>
    ensures { IsNext key.now count bytes.now result }
{
    if count == u64::MAX {
        return Next::End {
            fault: Some(SealFault::Spent),
        };
    }
    if bytes.len() < 2 {
        return Next::End { fault: None };
    }
    let length = u16::from_be_bytes([bytes[0], bytes[1]]) as usize;
    if length == 0 || length > MAX_BODY {
        return Next::End {
            fault: Some(SealFault::BadLength),
        };
    }
    if bytes.len() < 2 + length + TAG {
        return Next::End { fault: None };
    }
    let body = &bytes[2..2 + length];
    let shown = &bytes[2 + length..2 + length + TAG];
    if is_same_tag(&key.tag(count, body), shown) {
        let rest = &bytes[2 + length + TAG..];
        Next::Whole { body, rest }
    } else {
        Next::End {
            fault: Some(SealFault::BadTag),
        }
    }
}
