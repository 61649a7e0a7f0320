// The front of a stream, as far as a frame's length and kind show.
ghost use Rattle.sharewire.specs.Steps.{IsFront};

use crate::fault::WireFault;
use crate::kind::Kind;
use crate::limits::MAX_LENGTH;

// What lies inside the frame at the front, and what stands after it.
#[derive(Drop)]
pub(crate) struct Inside<'a> {
    pub(crate) kind: Kind,
    pub(crate) body: &'a [u8],
    pub(crate) rest: &'a [u8],
}

// Returns the frame at the front, if it is whole.
pub(crate) fn front(bytes: &[u8]) -> Result<Option<Inside<'_>>, WireFault>
    ensures { IsFront bytes.now result }
{
    if bytes.len() < 2 {
        return Ok(None);
    }
    let length = u16::from_be_bytes([bytes[0], bytes[1]]) as usize;
    if length == 0 || length > MAX_LENGTH {
        return Err(WireFault::BadLength);
    }
    if bytes.len() < 3 {
        return Ok(None);
    }
    let Some(kind) = Kind::from_byte(bytes[2]) else {
        return Err(WireFault::BadKind);
    };
    if bytes.len() < 2 + length {
        return Ok(None);
    }
    let (frame, rest) = bytes.split_at(2 + length);
    let body = &frame[3..];
    Ok(Some(Inside { kind, body, rest }))
}
