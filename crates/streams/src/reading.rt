// Bytes read up to a bound.
ghost use Rattle.std.specs.Prelude.{◌≡◌, ◌<◌, IfErr, IfOk, OnErr, vec_len};
ghost use Rattle.streams.specs.Transfers.{ReadsNot, ReadsOnce, ReadsPiece, ReadsUpTo};

use crate::stream::{Given, Stream};
use bytetext::NoMemory;
use std::alloc::Global;
use thiserror::Error;

// How many bytes one answer gives at most.
const PIECE: usize = 4096;

/// Why bytes were not read.
#[derive(Clone, Copy, Debug, PartialEq, Eq, Error)]
pub enum ReadError {
    /// The stream failed, or would block.
    #[error("the stream gives no more: connect again")]
    Fault,
    /// An allocation failed. The bytes read so far are lost.
    #[error("out of memory: free some and try again")]
    NoMemory,
}

impl From<NoMemory> for ReadError {
    ghost use Rattle.streams.specs.declared.reading.ReadError.TheVariants.{NoMemory as no_memory};

    ghost from_gives = { λ _ e. e ≡ no_memory };

    fn from(_refused: NoMemory) -> ReadError {
        ReadError::NoMemory
    }
}

/// Reads from `stream` until it is at its end or has given `most` bytes.
///
/// # Errors
/// Returns `Fault` if the stream fails or would block, and `NoMemory` if an allocation fails. The bytes read before are
/// lost. Returns neither if `most` is 0.
pub fn read_up_to<S: Stream>(
    alloc: Global,
    stream: &mut S,
    most: usize,
) -> Result<Vec<u8>, ReadError>
    ensures ok { IfOk result (λ bytes. ReadsUpTo most (S.source stream.old) bytes.items (S.source stream.new)) }
    ensures err { IfErr result (λ e. ReadsNot most (S.source stream.old) e (S.source stream.new)) }
    ensures other { S.sink stream.new ≡ S.sink stream.old }
    ensures some { IfErr result (λ _. 0 < most) }
{
    let mut bytes = Vec::new(alloc);
    while bytes.len() < most {
        match read_piece(stream, &mut bytes, most)? {
            Given::Bytes(_) => {}
            Given::End => return Ok(bytes),
            Given::Stall | Given::Fault => return Err(ReadError::Fault),
        }
    }
    Ok(bytes)
}

// Asks `stream` once and appends the bytes that it gives to `bytes`, up to `most` bytes in all.
fn read_piece<S: Stream>(
    stream: &mut S,
    bytes: &mut Vec<u8>,
    most: usize,
) -> Result<Given, NoMemory>
    requires { vec_len bytes.old < most }
    ensures ok { IfOk result (λ answer. ReadsPiece most (S.source stream.old) bytes.old.items answer
        (S.source stream.new) bytes.new.items) }
    ensures err { OnErr result (ReadsOnce (S.source stream.old) (S.source stream.new)) }
    ensures other { S.sink stream.new ≡ S.sink stream.old }
{
    bytes.reserve(PIECE)?;
    let mut piece = [0; PIECE];
    let room = PIECE.min(most - bytes.len());
    let buffer = &mut piece[..room];
    let answer = stream.give(buffer);
    if let Given::Bytes(count) = answer {
        bytes.extend_from_slice(&buffer[..count])?;
    }
    Ok(answer)
}
