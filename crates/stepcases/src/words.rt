// The words of a step.
ghost use Rattle.std.specs.Prelude.{◌<◌, IfOk};

use bytetext::Failure;
use caselines::{BAD_WORDS, CaseError, number};
use disks::Tear;
use hex::FromHexError;
use std::alloc::Global;

/// Decodes `word`, which spells bytes in hexadecimal, or none as `-`.
pub fn bytes_of(alloc: Global, word: &[u8]) -> Result<Vec<u8>, CaseError> {
    if let b"-" = word {
        return Ok(Vec::new(alloc));
    }
    match hex::decode(alloc, word) {
        Ok(bytes) => Ok(bytes),
        Err(FromHexError::OutOfMemory) => Err(Failure::NoMemory),
        Err(_) => Err(BAD_WORDS),
    }
}

/// Reads which call fails, from 1, from `word`.
pub fn call_of(word: &[u8]) -> Result<u64, CaseError>
    ensures { IfOk result (λ call. 0 < call) }
{
    let call = number::<u64>(word)?;
    if call == 0 {
        return Err(BAD_WORDS);
    }
    Ok(call)
}

/// Reads what a crash leaves from `word`.
pub fn tear_of(word: &[u8]) -> Result<Tear, CaseError> {
    match word {
        b"old" => Ok(Tear::Old),
        b"new" => Ok(Tear::New),
        digits => Ok(Tear::Fill(number(digits)?)),
    }
}
