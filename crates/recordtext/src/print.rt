// Appends bytes and numbers to a text.
ghost use Rattle.std.specs.Prelude.{◌≡◌, ◌≤◌, ◌<◌, ◌+◌, ◌++◌, OnOk, OnErr, decimal, length, vec_len};
ghost use Rattle.std.specs.Vec.{vec_capacity};

use bytetext::NoMemory;
use itoa::Buffer;

/// Appends `text` to `out`.
///
/// # Errors
/// `NoMemory` if `out` must grow and cannot; never if its capacity suffices.
pub fn put(out: &mut Vec<u8>, text: &[u8]) -> Result<(), NoMemory>
    ensures text { OnOk result (out.new.items ≡ out.old.items ++ text.now) }
    ensures len { OnOk result (vec_len out.new ≡ vec_len out.old + length text.now) }
    ensures capacity { vec_capacity out.old ≤ vec_capacity out.new }
    ensures memory { OnErr result (vec_capacity out.old < vec_len out.old + length text.now) }
{
    out.extend_from_slice(text)?;
    Ok(())
}

/// Appends `number` to `out` in base ten.
///
/// # Errors
/// `NoMemory` if `out` must grow and cannot; never if its capacity suffices.
pub fn put_number(out: &mut Vec<u8>, number: u64) -> Result<(), NoMemory>
    ensures text { OnOk result (out.new.items ≡ out.old.items ++ decimal number) }
    ensures capacity { vec_capacity out.old ≤ vec_capacity out.new }
    ensures memory { OnErr result (vec_capacity out.old < vec_len out.old + length (decimal number)) }
{
    let mut buffer = Buffer::new();
    put(out, buffer.format(number).as_bytes())
}

/// Appends `word` and then `number`, in base ten, to `out`.
///
/// # Errors
/// `NoMemory` if `out` must grow and cannot; never if its capacity suffices.
#[tactic(auto, using(std::proofs::Common::append_assoc))]
pub fn put_counted(out: &mut Vec<u8>, word: &[u8], number: u64) -> Result<(), NoMemory>
    ensures text { OnOk result (out.new.items ≡ out.old.items ++ (word.now ++ decimal number)) }
    ensures memory { OnErr result (vec_capacity out.old < vec_len out.old + (length word.now + length (decimal number))) }
{
    put(out, word)?;
    put_number(out, number)
}
