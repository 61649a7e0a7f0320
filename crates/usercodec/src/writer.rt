// Appends fields to some bytes.
ghost use Rattle.std.specs.Prelude.{◌≡◌, ◌++◌, ◌∷◌, [], ◌<◌, ◌≤◌, ◌+◌, OnOk, OnErr, length, vec_capacity, vec_len};
ghost use Rattle.std.specs.Int.{w16, w32, w64};
ghost use Rattle.usercodec.specs.Fields.{number, text, flags, mark};

use bytetext::NoMemory;
use flagexpr::Flags;

pub(crate) fn put_byte(out: &mut Vec<u8>, byte: u8) -> Result<(), NoMemory>
    ensures bytes { OnOk result (out.new.items ≡ out.old.items ++ byte ∷ []) }
    ensures memory { OnErr result (vec_capacity out.old < vec_len out.old + 1) }
    ensures capacity { vec_capacity out.old ≤ vec_capacity out.new }
{
    out.push(byte)?;
    Ok(())
}

/// Appends the number `n` to `out` as two bytes, the most significant first.
///
/// # Errors
/// `NoMemory` if `out` must grow and cannot, never if it has the capacity.
pub fn put_u16(out: &mut Vec<u8>, n: u16) -> Result<(), NoMemory>
    ensures bytes { OnOk result (out.new.items ≡ out.old.items ++ number w16 n) }
    ensures memory { OnErr result (vec_capacity out.old < vec_len out.old + 2) }
    ensures capacity { vec_capacity out.old ≤ vec_capacity out.new }
{
    out.extend_from_slice(&n.to_be_bytes())?;
    Ok(())
}

/// Appends the number `n` to `out` as four bytes, the most significant first.
///
/// # Errors
/// `NoMemory` if `out` must grow and cannot, never if it has the capacity.
pub fn put_u32(out: &mut Vec<u8>, n: u32) -> Result<(), NoMemory>
    ensures bytes { OnOk result (out.new.items ≡ out.old.items ++ number w32 n) }
    ensures memory { OnErr result (vec_capacity out.old < vec_len out.old + 4) }
    ensures capacity { vec_capacity out.old ≤ vec_capacity out.new }
{
    out.extend_from_slice(&n.to_be_bytes())?;
    Ok(())
}

pub(crate) fn put_u64(out: &mut Vec<u8>, n: u64) -> Result<(), NoMemory>
    ensures bytes { OnOk result (out.new.items ≡ out.old.items ++ number w64 n) }
    ensures memory { OnErr result (vec_capacity out.old < vec_len out.old + 8) }
    ensures capacity { vec_capacity out.old ≤ vec_capacity out.new }
{
    out.extend_from_slice(&n.to_be_bytes())?;
    Ok(())
}

pub(crate) fn put_flags(out: &mut Vec<u8>, letters: Flags) -> Result<(), NoMemory>
    ensures bytes { OnOk result (out.new.items ≡ out.old.items ++ flags letters) }
    ensures memory { OnErr result (vec_capacity out.old < vec_len out.old + 8) }
    ensures capacity { vec_capacity out.old ≤ vec_capacity out.new }
{
    put_u64(out, letters.bits())
}

pub(crate) fn put_mark(out: &mut Vec<u8>, on: bool) -> Result<(), NoMemory>
    ensures bytes { OnOk result (out.new.items ≡ out.old.items ++ mark on) }
    ensures memory { OnErr result (vec_capacity out.old < vec_len out.old + 1) }
    ensures capacity { vec_capacity out.old ≤ vec_capacity out.new }
{
    put_byte(out, if on { 1 } else { 0 })
}

// No text of a change or a record has more than 120 bytes.
pub(crate) fn put_text(out: &mut Vec<u8>, bytes: &[u8]) -> Result<(), NoMemory>
    requires { length bytes.now < 256 }
    ensures bytes { OnOk result (out.new.items ≡ out.old.items ++ text bytes.now) }
    ensures memory { OnErr result (vec_capacity out.old < vec_len out.old + length (text bytes.now)) }
    ensures capacity { vec_capacity out.old ≤ vec_capacity out.new }
{
    out.push(bytes.len() as u8)?;
    out.extend_from_slice(bytes)?;
    Ok(())
}
