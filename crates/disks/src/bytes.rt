// Puts texts over bytes in room that was made before.
ghost use Rattle.std.specs.Prelude.{◌≡◌, ◌<◌, ◌≤◌, ◌+◌, ◌++◌, length, take, drop, replicate, vec_len, OnOk, OnErr};
ghost use Rattle.std.specs.Vec.{vec_capacity};
ghost use Rattle.disks.specs.Calls.{Holds, read_count};

use bytetext::NoMemory;

/// Writes `text` over the bytes from the offset `at` on.
fn overwrite(bytes: &mut [u8], at: usize, text: &[u8])
    requires { at + length text.now ≤ length bytes.old }
    ensures { Holds bytes.old at text.now bytes.new }
{
    let end = at + text.len();
    bytes[at..end].copy_from_slice(text);
}

/// Appends `text` to the bytes.
fn put_after(bytes: &mut Vec<u8>, text: &[u8])
    requires { vec_len bytes.old + length text.now ≤ vec_capacity bytes.old }
    ensures items { bytes.new.items ≡ bytes.old.items ++ text.now }
    ensures capacity { vec_capacity bytes.new ≡ vec_capacity bytes.old }
{
    for byte in text {
        bytes.push_reserved(*byte);
    }
}

/// Writes `text` over the bytes from the offset `at` on, and past their end.
pub(crate) fn put(bytes: &mut Vec<u8>, at: usize, text: &[u8])
    requires inside { at ≤ vec_len bytes.old }
    requires room { at + length text.now ≤ vec_capacity bytes.old }
    ensures holds { Holds bytes.old.items at text.now bytes.new.items }
    ensures capacity { vec_capacity bytes.new ≡ vec_capacity bytes.old }
{
    let after = bytes.len() - at;
    if text.len() <= after {
        overwrite(bytes, at, text);
    } else {
        overwrite(bytes, at, &text[..after]);
        put_after(bytes, &text[after..]);
    }
}

/// Sets `count` bytes from the offset `at` on to `byte`.
pub(crate) fn fill(bytes: &mut [u8], at: usize, count: usize, byte: u8)
    requires { at + count ≤ length bytes.old }
    ensures { Holds bytes.old at (replicate count byte) bytes.new }
{
    let end = at + count;
    bytes[at..end].fill(byte);
}

/// Makes `copy` equal to `bytes`, when their first `same` bytes are already equal.
pub(crate) fn copy_rest(copy: &mut Vec<u8>, bytes: &[u8], same: usize)
    requires inside { same ≤ length bytes.now }
    requires front { take same copy.old.items ≡ take same bytes.now }
    requires room { length bytes.now ≤ vec_capacity copy.old }
    requires long { same ≤ vec_len copy.old }
    ensures items { copy.new.items ≡ bytes.now }
    ensures capacity { vec_capacity copy.new ≡ vec_capacity copy.old }
{
    copy.truncate(same);
    put_after(copy, &bytes[same..]);
}

/// Reads the bytes from the offset `at` on into `buf`, and returns how many it read.
pub(crate) fn read_from(bytes: &[u8], at: usize, buf: &mut [u8]) -> usize
    ensures count { result ≡ read_count bytes.now at (length buf.old) }
    ensures bytes { buf.new ≡ take result (drop at bytes.now) ++ drop result buf.old }
{
    if at >= bytes.len() {
        return 0;
    }
    let count = buf.len().min(bytes.len() - at);
    buf[..count].copy_from_slice(&bytes[at..at + count]);
    count
}

/// Makes room up to the offset `end`.
pub(crate) fn make_room(bytes: &mut Vec<u8>, end: usize) -> Result<(), NoMemory>
    ensures room { OnOk result (end ≤ vec_capacity bytes.new) }
    ensures items { bytes.new.items ≡ bytes.old.items }
    ensures capacity { vec_capacity bytes.old ≤ vec_capacity bytes.new }
    ensures memory { OnErr result (vec_capacity bytes.old < end) }
{
    bytes.reserve(end.saturating_sub(bytes.len()))?;
    Ok(())
}
