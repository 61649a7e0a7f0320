// Records of one direction, as they are written.
ghost use Rattle.std.specs.Prelude.{◌≡◌, ◌<◌, ◌≤◌, ◌+◌, ◌-◌, ◌^◌, ◌++◌, length, take, vec_capacity, IfOk, OnOk, OnErr};
ghost use Rattle.sealing.specs.Records.{body_of, sealed};
ghost use Rattle.sealing.specs.Streams.{AreSealed, record_count, sealed_len, max_records};

use crate::key::Key;
use crate::kind::{Kind, byte_of};
use crate::limits::{MAX_CONTENT, OVERHEAD};
use bytetext::NoMemory;
use std::marker::Model;

/// Seals the records of one direction of a connection, from the first on. Contracts see its key and the count of the
/// next record.
///
/// ```text
/// let mut sealer = Sealer::new(key);
/// sealer.seal(&mut out, Kind::Beat, &beat)?        // true: the record of count 0 is appended
/// sealer.seal_all(&mut out, &frames)?              // true: 40,000 bytes of frames are the records of counts 1, 2 and 3
/// ```
#[derive(Drop)]
pub struct Sealer {
    key: Key,
    count: u64,
}

impl Model for Sealer {
    ghost use Rattle.sealing.specs.Streams.{Sealing};

    ghost Value = { Sealing };

    ghost view = { λ s. record { key = s.key; count = s.count } };
}

impl Sealer {
    ghost use Rattle.std.specs.Prelude.{◌≡◌, ◌≢◌, ◌<◌, ◌≤◌, ◌+◌, ◌-◌, ◌^◌, ◌++◌, ◌↔◌, length, vec_capacity, true, IsTrue, IsOk, IfOk, OnErr};
    ghost use Rattle.sealing.specs.Records.{body_of, sealed};
    ghost use Rattle.sealing.specs.Streams.{AreSealed, record_count, sealed_len, max_records};

    /// Creates a sealer for a direction in which nothing was sealed yet. A key serves one sealer alone: a second one
    /// would use its counts again.
    pub fn new(key: Key) -> Sealer
        ensures { result ≡ record { key = key; count = 0 } }
    {
        Sealer { key, count: 0 }
    }

    /// Appends one record to `out`, and returns true. Returns false if no count is left for it: nothing is appended
    /// then, and the bots must connect again.
    ///
    /// # Errors
    /// `NoMemory` if an allocation fails. `out` and the sealer are then as before.
    pub fn seal(&mut self, out: &mut Vec<u8>, kind: Kind, content: &[u8]) -> Result<bool, NoMemory>
        requires { length content.now ≤ MAX_CONTENT }
        ensures record { result ≡ Ok true
            → out.new.items ≡ out.old.items ++ sealed self.old.key self.old.count (body_of kind content.now) }
        ensures count { result ≡ Ok true → self.new ≡ record { key = self.old.key; count = self.old.count + 1 } }
        ensures spent { IfOk result (λ is_sealed. IsTrue is_sealed ↔ (self.old.count < max_records)) }
        // It allocates nothing if `out` has room for the record, nor if no count is left.
        ensures room { length out.old.items + length content.now + OVERHEAD ≤ vec_capacity out.old → IsOk result }
        ensures memory { OnErr result (self.old.count < max_records) }
        ensures unchanged { result ≢ Ok true → (out.new.items ≡ out.old.items) × (self.new ≡ self.old) }
    {
        if self.count == u64::MAX {
            return Ok(false);
        }
        put_record(&self.key, self.count, out, kind, content)?;
        self.count += 1;
        Ok(true)
    }

    /// Appends records that carry `frames`, as many as they need, and returns true. Returns false if too few counts are
    /// left for them: nothing is appended then, and the bots must connect again.
    ///
    /// # Errors
    /// `NoMemory` if an allocation fails. `out` and the sealer are then as before.
    pub fn seal_all(&mut self, out: &mut Vec<u8>, frames: &[u8]) -> Result<bool, NoMemory>
        ensures sealed { result ≡ Ok true → AreSealed self.old out.old.items frames.now out.new.items self.new }
        ensures spent { IfOk result (λ are_sealed. IsTrue are_sealed
            ↔ (self.old.count + record_count (length frames.now) ≤ max_records)) }
        // It allocates nothing if `out` has room for the records, nor if too few counts are left.
        ensures room { length out.old.items + sealed_len (length frames.now) ≤ vec_capacity out.old → IsOk result }
        ensures memory { OnErr result (self.old.count + record_count (length frames.now) ≤ max_records) }
        ensures unchanged { result ≢ Ok true → (out.new.items ≡ out.old.items) × (self.new ≡ self.old) }
    {
        if frames.len().div_ceil(MAX_CONTENT) as u64 > u64::MAX - self.count {
            return Ok(false);
        }
        let begun = out.len();
        match put_records(&self.key, self.count, out, frames) {
            Ok(count) => {
                self.count = count;
                Ok(true)
            }
            Err(NoMemory) => {
                out.truncate(begun);
                Err(NoMemory)
            }
        }
    }
}

// Appends the records of `frames` from the count `first` on, and returns the count after them.
fn put_records(key: &Key, first: u64, out: &mut Vec<u8>, frames: &[u8]) -> Result<u64, NoMemory>
    requires { first + record_count (length frames.now) ≤ max_records }
    ensures sealed { IfOk result (λ count. AreSealed (record { key = key.now; count = first }) out.old.items frames.now
        out.new.items (record { key = key.now; count = count })) }
    ensures begun { OnErr result (take (length out.old.items) out.new.items ≡ out.old.items) }
    ensures full { OnErr result (vec_capacity out.old < length out.old.items + sealed_len (length frames.now)) }
{
    let mut count = first;
    let mut rest = frames;
    while !rest.is_empty() {
        let (piece, behind) = rest.split_at(rest.len().min(MAX_CONTENT));
        put_record(key, count, out, Kind::Frames, piece)?;
        count += 1;
        rest = behind;
    }
    Ok(count)
}

// Appends the record of `count` with this content.
fn put_record(
    key: &Key,
    count: u64,
    out: &mut Vec<u8>,
    kind: Kind,
    content: &[u8],
) -> Result<(), NoMemory>
    requires { length content.now ≤ MAX_CONTENT }
    ensures ok { OnOk result (out.new.items ≡ out.old.items ++ sealed key.now count (body_of kind content.now)) }
    ensures err { OnErr result (out.new.items ≡ out.old.items) }
    ensures full { OnErr result (vec_capacity out.old < length out.old.items + length content.now + OVERHEAD) }
    ensures capacity { vec_capacity out.old ≤ vec_capacity out.new }
{
    out.reserve(content.len() + OVERHEAD)?;
    let [high, low] = (content.len() as u16 + 1).to_be_bytes();
    let begun = out.len();
    out.extend_from_slice(&[high, low, byte_of(kind)])?;
    out.extend_from_slice(content)?;
    let tag = key.tag(count, &out[begun + 2..]);
    out.extend_from_slice(&tag)?;
    Ok(())
}
