// Writes and reads changes as bytes.
ghost use Rattle.std.specs.Prelude.{◌≡◌, ℕ, List, ◌++◌, ◌∷◌, length, take, None, IfOk, OnOk};
ghost use Rattle.std.specs.Prelude.{◌≤◌, ◌<◌, ◌+◌, OnErr, vec_capacity, vec_len};
ghost use Rattle.userfile.specs.Apply.{bad_shape};
ghost use Rattle.usercodec.specs.Lengths.{IsShort, ChangeIsShort};
ghost use Rattle.userfile.specs.declared.change.Change.{Change};
ghost use Rattle.usercodec.specs.Answers.{Decodes, Reads};
ghost use Rattle.usercodec.specs.Changes.{asker_bytes, change_bytes, IsGoodChange, change_at};

use crate::casemapping_byte::byte_of_casemapping;
use crate::change_fields::change;
use crate::decoded::Decoded;
use crate::edits::put_edit;
use crate::fault::CodecError;
use crate::reader::Reader;
use crate::writer::{put_byte, put_text};
use bytetext::NoMemory;
use std::alloc::Global;
use userfile::{Asker, Change};

/// Returns the one spelling of `change`. The change must have a good shape, which `userfile::shape` tests.
///
/// # Errors
/// `NoMemory` if the spelling cannot be allocated.
pub fn write_change(alloc: Global, change: &Change) -> Result<Vec<u8>, NoMemory>
    requires { bad_shape change.now ≡ None }
    ensures { IfOk result (λ bytes. bytes.items ≡ change_bytes change.now) }
{
    let mut bytes = Vec::new(alloc);
    put_change(&mut bytes, change)?;
    Ok(bytes)
}

/// Appends the one spelling of `change` to `out`.
///
/// # Errors
/// `NoMemory` if `out` must grow and cannot, never if it has the capacity. A part of the spelling may then be appended.
pub fn put_change(out: &mut Vec<u8>, change: &Change) -> Result<(), NoMemory>
    requires { bad_shape change.now ≡ None }
    ensures bytes { OnOk result (out.new.items ≡ out.old.items ++ change_bytes change.now) }
    ensures memory { OnErr result (vec_capacity out.old < vec_len out.old + length (change_bytes change.now)) }
    ensures capacity { vec_capacity out.old ≤ vec_capacity out.new }
{
    put_fields(out, change)
}

// The same for any change, if the length of each text fits in one byte.
fn put_fields(out: &mut Vec<u8>, change: &Change) -> Result<(), NoMemory>
    requires { ChangeIsShort change.now }
    ensures bytes { OnOk result (out.new.items ≡ out.old.items ++ change_bytes change.now) }
    ensures memory { OnErr result (vec_capacity out.old < vec_len out.old + length (change_bytes change.now)) }
    ensures capacity { vec_capacity out.old ≤ vec_capacity out.new }
{
    if let Some(asker) = &change.by {
        put_asker(out, asker)?;
    }
    put_edit(out, &change.edit)
}

// Appends the tag of a change in a person's name, and who asks.
fn put_asker(out: &mut Vec<u8>, asker: &Asker) -> Result<(), NoMemory>
    requires { IsShort asker.now.person }
    ensures bytes { OnOk result (out.new.items ≡ out.old.items ++ 12 ∷ asker_bytes asker.now) }
    ensures memory { OnErr result (vec_capacity out.old < vec_len out.old + length (12 ∷ asker_bytes asker.now)) }
    ensures capacity { vec_capacity out.old ≤ vec_capacity out.new }
{
    put_byte(out, 12)?;
    put_text(out, asker.person.as_bytes())?;
    put_byte(out, byte_of_casemapping(asker.casemapping))
}

/// Reads the change at the front of `bytes`.
///
/// # Errors
/// `Refused` with the first fault of the bytes from the left: [`CodecFault::Short`](crate::CodecFault::Short),
/// `BadTag` or `NotCanonical`. `NoMemory` if there is no fault and the change's texts cannot be allocated.
pub fn read_change(alloc: Global, bytes: &[u8]) -> Result<Decoded<Change>, CodecError>
    ensures good { IfOk result (λ read. IsGoodChange read.value) }
    // The front of the bytes is the spelling of what is read.
    ensures front { IfOk result (λ read. take read.used bytes.now ≡ change_bytes read.value) }
    ensures used { IfOk result (λ read. read.used ≡ length (change_bytes read.value)) }
    // If the front of the bytes is the spelling of a change, that change is read.
    ensures only { (change : Change) (rest : List ℕ) → IsGoodChange change
        → bytes.now ≡ change_bytes change ++ rest → Reads result change (length (change_bytes change)) }
    // Which fault a failed read returns.
    ensures exact { Decodes bytes.now result (change_at bytes.now) }
{
    decode(alloc, bytes)
}

fn decode(alloc: Global, bytes: &[u8]) -> Result<Decoded<Change>, CodecError>
    ensures { Decodes bytes.now result (change_at bytes.now) }
{
    let mut reader = Reader::new(bytes);
    let value = change(alloc, &mut reader)?;
    Ok(Decoded {
        value,
        used: bytes.len() - reader.len(),
    })
}
