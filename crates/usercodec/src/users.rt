// Writes users as records.
ghost use Rattle.std.specs.Prelude.{◌≡◌, ◌≤◌, ◌++◌, ◌∷◌, length, OnOk, true, false};
ghost use Rattle.std.specs.Prelude.{◌<◌, ◌+◌, OnErr, vec_capacity, vec_len};
ghost use Rattle.std.specs.List.{flat_map, list_all};
ghost use Rattle.userfile.specs.Together.{is_user, is_over, is_entry};
ghost use Rattle.usercodec.specs.Fields.{text, counted};
ghost use Rattle.usercodec.specs.Records.{entry_bytes, user_bytes};

use crate::writer::{put_byte, put_flags, put_text};
use bytetext::NoMemory;
use userfile::{ChannelFlags, Hostmask, User};

/// Appends the one spelling of `user` as a record to `out`.
///
/// # Errors
/// `NoMemory` if `out` must grow and cannot, never if it has the capacity. A part of the spelling may then be appended.
pub fn put_user(out: &mut Vec<u8>, user: &User) -> Result<(), NoMemory>
    requires own { is_user user.now ≡ true }
    requires few { is_over user.now ≡ false }
    ensures bytes { OnOk result (out.new.items ≡ out.old.items ++ 3 ∷ user_bytes user.now) }
    ensures memory { OnErr result (vec_capacity out.old < vec_len out.old + length (3 ∷ user_bytes user.now)) }
    ensures capacity { vec_capacity out.old ≤ vec_capacity out.new }
{
    put_byte(out, 3)?;
    put_text(out, user.handle.as_bytes())?;
    put_masks(out, user.masks.as_slice())?;
    put_flags(out, user.global)?;
    put_entries(out, user.channels.as_slice())?;
    put_flags(out, user.bot)?;
    put_text(out, user.info.as_bytes())
}

fn put_masks(out: &mut Vec<u8>, masks: &[Hostmask]) -> Result<(), NoMemory>
    requires { length masks.now ≤ 16 }
    ensures bytes { OnOk result (out.new.items ≡ out.old.items ++ counted text masks.now) }
    ensures memory { OnErr result (vec_capacity out.old < vec_len out.old + length (counted text masks.now)) }
    ensures capacity { vec_capacity out.old ≤ vec_capacity out.new }
{
    put_byte(out, masks.len() as u8)?;
    for mask in masks {
        put_mask(out, mask)?;
    }
    Ok(())
}

fn put_mask(out: &mut Vec<u8>, mask: &Hostmask) -> Result<(), NoMemory>
    ensures bytes { OnOk result (out.new.items ≡ out.old.items ++ text mask.now) }
    ensures memory { OnErr result (vec_capacity out.old < vec_len out.old + length (text mask.now)) }
    ensures capacity { vec_capacity out.old ≤ vec_capacity out.new }
{
    put_text(out, mask.as_bytes())
}

fn put_entries(out: &mut Vec<u8>, entries: &[ChannelFlags]) -> Result<(), NoMemory>
    requires few { length entries.now ≤ 16 }
    requires good { list_all is_entry entries.now ≡ true }
    ensures bytes { OnOk result (out.new.items ≡ out.old.items ++ counted entry_bytes entries.now) }
    ensures memory { OnErr result (vec_capacity out.old < vec_len out.old + length (counted entry_bytes entries.now)) }
    ensures capacity { vec_capacity out.old ≤ vec_capacity out.new }
{
    put_byte(out, entries.len() as u8)?;
    for entry in entries {
        put_entry(out, entry)?;
    }
    Ok(())
}

fn put_entry(out: &mut Vec<u8>, entry: &ChannelFlags) -> Result<(), NoMemory>
    requires { is_entry entry.now ≡ true }
    ensures bytes { OnOk result (out.new.items ≡ out.old.items ++ entry_bytes entry.now) }
    ensures memory { OnErr result (vec_capacity out.old < vec_len out.old + length (entry_bytes entry.now)) }
    ensures capacity { vec_capacity out.old ≤ vec_capacity out.new }
{
    put_text(out, entry.channel.as_bytes())?;
    put_flags(out, entry.flags)
}
