// Writes edits as bytes.
ghost use Rattle.std.specs.Prelude.{◌≡◌, ◌++◌, ◌∷◌, length, OnOk};
ghost use Rattle.std.specs.Prelude.{◌≤◌, ◌<◌, ◌+◌, OnErr, vec_capacity, vec_len};
ghost use Rattle.usercodec.specs.Fields.{text, flags};
ghost use Rattle.usercodec.specs.Lengths.{IsShort, EditIsShort};
ghost use Rattle.usercodec.specs.Changes.{edit_bytes};

use crate::writer::{put_byte, put_flags, put_mark, put_text, put_u64};
use bytetext::{NoMemory, Text};
use flagexpr::Flags;
use userfile::Edit;

// Appends the one spelling of `edit` to `out`. The length of each text fits in one byte.
pub(crate) fn put_edit(out: &mut Vec<u8>, edit: &Edit) -> Result<(), NoMemory>
    requires { EditIsShort edit.now }
    ensures bytes { OnOk result (out.new.items ≡ out.old.items ++ edit_bytes edit.now) }
    ensures memory { OnErr result (vec_capacity out.old < vec_len out.old + length (edit_bytes edit.now)) }
    ensures capacity { vec_capacity out.old ≤ vec_capacity out.new }
{
    match edit {
        Edit::AddUser { handle } => put_one(out, 1, handle),
        Edit::DelUser { handle } => put_one(out, 2, handle),
        Edit::AddHost { handle, mask } => put_two(out, 3, handle, mask),
        Edit::DelHost { handle, mask } => put_two(out, 4, handle, mask),
        Edit::SetGlobal { handle, flags } => put_set(out, 5, handle, *flags),
        Edit::SetChan {
            handle,
            channel,
            flags,
        } => {
            put_two(out, 6, handle, channel)?;
            put_flags(out, *flags)
        }
        Edit::SetBot { handle, flags } => put_set(out, 7, handle, *flags),
        Edit::AddBan {
            channel,
            mask,
            creator,
            expires,
            comment,
        } => {
            put_two(out, 8, channel, mask)?;
            put_text(out, creator.as_bytes())?;
            put_u64(out, *expires)?;
            put_text(out, comment.as_bytes())
        }
        Edit::DelBan { channel, mask } => put_two(out, 9, channel, mask),
        Edit::SetInfo { handle, info } => put_two(out, 10, handle, info),
        Edit::SetSticky { channel, mask, on } => {
            put_two(out, 11, channel, mask)?;
            put_mark(out, *on)
        }
    }
}

// Appends a tag and a text.
fn put_one(out: &mut Vec<u8>, tag: u8, first: &Text) -> Result<(), NoMemory>
    requires { IsShort first.now }
    ensures bytes { OnOk result (out.new.items ≡ out.old.items ++ tag ∷ text first.now) }
    ensures memory { OnErr result (vec_capacity out.old < vec_len out.old + length (tag ∷ text first.now)) }
    ensures capacity { vec_capacity out.old ≤ vec_capacity out.new }
{
    put_byte(out, tag)?;
    put_text(out, first.as_bytes())
}

// Appends a tag and two texts.
fn put_two(out: &mut Vec<u8>, tag: u8, first: &Text, second: &Text) -> Result<(), NoMemory>
    requires first { IsShort first.now }
    requires second { IsShort second.now }
    ensures bytes { OnOk result (out.new.items ≡ out.old.items ++ tag ∷ (text first.now ++ text second.now)) }
    ensures memory { OnErr result (vec_capacity out.old < vec_len out.old + length (tag ∷ (text first.now ++ text second.now))) }
    ensures capacity { vec_capacity out.old ≤ vec_capacity out.new }
{
    put_one(out, tag, first)?;
    put_text(out, second.as_bytes())
}

// Appends a tag, a text and flags.
fn put_set(out: &mut Vec<u8>, tag: u8, handle: &Text, letters: Flags) -> Result<(), NoMemory>
    requires { IsShort handle.now }
    ensures bytes { OnOk result (out.new.items ≡ out.old.items ++ tag ∷ (text handle.now ++ flags letters)) }
    ensures memory { OnErr result (vec_capacity out.old < vec_len out.old + length (tag ∷ (text handle.now ++ flags letters))) }
    ensures capacity { vec_capacity out.old ≤ vec_capacity out.new }
{
    put_one(out, tag, handle)?;
    put_flags(out, letters)
}
