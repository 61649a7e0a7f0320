// The fields of a ban, as a change adds it and as a record holds it.
ghost use Rattle.std.specs.Prelude.{◌≡◌, ◌≤◌, ◌<◌, ◌+◌, ◌++◌, ◌∷◌, OnOk, OnErr, true, length, vec_capacity, vec_len};
ghost use Rattle.userfile.specs.Together.{is_good_ban};
ghost use Rattle.usercodec.specs.Bans.{ban_of};
ghost use Rattle.usercodec.specs.Answers.{Gives};
ghost use Rattle.usercodec.specs.Changes.{ban_at};
ghost use Rattle.usercodec.specs.Records.{held_ban_bytes, held_ban_at};

use crate::fault::CodecError;
use crate::reader::Reader;
use crate::user_fields::hostmask;
use crate::writer::{put_byte, put_mark, put_text, put_u64};
use bytetext::{NoMemory, Text};
use std::alloc::Global;
use userfile::Ban;

// A ban whose texts are still borrowed from the bytes that were read.
#[derive(Drop)]
pub(crate) struct BanFields<'a> {
    pub(crate) channel: &'a [u8],
    pub(crate) mask: &'a [u8],
    pub(crate) creator: &'a [u8],
    pub(crate) expires: u64,
    pub(crate) comment: &'a [u8],
    pub(crate) sticky: bool,
}

/// Appends the one spelling of `ban` as a record to `out`.
///
/// # Errors
/// `NoMemory` if `out` must grow and cannot, never if it has the capacity. A part of the spelling may then be appended.
pub fn put_ban(out: &mut Vec<u8>, ban: &Ban) -> Result<(), NoMemory>
    requires { is_good_ban ban.now ≡ true }
    ensures bytes { OnOk result (out.new.items ≡ out.old.items ++ 4 ∷ held_ban_bytes ban.now) }
    ensures memory { OnErr result (vec_capacity out.old < vec_len out.old + length (4 ∷ held_ban_bytes ban.now)) }
    ensures capacity { vec_capacity out.old ≤ vec_capacity out.new }
{
    put_byte(out, 4)?;
    put_text(out, ban.channel.as_bytes())?;
    put_text(out, ban.mask.as_bytes())?;
    put_text(out, ban.creator.as_bytes())?;
    put_u64(out, ban.expires)?;
    put_text(out, ban.comment.as_bytes())?;
    put_mark(out, ban.sticky)
}

#[tactic(auto, unfolding(crate::specs::Records::held_ban_at))]
pub(crate) fn held_ban_fields<'a>(reader: &mut Reader<'a>) -> Result<BanFields<'a>, CodecError>
    ensures { Gives (λ fields. (ban_of fields, reader.new)) result (held_ban_at reader.old) }
{
    let mut ban = ban_fields(reader)?;
    ban.sticky = reader.mark()?;
    Ok(ban)
}

// Reads the fields of a ban that a change adds, which isn't sticky.
#[tactic(auto, unfolding(crate::specs::Changes::ban_at))]
pub(crate) fn ban_fields<'a>(reader: &mut Reader<'a>) -> Result<BanFields<'a>, CodecError>
    ensures { Gives (λ fields. (ban_of fields, reader.new)) result (ban_at reader.old) }
{
    let channel = reader.ban_channel()?;
    let mask = reader.hostmask()?;
    let creator = reader.handle()?;
    let expires = reader.u64()?;
    let comment = reader.comment()?;
    Ok(BanFields {
        channel,
        mask,
        creator,
        expires,
        comment,
        sticky: false,
    })
}

impl<'a> BanFields<'a> {
    ghost use Rattle.std.specs.Prelude.{◌≡◌, IfOk};
    ghost use Rattle.usercodec.specs.Bans.{ban_of};

    // Copies these fields into a ban.
    pub(crate) fn copy(&self, alloc: Global) -> Result<Ban, NoMemory>
        ensures { IfOk result (λ ban. ban ≡ ban_of self.now) }
    {
        Ok(Ban {
            channel: Text::from_slice(alloc, self.channel)?,
            mask: hostmask(alloc, self.mask)?,
            creator: Text::from_slice(alloc, self.creator)?,
            expires: self.expires,
            comment: Text::from_slice(alloc, self.comment)?,
            sticky: self.sticky,
        })
    }
}
