// The lines of one user, and of one ban.
ghost use Rattle.std.specs.Prelude.{◌≡◌, ◌++◌, [], if◌then◌else◌, OnOk};
ghost use Rattle.std.specs.List.{flat_map};
ghost use Rattle.flagexpr.specs.Letters.{spelling};
ghost use Rattle.recordtext.specs.Text.{user_line, user_lines, info_line, host_line, chan_line, ban_line, ban_lines, sticky_line, channel_text, comment_text};

use crate::print::{put, put_number};
use bytetext::NoMemory;
use flagexpr::Flags;
use std::alloc::Global;
use userfile::{Ban, ChannelFlags, Hostmask, User};

/// Appends to `out` the lines of `user` on the bot of number `bot`: the user and the info, then the hostmasks and the
/// flags on channels.
#[tactic(auto, using(std::proofs::Common::append_assoc))]
pub fn put_user(alloc: Global, out: &mut Vec<u8>, bot: u16, user: &User) -> Result<(), NoMemory>
    ensures { OnOk result (out.new.items ≡ out.old.items ++ user_lines bot user.now) }
{
    let handle = user.handle.as_bytes();
    put_name(alloc, out, bot, user)?;
    put_info(out, bot, handle, user.info.as_bytes())?;
    put_hosts(out, bot, handle, user.masks.as_slice())?;
    put_chans(alloc, out, bot, handle, user.channels.as_slice())
}

// B user H G F
#[tactic(auto, using(std::proofs::Common::append_assoc))]
fn put_name(alloc: Global, out: &mut Vec<u8>, bot: u16, user: &User) -> Result<(), NoMemory>
    ensures { OnOk result (out.new.items ≡ out.old.items ++ user_line bot user.now) }
{
    put_number(out, u64::from(bot))?;
    put(out, b" user ")?;
    put(out, user.handle.as_bytes())?;
    put(out, b" ")?;
    put_flags(alloc, out, user.global)?;
    put(out, b" ")?;
    put_flags(alloc, out, user.bot)?;
    put(out, b"\n")
}

// B info H TEXT; nothing if the text is empty.
#[tactic(auto, using(std::proofs::Common::append_assoc))]
fn put_info(out: &mut Vec<u8>, bot: u16, handle: &[u8], info: &[u8]) -> Result<(), NoMemory>
    ensures { OnOk result (out.new.items ≡ out.old.items ++ info_line bot handle.now info.now) }
{
    if info.is_empty() {
        return Ok(());
    }
    put_number(out, u64::from(bot))?;
    put(out, b" info ")?;
    put(out, handle)?;
    put(out, b" ")?;
    put(out, info)?;
    put(out, b"\n")
}

// A line for each hostmask, in order.
fn put_hosts(out: &mut Vec<u8>, bot: u16, handle: &[u8], masks: &[Hostmask]) -> Result<(), NoMemory>
    ensures { OnOk result (out.new.items ≡ out.old.items ++ flat_map (host_line bot handle.now) masks.now) }
{
    for mask in masks {
        put_host(out, bot, handle, mask)?;
    }
    Ok(())
}

// B host H M
#[tactic(auto, using(std::proofs::Common::append_assoc))]
fn put_host(out: &mut Vec<u8>, bot: u16, handle: &[u8], mask: &Hostmask) -> Result<(), NoMemory>
    ensures { OnOk result (out.new.items ≡ out.old.items ++ host_line bot handle.now mask.now) }
{
    put_number(out, u64::from(bot))?;
    put(out, b" host ")?;
    put(out, handle)?;
    put(out, b" ")?;
    put(out, mask.as_bytes())?;
    put(out, b"\n")
}

// A line for the flags on each channel, in order.
fn put_chans(
    alloc: Global,
    out: &mut Vec<u8>,
    bot: u16,
    handle: &[u8],
    entries: &[ChannelFlags],
) -> Result<(), NoMemory>
    ensures { OnOk result (out.new.items ≡ out.old.items ++ flat_map (chan_line bot handle.now) entries.now) }
{
    for entry in entries {
        put_chan(alloc, out, bot, handle, entry)?;
    }
    Ok(())
}

// B chan H C F
#[tactic(auto, using(std::proofs::Common::append_assoc))]
fn put_chan(
    alloc: Global,
    out: &mut Vec<u8>,
    bot: u16,
    handle: &[u8],
    entry: &ChannelFlags,
) -> Result<(), NoMemory>
    ensures { OnOk result (out.new.items ≡ out.old.items ++ chan_line bot handle.now entry.now) }
{
    put_number(out, u64::from(bot))?;
    put(out, b" chan ")?;
    put(out, handle)?;
    put(out, b" ")?;
    put(out, entry.channel.as_bytes())?;
    put(out, b" ")?;
    put_flags(alloc, out, entry.flags)?;
    put(out, b"\n")
}

/// Appends to `out` the lines of `ban` on the bot of number `bot`: its fields, and that it is sticky if it is.
#[tactic(auto, using(std::proofs::Common::append_assoc))]
pub fn put_ban(out: &mut Vec<u8>, bot: u16, ban: &Ban) -> Result<(), NoMemory>
    ensures { OnOk result (out.new.items ≡ out.old.items ++ ban_lines bot ban.now) }
{
    put_fields(out, bot, ban)?;
    put_mark(out, bot, ban)
}

// B ban C M H E COMMENT
#[tactic(auto, using(std::proofs::Common::append_assoc))]
fn put_fields(out: &mut Vec<u8>, bot: u16, ban: &Ban) -> Result<(), NoMemory>
    ensures { OnOk result (out.new.items ≡ out.old.items ++ ban_line bot ban.now) }
{
    put_number(out, u64::from(bot))?;
    put(out, b" ban ")?;
    put(out, channel_text(ban.channel.as_bytes()))?;
    put(out, b" ")?;
    put(out, ban.mask.as_bytes())?;
    put(out, b" ")?;
    put(out, ban.creator.as_bytes())?;
    put(out, b" ")?;
    put_number(out, ban.expires)?;
    put_comment(out, ban.comment.as_bytes())?;
    put(out, b"\n")
}

// B sticky C M; nothing if the ban isn't sticky.
#[tactic(auto, using(std::proofs::Common::append_assoc))]
fn put_mark(out: &mut Vec<u8>, bot: u16, ban: &Ban) -> Result<(), NoMemory>
    ensures { OnOk result (out.new.items ≡ out.old.items ++ (if ban.now.sticky then sticky_line bot ban.now else [])) }
{
    if !ban.sticky {
        return Ok(());
    }
    put_number(out, u64::from(bot))?;
    put(out, b" sticky ")?;
    put(out, channel_text(ban.channel.as_bytes()))?;
    put(out, b" ")?;
    put(out, ban.mask.as_bytes())?;
    put(out, b"\n")
}

// `*` for a ban on all channels.
fn channel_text(channel: &[u8]) -> &[u8]
    ensures { result.now ≡ channel_text channel.now }
{
    if channel.is_empty() { b"*" } else { channel }
}

// A comment and the space before it; nothing if the comment is empty.
#[tactic(auto, using(std::proofs::Common::append_assoc))]
fn put_comment(out: &mut Vec<u8>, comment: &[u8]) -> Result<(), NoMemory>
    ensures { OnOk result (out.new.items ≡ out.old.items ++ comment_text comment.now) }
{
    if comment.is_empty() {
        return Ok(());
    }
    put(out, b" ")?;
    put(out, comment)
}

// Letters, or `-` if no flag is set.
fn put_flags(alloc: Global, out: &mut Vec<u8>, flags: Flags) -> Result<(), NoMemory>
    ensures { OnOk result (out.new.items ≡ out.old.items ++ spelling flags) }
{
    let letters = flags.text(alloc)?;
    put(out, letters.as_bytes())
}
