// The lines of a bot's version and records.
ghost use Rattle.std.specs.Prelude.{◌≡◌, ◌<◌, ◌+◌, ◌++◌, None, OnOk, OnErr, length, vec_len};
ghost use Rattle.std.specs.Vec.{vec_capacity};
ghost use Rattle.std.specs.List.{flat_map};
ghost use Rattle.std.specs.Option.{option_copied};
ghost use Rattle.recordtext.specs.Text.{shown_text, version_line, user_lines, ban_lines};
ghost use Rattle.recordtext.specs.Users.{found_ban, found_user};

use crate::print::{put, put_number};
use crate::records::{put_ban, put_user};
use bytetext::NoMemory;
use std::alloc::Global;
use userfile::{Ban, User, Userfile};

/// Appends the `version` of the bot of number `bot` and the lines of its `userfile`. If either is `None`, appends that
/// no such bot exists.
///
/// # Errors
/// `NoMemory` if memory cannot be allocated. If `version` is `None`, only if `out` must grow and cannot.
#[tactic(auto, using(std::proofs::Common::append_assoc))]
pub fn put_records(
    alloc: Global,
    out: &mut Vec<u8>,
    bot: u16,
    version: Option<u32>,
    userfile: Option<&Userfile>,
) -> Result<(), NoMemory>
    ensures text { OnOk result (out.new.items ≡ out.old.items ++ shown_text bot version (option_copied userfile.entry)) }
    ensures memory { OnErr result (version ≡ None → vec_capacity out.old < vec_len out.old + length (shown_text bot None None)) }
{
    let (Some(version), Some(userfile)) = (version, userfile) else {
        return put(out, b"world O2\n");
    };
    put_version(
        out,
        bot,
        version,
        userfile.user_count(),
        userfile.ban_count(),
    )?;
    put_users(alloc, out, bot, userfile)?;
    put_bans(out, bot, userfile)
}

// B version V users U bans N
#[tactic(auto, using(std::proofs::Common::append_assoc))]
fn put_version(
    out: &mut Vec<u8>,
    bot: u16,
    version: u32,
    users: usize,
    bans: usize,
) -> Result<(), NoMemory>
    ensures { OnOk result (out.new.items ≡ out.old.items ++ version_line bot version users bans) }
{
    put_number(out, u64::from(bot))?;
    put(out, b" version ")?;
    put_number(out, u64::from(version))?;
    put(out, b" users ")?;
    put_number(out, users as u64)?;
    put(out, b" bans ")?;
    put_number(out, bans as u64)?;
    put(out, b"\n")
}

// The lines of each user, in order.
fn put_users(
    alloc: Global,
    out: &mut Vec<u8>,
    bot: u16,
    userfile: &Userfile,
) -> Result<(), NoMemory>
    ensures { OnOk result (out.new.items ≡ out.old.items ++ flat_map (user_lines bot) userfile.now.users) }
{
    for place in 0..userfile.user_count() {
        put_found_user(alloc, out, bot, userfile.user_at(place))?;
    }
    Ok(())
}

// The lines of a user; nothing for `None`.
fn put_found_user(
    alloc: Global,
    out: &mut Vec<u8>,
    bot: u16,
    user: Option<&User>,
) -> Result<(), NoMemory>
    ensures { OnOk result (out.new.items ≡ out.old.items ++ found_user bot (option_copied user.entry)) }
{
    match user {
        Some(user) => put_user(alloc, out, bot, user),
        None => Ok(()),
    }
}

// The lines of each ban, in order.
fn put_bans(out: &mut Vec<u8>, bot: u16, userfile: &Userfile) -> Result<(), NoMemory>
    ensures { OnOk result (out.new.items ≡ out.old.items ++ flat_map (ban_lines bot) userfile.now.bans) }
{
    for place in 0..userfile.ban_count() {
        put_found_ban(out, bot, userfile.ban_at(place))?;
    }
    Ok(())
}

// The lines of a ban; nothing for `None`.
fn put_found_ban(out: &mut Vec<u8>, bot: u16, ban: Option<&Ban>) -> Result<(), NoMemory>
    ensures { OnOk result (out.new.items ≡ out.old.items ++ found_ban bot (option_copied ban.entry)) }
{
    match ban {
        Some(ban) => put_ban(out, bot, ban),
        None => Ok(()),
    }
}
