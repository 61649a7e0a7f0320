// A version and records as one line.
ghost use Rattle.std.specs.Prelude.{◌≡◌, ◌∷◌, ◌++◌, [], OnOk, IfOk};
ghost use Rattle.std.specs.Option.{option_copied};
ghost use Rattle.recordjson.specs.Words.{found, listed, IsPlainLine};
ghost use Rattle.recordjson.specs.Users.{user_text};
ghost use Rattle.recordjson.specs.Bans.{ban_text};
ghost use Rattle.recordjson.specs.Records.{records_text};

use crate::bans::put_ban;
use crate::line::JsonLine;
use crate::users::put_user;
use bytetext::NoMemory;
use std::alloc::Global;
use userfile::{Ban, User, Userfile};

/// Returns the `version` and the records in `userfile` of the bot of number `bot`, as one JSON object on one line.
///
/// # Errors
/// `NoMemory` if an allocation fails.
pub fn json_of(
    alloc: Global,
    bot: u16,
    version: u32,
    userfile: &Userfile,
) -> Result<Vec<u8>, NoMemory>
    ensures line { IfOk result (λ line. line.items ≡ records_text bot version userfile.now ++ 10 ∷ []) }
    ensures plain { IfOk result (λ line. IsPlainLine line.items) }
{
    let mut line = JsonLine::new(alloc);
    put_records(alloc, &mut line, bot, version, userfile)?;
    line.finish()
}

// {"bot":B,"version":V,"users":[{..} ..],"bans":[{..} ..]}
#[tactic(auto, using(std::proofs::Common::append_assoc))]
fn put_records(
    alloc: Global,
    line: &mut JsonLine,
    bot: u16,
    version: u32,
    userfile: &Userfile,
) -> Result<(), NoMemory>
    ensures { OnOk result (line.new ≡ line.old ++ records_text bot version userfile.now) }
{
    line.put_first(b"bot")?;
    line.put_number(u64::from(bot))?;
    line.put_next(b"version")?;
    line.put_number(u64::from(version))?;
    line.put_next(b"users")?;
    line.put_words(b"[")?;
    put_users(alloc, line, userfile)?;
    line.put_words(b"]")?;
    line.put_next(b"bans")?;
    line.put_words(b"[")?;
    put_bans(line, userfile)?;
    line.put_words(b"]}")
}

// Appends each user, in order.
fn put_users(alloc: Global, line: &mut JsonLine, userfile: &Userfile) -> Result<(), NoMemory>
    ensures { OnOk result (line.new ≡ line.old ++ listed user_text userfile.now.users) }
{
    for place in 0..userfile.user_count() {
        line.put_comma(place)?;
        put_found_user(alloc, line, userfile.user_at(place))?;
    }
    Ok(())
}

// Appends a user; nothing for `None`.
fn put_found_user(alloc: Global, line: &mut JsonLine, user: Option<&User>) -> Result<(), NoMemory>
    ensures { OnOk result (line.new ≡ line.old ++ found user_text (option_copied user.entry)) }
{
    match user {
        Some(user) => put_user(alloc, line, user),
        None => Ok(()),
    }
}

// Appends each ban, in order.
fn put_bans(line: &mut JsonLine, userfile: &Userfile) -> Result<(), NoMemory>
    ensures { OnOk result (line.new ≡ line.old ++ listed ban_text userfile.now.bans) }
{
    for place in 0..userfile.ban_count() {
        line.put_comma(place)?;
        put_found_ban(line, userfile.ban_at(place))?;
    }
    Ok(())
}

// Appends a ban; nothing for `None`.
fn put_found_ban(line: &mut JsonLine, ban: Option<&Ban>) -> Result<(), NoMemory>
    ensures { OnOk result (line.new ≡ line.old ++ found ban_text (option_copied ban.entry)) }
{
    match ban {
        Some(ban) => put_ban(line, ban),
        None => Ok(()),
    }
}
