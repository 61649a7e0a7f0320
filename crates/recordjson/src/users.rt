// A user as an object.
ghost use Rattle.std.specs.Prelude.{◌≡◌, ◌++◌, OnOk};
ghost use Rattle.recordjson.specs.Users.{user_text, person_text, entries_text};

use crate::line::JsonLine;
use crate::lists::{put_chans, put_flags, put_masks};
use bytetext::NoMemory;
use std::alloc::Global;
use userfile::User;

// Appends `user` as an object.
#[tactic(auto, using(std::proofs::Common::append_assoc))]
pub(crate) fn put_user(alloc: Global, line: &mut JsonLine, user: &User) -> Result<(), NoMemory>
    ensures { OnOk result (line.new ≡ line.old ++ user_text user.now) }
{
    put_person(alloc, line, user)?;
    put_entries(alloc, line, user)
}

// {"handle":H,"flags":F,"bot":F,"info":TEXT
#[tactic(auto, using(std::proofs::Common::append_assoc))]
fn put_person(alloc: Global, line: &mut JsonLine, user: &User) -> Result<(), NoMemory>
    ensures { OnOk result (line.new ≡ line.old ++ person_text user.now) }
{
    line.put_first(b"handle")?;
    line.put_text(user.handle.as_bytes())?;
    line.put_next(b"flags")?;
    put_flags(alloc, line, user.global)?;
    line.put_next(b"bot")?;
    put_flags(alloc, line, user.bot)?;
    line.put_next(b"info")?;
    line.put_text_or_null(user.info.as_bytes())
}

// ,"masks":[M ..],"channels":[{..} ..]}
#[tactic(auto, using(std::proofs::Common::append_assoc))]
fn put_entries(alloc: Global, line: &mut JsonLine, user: &User) -> Result<(), NoMemory>
    ensures { OnOk result (line.new ≡ line.old ++ entries_text user.now) }
{
    line.put_next(b"masks")?;
    line.put_words(b"[")?;
    put_masks(line, user.masks.as_slice())?;
    line.put_words(b"]")?;
    line.put_next(b"channels")?;
    line.put_words(b"[")?;
    put_chans(alloc, line, user.channels.as_slice())?;
    line.put_words(b"]}")
}
