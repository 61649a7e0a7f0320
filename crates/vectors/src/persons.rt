// What a userfile says of people.
use crate::changes::make_all;
use bytetext::{NoMemory, Text};
use caselines::{BAD_WORDS, CaseError, Sink, number};
use procs::{claim_by, handle_by};
use rfccase::Casemapping;
use std::alloc::Global;
use userfile::{Ban, PersonFlags, Userfile};

/// Answers `person WHO CHANGE..` on `out`: the handle of the person WHO, or the code of the first change that is
/// refused.
pub fn person(alloc: Global, words: &[Text], out: &mut Sink) -> Result<(), CaseError> {
    known(alloc, Casemapping::Rfc1459, words, out)
}

/// Answers `personby MAPPING WHO CHANGE..` on `out`: the same by a server's casemapping.
pub fn person_by(alloc: Global, words: &[Text], out: &mut Sink) -> Result<(), CaseError> {
    let [mapping, words @ ..] = words else {
        return Err(BAD_WORDS);
    };
    known(alloc, Casemapping::named(mapping.as_bytes()), words, out)
}

// Answers the handle of the first word, after the changes of the other words.
fn known(
    alloc: Global,
    mapping: Casemapping,
    words: &[Text],
    out: &mut Sink,
) -> Result<(), CaseError> {
    let [who, changes @ ..] = words else {
        return Err(BAD_WORDS);
    };
    let mut userfile = Userfile::new(alloc);
    match make_all(alloc, &mut userfile, changes)? {
        None => out.put(userfile.handle_of(mapping, who.as_bytes())),
        Some(fault) => out.put(fault.code().as_bytes()),
    }
    Ok(())
}

/// Answers `claim MAPPING ACCOUNT WHO CHANGE..` on `out`: the handle of the person WHO, who is logged in as ACCOUNT, and
/// the text by which the person is found, or the code of the first change that is refused.
pub fn claim(alloc: Global, words: &[Text], out: &mut Sink) -> Result<(), CaseError> {
    let [mapping, account, who, changes @ ..] = words else {
        return Err(BAD_WORDS);
    };
    let mut userfile = Userfile::new(alloc);
    match make_all(alloc, &mut userfile, changes)? {
        None => {
            let mapping = Casemapping::named(mapping.as_bytes());
            claim_shown(alloc, &userfile, mapping, account, who, out)?;
        }
        Some(fault) => out.put(fault.code().as_bytes()),
    }
    Ok(())
}

// HANDLE by 'CLAIM'
fn claim_shown(
    alloc: Global,
    userfile: &Userfile,
    mapping: Casemapping,
    account: &Text,
    who: &Text,
    out: &mut Sink,
) -> Result<(), NoMemory> {
    let (account, who) = (account.as_bytes(), who.as_bytes());
    out.put(handle_by(userfile, mapping, account, who));
    out.put(b" by");
    out.quoted(claim_by(alloc, userfile, mapping, account, who)?.as_bytes());
    Ok(())
}

/// Answers `userflags HANDLE CHANNEL CHANGE..` on `out`: the flags of the user of this handle, everywhere, on the
/// channel and as a bot, or the code of the first change that is refused.
pub fn user_flags(alloc: Global, words: &[Text], out: &mut Sink) -> Result<(), CaseError> {
    let [handle, channel, changes @ ..] = words else {
        return Err(BAD_WORDS);
    };
    let mut userfile = Userfile::new(alloc);
    match make_all(alloc, &mut userfile, changes)? {
        None => three_shown(
            alloc,
            userfile.flags_of(handle.as_bytes(), channel.as_bytes()),
            out,
        ),
        Some(fault) => out.put(fault.code().as_bytes()),
    }
    Ok(())
}

/// Answers `ban CHANNEL WHO MOMENT CHANGE..` on `out`: the first ban that keeps this person off the channel at this
/// second, or the code of the first change that is refused.
pub fn ban(alloc: Global, words: &[Text], out: &mut Sink) -> Result<(), CaseError> {
    banned(alloc, Casemapping::Rfc1459, words, out)
}

/// Answers `banby MAPPING CHANNEL WHO MOMENT CHANGE..` on `out`: the same by a server's casemapping.
pub fn ban_by(alloc: Global, words: &[Text], out: &mut Sink) -> Result<(), CaseError> {
    let [mapping, words @ ..] = words else {
        return Err(BAD_WORDS);
    };
    banned(alloc, Casemapping::named(mapping.as_bytes()), words, out)
}

// Answers the ban of the first three words, after the changes of the other words.
fn banned(
    alloc: Global,
    mapping: Casemapping,
    words: &[Text],
    out: &mut Sink,
) -> Result<(), CaseError> {
    let [channel, who, moment, changes @ ..] = words else {
        return Err(BAD_WORDS);
    };
    let moment = number(moment.as_bytes())?;
    let mut userfile = Userfile::new(alloc);
    match make_all(alloc, &mut userfile, changes)? {
        None => ban_shown(
            userfile.ban_for(mapping, channel.as_bytes(), who.as_bytes(), moment),
            out,
        ),
        Some(fault) => out.put(fault.code().as_bytes()),
    }
    Ok(())
}

/// Answers `info HANDLE CHANGE..` on `out`: the info text of the user of this handle between quotes, or the code of the
/// first change that is refused.
pub fn info(alloc: Global, words: &[Text], out: &mut Sink) -> Result<(), CaseError> {
    let [handle, changes @ ..] = words else {
        return Err(BAD_WORDS);
    };
    let mut userfile = Userfile::new(alloc);
    match make_all(alloc, &mut userfile, changes)? {
        None => {
            out.put(b"'");
            out.put(userfile.info_of(handle.as_bytes()));
            out.put(b"'");
        }
        Some(fault) => out.put(fault.code().as_bytes()),
    }
    Ok(())
}

/// Answers `sticky CHANNEL MASK MOMENT CHANGE..` on `out`: the first ban that comes back to the channel at this second
/// if the mask is removed from it, or the code of the first change that is refused.
pub fn sticky(alloc: Global, words: &[Text], out: &mut Sink) -> Result<(), CaseError> {
    set_again(alloc, Casemapping::Rfc1459, words, out)
}

/// Answers `stickyby MAPPING CHANNEL MASK MOMENT CHANGE..` on `out`: the same by a server's casemapping.
pub fn sticky_by(alloc: Global, words: &[Text], out: &mut Sink) -> Result<(), CaseError> {
    let [mapping, words @ ..] = words else {
        return Err(BAD_WORDS);
    };
    set_again(alloc, Casemapping::named(mapping.as_bytes()), words, out)
}

// Answers the sticky ban of the first three words, after the changes of the other words.
fn set_again(
    alloc: Global,
    mapping: Casemapping,
    words: &[Text],
    out: &mut Sink,
) -> Result<(), CaseError> {
    let [channel, mask, moment, changes @ ..] = words else {
        return Err(BAD_WORDS);
    };
    let moment = number(moment.as_bytes())?;
    let mut userfile = Userfile::new(alloc);
    match make_all(alloc, &mut userfile, changes)? {
        None => ban_shown(
            userfile.sticky_ban(mapping, channel.as_bytes(), mask.as_bytes(), moment),
            out,
        ),
        Some(fault) => out.put(fault.code().as_bytes()),
    }
    Ok(())
}

fn three_shown(alloc: Global, flags: PersonFlags, out: &mut Sink) {
    out.flags(alloc, flags.global);
    out.put(b" ");
    out.flags(alloc, flags.chan);
    out.put(b" ");
    out.flags(alloc, flags.bot);
}

// CHANNEL MASK, and `*` for all channels
fn ban_shown(ban: Option<&Ban>, out: &mut Sink) {
    match ban {
        Some(ban) => {
            out.put_if(ban.channel.is_empty(), b"*");
            out.put(ban.channel.as_bytes());
            out.put(b" ");
            out.put(ban.mask.as_bytes());
        }
        None => out.put(b"no ban"),
    }
}
