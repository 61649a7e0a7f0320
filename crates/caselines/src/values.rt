// Changes and records, as they are shown.
use crate::sink::Sink;
use bytetext::Text;
use flagexpr::Flags;
use rfccase::Casemapping;
use std::alloc::Global;
use usercodec::Record;
use userfile::{Asker, Ban, Change, Edit, User};

/// Writes `change` to `out` in the words of a script: `as`, the person and the casemapping, if a person asks, and then the
/// edit.
pub fn put_change(alloc: Global, change: &Change, out: &mut Sink) {
    if let Some(asker) = &change.by {
        put_asker(asker, out);
    }
    put_edit(alloc, &change.edit, out);
}

fn put_asker(asker: &Asker, out: &mut Sink) {
    out.put(b"as ");
    out.put(asker.person.as_bytes());
    out.put(match asker.casemapping {
        Casemapping::Ascii => b" ascii ",
        Casemapping::StrictRfc1459 => b" strict-rfc1459 ",
        Casemapping::Rfc1459 => b" rfc1459 ",
    });
}

// The edit's name, texts as they are, `*` for all channels, letters or `-` for flags, and 1 or 0 for a mark.
fn put_edit(alloc: Global, edit: &Edit, out: &mut Sink) {
    match edit {
        Edit::AddUser { handle } => put_named(b"adduser", handle, out),
        Edit::DelUser { handle } => put_named(b"deluser", handle, out),
        Edit::AddHost { handle, mask } => put_two(b"addhost", handle, mask, out),
        Edit::DelHost { handle, mask } => put_two(b"delhost", handle, mask, out),
        Edit::SetGlobal { handle, flags } => {
            put_named(b"global", handle, out);
            put_flags(alloc, *flags, out);
        }
        Edit::SetBot { handle, flags } => {
            put_named(b"bot", handle, out);
            put_flags(alloc, *flags, out);
        }
        Edit::SetChan {
            handle,
            channel,
            flags,
        } => {
            put_two(b"chan", handle, channel, out);
            put_flags(alloc, *flags, out);
        }
        Edit::AddBan {
            channel,
            mask,
            creator,
            expires,
            comment,
        } => {
            put_masked(b"addban ", channel, mask.as_bytes(), out);
            put_made(creator, *expires, comment, out);
        }
        Edit::DelBan { channel, mask } => put_masked(b"delban ", channel, mask.as_bytes(), out),
        Edit::SetInfo { handle, info } => put_two(b"info", handle, info, out),
        Edit::SetSticky { channel, mask, on } => {
            put_masked(b"sticky ", channel, mask.as_bytes(), out);
            out.put(if *on { b" 1" } else { b" 0" });
        }
    }
}

/// Writes `record` to `out`. A user is `user HANDLE GLOBAL BOT` and, each after a comma, `host MASK`,
/// `chan CHANNEL FLAGS` and, if there is one, `info TEXT`. A ban is `ban CHANNEL MASK CREATOR EXPIRES COMMENT`, with
/// `sticky` in front if it is sticky.
pub fn put_record(alloc: Global, record: &Record, out: &mut Sink) {
    match record {
        Record::User(user) => put_user(alloc, user, out),
        Record::Ban(ban) => put_ban(ban, out),
    }
}

fn put_user(alloc: Global, user: &User, out: &mut Sink) {
    put_named(b"user", &user.handle, out);
    put_flags(alloc, user.global, out);
    put_flags(alloc, user.bot, out);
    for mask in user.masks.as_slice() {
        out.put(b", host ");
        out.put(mask.as_bytes());
    }
    for entry in user.channels.as_slice() {
        put_named(b", chan", &entry.channel, out);
        put_flags(alloc, entry.flags, out);
    }
    if !user.info.is_empty() {
        out.put(b", info ");
        out.put(user.info.as_bytes());
    }
}

fn put_ban(ban: &Ban, out: &mut Sink) {
    out.put_if(ban.sticky, b"sticky ");
    put_masked(b"ban ", &ban.channel, ban.mask.as_bytes(), out);
    put_made(&ban.creator, ban.expires, &ban.comment, out);
}

// A word, and a text after a space.
fn put_named(word: &[u8], text: &Text, out: &mut Sink) {
    out.put(word);
    out.put(b" ");
    out.put(text.as_bytes());
}

// A word, and two texts after spaces.
fn put_two(word: &[u8], first: &Text, second: &Text, out: &mut Sink) {
    put_named(word, first, out);
    out.put(b" ");
    out.put(second.as_bytes());
}

// A word, and a ban's channel and mask.
fn put_masked(word: &[u8], channel: &Text, mask: &[u8], out: &mut Sink) {
    out.put(word);
    out.put_if(channel.is_empty(), b"*");
    out.put(channel.as_bytes());
    out.put(b" ");
    out.put(mask);
}

// What stands after a ban's mask.
fn put_made(creator: &Text, expires: u64, comment: &Text, out: &mut Sink) {
    out.put(b" ");
    out.put(creator.as_bytes());
    out.put(b" ");
    out.number(expires);
    out.put(b" ");
    out.put(comment.as_bytes());
}

fn put_flags(alloc: Global, flags: Flags, out: &mut Sink) {
    out.put(b" ");
    out.flags(alloc, flags);
}
