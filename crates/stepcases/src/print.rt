// What the steps print.
use bytetext::NoMemory;
use itoa::Buffer;
use sharelink::{LinkNote, Packet};
use std::alloc::Global;
use userfile::{Ban, User, Userfile};

/// Appends `text`.
pub fn put(out: &mut Vec<u8>, text: &[u8]) -> Result<(), NoMemory> {
    out.extend_from_slice(text)?;
    Ok(())
}

/// Appends `number` in base ten.
pub fn put_number(out: &mut Vec<u8>, number: u64) -> Result<(), NoMemory> {
    let mut buffer = Buffer::new();
    put(out, buffer.format(number).as_bytes())
}

/// Appends `word` and `number`, each with a space before it.
pub fn put_counted(out: &mut Vec<u8>, word: &[u8], number: u64) -> Result<(), NoMemory> {
    put_word(out, word)?;
    put(out, b" ")?;
    put_number(out, number)
}

fn put_word(out: &mut Vec<u8>, word: &[u8]) -> Result<(), NoMemory> {
    put(out, b" ")?;
    put(out, word)
}

/// Appends the line `B WORD CODE`: the number of `bot`, `word` and `code`.
pub fn put_code(out: &mut Vec<u8>, bot: u16, word: &[u8], code: &str) -> Result<(), NoMemory> {
    put_number(out, u64::from(bot))?;
    put_word(out, word)?;
    put_word(out, code.as_bytes())?;
    put(out, b"\n")
}

/// Appends what came of a call, as `note` has it. The bot's number stands before it.
pub fn put_note(out: &mut Vec<u8>, note: &LinkNote) -> Result<(), NoMemory> {
    match note {
        LinkNote::Queued => put_word(out, b"Queued"),
        LinkNote::Idle => put_word(out, b"Idle"),
        LinkNote::Sent(request) => put_counted(out, b"Sent", u64::from(*request)),
        LinkNote::Accepted(number) => put_counted(out, b"Accepted", u64::from(*number)),
        LinkNote::Refused(fault) => {
            put_word(out, b"Refused")?;
            put_word(out, fault.code().as_bytes())
        }
        LinkNote::Served(count) => put_counted(out, b"Served", *count as u64),
        LinkNote::Old => put_word(out, b"Old"),
        LinkNote::Repeat => put_word(out, b"Repeat"),
        LinkNote::Gap => put_word(out, b"Gap"),
        LinkNote::Early => put_word(out, b"Early"),
        LinkNote::Applied(number) => put_counted(out, b"Applied", u64::from(*number)),
        LinkNote::Kept(part) => put_counted(out, b"Kept", u64::from(*part)),
        LinkNote::Installed(version) => put_counted(out, b"Installed", u64::from(*version)),
        LinkNote::Compacted => put_word(out, b"Compacted"),
        LinkNote::Relayed => put_word(out, b"Relayed"),
        LinkNote::Text { from, text } => {
            put_counted(out, b"Text", u64::from(*from))?;
            put_word(out, text.as_bytes())
        }
        LinkNote::Stray => put_word(out, b"Stray"),
        LinkNote::Restarted(version) => put_counted(out, b"Restarted", u64::from(*version)),
    }
}

/// Appends `packet`, with a space before it.
pub fn put_packet(out: &mut Vec<u8>, packet: &Packet) -> Result<(), NoMemory> {
    match packet {
        Packet::Hello { version, .. } => put_counted(out, b"Hello", u64::from(*version)),
        Packet::Change { number, .. } => put_counted(out, b"Change", u64::from(*number)),
        Packet::Part {
            version,
            part,
            count,
            ..
        } => {
            put_counted(out, b"Part", u64::from(*version))?;
            put(out, b" ")?;
            put_number(out, u64::from(*part))?;
            put(out, b" ")?;
            put_number(out, u64::from(*count))
        }
        Packet::Request { request, .. } => put_counted(out, b"Request", u64::from(*request)),
        Packet::Accepted {
            request,
            number,
            ..
        } => {
            put_counted(out, b"Accepted", u64::from(*request))?;
            put(out, b" ")?;
            put_number(out, u64::from(*number))
        }
        Packet::Refused { request, fault, .. } => {
            put_counted(out, b"Refused", u64::from(*request))?;
            put_word(out, fault.code().as_bytes())
        }
        Packet::BotText { from, to, text } => {
            put_counted(out, b"BotText", u64::from(*from))?;
            put(out, b" ")?;
            put_number(out, u64::from(*to))?;
            put_word(out, text.as_bytes())
        }
    }
}

/// Writes the records of `userfile`: a line for each user and each ban, and one more for an info and for a mark.
pub fn records_text(alloc: Global, userfile: &Userfile) -> Result<Vec<u8>, NoMemory> {
    let mut out = Vec::new(alloc);
    for place in 0..userfile.user_count() {
        if let Some(user) = userfile.user_at(place) {
            put_user(alloc, &mut out, user)?;
        }
    }
    for place in 0..userfile.ban_count() {
        if let Some(ban) = userfile.ban_at(place) {
            put_ban(&mut out, ban)?;
        }
    }
    Ok(out)
}

// user H G F MASK.., info H TEXT
fn put_user(alloc: Global, out: &mut Vec<u8>, user: &User) -> Result<(), NoMemory> {
    put(out, b" user ")?;
    put(out, user.handle.as_bytes())?;
    put_word(out, user.global.text(alloc)?.as_bytes())?;
    put_word(out, user.bot.text(alloc)?.as_bytes())?;
    for mask in user.masks.as_slice() {
        put_word(out, mask.as_bytes())?;
    }
    for entry in user.channels.as_slice() {
        put_word(out, entry.channel.as_bytes())?;
        put_word(out, entry.flags.text(alloc)?.as_bytes())?;
    }
    put(out, b"\n")?;
    if user.info.is_empty() {
        return Ok(());
    }
    put(out, b" info")?;
    put_word(out, user.handle.as_bytes())?;
    put_word(out, user.info.as_bytes())?;
    put(out, b"\n")
}

// ban C M H E COMMENT, sticky C M
fn put_ban(out: &mut Vec<u8>, ban: &Ban) -> Result<(), NoMemory> {
    put(out, b" ban")?;
    put_channel(out, ban)?;
    put_word(out, ban.mask.as_bytes())?;
    put_word(out, ban.creator.as_bytes())?;
    put(out, b" ")?;
    put_number(out, ban.expires)?;
    if !ban.comment.is_empty() {
        put_word(out, ban.comment.as_bytes())?;
    }
    put(out, b"\n")?;
    if !ban.sticky {
        return Ok(());
    }
    put(out, b" sticky")?;
    put_channel(out, ban)?;
    put_word(out, ban.mask.as_bytes())?;
    put(out, b"\n")
}

// Appends the channel of a ban, or `*` if the ban is global.
fn put_channel(out: &mut Vec<u8>, ban: &Ban) -> Result<(), NoMemory> {
    put_word(
        out,
        if ban.channel.is_empty() {
            b"*"
        } else {
            ban.channel.as_bytes()
        },
    )
}
