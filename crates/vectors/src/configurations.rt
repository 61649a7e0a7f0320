// Configuration files.
use bottimers::{Zone, civil, time_args};
use bytetext::{Failure, NoMemory, Text};
use caselines::{BAD_NUMBER, BAD_WORDS, CaseError, Sink, number};
use settings::{
    Address, BindLine, ChannelSetting, LeafLine, LeafRule, PageSetting, Server, Settings,
};
use std::alloc::Global;
use tunnels::stunnel_text;

// The most bytes of a file of `#`.
const MOST: usize = 100_000;

// The midnights of UTC that begin 1 January and 1 July 2026.
const IN_WINTER: u64 = 1_767_225_600;

const IN_SUMMER: u64 = 1_782_864_000;

/// Answers `settings LINE..` on `out`: what a file of these lines says.
pub fn settings(alloc: Global, lines: &[Text], out: &mut Sink) -> Result<(), CaseError> {
    let bytes = file_of(alloc, lines)?;
    answer(alloc, &bytes, out)
}

/// Answers `tunnels LINE..` on `out`: what stunnel is told of a configuration file of these lines.
pub fn tunnels(alloc: Global, lines: &[Text], out: &mut Sink) -> Result<(), CaseError> {
    let bytes = file_of(alloc, lines)?;
    match Settings::read(alloc, bytes.as_slice()) {
        Ok(settings) => {
            out.put(stunnel_text(alloc, &settings)?.as_slice());
            Ok(())
        }
        Err(_) => Err(BAD_WORDS),
    }
}

/// Returns the lines, with a line feed between.
pub fn file_of(alloc: Global, lines: &[Text]) -> Result<Vec<u8>, NoMemory> {
    let mut file = Vec::new(alloc);
    for (place, line) in lines.iter().enumerate() {
        if place > 0 {
            file.push(b'\n')?;
        }
        file.extend_from_slice(line.as_bytes())?;
    }
    Ok(file)
}

/// Answers `long N` on `out`: what a file of N bytes `#` says.
pub fn long(alloc: Global, words: &[Text], out: &mut Sink) -> Result<(), CaseError> {
    let [count] = words else {
        return Err(BAD_WORDS);
    };
    let count: usize = number(count.as_bytes())?;
    if count > MOST {
        return Err(BAD_NUMBER);
    }
    let bytes = vec![in alloc; b'#'; count]?;
    answer(alloc, &bytes, out)
}

fn answer(alloc: Global, bytes: &[u8], out: &mut Sink) -> Result<(), CaseError> {
    match Settings::read(alloc, bytes) {
        Ok(settings) => {
            put_settings(alloc, &settings, out)?;
            Ok(())
        }
        Err(Failure::Refused(fault)) => {
            let text = format!(in alloc; "{fault}")?;
            out.put(text.as_bytes());
            Ok(())
        }
        Err(Failure::NoMemory) => Err(Failure::NoMemory),
    }
}

// Writes settings in the words of a file.
fn put_settings(alloc: Global, settings: &Settings, out: &mut Sink) -> Result<(), NoMemory> {
    out.put(b"data");
    put_word(settings.folder.as_bytes(), out);
    out.put(b" ; bot ");
    out.number(u64::from(settings.station.number));
    out.put(b" of ");
    out.number(u64::from(settings.station.leaves));
    out.put(b" ; nick");
    put_word(settings.nick.as_bytes(), out);
    for channel in settings.channels.as_slice() {
        put_channel(channel, out);
    }
    for server in settings.servers.as_slice() {
        put_server(server, out);
    }
    for hub in settings.hubs.as_slice() {
        put_address(b" ; hub", Some(hub), out);
    }
    put_address(b" ; listen", settings.listen.as_ref(), out);
    for line in settings.limits.as_slice() {
        put_limit(line, out);
    }
    put_rest(alloc, settings, out)
}

// Writes the settings that may be missing.
fn put_rest(alloc: Global, settings: &Settings, out: &mut Sink) -> Result<(), NoMemory> {
    if let Some(file) = &settings.secret {
        out.put(b" ; secret");
        put_word(file.as_bytes(), out);
    }
    if let Some(account) = &settings.account {
        out.put(b" ; account");
        put_word(account.name.as_bytes(), out);
        put_word(account.file.as_bytes(), out);
    }
    put_zone(alloc, &settings.zone, out)?;
    if settings.exclusive {
        out.put(b" ; exclusive");
    }
    if settings.log_lines {
        out.put(b" ; log lines");
    }
    if settings.log_json {
        out.put(b" ; log json");
    }
    if let Some(file) = &settings.log_file {
        out.put(b" ; log file");
        put_word(file.as_bytes(), out);
    }
    if let Some(page) = &settings.page {
        put_page(page, out);
    }
    put_texts(b" ; perform", settings.performs.as_slice(), out);
    for bind in settings.binds.as_slice() {
        put_bind(bind, out);
    }
    Ok(())
}

// Writes what a zone's clock shows at two moments, unless that is UTC.
fn put_zone(alloc: Global, zone: &Zone, out: &mut Sink) -> Result<(), NoMemory> {
    let winter = shown_at(alloc, IN_WINTER, zone)?;
    let summer = shown_at(alloc, IN_SUMMER, zone)?;
    if winter.as_bytes() != b"00:00".as_slice() || summer.as_bytes() != b"00:00".as_slice() {
        out.put(b" ; zone");
        put_word(winter.as_bytes(), out);
        put_word(summer.as_bytes(), out);
    }
    Ok(())
}

// What a zone's clock shows at a moment, as HH:MM; nothing if there is none.
fn shown_at(alloc: Global, moment: u64, zone: &Zone) -> Result<Text, NoMemory> {
    let mut text = Vec::new(alloc);
    if let Ok(at) = civil(moment, zone) {
        let words = time_args(alloc, &at)?;
        if let [minute, hour, ..] = words.as_slice() {
            text.extend_from_slice(hour.as_bytes())?;
            text.push(b':')?;
            text.extend_from_slice(minute.as_bytes())?;
        }
    }
    Ok(Text::new(text))
}

// Writes a space and a text.
fn put_word(text: &[u8], out: &mut Sink) {
    out.put(b" ");
    out.put(text);
}

fn put_texts(word: &[u8], texts: &[Text], out: &mut Sink) {
    for text in texts {
        out.put(word);
        put_word(text.as_bytes(), out);
    }
}

fn put_address(word: &[u8], address: Option<&Address>, out: &mut Sink) {
    if let Some(address) = address {
        out.put(word);
        put_word(address.host.as_bytes(), out);
        out.put(if address.tls { b" +" } else { b" " });
        out.number(u64::from(address.port));
    }
}

fn put_channel(channel: &ChannelSetting, out: &mut Sink) {
    out.put(b" ; channel");
    put_word(channel.name.as_bytes(), out);
    if let Some(key) = &channel.key {
        put_word(key.as_bytes(), out);
    }
}

fn put_limit(line: &LeafLine, out: &mut Sink) {
    out.put(b" ; leaf ");
    out.number(u64::from(line.leaf));
    out.put(match line.rule {
        LeafRule::Reads => b" reads".as_slice(),
        LeafRule::Persons => b" persons".as_slice(),
    });
}

fn put_page(page: &PageSetting, out: &mut Sink) {
    put_address(b" ; page", Some(&page.address), out);
    if let Some(file) = &page.password {
        put_word(file.as_bytes(), out);
    }
}

fn put_server(server: &Server, out: &mut Sink) {
    put_address(b" ; server", Some(&server.address), out);
    if let Some(pass) = &server.pass {
        put_word(pass.as_bytes(), out);
    }
}

fn put_bind(bind: &BindLine, out: &mut Sink) {
    out.put(b" ; ");
    out.number(bind.line);
    out.put(b" bind");
    put_word(bind.words.kind.as_bytes(), out);
    put_word(bind.words.flags.as_bytes(), out);
    put_word(bind.words.proc.as_bytes(), out);
    put_word(bind.words.mask.as_bytes(), out);
}
