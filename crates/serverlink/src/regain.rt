// The nick that the bot wants, while it has another one.
ghost use Rattle.std.specs.Prelude.{◌≡◌};
ghost use Rattle.std.specs.List.{list_all, list_any};
ghost use Rattle.rfccase.specs.Casemapping.{is_same_by};
ghost use Rattle.serverlink.specs.Regains.{announces, has_nick, is_answer, is_gone, is_left, is_monitor, is_nobody, is_space, is_unfit};

use crate::cue::{is_by, param};
use bytetext::{NoMemory, Text};
use ircline::Message;
use rfccase::{Casemapping, same_by};
use std::alloc::Global;
use std::marker::Model;

/// While the bot has another nick than it wants, the process asks the server each so many seconds whether somebody has
/// the wanted one. A NICK that asks for it back comes as long after the last one, or later.
pub const REGAIN: u64 = 60;

/// How many seconds after the server has said that it takes no such nick (432) the process asks again.
pub const UNFIT: u64 = 3_600;

/// The bot's nick on a connection, and when the process asks for the nick that the bot wants, if that is another one.
///
/// A minute after the server gave the bot another nick, and each minute from then on, the process asks by ISON whether
/// somebody has the wanted one (RFC 2812 section 4.9). If nobody has, it sends NICK. So it does at once when it hears who
/// has the nick quit or take another one. It sends at most one NICK in a minute: if the server refuses it, the next
/// question decides. It asks nothing while the bot has the nick, and before the server has welcomed the bot.
///
/// With the ISON it also asks a server that announces MONITOR (a token of a 005) to tell when the nick is free (731). Such a
/// server tells that once, and at once. So the ISON stays: the server may tell it within a minute of a NICK.
#[derive(Drop)]
pub struct Regain {
    // `None` until the server welcomes the bot.
    nick: Option<Text>,
    // The second from which on an ISON is due.
    asks: u64,
    // Whether the last ISON has no answer yet.
    asked: bool,
    // The second from which on a NICK may be sent.
    tells: u64,
    // Whether the server has MONITOR.
    monitors: bool,
}

impl Model for Regain {
    ghost use Rattle.serverlink.specs.Regains.{Regaining};

    ghost Value = { Regaining };

    ghost view = { λ r. record {
      nick = r.nick;
      asks = r.asks;
      asked = r.asked;
      tells = r.tells;
      monitors = r.monitors;
    } };
}

impl Regain {
    ghost use Rattle.std.specs.Prelude.{◌≡◌, OnOk, OnErr};
    ghost use Rattle.serverlink.specs.Regains.{asked, begun, heard, is_due, is_free, lacks, named, regains};

    /// Creates what is known of the nick on a connection that begins: the server has not welcomed the bot yet.
    pub fn new() -> Regain
        ensures { result ≡ begun }
    {
        Regain {
            nick: None,
            asks: 0,
            asked: false,
            tells: 0,
            monitors: false,
        }
    }

    /// Notes at second `now` that the bot has this `nick`, by a welcome or by a NICK.
    ///
    /// # Errors
    /// `NoMemory` if an allocation fails. Nothing has changed then.
    pub fn name(&mut self, alloc: Global, nick: &[u8], now: u64) -> Result<(), NoMemory>
        ensures named { OnOk result (self.new ≡ named self.old nick.now now) }
        ensures err { OnErr result (self.new ≡ self.old) }
    {
        self.nick = Some(Text::from_slice(alloc, nick)?);
        self.asks = now.saturating_add(REGAIN);
        self.asked = false;
        Ok(())
    }

    // Whether a server has welcomed the bot, under another nick than `wanted`.
    fn lacks(&self, mapping: Casemapping, wanted: &[u8]) -> bool
        ensures { result ≡ lacks mapping self.now.nick wanted.now }
    {
        match &self.nick {
            Some(nick) => !same_by(mapping, nick.as_bytes(), wanted),
            None => false,
        }
    }

    /// Whether the process is due to ask at second `now` whether somebody has the nick `wanted`.
    pub fn is_due(&self, mapping: Casemapping, wanted: &[u8], now: u64) -> bool
        ensures { result ≡ is_due mapping self.now wanted.now now }
    {
        self.lacks(mapping, wanted) && self.asks <= now
    }

    /// Whether the server has announced MONITOR. If so, the process asks by MONITOR, too.
    pub fn monitors(&self) -> bool
        ensures { result ≡ self.now.monitors }
    {
        self.monitors
    }

    /// Notes that the process asks at second `now` whether somebody has the nick.
    pub fn ask(&mut self, now: u64)
        ensures { self.new ≡ asked self.old now }
    {
        self.asks = now.saturating_add(REGAIN);
        self.asked = true;
    }

    /// Takes in `message` of the server at second `now`. Returns whether the process is to send a NICK that asks for the
    /// nick `wanted`.
    pub fn hear(&mut self, mapping: Casemapping, message: &Message, wanted: &[u8], now: u64) -> bool
        ensures regains { result ≡ regains mapping self.old message.now wanted.now now }
        ensures heard { self.new ≡ heard mapping self.old message.now wanted.now now }
    {
        let is_free = self.is_free(mapping, message, wanted);
        let regains = self.lacks(mapping, wanted) && self.tells <= now && is_free;
        self.monitors = self.monitors || announces(message);
        if is_answer(message) {
            self.asked = false;
        }
        if is_unfit(mapping, message, wanted) {
            self.asks = now.saturating_add(UNFIT);
        }
        if regains {
            self.tells = now.saturating_add(REGAIN);
        }
        regains
    }

    // Whether the server says by `message` that nobody has the nick `wanted`.
    fn is_free(&self, mapping: Casemapping, message: &Message, wanted: &[u8]) -> bool
        ensures { result ≡ is_free mapping self.now message.now wanted.now }
    {
        is_left(mapping, message, wanted)
            || is_gone(mapping, message, wanted)
            || self.asked && is_nobody(message)
    }
}

// Whether who had the nick `wanted` is gone, or has another nick now.
fn is_left(mapping: Casemapping, message: &Message, wanted: &[u8]) -> bool
    ensures { result ≡ is_left mapping message.now wanted.now }
{
    let command = message.command.as_bytes();
    is_by(mapping, message, wanted)
        && (command == b"QUIT".as_slice()
            || command == b"NICK".as_slice() && !same_by(mapping, param(message, 0), wanted))
}

// Whether a server with MONITOR says that nobody has the nick `wanted` any more (731).
fn is_gone(mapping: Casemapping, message: &Message, wanted: &[u8]) -> bool
    ensures { result ≡ is_gone mapping message.now wanted.now }
{
    message.command.as_bytes() == b"731".as_slice() && has_nick(mapping, wanted, param(message, 1))
}

// Whether `nick` stands in `list`, whose nicks are separated by commas.
fn has_nick(mapping: Casemapping, nick: &[u8], list: &[u8]) -> bool
    ensures { result ≡ has_nick mapping nick.now list.now }
{
    for piece in list.split(|byte| *byte == b',') {
        if is_the_nick(mapping, piece, nick) {
            return true;
        }
    }
    false
}

fn is_the_nick(mapping: Casemapping, piece: &[u8], nick: &[u8]) -> bool
    ensures { result ≡ is_same_by mapping piece.now nick.now }
{
    same_by(mapping, piece, nick)
}

// Whether the server says by `message` that it has MONITOR (005).
fn announces(message: &Message) -> bool
    ensures { result ≡ announces message.now }
{
    if message.command.as_bytes() != b"005".as_slice() {
        return false;
    }
    match message.params.as_slice().split_first() {
        Some((_nick, tokens)) => has_monitor(tokens),
        None => false,
    }
}

// Whether the token MONITOR is among these.
fn has_monitor(tokens: &[Text]) -> bool
    ensures { result ≡ list_any is_monitor tokens.now }
{
    tokens.iter().any(|token| is_monitor(token.as_bytes()))
}

fn is_monitor(token: &[u8]) -> bool
    ensures { result ≡ is_monitor token.now }
{
    token.starts_with(b"MONITOR=") || token == b"MONITOR".as_slice()
}

// Whether a message answers an ISON (303).
fn is_answer(message: &Message) -> bool
    ensures { result ≡ is_answer message.now }
{
    message.command.as_bytes() == b"303".as_slice()
}

// Whether a message answers an ISON of one nick, and names nobody.
fn is_nobody(message: &Message) -> bool
    ensures { result ≡ is_nobody message.now }
{
    is_answer(message) && is_blank(param(message, 1))
}

// Whether a text has no byte but spaces.
fn is_blank(text: &[u8]) -> bool
    ensures { result ≡ list_all is_space text.now }
{
    text.iter().all(|byte| is_space(*byte))
}

fn is_space(byte: u8) -> bool
    ensures { result ≡ is_space byte }
{
    byte == b' '
}

// Whether the server says that it does not take the nick `wanted` (432).
fn is_unfit(mapping: Casemapping, message: &Message, wanted: &[u8]) -> bool
    ensures { result ≡ is_unfit mapping message.now wanted.now }
{
    message.command.as_bytes() == b"432".as_slice() && same_by(mapping, param(message, 1), wanted)
}
