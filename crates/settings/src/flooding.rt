// The lines that say who floods the bot or a channel: `flood-msg`, `flood-ctcp`, `flood-chan`, `flood-join`,
// `flood-nick`, `flood-kick`, `flood-deop` and `ignore-time`.
ghost use Rattle.std.specs.Prelude.{◌≡◌, ◌≤◌, length};
ghost use Rattle.std.specs.List.{prefix_len};
ghost use Rattle.settings.specs.Flooding.{after_colon, before_colon, channel_limit_said, ctcp_limit_said, deop_limit_said, flood_limit, ignore_found, ignore_time_said, is_not_colon, join_limit_said};
ghost use Rattle.settings.specs.Flooding.{kick_limit_said, limit_by, limit_found, limit_in, message_limit_said, nick_limit_said};

use crate::advice::SettingAdvice;
use crate::cutting::cut_word;
use crate::draft::once;
use crate::numeral::number;
use crate::saying::SettingSaying;
use crate::setting_word::SettingWord;
use floods::{Limit, Limits};

/// What a line says about who floods the bot.
#[derive(Clone, Copy, Debug, PartialEq, Eq)]
pub enum FloodSaying {
    /// How many lines a person may send to the bot; `None` is any number.
    Message(Option<Limit>),
    /// How many CTCPs a person may send.
    Ctcp(Option<Limit>),
    /// How many lines a person may send to channels.
    Channel(Option<Limit>),
    /// How many JOINs of one channel a person may send.
    Join(Option<Limit>),
    /// How many NICKs a person may send.
    Nick(Option<Limit>),
    /// How many KICKs from one channel a person may send.
    Kick(Option<Limit>),
    /// From how many members of one channel a person may take op.
    Deop(Option<Limit>),
    /// How many seconds a person is ignored who sends more.
    Ignore(u32),
}

/// What the lines so far say about who floods the bot; `None` if there is no such line.
#[derive(Clone, Copy, Debug, PartialEq, Eq)]
pub struct FloodDraft {
    /// The line `flood-msg`.
    pub message: Option<Option<Limit>>,
    /// The line `flood-ctcp`.
    pub ctcp: Option<Option<Limit>>,
    /// The line `flood-chan`.
    pub channel: Option<Option<Limit>>,
    /// The line `flood-join`.
    pub join: Option<Option<Limit>>,
    /// The line `flood-nick`.
    pub nick: Option<Option<Limit>>,
    /// The line `flood-kick`.
    pub kick: Option<Option<Limit>>,
    /// The line `flood-deop`.
    pub deop: Option<Option<Limit>>,
    /// The line `ignore-time`, in seconds.
    pub ignore: Option<u32>,
}

impl FloodDraft {
    ghost use Rattle.std.specs.Prelude.{◌≡◌};
    ghost use Rattle.settings.specs.Flooding.{flood_added, flood_limits, flood_refusal, no_flood_line};

    /// Creates the draft of a file of which no line was read.
    pub fn new() -> FloodDraft
        ensures { result ≡ no_flood_line }
    {
        FloodDraft {
            message: None,
            ctcp: None,
            channel: None,
            join: None,
            nick: None,
            kick: None,
            deop: None,
            ignore: None,
        }
    }

    /// Returns why `saying` is refused after the lines so far, if it is.
    pub fn refusal(&self, saying: FloodSaying) -> Option<SettingAdvice>
        ensures { result ≡ flood_refusal self.now saying }
    {
        match saying {
            FloodSaying::Message(_) => once(SettingWord::FloodMsg, self.message.is_some()),
            FloodSaying::Ctcp(_) => once(SettingWord::FloodCtcp, self.ctcp.is_some()),
            FloodSaying::Channel(_) => once(SettingWord::FloodChan, self.channel.is_some()),
            FloodSaying::Join(_) => once(SettingWord::FloodJoin, self.join.is_some()),
            FloodSaying::Nick(_) => once(SettingWord::FloodNick, self.nick.is_some()),
            FloodSaying::Kick(_) => once(SettingWord::FloodKick, self.kick.is_some()),
            FloodSaying::Deop(_) => once(SettingWord::FloodDeop, self.deop.is_some()),
            FloodSaying::Ignore(_) => once(SettingWord::IgnoreTime, self.ignore.is_some()),
        }
    }

    /// Adds what a line says.
    pub fn add(&mut self, saying: FloodSaying)
        ensures { self.new ≡ flood_added self.old saying }
    {
        match saying {
            FloodSaying::Message(limit) => self.message = Some(limit),
            FloodSaying::Ctcp(limit) => self.ctcp = Some(limit),
            FloodSaying::Channel(limit) => self.channel = Some(limit),
            FloodSaying::Join(limit) => self.join = Some(limit),
            FloodSaying::Nick(limit) => self.nick = Some(limit),
            FloodSaying::Kick(limit) => self.kick = Some(limit),
            FloodSaying::Deop(limit) => self.deop = Some(limit),
            FloodSaying::Ignore(seconds) => self.ignore = Some(seconds),
        }
    }

    /// Returns what the lines say together. Eggdrop's default stands for each line that is missing.
    pub fn limits(&self) -> Limits
        ensures { result ≡ flood_limits self.now }
    {
        let usual = Limits::eggdrop();
        Limits {
            message: self.message.unwrap_or(usual.message),
            ctcp: self.ctcp.unwrap_or(usual.ctcp),
            channel: self.channel.unwrap_or(usual.channel),
            join: self.join.unwrap_or(usual.join),
            nick: self.nick.unwrap_or(usual.nick),
            kick: self.kick.unwrap_or(usual.kick),
            deop: self.deop.unwrap_or(usual.deop),
            ignore: self.ignore.unwrap_or(usual.ignore),
        }
    }
}

pub(crate) fn message_limit_said(limit: Option<Option<Limit>>) -> SettingSaying
    ensures { result ≡ message_limit_said limit }
{
    match limit {
        Some(limit) => SettingSaying::Flood(FloodSaying::Message(limit)),
        None => SettingSaying::Wrong(SettingAdvice::Form(SettingWord::FloodMsg)),
    }
}

pub(crate) fn ctcp_limit_said(limit: Option<Option<Limit>>) -> SettingSaying
    ensures { result ≡ ctcp_limit_said limit }
{
    match limit {
        Some(limit) => SettingSaying::Flood(FloodSaying::Ctcp(limit)),
        None => SettingSaying::Wrong(SettingAdvice::Form(SettingWord::FloodCtcp)),
    }
}

pub(crate) fn channel_limit_said(limit: Option<Option<Limit>>) -> SettingSaying
    ensures { result ≡ channel_limit_said limit }
{
    match limit {
        Some(limit) => SettingSaying::Flood(FloodSaying::Channel(limit)),
        None => SettingSaying::Wrong(SettingAdvice::Form(SettingWord::FloodChan)),
    }
}

pub(crate) fn join_limit_said(limit: Option<Option<Limit>>) -> SettingSaying
    ensures { result ≡ join_limit_said limit }
{
    match limit {
        Some(limit) => SettingSaying::Flood(FloodSaying::Join(limit)),
        None => SettingSaying::Wrong(SettingAdvice::Form(SettingWord::FloodJoin)),
    }
}

pub(crate) fn nick_limit_said(limit: Option<Option<Limit>>) -> SettingSaying
    ensures { result ≡ nick_limit_said limit }
{
    match limit {
        Some(limit) => SettingSaying::Flood(FloodSaying::Nick(limit)),
        None => SettingSaying::Wrong(SettingAdvice::Form(SettingWord::FloodNick)),
    }
}

pub(crate) fn kick_limit_said(limit: Option<Option<Limit>>) -> SettingSaying
    ensures { result ≡ kick_limit_said limit }
{
    match limit {
        Some(limit) => SettingSaying::Flood(FloodSaying::Kick(limit)),
        None => SettingSaying::Wrong(SettingAdvice::Form(SettingWord::FloodKick)),
    }
}

pub(crate) fn deop_limit_said(limit: Option<Option<Limit>>) -> SettingSaying
    ensures { result ≡ deop_limit_said limit }
{
    match limit {
        Some(limit) => SettingSaying::Flood(FloodSaying::Deop(limit)),
        None => SettingSaying::Wrong(SettingAdvice::Form(SettingWord::FloodDeop)),
    }
}

// `ignore-time MINUTES`, at least one.
pub(crate) fn ignore_time_said(rest: &[u8]) -> SettingSaying
    ensures { result ≡ ignore_time_said rest.now }
{
    let cut = cut_word(rest);
    if !cut.rest.is_empty() {
        return SettingSaying::Wrong(SettingAdvice::Form(SettingWord::IgnoreTime));
    }
    ignore_found(number(cut.word))
}

fn ignore_found(minutes: Option<u16>) -> SettingSaying
    ensures { result ≡ ignore_found minutes }
{
    match minutes {
        Some(0) | None => SettingSaying::Wrong(SettingAdvice::Form(SettingWord::IgnoreTime)),
        Some(minutes) => SettingSaying::Flood(FloodSaying::Ignore(60 * u32::from(minutes))),
    }
}

// `LINES:SECONDS`, alone.
pub(crate) fn flood_limit(rest: &[u8]) -> Option<Option<Limit>>
    ensures { result ≡ flood_limit rest.now }
{
    let cut = cut_word(rest);
    if !cut.rest.is_empty() {
        return None;
    }
    limit_in(cut.word)
}

fn limit_in(word: &[u8]) -> Option<Option<Limit>>
    ensures { result ≡ limit_in word.now }
{
    limit_found(number(before_colon(word)), number(after_colon(word)))
}

fn limit_found(lines: Option<u16>, seconds: Option<u16>) -> Option<Option<Limit>>
    ensures { result ≡ limit_found lines seconds }
{
    match (lines, seconds) {
        (Some(lines), Some(seconds)) => Some(limit_by(lines, seconds)),
        (None, _) | (Some(_), None) => None,
    }
}

// 0 for either number is no limit, as in Eggdrop.
fn limit_by(lines: u16, seconds: u16) -> Option<Limit>
    ensures { result ≡ limit_by lines seconds }
{
    if lines == 0 || seconds == 0 {
        return None;
    }
    Some(Limit {
        lines,
        seconds: u32::from(seconds),
    })
}

fn before_colon(word: &[u8]) -> &[u8]
    ensures { result.now ≡ before_colon word.now }
{
    let (before, _) = word.split_at(colon_place(word));
    before
}

// What follows the first colon, empty if there is none.
fn after_colon(word: &[u8]) -> &[u8]
    ensures { result.now ≡ after_colon word.now }
{
    match &word[colon_place(word)..] {
        [_, after @ ..] => after,
        [] => b"",
    }
}

// How many bytes stand before the first colon.
fn colon_place(word: &[u8]) -> usize
    ensures value { result ≡ prefix_len is_not_colon word.now }
    ensures within { result ≤ length word.now }
{
    word.iter().take_while(|byte| **byte != b':').count()
}
