// What one line says.
ghost use Rattle.std.specs.Prelude.{◌≡◌, IfOk};
ghost use Rattle.std.specs.List.{list_all};
ghost use Rattle.settings.specs.Grammar.{account_said, bind_said, channel_keyed, channel_said, data_said, ends_in_return};
ghost use Rattle.settings.specs.Grammar.{exclusive_said, has_mark, is_shown, log_form_said, log_said, nick_said};
ghost use Rattle.settings.specs.Grammar.{pass_of, perform_said, said_of, saying_by_words, saying_of, secret_said, server_said, zone_said};

use crate::MAX_LINE;
use crate::advice::SettingAdvice;
use crate::cutting::{after_spaces, cut_word};
use crate::draft::Draft;
use crate::flooding::{
    FloodSaying, channel_limit_said, ctcp_limit_said, deop_limit_said, flood_limit,
    ignore_time_said, join_limit_said, kick_limit_said, message_limit_said, nick_limit_said,
};
use crate::names::{is_key, is_nick};
use crate::net_saying::{bot_said, hub_said, leaf_said, listen_said, page_said};
use crate::numeral::port;
use crate::plus::{has_plus, is_reached, without_plus};
use crate::setting_word::SettingWord;
use crate::settings::{
    Address, BindLine, BindWords, ChannelSetting, LeafLine, LeafRule, Login, PageSetting, Server,
    Station,
};
use bottimers::Zone;
use bytetext::{NoMemory, Text};
use rfccase::is_channel_name;
use std::alloc::Global;

/// What a line says by itself, whatever lines stand before it.
pub enum SettingSaying {
    /// Nothing: the line is empty or begins with `#`.
    Nothing,
    /// The line breaks a rule: what to say instead.
    Wrong(SettingAdvice),
    /// The account that the bot authenticates as.
    Account(Login),
    /// A bind.
    Bind(BindWords),
    /// Which bot it is.
    Bot(Station),
    /// A channel to join.
    Channel(ChannelSetting),
    /// The bot's own folder.
    Data(Text),
    /// `msg` and `pub` binds ignore a text for which a `msgm` or `pubm` proc was called.
    Exclusive,
    /// Who floods the bot, or how long he is ignored.
    Flood(FloodSaying),
    /// A hub to try.
    Hub(Address),
    /// What a leaf may do.
    Leaf {
        /// The leaf's number.
        leaf: u16,
        /// What it may do.
        rule: LeafRule,
    },
    /// Where the bot listens.
    Listen(Address),
    /// The file of the log.
    LogFile(Text),
    /// Each line of the log is a JSON object.
    LogJson,
    /// Lines are logged.
    LogLines,
    /// The bot's nick.
    Nick(Text),
    /// The page that shows the bot.
    Page(PageSetting),
    /// A line for the server.
    Perform(Text),
    /// The file of the secret that both ends of the link know.
    Secret(Text),
    /// A server to try.
    Server(Server),
    /// How far its clock is ahead of UTC at each moment.
    Zone(Zone),
}

// By hand, so that this is proved once, and not in each function in which one ends.
impl Drop for SettingSaying {
    fn drop(self) {
        match self {
            SettingSaying::Nothing
            | SettingSaying::Wrong(_)
            | SettingSaying::Account(_)
            | SettingSaying::Bind(_)
            | SettingSaying::Bot(_)
            | SettingSaying::Channel(_)
            | SettingSaying::Data(_)
            | SettingSaying::Exclusive
            | SettingSaying::Flood(_)
            | SettingSaying::Hub(_)
            | SettingSaying::Leaf { leaf: _, rule: _ }
            | SettingSaying::Listen(_)
            | SettingSaying::LogFile(_)
            | SettingSaying::LogJson
            | SettingSaying::LogLines
            | SettingSaying::Nick(_)
            | SettingSaying::Page(_)
            | SettingSaying::Perform(_)
            | SettingSaying::Secret(_)
            | SettingSaying::Server(_)
            | SettingSaying::Zone(_) => {}
        }
    }
}

impl SettingSaying {
    ghost use Rattle.std.specs.Prelude.{◌≡◌, OnOk};
    ghost use Rattle.settings.specs.Drafts.{added};

    /// Adds to `draft` what the line of number `line` says.
    pub fn add_to(self, line: u64, draft: &mut Draft) -> Result<(), NoMemory>
        ensures { OnOk result (draft.new ≡ added line draft.old self) }
    {
        match self {
            SettingSaying::Nothing | SettingSaying::Wrong(_) => {}
            SettingSaying::Account(account) => draft.account = Some(account),
            SettingSaying::Bind(words) => draft.binds.push(BindLine { line, words })?,
            SettingSaying::Bot(station) => draft.station = Some(station),
            SettingSaying::Channel(channel) => draft.channels.push(channel)?,
            SettingSaying::Data(folder) => draft.folder = Some(folder),
            SettingSaying::Exclusive => draft.exclusive = true,
            SettingSaying::Flood(saying) => draft.floods.add(saying),
            SettingSaying::Hub(address) => draft.hubs.push(address)?,
            SettingSaying::Leaf { leaf, rule } => {
                draft.limits.push(LeafLine { line, leaf, rule })?
            }
            SettingSaying::Listen(address) => draft.listen = Some(address),
            SettingSaying::LogFile(path) => draft.log_file = Some(path),
            SettingSaying::LogJson => draft.log_json = true,
            SettingSaying::LogLines => draft.log_lines = true,
            SettingSaying::Nick(nick) => draft.nick = Some(nick),
            SettingSaying::Page(page) => draft.page = Some(page),
            SettingSaying::Perform(text) => draft.performs.push(text)?,
            SettingSaying::Secret(file) => draft.secret = Some(file),
            SettingSaying::Server(server) => draft.servers.push(server)?,
            SettingSaying::Zone(zone) => draft.zone = Some(zone),
        }
        Ok(())
    }
}

/// Returns what `line` says.
pub fn saying_of(alloc: Global, line: &[u8]) -> Result<SettingSaying, NoMemory>
    ensures { IfOk result (λ saying. saying ≡ saying_of line.now) }
{
    let line = after_spaces(line);
    if line.is_empty() || line[0] == b'#' {
        return Ok(SettingSaying::Nothing);
    }
    saying_by_words(alloc, line)
}

// What a line says that begins with a byte other than a space or `#`.
#[tactic(auto, unfolding(crate::specs::Grammar::saying_by_words))]
fn saying_by_words(alloc: Global, line: &[u8]) -> Result<SettingSaying, NoMemory>
    ensures { IfOk result (λ saying. saying ≡ saying_by_words line.now) }
{
    if ends_in_return(line) {
        return Ok(SettingSaying::Wrong(SettingAdvice::CarriageReturn));
    }
    if !are_shown(line) {
        return Ok(SettingSaying::Wrong(SettingAdvice::Control));
    }
    if has_mark(line) {
        return Ok(SettingSaying::Wrong(SettingAdvice::ByteOrderMark));
    }
    let cut = cut_word(line);
    said_of(alloc, SettingWord::named(cut.word), cut.rest)
}

fn ends_in_return(line: &[u8]) -> bool
    ensures { result ≡ ends_in_return line.now }
{
    !line.is_empty() && line[line.len() - 1] == b'\r'
}

fn are_shown(line: &[u8]) -> bool
    ensures { result ≡ list_all is_shown line.now }
{
    line.iter().all(|byte| is_shown(*byte))
}

fn is_shown(byte: u8) -> bool
    ensures { result ≡ is_shown byte }
{
    byte >= b' ' && byte != 127
}

fn has_mark(line: &[u8]) -> bool
    ensures { result ≡ has_mark line.now }
{
    line.len() >= 3 && line[0] == 0xef && line[1] == 0xbb && line[2] == 0xbf
}

// What the rest of a line says after each word.
fn said_of(alloc: Global, word: Option<SettingWord>, rest: &[u8]) -> Result<SettingSaying, NoMemory>
    ensures { IfOk result (λ saying. saying ≡ said_of word rest.now) }
{
    let Some(word) = word else {
        return Ok(SettingSaying::Wrong(SettingAdvice::Unknown));
    };
    match word {
        SettingWord::Account => account_said(alloc, rest),
        SettingWord::Bind => bind_said(alloc, rest),
        SettingWord::Bot => Ok(bot_said(rest)),
        SettingWord::Channel => channel_said(alloc, rest),
        SettingWord::Data => data_said(alloc, rest),
        SettingWord::Exclusive => Ok(exclusive_said(rest)),
        SettingWord::FloodChan => Ok(channel_limit_said(flood_limit(rest))),
        SettingWord::FloodCtcp => Ok(ctcp_limit_said(flood_limit(rest))),
        SettingWord::FloodDeop => Ok(deop_limit_said(flood_limit(rest))),
        SettingWord::FloodJoin => Ok(join_limit_said(flood_limit(rest))),
        SettingWord::FloodKick => Ok(kick_limit_said(flood_limit(rest))),
        SettingWord::FloodMsg => Ok(message_limit_said(flood_limit(rest))),
        SettingWord::FloodNick => Ok(nick_limit_said(flood_limit(rest))),
        SettingWord::Hub => hub_said(alloc, rest),
        SettingWord::IgnoreTime => Ok(ignore_time_said(rest)),
        SettingWord::Leaf => Ok(leaf_said(rest)),
        SettingWord::Listen => listen_said(alloc, rest),
        SettingWord::Log => log_said(alloc, rest),
        SettingWord::Nick => nick_said(alloc, rest),
        SettingWord::Page => page_said(alloc, rest),
        SettingWord::Perform => perform_said(alloc, rest),
        SettingWord::Secret => secret_said(alloc, rest),
        SettingWord::Server => server_said(alloc, rest),
        SettingWord::Zone => Ok(zone_said(rest)),
    }
}

fn data_said(alloc: Global, rest: &[u8]) -> Result<SettingSaying, NoMemory>
    ensures { IfOk result (λ saying. saying ≡ data_said rest.now) }
{
    if rest.is_empty() {
        return Ok(SettingSaying::Wrong(SettingAdvice::Form(SettingWord::Data)));
    }
    Ok(SettingSaying::Data(Text::from_slice(alloc, rest)?))
}

fn secret_said(alloc: Global, rest: &[u8]) -> Result<SettingSaying, NoMemory>
    ensures { IfOk result (λ saying. saying ≡ secret_said rest.now) }
{
    if rest.is_empty() {
        return Ok(SettingSaying::Wrong(SettingAdvice::Form(SettingWord::Secret)));
    }
    Ok(SettingSaying::Secret(Text::from_slice(alloc, rest)?))
}

fn perform_said(alloc: Global, rest: &[u8]) -> Result<SettingSaying, NoMemory>
    ensures { IfOk result (λ saying. saying ≡ perform_said rest.now) }
{
    if rest.is_empty() || rest.len() > MAX_LINE {
        return Ok(SettingSaying::Wrong(SettingAdvice::Form(SettingWord::Perform)));
    }
    Ok(SettingSaying::Perform(Text::from_slice(alloc, rest)?))
}

fn nick_said(alloc: Global, rest: &[u8]) -> Result<SettingSaying, NoMemory>
    ensures { IfOk result (λ saying. saying ≡ nick_said rest.now) }
{
    let cut = cut_word(rest);
    if !is_nick(cut.word) || !cut.rest.is_empty() {
        return Ok(SettingSaying::Wrong(SettingAdvice::Form(SettingWord::Nick)));
    }
    Ok(SettingSaying::Nick(Text::from_slice(alloc, cut.word)?))
}

fn channel_said(alloc: Global, rest: &[u8]) -> Result<SettingSaying, NoMemory>
    ensures { IfOk result (λ saying. saying ≡ channel_said rest.now) }
{
    let cut = cut_word(rest);
    let key = cut_word(cut.rest);
    if !is_channel_name(cut.word) || !key.rest.is_empty() {
        return Ok(SettingSaying::Wrong(SettingAdvice::Form(SettingWord::Channel)));
    }
    channel_keyed(alloc, cut.word, key.word)
}

// A channel with a key, which may be left out.
fn channel_keyed(alloc: Global, name: &[u8], key: &[u8]) -> Result<SettingSaying, NoMemory>
    ensures { IfOk result (λ saying. saying ≡ channel_keyed name.now key.now) }
{
    if !key.is_empty() && !is_key(key) {
        return Ok(SettingSaying::Wrong(SettingAdvice::Key));
    }
    let name = Text::from_slice(alloc, name)?;
    let key = pass_of(alloc, key)?;
    Ok(SettingSaying::Channel(ChannelSetting { name, key }))
}

fn exclusive_said(rest: &[u8]) -> SettingSaying
    ensures { result ≡ exclusive_said rest.now }
{
    if rest.is_empty() {
        SettingSaying::Exclusive
    } else {
        SettingSaying::Wrong(SettingAdvice::Form(SettingWord::Exclusive))
    }
}

fn log_said(alloc: Global, rest: &[u8]) -> Result<SettingSaying, NoMemory>
    ensures { IfOk result (λ saying. saying ≡ log_said rest.now) }
{
    let cut = cut_word(rest);
    if cut.word == b"file".as_slice() && !cut.rest.is_empty() {
        return Ok(SettingSaying::LogFile(Text::from_slice(alloc, cut.rest)?));
    }
    Ok(log_form_said(cut.word, cut.rest))
}

// `lines` or `json`, alone.
fn log_form_said(word: &[u8], rest: &[u8]) -> SettingSaying
    ensures { result ≡ log_form_said word.now rest.now }
{
    if word == b"json".as_slice() && rest.is_empty() {
        SettingSaying::LogJson
    } else if word == b"lines".as_slice() && rest.is_empty() {
        SettingSaying::LogLines
    } else {
        SettingSaying::Wrong(SettingAdvice::Form(SettingWord::Log))
    }
}

fn account_said(alloc: Global, rest: &[u8]) -> Result<SettingSaying, NoMemory>
    ensures { IfOk result (λ saying. saying ≡ account_said rest.now) }
{
    let cut = cut_word(rest);
    if cut.rest.is_empty() {
        return Ok(SettingSaying::Wrong(SettingAdvice::Form(SettingWord::Account)));
    }
    let name = Text::from_slice(alloc, cut.word)?;
    let file = Text::from_slice(alloc, cut.rest)?;
    Ok(SettingSaying::Account(Login { name, file }))
}

fn server_said(alloc: Global, rest: &[u8]) -> Result<SettingSaying, NoMemory>
    ensures { IfOk result (λ saying. saying ≡ server_said rest.now) }
{
    let host = cut_word(rest);
    let numeral = cut_word(host.rest);
    if host.rest.is_empty() {
        return Ok(SettingSaying::Wrong(SettingAdvice::Form(SettingWord::Server)));
    }
    let Some(port) = port(without_plus(numeral.word)) else {
        return Ok(SettingSaying::Wrong(SettingAdvice::Port));
    };
    let tls = has_plus(numeral.word);
    if !is_reached(host.word, tls) {
        return Ok(SettingSaying::Wrong(SettingAdvice::TlsHost));
    }
    let host = Text::from_slice(alloc, host.word)?;
    let pass = pass_of(alloc, numeral.rest)?;
    let address = Address { host, port, tls };
    Ok(SettingSaying::Server(Server { address, pass }))
}

fn zone_said(rest: &[u8]) -> SettingSaying
    ensures { result ≡ zone_said rest.now }
{
    let cut = cut_word(rest);
    if !cut.rest.is_empty() {
        return SettingSaying::Wrong(SettingAdvice::Form(SettingWord::Zone));
    }
    match Zone::posix(cut.word) {
        Ok(zone) => SettingSaying::Zone(zone),
        Err(_) => SettingSaying::Wrong(SettingAdvice::Form(SettingWord::Zone)),
    }
}

// The PASS, or `None` if it is left out.
pub(crate) fn pass_of(alloc: Global, rest: &[u8]) -> Result<Option<Text>, NoMemory>
    ensures { IfOk result (λ pass. pass ≡ pass_of rest.now) }
{
    if rest.is_empty() {
        return Ok(None);
    }
    Ok(Some(Text::from_slice(alloc, rest)?))
}

fn bind_said(alloc: Global, rest: &[u8]) -> Result<SettingSaying, NoMemory>
    ensures { IfOk result (λ saying. saying ≡ bind_said rest.now) }
{
    let kind = cut_word(rest);
    let flags = cut_word(kind.rest);
    let proc = cut_word(flags.rest);
    if proc.rest.is_empty() {
        return Ok(SettingSaying::Wrong(SettingAdvice::Form(SettingWord::Bind)));
    }
    let kind = Text::from_slice(alloc, kind.word)?;
    let flags = Text::from_slice(alloc, flags.word)?;
    let mask = Text::from_slice(alloc, proc.rest)?;
    let proc = Text::from_slice(alloc, proc.word)?;
    Ok(SettingSaying::Bind(BindWords {
        kind,
        flags,
        proc,
        mask,
    }))
}
