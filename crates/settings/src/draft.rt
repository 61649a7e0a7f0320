// What the lines so far say.
ghost use Rattle.std.specs.Prelude.{◌≡◌, None};
ghost use Rattle.settings.specs.Drafts.{again, hub_refusal, is_limited, is_named, is_said_of, leaf_again, no_line};
ghost use Rattle.settings.specs.Drafts.{once_file, refusal_of, same_address, same_rule};
ghost use Rattle.settings.specs.Flooding.{once};
ghost use Rattle.settings.specs.Reading.{lack_of, settings_of};

use crate::MAX_HUBS;
use crate::advice::SettingAdvice;
use crate::flooding::FloodDraft;
use crate::reading::{ALONE, utc};
use crate::saying::SettingSaying;
use crate::setting_word::SettingWord;
use crate::settings::{
    Address, BindLines, ChannelSettings, Hubs, LeafLine, LeafLines, LeafRule, Login, PageSetting,
    Servers, Settings, Station,
};
use bottimers::Zone;
use bytetext::{Text, Texts};
use std::alloc::Global;

/// What the lines so far say; `None` and `false` if there is no such line.
pub struct Draft {
    /// The bot's own folder.
    pub folder: Option<Text>,
    /// Which bot it is.
    pub station: Option<Station>,
    /// The bot's nick.
    pub nick: Option<Text>,
    /// The channels to join, in order.
    pub channels: ChannelSettings,
    /// The servers to try, in order.
    pub servers: Servers,
    /// The hubs to try, in order.
    pub hubs: Hubs,
    /// Where the bot listens.
    pub listen: Option<Address>,
    /// The leaves that may only read, in order.
    pub limits: LeafLines,
    /// The file of the secret that both ends of the link know.
    pub secret: Option<Text>,
    /// The account that the bot authenticates as.
    pub account: Option<Login>,
    /// How far its clock is ahead of UTC at each moment.
    pub zone: Option<Zone>,
    /// Whether `msg` and `pub` binds ignore a text for which a `msgm` or `pubm` proc was called.
    pub exclusive: bool,
    /// Who floods the bot.
    pub floods: FloodDraft,
    /// Whether lines are logged.
    pub log_lines: bool,
    /// Whether each line of the log is a JSON object.
    pub log_json: bool,
    /// The file of the log.
    pub log_file: Option<Text>,
    /// The page that shows the bot.
    pub page: Option<PageSetting>,
    /// Lines for the server, in order.
    pub performs: Texts,
    /// The binds, in order.
    pub binds: BindLines,
}

// By hand, so that this is proved once, and not in each function in which one ends.
impl Drop for Draft {
    fn drop(self) {
        let Draft {
            folder: _,
            station: _,
            nick: _,
            channels: _,
            servers: _,
            hubs: _,
            listen: _,
            limits: _,
            secret: _,
            account: _,
            zone: _,
            exclusive: _,
            floods: _,
            log_lines: _,
            log_json: _,
            log_file: _,
            page: _,
            performs: _,
            binds: _,
        } = self;
    }
}

impl Draft {
    /// Creates the draft of a file of which no line was read.
    pub fn new(alloc: Global) -> Draft
        ensures { result ≡ no_line }
    {
        Draft {
            folder: None,
            station: None,
            nick: None,
            channels: ChannelSettings::empty(alloc),
            servers: Servers::empty(alloc),
            hubs: Hubs::empty(alloc),
            listen: None,
            limits: LeafLines::empty(alloc),
            secret: None,
            account: None,
            zone: None,
            exclusive: false,
            floods: FloodDraft::new(),
            log_lines: false,
            log_json: false,
            log_file: None,
            page: None,
            performs: Texts::empty(alloc),
            binds: BindLines::empty(alloc),
        }
    }

    /// Returns why `saying` is refused after the lines so far, if it is.
    pub fn refusal(&self, saying: &SettingSaying) -> Option<SettingAdvice>
        ensures { result ≡ refusal_of self.now saying.now }
    {
        match saying {
            SettingSaying::Nothing
            | SettingSaying::Bind(_)
            | SettingSaying::Channel(_)
            | SettingSaying::Perform(_)
            | SettingSaying::Server(_) => None,
            SettingSaying::Wrong(advice) => Some(*advice),
            SettingSaying::Account(_) => once(SettingWord::Account, self.account.is_some()),
            SettingSaying::Bot(_) => once(SettingWord::Bot, self.station.is_some()),
            SettingSaying::Data(_) => once(SettingWord::Data, self.folder.is_some()),
            SettingSaying::Exclusive => once(SettingWord::Exclusive, self.exclusive),
            SettingSaying::Flood(saying) => self.floods.refusal(*saying),
            SettingSaying::Hub(address) => hub_refusal(address, self.hubs.as_slice()),
            SettingSaying::Leaf { leaf, rule: _ } => {
                leaf_again(is_said_of(*leaf, self.limits.as_slice()))
            }
            SettingSaying::Listen(_) => once(SettingWord::Listen, self.listen.is_some()),
            SettingSaying::LogFile(_) => once_file(self.log_file.is_some()),
            SettingSaying::LogJson => again(self.log_json),
            SettingSaying::LogLines => again(self.log_lines),
            SettingSaying::Nick(_) => once(SettingWord::Nick, self.nick.is_some()),
            SettingSaying::Page(_) => once(SettingWord::Page, self.page.is_some()),
            SettingSaying::Secret(_) => once(SettingWord::Secret, self.secret.is_some()),
            SettingSaying::Zone(_) => once(SettingWord::Zone, self.zone.is_some()),
        }
    }

    /// Returns the settings of lines that lack nothing.
    pub fn into_settings(self) -> Settings
        requires { lack_of self ≡ None }
        ensures { result ≡ settings_of self }
    {
        let Draft {
            folder,
            station,
            nick,
            channels,
            servers,
            hubs,
            listen,
            limits,
            secret,
            account,
            zone,
            exclusive,
            floods,
            log_lines,
            log_json,
            log_file,
            page,
            performs,
            binds,
        } = self;
        Settings {
            folder: folder.unwrap(),
            station: station.unwrap_or(ALONE),
            nick: nick.unwrap(),
            channels,
            servers,
            hubs,
            listen,
            limits,
            secret,
            account,
            zone: zone.unwrap_or(utc()),
            exclusive,
            floods: floods.limits(),
            log_lines,
            log_json,
            log_file,
            page,
            performs,
            binds,
        }
    }
}

// What to say of a line of the hub at `address`, if `hubs` are named above it.
fn hub_refusal(address: &Address, hubs: &[Address]) -> Option<SettingAdvice>
    ensures { result ≡ hub_refusal address.now hubs.now }
{
    if is_named(address, hubs) {
        Some(SettingAdvice::Again)
    } else if hubs.len() >= MAX_HUBS {
        Some(SettingAdvice::Hubs)
    } else {
        None
    }
}

// Whether one of `hubs` has this host and this port, and both have a plus or none.
fn is_named(address: &Address, hubs: &[Address]) -> bool
    ensures { result ≡ is_named address.now hubs.now }
{
    hubs.iter().any(|hub| same_address(hub, address))
}

fn same_address(one: &Address, other: &Address) -> bool
    ensures { result ≡ same_address one.now other.now }
{
    one.port == other.port && one.tls == other.tls && one.host.as_bytes() == other.host.as_bytes()
}

// What to say of a line that may stand once, if there is one already.
pub(crate) fn once(word: SettingWord, is_there: bool) -> Option<SettingAdvice>
    ensures { result ≡ once word is_there }
{
    if is_there {
        Some(SettingAdvice::Once(word))
    } else {
        None
    }
}

// What to say of a line that names a file for the log, if there is one already.
fn once_file(is_there: bool) -> Option<SettingAdvice>
    ensures { result ≡ once_file is_there }
{
    if is_there {
        Some(SettingAdvice::LogFile)
    } else {
        None
    }
}

// What to say of a line that says what one above it says.
fn again(is_said: bool) -> Option<SettingAdvice>
    ensures { result ≡ again is_said }
{
    if is_said {
        Some(SettingAdvice::Again)
    } else {
        None
    }
}

// What to say of a line of a leaf that one above it is of.
fn leaf_again(is_said: bool) -> Option<SettingAdvice>
    ensures { result ≡ leaf_again is_said }
{
    if is_said {
        Some(SettingAdvice::LeafAgain)
    } else {
        None
    }
}

// Whether one of `lines` is of the leaf of number `leaf`.
fn is_said_of(leaf: u16, lines: &[LeafLine]) -> bool
    ensures { result ≡ is_said_of leaf lines.now }
{
    lines.iter().any(|line| line.leaf == leaf)
}

/// Returns whether one of `lines` says this of the leaf of number `leaf`.
pub fn is_limited(leaf: u16, rule: LeafRule, lines: &[LeafLine]) -> bool
    ensures { result ≡ is_limited leaf rule lines.now }
{
    lines
        .iter()
        .any(|line| line.leaf == leaf && same_rule(line.rule, rule))
}

fn same_rule(one: LeafRule, other: LeafRule) -> bool
    ensures { result ≡ same_rule one other }
{
    match (one, other) {
        (LeafRule::Reads, LeafRule::Reads) | (LeafRule::Persons, LeafRule::Persons) => true,
        (LeafRule::Reads, LeafRule::Persons) | (LeafRule::Persons, LeafRule::Reads) => false,
    }
}
