// The configuration of a bot.
ghost use Rattle.std.specs.Prelude.{◌≡◌, IfSome, IfNone, true};
ghost use Rattle.std.specs.List.{list_all};
ghost use Rattle.rfccase.specs.Channels.{is_channel_name};
ghost use Rattle.botcore.specs.declared.fault.BotFault.TheVariants.{BadConfig as bad_config};
ghost use Rattle.botcore.specs.Configs.{IsGood, is_nick, is_nick_byte};

use crate::fault::BotFault;
use crate::limits::MAX_NICK;
use bottimers::Zone;
use bytetext::{NoMemory, Text, Texts, TryCopy};
use rfccase::is_channel_name;
use sharelink::MAX_LEAVES;
use std::alloc::Global;

/// The configuration with which a bot is made.
#[derive(Debug)]
pub struct Config {
    /// The bot's number: 0 is the hub, and the leaves are 1 to `leaves`.
    pub number: u16,
    /// The number of leaves of the hub, at most 1,000.
    pub leaves: u16,
    /// The nick under which the bot connects: 1 to 30 bytes above 32, none of them one of `! @ , * ?`, and the first
    /// is no colon.
    pub nick: Text,
    /// The channels that the bot joins, in order. Each is a channel name.
    pub channels: Texts,
    /// Whether a text for which a `msgm` or `pubm` proc was called is not an event for `msg` or `pub` binds.
    pub exclusive: bool,
    /// Whether lines leave at any reading of the clock that the pace allows, and not only at one of a new second.
    /// Answers to PING then wait for no queue, other lines are queued by
    /// [`Queues::put_once`](outqueue::Queues::put_once) and leave by
    /// [`Queues::drain_joined`](outqueue::Queues::drain_joined), with as many modes in one line as the server takes
    /// (MODES of its line 005, and three before it), and the user name is the first 10 letters and digits of the nick,
    /// or `bot` if it has none.
    pub sends_at_once: bool,
    /// Whether the bot leaves recorded bans to its procs: it then queues no line by itself when somebody joins whom a ban
    /// keeps off, or when somebody removes a sticky ban from a channel.
    pub leaves_bans: bool,
    /// How far its clock is ahead of UTC.
    pub zone: Zone,
}

// Written by hand, so that it is proved once and not in each function that drops one.
impl Drop for Config {
    fn drop(self) {
        let Config {
            number: _,
            leaves: _,
            nick: _,
            channels: _,
            exclusive: _,
            sends_at_once: _,
            leaves_bans: _,
            zone: _,
        } = self;
    }
}

impl Config {
    /// Returns why no bot can be made with this configuration: `BadConfig` (G1) if a field is out of its range.
    pub fn refusal(&self) -> Option<BotFault>
        ensures good { IfNone result (IsGood self.now) }
        ensures bad { IfSome result (λ _. ¬ IsGood self.now) }
        ensures fault { IfSome result (λ fault. fault ≡ bad_config) }
    {
        if self.leaves > MAX_LEAVES || self.number > self.leaves {
            return Some(BotFault::BadConfig);
        }
        if !is_nick(self.nick.as_bytes()) || !are_channels(self.channels.as_slice()) {
            return Some(BotFault::BadConfig);
        }
        None
    }
}

impl TryCopy for Config {
    fn copy(&self, alloc: Global) -> Result<Config, NoMemory> {
        let nick = self.nick.copy(alloc)?;
        let channels = self.channels.copy(alloc)?;
        Ok(Config {
            number: self.number,
            leaves: self.leaves,
            nick,
            channels,
            exclusive: self.exclusive,
            sends_at_once: self.sends_at_once,
            leaves_bans: self.leaves_bans,
            zone: self.zone.copy(alloc)?,
        })
    }
}

// Whether a bot can connect under this nick.
fn is_nick(nick: &[u8]) -> bool
    ensures { result ≡ is_nick nick.now }
{
    if nick.is_empty() || nick.len() > MAX_NICK || nick[0] == b':' {
        return false;
    }
    are_nick_bytes(nick)
}

fn are_nick_bytes(nick: &[u8]) -> bool
    ensures { result ≡ list_all is_nick_byte nick.now }
{
    nick.iter().all(|byte| is_nick_byte(*byte))
}

fn is_nick_byte(byte: u8) -> bool
    ensures { result ≡ is_nick_byte byte }
{
    byte > b' ' && byte != b'!' && byte != b'@' && byte != b',' && byte != b'*' && byte != b'?'
}

fn are_channels(channels: &[Text]) -> bool
    ensures { result ≡ list_all is_channel_name channels.now }
{
    channels.iter().all(|name| is_channel_name(name.as_bytes()))
}
