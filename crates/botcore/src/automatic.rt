// The lines that a bot queues by itself.
ghost use Rattle.std.specs.Prelude.{◌≡◌, ◌∷◌, [], map, slice_get, IfOk, IsOk};
ghost use Rattle.ircline.specs.Printing.{wants_colon};
ghost use Rattle.botcore.specs.Automatic.{greeting, is_welcome, if_there, join_wish, other_nick, manner_by, pong_wish, welcomes};

use crate::bot::Bot;
use crate::config::Config;
use crate::joining::on_join;
use crate::limits::MAX_NICK;
use crate::manner::Manner;
use crate::sticky::on_mode;
use crate::user::user_name;
use crate::watched_command::{WatchedCommand, cue_of};
use crate::wish::{alone, wish};
use bytetext::{NoMemory, Text};
use disks::Disk;
use ircline::{Message, Numeric, numeric_of, source};
use outqueue::Queue;
use procs::PutWish;
use std::alloc::Global;

impl<D: Disk> Bot<D> {
    ghost use Rattle.std.specs.Prelude.{◌≡◌, [], IfOk, IsOk};
    ghost use Rattle.botcore.specs.Automatic.{automatic_lines, manner_of, watched_in};
    ghost use Rattle.botcore.specs.Links.{link_records};

    // Returns the lines that a bot queues for a message, by its channels before the message. It does not allocate if
    // there are none and nobody else joins a channel on which the bot is op.
    #[tactic(auto, unfolding(crate::specs::Automatic::unless_left))]
    pub(crate) fn automatic_lines(
        &self,
        alloc: Global,
        welcomed: bool,
        message: &Message,
    ) -> Result<Vec<PutWish>, NoMemory>
        ensures lines { IfOk result (λ wishes. wishes.items ≡ automatic_lines
            self.now.config self.now.channels (link_records self.now.link).bans self.now.clock welcomed message.now) }
        ensures needs_none { automatic_lines
            self.now.config self.now.channels (link_records self.now.link).bans self.now.clock welcomed message.now ≡ []
            → watched_in message.now self.now.channels ≡ [] → IsOk result }
    {
        let params = message.params.as_slice();
        match cue_of(message.command.as_bytes()) {
            WatchedCommand::Ping => answer(alloc, params),
            WatchedCommand::Join => {
                if self.config.leaves_bans {
                    return Ok(Vec::new(alloc));
                }
                on_join(
                    alloc,
                    source(message.prefix.as_bytes()),
                    params,
                    self.channels.current(),
                    self.userfile(),
                    self.clock.last().unwrap_or(0),
                )
            }
            WatchedCommand::Mode => {
                if self.config.leaves_bans {
                    return Ok(Vec::new(alloc));
                }
                on_mode(
                    alloc,
                    source(message.prefix.as_bytes()),
                    params,
                    self.channels.current(),
                    self.userfile(),
                    self.clock.last().unwrap_or(0),
                )
            }
            WatchedCommand::RplWelcome => join_all(alloc, params, self.config.channels.as_slice()),
            WatchedCommand::ErrNicknameInUse => other_nick(alloc, welcomed, params),
            WatchedCommand::Other => Ok(Vec::new(alloc)),
        }
    }

    // Returns how the bot queues these lines.
    pub(crate) fn manner_of(&self, message: &Message) -> Manner
        ensures { result ≡ manner_of self.now.config message.now }
    {
        manner_by(
            cue_of(message.command.as_bytes()),
            self.config.sends_at_once,
        )
    }
}

// Returns how a bot queues its lines for a command.
fn manner_by(cue: WatchedCommand, at_once: bool) -> Manner
    ensures { result ≡ manner_by cue at_once }
{
    match cue {
        WatchedCommand::Ping => {
            if at_once {
                Manner::Prompt
            } else {
                Manner::InTurn
            }
        }
        WatchedCommand::Join
        | WatchedCommand::Mode
        | WatchedCommand::RplWelcome
        | WatchedCommand::ErrNicknameInUse
        | WatchedCommand::Other => Manner::usual(at_once),
    }
}

// Whether the server welcomes the bot with this message.
pub(crate) fn is_welcome(message: &Message) -> bool
    ensures { result ≡ is_welcome message.now }
{
    welcomes(numeric_of(message.command.as_bytes())) && !message.params.is_empty()
}

// Whether a numeric is the server's welcome.
fn welcomes(numeric: Numeric) -> bool
    ensures { result ≡ welcomes numeric }
{
    match numeric {
        Numeric::Welcome => true,
        Numeric::ErroneousNickname
        | Numeric::NicknameInUse
        | Numeric::NickCollision
        | Numeric::UnavailableResource
        | Numeric::Other => false,
    }
}

// Returns the lines that a bot queues as soon as it has connected.
pub(crate) fn greeting(alloc: Global, config: &Config) -> Result<Vec<PutWish>, NoMemory>
    ensures { IfOk result (λ wishes. wishes.items ≡ greeting config.now) }
{
    let nick = config.nick.as_bytes();
    let user = user_name(alloc, config)?;
    let mut wishes = Vec::new(alloc);
    wishes.push(wish(alloc, Queue::Mode, &[b"NICK ", nick])?)?;
    wishes.push(wish(
        alloc,
        Queue::Mode,
        &[b"USER ", user.as_bytes(), b" 0 * :", nick],
    )?)?;
    Ok(wishes)
}

// Returns the answer to a PING.
fn answer(alloc: Global, params: &[Text]) -> Result<Vec<PutWish>, NoMemory>
    ensures lines { IfOk result (λ wishes. wishes.items
        ≡ if_there (slice_get params.now 0) (λ text. pong_wish text ∷ [])) }
    ensures needs_none { if_there (slice_get params.now 0) (λ text. pong_wish text ∷ []) ≡ [] → IsOk result }
{
    match params {
        [text, ..] => alone(alloc, pong(alloc, text.as_bytes())?),
        [] => Ok(Vec::new(alloc)),
    }
}

// Returns the PONG with this text, as a canonical line.
fn pong(alloc: Global, text: &[u8]) -> Result<PutWish, NoMemory>
    ensures { IfOk result (λ wish. wish ≡ pong_wish text.now) }
{
    if wants_colon(text) {
        wish(alloc, Queue::Mode, &[b"PONG :", text])
    } else {
        wish(alloc, Queue::Mode, &[b"PONG ", text])
    }
}

// Whether a last parameter needs a colon.
fn wants_colon(param: &[u8]) -> bool
    ensures { result ≡ wants_colon param.now }
{
    match param {
        [] => true,
        [first, ..] => *first == b':' || param.contains(&b' '),
    }
}

// Returns the lines for a welcome: the bot joins these channels.
fn join_all(alloc: Global, params: &[Text], channels: &[Text]) -> Result<Vec<PutWish>, NoMemory>
    ensures lines { IfOk result (λ wishes. wishes.items
        ≡ if_there (slice_get params.now 0) (λ nick. map join_wish channels.now)) }
    ensures needs_none { if_there (slice_get params.now 0) (λ nick. map join_wish channels.now) ≡ [] → IsOk result }
{
    match params {
        [_, ..] => joins_of(alloc, channels),
        [] => Ok(Vec::new(alloc)),
    }
}

// Returns the JOIN of each of these channels.
fn joins_of(alloc: Global, channels: &[Text]) -> Result<Vec<PutWish>, NoMemory>
    ensures lines { IfOk result (λ wishes. wishes.items ≡ map join_wish channels.now) }
    ensures needs_none { channels.now ≡ [] → IsOk result }
{
    let mut wishes = Vec::with_capacity(alloc, channels.len())?;
    for channel in channels {
        wishes.push(wish(alloc, Queue::Server, &[b"JOIN ", channel.as_bytes()])?)?;
    }
    Ok(wishes)
}

// Returns the line for a nick that is in use.
fn other_nick(alloc: Global, welcomed: bool, params: &[Text]) -> Result<Vec<PutWish>, NoMemory>
    ensures lines { IfOk result (λ wishes. wishes.items ≡ other_nick welcomed params.now) }
    ensures needs_none { other_nick welcomed params.now ≡ [] → IsOk result }
{
    match params {
        [_, nick, ..] if !welcomed && nick.len() < MAX_NICK => {
            let line = wish(alloc, Queue::Mode, &[b"NICK ", nick.as_bytes(), b"_"])?;
            alone(alloc, line)
        }
        _ => Ok(Vec::new(alloc)),
    }
}
