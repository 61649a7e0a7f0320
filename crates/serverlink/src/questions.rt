// The channels that the process asks about.
ghost use Rattle.std.specs.Prelude.{◌≡◌, drop, IfOk};
ghost use Rattle.std.specs.List.{list_any};
ghost use Rattle.serverlink.specs.Questions.{is_whox, who_line, without};

use crate::cue::{Cue, param};
use bytetext::{NoMemory, Text};
use ircline::Message;
use rfccase::{Casemapping, same_by};
use std::alloc::Global;
use std::marker::Model;

/// The channels that the bot has joined on a connection, and whose members the process has not asked for yet.
///
/// A server that announces WHOX (a token of a 005) says by an extended WHO which account each member of a channel has. The
/// process asks once for each channel, after the bot's own JOIN of it. A channel that the bot leaves is asked about no
/// more, and one that it joins again is asked about again.
///
/// A server without WHOX is asked nothing: it may take the question for one about a person of that name. So is a server
/// that does not say when somebody logs in or out (the capability account-notify): else an account would stay known after
/// its person has logged out.
///
/// ```text
/// questions.note_notices(true);                                  // account-notify is enabled
/// questions.hear(alloc, mapping, Cue::Supports, &message)?;      // 005 egg0 WHOX :are supported
/// questions.hear(alloc, mapping, Cue::Joined, &message)?;        // :egg0!egg@host JOIN #eggs
/// questions.next();                                              // Some(#eggs)
/// questions.next();                                              // None
/// ```
#[derive(Drop)]
pub struct WhoQuestions {
    // Whether the server says when somebody logs in or out.
    notifies: bool,
    // Whether the server has WHOX.
    knows: bool,
    // The oldest JOIN first.
    channels: Vec<Text>,
}

impl Model for WhoQuestions {
    ghost use Rattle.serverlink.specs.Questions.{Questions};

    ghost Value = { Questions };

    ghost view = { λ questions. record {
      notifies = questions.notifies;
      knows = questions.knows;
      channels = questions.channels.items;
    } };
}

impl WhoQuestions {
    ghost use Rattle.std.specs.Prelude.{◌≡◌, OnOk, length};
    ghost use Rattle.serverlink.specs.Questions.{announced, asked, begun, due, heard, joined, left, notified, welcomed};

    /// Creates the questions of a connection that begins: none. Allocates nothing.
    pub fn new(alloc: Global) -> WhoQuestions
        ensures { result ≡ begun }
    {
        WhoQuestions {
            notifies: false,
            knows: false,
            channels: Vec::new(alloc),
        }
    }

    /// Returns the number of channels that the bot has joined and the process has not asked about.
    pub fn len(&self) -> usize
        ensures { result ≡ length self.now.channels }
    {
        self.channels.len()
    }

    /// Takes in `message` of the server, which means `cue` for the bot, by the server's casemapping `mapping`.
    ///
    /// # Errors
    /// `NoMemory` if an allocation fails. The channel that the bot has joined is then not asked about.
    pub fn hear(
        &mut self,
        alloc: Global,
        mapping: Casemapping,
        cue: Cue,
        message: &Message,
    ) -> Result<(), NoMemory>
        ensures { OnOk result (self.new ≡ heard mapping cue message.now self.old) }
    {
        match cue {
            Cue::Welcomed => self.forget(),
            Cue::Joined => return self.join(alloc, mapping, param(message, 0)),
            Cue::Parted | Cue::Kicked => self.leave(mapping, param(message, 0)),
            Cue::Supports => self.announce(message),
            Cue::Renamed
            | Cue::Barred
            | Cue::Forwarded
            | Cue::NickRefused
            | Cue::Refused
            | Cue::Invited
            | Cue::Nothing => {}
        }
        Ok(())
    }

    /// Notes whether the server says when somebody logs in or out, since the registration is over.
    pub fn note_notices(&mut self, notifies: bool)
        ensures { self.new ≡ notified notifies self.old }
    {
        self.notifies = notifies;
    }

    // A server that welcomes the bot has announced nothing yet.
    fn forget(&mut self)
        ensures { self.new ≡ welcomed self.old }
    {
        self.knows = false;
        self.channels.clear();
    }

    // The bot has joined a channel.
    fn join(&mut self, alloc: Global, mapping: Casemapping, name: &[u8]) -> Result<(), NoMemory>
        ensures { OnOk result (self.new ≡ joined mapping name.now self.old) }
    {
        self.leave(mapping, name);
        self.channels.push(Text::from_slice(alloc, name)?)?;
        Ok(())
    }

    // The bot has left a channel.
    fn leave(&mut self, mapping: Casemapping, name: &[u8])
        ensures { self.new ≡ left mapping name.now self.old }
    {
        keep_others(&mut self.channels, mapping, name);
    }

    // The server says what it supports.
    fn announce(&mut self, message: &Message)
        ensures { self.new ≡ announced message.now self.old }
    {
        if let Some((_nick, tokens)) = message.params.as_slice().split_first() {
            self.knows = self.knows || has_whox(tokens);
        }
    }

    /// Removes and returns the channel to ask about next, the one joined first. Returns `None`, and changes nothing, if
    /// the server has not announced WHOX, if it does not say when somebody logs in or out, or if there is no such channel.
    pub fn next(&mut self) -> Option<Text>
        ensures due { result ≡ due self.old }
        ensures asked { self.new ≡ asked self.old }
    {
        if !self.notifies || !self.knows || self.channels.is_empty() {
            return None;
        }
        Some(self.channels.remove(0))
    }
}

// Removes the channels of this name.
fn keep_others(channels: &mut Vec<Text>, mapping: Casemapping, name: &[u8])
    ensures { channels.new.items ≡ without mapping name.now channels.old.items }
{
    channels.retain(|channel| !same_by(mapping, channel.as_bytes(), name));
}

// Whether the token WHOX is among these.
fn has_whox(tokens: &[Text]) -> bool
    ensures { result ≡ list_any is_whox tokens.now }
{
    tokens.iter().any(|token| is_whox(token.as_bytes()))
}

fn is_whox(token: &[u8]) -> bool
    ensures { result ≡ is_whox token.now }
{
    token == b"WHOX".as_slice()
}

/// Returns the line that asks for the members of `channel`: for the channel, the user, the host, the nick and the account of
/// each, and for the token 152, by which the bot knows the answers (354).
///
/// # Errors
/// `NoMemory` if an allocation fails.
pub fn who_line(alloc: Global, channel: &[u8]) -> Result<Vec<u8>, NoMemory>
    ensures { IfOk result (λ line. line.items ≡ who_line channel.now) }
{
    let mut line = Vec::from_slice(alloc, b"WHO ")?;
    line.extend_from_slice(channel)?;
    line.extend_from_slice(b" %tcuhna,152")?;
    Ok(line)
}
