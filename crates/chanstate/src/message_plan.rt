// What is prepared for a message before it is taken in, so that taking it in allocates nothing.
ghost use Rattle.std.specs.Prelude.{◌≡◌, ◌+◌, ◌≤◌, if◌then◌else◌, length, unwrap_or};
ghost use Rattle.std.specs.Vec.{vec_len, vec_capacity};
ghost use Rattle.chanstate.specs.Plans.{is_plain, settled, told_if};
ghost use Rattle.chanstate.specs.Items.{Addressed};
ghost use Rattle.chanstate.specs.Steps.{step};

use crate::channel::Channel;
use crate::channels::{Channels, put_each};
use crate::state::ChanState;
use crate::take::Take;
use crate::telling::Telling;
use bytetext::Text;
use rfccase::Casemapping;
use std::marker::Model;

/// What is prepared for a message, by what the message changes.
#[derive(Drop)]
pub enum MessagePlan {
    // Nothing has to be prepared.
    Plain,
    // The server has welcomed the bot under this nick.
    Welcome(Text),
    // A channel gets another topic.
    Title {
        channel: Text,
        topic: Text,
    },
    // A member of a channel gets another address. Then the account is told.
    Address {
        channel: Text,
        nick: Text,
        user: Text,
        host: Text,
        telling: Option<Telling>,
    },
    // The bot has joined channels. `joined` says whether the JOIN names any. Then its account is told.
    Open {
        joined: bool,
        opening: Opening,
        telling: Option<Telling>,
    },
    // Another person has joined channels. `joined` says whether the JOIN names any. Then the account is told.
    Come {
        joined: bool,
        takes: Vec<Take>,
        telling: Option<Telling>,
    },
    // Something is told of a nick on every channel.
    Tell(Telling),
    // The members of channels change, and so does the bot's nick if `own` has one.
    Seat {
        own: Option<Text>,
        takes: Vec<Take>,
    },
}

/// Channels that were taken out of a state, with room for those that the bot joins. Contracts see the channels as they
/// are, and as they will be.
#[derive(Drop)]
pub struct Opening {
    pub(crate) mapping: Casemapping,
    pub(crate) held: Vec<Channel>,
    pub(crate) opened: Vec<Channel>,
}

impl Model for Opening {
    ghost use Rattle.std.specs.Prelude.{◌+◌, ◌≤◌, List, length};
    ghost use Rattle.std.specs.Vec.{vec_len, vec_capacity};
    ghost use Rattle.chanstate.specs.declared.channel.Channel.{Channel};
    ghost use Rattle.chanstate.specs.Channels.{put_each_last};

    ghost Value = { List Channel × List Channel };

    ghost view = { λ o. (o.held.items, put_each_last o.mapping o.opened.items o.held.items) };

    ghost invariant = { λ o. vec_len o.held + length o.opened.items ≤ vec_capacity o.held };
}

impl Opening {
    // Returns the channels as they will be if `done`, else as they are.
    fn into_channels(self, done: bool) -> Channels
        ensures { result ≡ (if done then self.1 else self.0) }
    {
        let Opening {
            mapping,
            mut held,
            opened,
        } = self;
        if done {
            put_each(mapping, &mut held, opened);
        }
        Channels { items: held }
    }
}

impl MessagePlan {
    // Returns whether nothing had to be prepared.
    pub(crate) fn is_plain(&self) -> bool
        ensures { result ≡ is_plain self.now }
    {
        matches!(self, MessagePlan::Plain)
    }
}

impl ChanState {
    // Takes in what was prepared if `done`, else puts back what was taken out for it.
    pub(crate) fn settle(&mut self, plan: MessagePlan, done: bool)
        ensures { self.new ≡ settled done plan self.old }
    {
        match plan {
            MessagePlan::Plain => {}
            MessagePlan::Welcome(nick) => {
                if done {
                    self.nick = nick;
                    self.channels.clear();
                    self.support = self.support.welcomed();
                }
            }
            MessagePlan::Title { channel, topic } => {
                if done {
                    let mapping = self.casemapping();
                    self.channels.set_topic(mapping, channel.as_bytes(), topic);
                }
            }
            MessagePlan::Address {
                channel,
                nick,
                user,
                host,
                telling,
            } => {
                if done {
                    self.readdress(channel, nick, user, host);
                    self.tell(telling);
                }
            }
            MessagePlan::Open {
                joined,
                opening,
                telling,
            } => {
                self.channels = opening.into_channels(done);
                self.note_join(done && joined);
                self.tell_if(done, telling);
            }
            MessagePlan::Come {
                joined,
                takes,
                telling,
            } => {
                self.channels.give(takes, done);
                self.note_join(done && joined);
                self.tell_if(done, telling);
            }
            MessagePlan::Tell(telling) => self.tell_if(done, Some(telling)),
            MessagePlan::Seat { own, takes } => {
                self.channels.give(takes, done);
                if done {
                    self.rename_own(own);
                }
            }
        }
    }

    // Gives a member of a channel another address.
    fn readdress(&mut self, channel: Text, nick: Text, user: Text, host: Text)
        ensures { self.new ≡ step (Addressed channel nick user host) self.old }
    {
        let mapping = self.casemapping();
        self.channels
            .place_at(mapping, channel.as_bytes(), nick.as_bytes(), user, host);
    }

    // Takes in what is told if `done`.
    fn tell_if(&mut self, done: bool, telling: Option<Telling>)
        ensures { self.new ≡ told_if done telling self.old }
    {
        if done {
            self.tell(telling);
        }
    }

    // Gives the bot this nick, if there is one.
    fn rename_own(&mut self, own: Option<Text>)
        ensures nick { self.new.nick ≡ unwrap_or own self.old.nick }
        ensures channels { self.new.channels ≡ self.old.channels }
        ensures support { self.new.support ≡ self.old.support }
    {
        if let Some(nick) = own {
            self.nick = nick;
        }
    }
}
