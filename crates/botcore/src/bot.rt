// One bot.
use crate::config::Config;
use crate::presence::Presence;
use crate::server_lines::ServerLines;
use bottimers::{Clock, Timers};
use bytejournal::Disks;
use disks::Disk;
use procs::BindTable;
use rfccase::Casemapping;
use sharelink::{AcceptedChange, BotLink, HeldSnapshot};
use std::marker::Model;
use userfile::Userfile;

/// A bot: its end of the sharing link over a journal on two disks, its binds, the channels that it is on, its clock,
/// its timers, and its lines for the server.
pub struct Bot<D: Disk> {
    pub(crate) config: Config,
    pub(crate) link: BotLink<D>,
    pub(crate) binds: BindTable,
    pub(crate) channels: Presence,
    pub(crate) clock: Clock,
    pub(crate) timers: Timers,
    pub(crate) queues: ServerLines,
    // Whether a 001 was taken in since the bot last connected.
    pub(crate) welcomed: bool,
}

// Written by hand, so that it is proved once and not in each crate that drops a bot.
impl<D: Disk> Drop for Bot<D> {
    fn drop(self) {
        let Bot {
            config: _,
            link: _,
            binds: _,
            channels: _,
            clock: _,
            timers: _,
            queues: _,
            welcomed: _,
        } = self;
    }
}

impl<D: Disk> Model for Bot<D> {
    ghost use Rattle.botcore.specs.Bots.{Bot};

    ghost Value = { Bot };

    ghost view = { λ b. record {
      config = b.config;
      link = b.link;
      binds = b.binds;
      channels = b.channels.current;
      clock = b.clock;
      timers = b.timers;
      queues = b.queues.current;
      welcomed = b.welcomed;
    } };

    ghost use Rattle.botcore.specs.Rising.{IsReached};
    ghost use Rattle.std.specs.Prelude.{◌≡◌, []};
    ghost use Rattle.outqueue.specs.Sending.{no_room, idle};
    ghost use Rattle.chanstate.specs.Views.{connected};
    ghost use Rattle.botcore.specs.Automatic.{greeting};
    ghost use Rattle.botcore.specs.declared.manner.Manner.TheVariants.{InTurn};
    ghost use Rattle.botcore.specs.Putting.{put_faults};
    ghost use Rattle.botcore.specs.ServerLines.{greeting_lines};

    // The timers have seen no second that the clock has not, and no room is reserved for further lines. The state to
    // which the bot returns when it leaves all channels has the nick of its configuration, and so has the greeting that
    // it queues when it connects. No line of the greeting is refused.
    ghost invariant = { λ b. IsReached b.timers.last b.clock × (b.queues.current.room ≡ no_room)
        × (b.channels.first ≡ connected b.config.nick) × (b.queues.greeting ≡ greeting_lines b.config)
        × (put_faults InTurn idle (greeting b.config) ≡ []) };
}

impl<D: Disk> Bot<D> {
    ghost use Rattle.std.specs.Prelude.{◌≡◌};
    ghost use Rattle.protocol.specs.Ends.{end_is_down};
    ghost use Rattle.sharelink.specs.BotLinks.{MayLeave};
    ghost use Rattle.sharelink.specs.Telling.{end_tail, end_last_request, end_last_reply, end_held};
    ghost use Rattle.botcore.specs.Links.{ask_count, link_records, link_version};
    ghost use Rattle.chanstate.specs.Views.{account_in, is_op, mapping_of, member_in};

    /// Returns the configuration with which the bot was made.
    pub fn config(&self) -> &Config
        ensures { result.now ≡ self.now.config }
    {
        &self.config
    }

    /// Returns the version of its userfile: for the hub, the number of changes that it has accepted; for a leaf, the
    /// number of the last change that it holds.
    pub fn version(&self) -> u32
        ensures { result ≡ link_version self.now.link }
    {
        self.link.version()
    }

    /// Returns its userfile at that version.
    pub fn userfile(&self) -> &Userfile
        ensures { result.now ≡ link_records self.now.link }
    {
        self.link.userfile()
    }

    /// Returns the accepted changes that a hub's journal holds one by one, the oldest first: the last one's number is the
    /// version. A leaf returns none.
    pub fn accepted(&self) -> &[AcceptedChange]
        ensures { result.now ≡ end_tail self.now.link.end }
    {
        self.link.accepted()
    }

    /// Returns the number of a leaf's last request, or 0 before its first. The hub, which sends no request, returns 0.
    pub fn last_request(&self) -> u32
        ensures { result ≡ end_last_request self.now.link.end }
    {
        self.link.last_request()
    }

    /// Returns the number of the last request of `leaf` that the hub replied to, or 0 if it replied to none or there is
    /// no such leaf. A leaf, which replies to no request, returns 0.
    pub fn last_reply(&self, leaf: u16) -> u32
        ensures { result ≡ end_last_reply self.now.link.end leaf }
    {
        self.link.last_reply(leaf)
    }

    /// Returns which parts of a snapshot a leaf holds, or `None` if it holds none. The hub returns `None`.
    pub fn held_parts(&self) -> Option<HeldSnapshot>
        ensures { result ≡ end_held self.now.link.end }
    {
        self.link.held_parts()
    }

    /// Returns whether a disk failed or a restart did not end since the bot's journal was last opened. Until a restart
    /// its end of the link then refuses every ask, pump, packet and compaction. Lines, readings and binds still work.
    pub fn is_down(&self) -> bool
        ensures { result ≡ end_is_down self.now.link.end }
    {
        self.link.is_down()
    }

    /// Returns the number of asks that wait for a pump.
    pub fn ask_count(&self) -> usize
        ensures { result ≡ ask_count self.now.link }
    {
        self.link.ask_count()
    }

    /// Returns whether a 001 of the server was taken in since the bot last connected.
    pub fn is_welcomed(&self) -> bool
        ensures { result ≡ self.now.welcomed }
    {
        self.welcomed
    }

    /// Returns the nick by which the server knows it: before a 001, the nick of its configuration.
    pub fn own_nick(&self) -> &[u8]
        ensures { result.now ≡ self.now.channels.nick }
    {
        self.channels.current().own_nick()
    }

    /// Returns how its server compares names: by RFC 1459 if it has announced nothing.
    pub fn casemapping(&self) -> Casemapping
        ensures { result ≡ mapping_of self.now.channels }
    {
        self.channels.current().casemapping()
    }

    /// Returns the account of the network's services under which the member of this `nick` is logged in, as far as its
    /// server has said; empty if none is known. Does not allocate.
    pub fn account_of(&self, nick: &[u8]) -> &[u8]
        ensures { result.now ≡ account_in nick.now self.now.channels }
    {
        self.channels.current().account_of(nick)
    }

    /// Returns whether it is an operator of `channel`, as far as its server has said.
    pub fn is_op_on(&self, channel: &[u8]) -> bool
        ensures { result ≡ is_op (member_in channel.now self.now.channels.nick self.now.channels) }
    {
        let state = self.channels.current();
        state.is_op(channel, state.own_nick())
    }

    /// States what a crash leaves at this moment, between two steps. It does nothing.
    pub fn know_disks(&self)
        // What a restart finds: the journal with the record in doubt, or without it.
        ensures left { MayLeave self.now.link.device.first self.now.link.device.second self.now.link }
    {
        self.link.know_disks();
    }

    /// Returns the two disks, in the order in which they were given. Whatever a crash leaves on them is the bot's
    /// journal. A bot that is opened from it with the same configuration is at the same version, except for the record
    /// that is in doubt since a disk failed.
    pub fn into_disks(self) -> Disks<D>
        ensures left { MayLeave (D.state result.first) (D.state result.second) self.link }
    {
        let Bot {
            config: _,
            link,
            binds: _,
            channels: _,
            clock: _,
            timers: _,
            queues: _,
            welcomed: _,
        } = self;
        link.into_disks()
    }
}
