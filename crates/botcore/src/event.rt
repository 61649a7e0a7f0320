// The events that a bot handles.
use bytetext::{NoMemory, Text, TryCopy};
use ircline::Line;
use procs::BindKind;
use sharelink::Packet;
use std::alloc::Global;
use userfile::Change;

/// An event for a bot to handle. Each event is one step of the bot.
#[derive(Drop)]
pub enum BotEvent {
    /// The bot has connected to a server: it is on no channel, under the nick of its configuration.
    Connect,
    /// The server sent a line.
    Line(Line),
    /// Somebody asks for a change of the userfile, which waits for a pump.
    Ask(Change),
    /// The bot is to do the next piece of the link's work.
    Pump,
    /// A packet arrives over the link. The records of a part are well-formed, as those of a decoded packet are.
    Receive(Packet),
    /// The clock reads this many seconds since 1970-01-01 00:00 UTC.
    Clock(u64),
    /// Makes a bind.
    Bind(NewBind),
    /// Removes a bind.
    Unbind(OldBind),
    /// Compacts the journal: it then has the state alone, in its next generation.
    Compact,
    /// Restarts the bot: it ends, its disks crash, and it begins again with the state in its journal.
    Restart,
}

impl TryCopy for BotEvent {
    fn copy(&self, alloc: Global) -> Result<BotEvent, NoMemory> {
        match self {
            BotEvent::Connect => Ok(BotEvent::Connect),
            BotEvent::Line(line) => Ok(BotEvent::Line(line.copy(alloc)?)),
            BotEvent::Ask(change) => Ok(BotEvent::Ask(change.copy(alloc)?)),
            BotEvent::Pump => Ok(BotEvent::Pump),
            BotEvent::Receive(packet) => Ok(BotEvent::Receive(packet.copy(alloc)?)),
            BotEvent::Clock(now) => Ok(BotEvent::Clock(*now)),
            BotEvent::Bind(asked) => Ok(BotEvent::Bind(asked.copy(alloc)?)),
            BotEvent::Unbind(gone) => Ok(BotEvent::Unbind(gone.copy(alloc)?)),
            BotEvent::Compact => Ok(BotEvent::Compact),
            BotEvent::Restart => Ok(BotEvent::Restart),
        }
    }
}

/// A requested bind. See [`BindTable::bind`](procs::BindTable::bind) for the limits of each field.
pub struct NewBind {
    /// The kind of event.
    pub kind: BindKind,
    /// The flag expression that a person must meet.
    pub flags: Text,
    /// The keyword of a msg, pub or bot bind, or else the mask.
    pub mask: Text,
    /// The name of the proc.
    pub proc: Text,
}

// Written by hand, so that it is proved once and not in each function that drops one.
impl Drop for NewBind {
    fn drop(self) {
        let NewBind {
            kind: _,
            flags: _,
            mask: _,
            proc: _,
        } = self;
    }
}

impl TryCopy for NewBind {
    fn copy(&self, alloc: Global) -> Result<NewBind, NoMemory> {
        let flags = self.flags.copy(alloc)?;
        let mask = self.mask.copy(alloc)?;
        let proc = self.proc.copy(alloc)?;
        Ok(NewBind {
            kind: self.kind,
            flags,
            mask,
            proc,
        })
    }
}

/// Names the bind to remove: the one of this kind, of this mask by casemapping and of this proc byte for byte.
pub struct OldBind {
    /// The kind of event.
    pub kind: BindKind,
    /// The keyword or mask.
    pub mask: Text,
    /// The name of the proc.
    pub proc: Text,
}

// Written by hand, so that it is proved once and not in each function that drops one.
impl Drop for OldBind {
    fn drop(self) {
        let OldBind {
            kind: _,
            mask: _,
            proc: _,
        } = self;
    }
}

impl TryCopy for OldBind {
    fn copy(&self, alloc: Global) -> Result<OldBind, NoMemory> {
        let mask = self.mask.copy(alloc)?;
        let proc = self.proc.copy(alloc)?;
        Ok(OldBind {
            kind: self.kind,
            mask,
            proc,
        })
    }
}
