// Room for changes on the disk of the bot's folder.
ghost use Rattle.std.specs.Prelude.{◌≡◌};
ghost use Rattle.std.specs.List.{AllByRecursion};
ghost use Rattle.sharelink.specs.Shapes.{HasGoodRecords};
ghost use Rattle.upkeep.specs.Spaces.{admitted, is_due};

use administrators::{LogEntry, Seconds};
use botfolder::Room;
use net::Log;
use sharewire::Packet;
use std::alloc::Global;

// The answer to an admin whose command needs room.
pub(crate) const NO_ROOM: &[u8] =
    b"refused no room: free some on the disk of the bot's folder, then say it again\n";

// A bot at rest looks for room once in this many seconds, so that it leaves its disk at rest too.
const APART: u64 = 60;

/// The room for changes, and when the bot looked for it.
pub struct Space {
    room: Room,
    // The second of the monotonic clock of the last look that was due.
    looked: u64,
}

// Written by hand, so that the drop is proved once, and not in each function that drops one.
impl Drop for Space {
    fn drop(self) {
        let Space { room: _, looked: _ } = self;
    }
}

impl Space {
    /// Looks for the first time.
    pub fn new(room: Room) -> Space {
        let mut room = room;
        let _is_found = room.look();
        Space { room, looked: 0 }
    }

    /// Whether the last look found room.
    pub fn has_room(&self) -> bool
        ensures { result ≡ self.now.room }
    {
        self.room.has_room()
    }

    /// Logs, at second `now`, if the bot starts without room.
    pub fn tell_start(&self, log: &mut Log, now: u64) {
        if !self.has_room() {
            log.note(now, &LogEntry::NoRoom);
        }
    }

    /// Looks if that is due. `is_awake` says whether the bot has something to do besides reading the clocks.
    pub fn look_if_due(&mut self, log: &mut Log, is_awake: bool, seconds: Seconds) {
        if self.is_due(is_awake, seconds.steady) {
            self.looked = seconds.steady;
            self.look(log, seconds.wall);
        }
    }

    // Whether a look is due when the monotonic clock shows second `steady`.
    fn is_due(&self, is_awake: bool, steady: u64) -> bool
        ensures { result ≡ is_due self.now.looked is_awake steady }
    {
        let passed = steady.saturating_sub(self.looked);
        APART <= passed || (is_awake && 0 < passed)
    }

    /// Looks, and logs, at second `now`, that the room has ended or is there again.
    pub fn look(&mut self, log: &mut Log, now: u64) {
        let had_room = self.room.has_room();
        let has_room = self.room.look();
        if had_room && !has_room {
            log.note(now, &LogEntry::NoRoom);
        }
        if has_room && !had_room {
            log.note(now, &LogEntry::RoomAgain);
        }
    }

    /// Returns the packets that a turn takes of those that wait: all if there is room. If there is none, drops them, since
    /// they may be changes, and whoever sent them sends them again.
    pub fn admit(&self, alloc: Global, waiting: Vec<Packet>) -> Vec<Packet>
        requires good { AllByRecursion HasGoodRecords waiting.items }
        ensures good { AllByRecursion HasGoodRecords result.items }
        ensures packets { result.items ≡ admitted self.now.room waiting.items }
    {
        if self.has_room() {
            waiting
        } else {
            Vec::new(alloc)
        }
    }

    /// Lends the journal the space that is set aside for the bot, until the next look.
    pub fn lend(&mut self)
        ensures { self.new.room ≡ self.old.room }
    {
        self.room.lend();
    }

    /// The same if there is no room: before a turn in which procs may change records.
    pub fn lend_if_full(&mut self)
        ensures { self.new.room ≡ self.old.room }
    {
        if !self.has_room() {
            self.lend();
        }
    }

    /// Looks if there was no room: after such a turn.
    pub fn look_if_full(&mut self, log: &mut Log, now: u64) {
        if !self.has_room() {
            self.look(log, now);
        }
    }
}
