// Admins at the socket in the bot's folder.
ghost use Rattle.std.specs.Prelude.{◌<◌, length, vec_len, IfSome};

use crate::asks::Asks;
use crate::log_entry::LogEntry;
use crate::seconds::Seconds;
use bytetext::NoMemory;
use control::MAX_COMMAND;
use net::{Bounds, Connection, DoorFault, Log, Registry, UnixDoor, UnixSocket, Watch};
use std::alloc::Global;
use std::net::Net;
use std::rt::Files;

/// The most admins at once. If another one waits, the admin that has been silent for longest is disconnected, if
/// it was silent for at least 30 seconds and nothing waits for it: no command of its own, no byte of an answer, and no
/// change that the hub has still to answer. If there is no such admin, the new one waits.
pub const MAX_ADMINS: usize = 8;

/// The most unsent bytes of answers for an admin; an admin for which more would wait is disconnected.
pub const MAX_UNSENT: usize = 16_777_216;

// While more than this many bytes of answers are unsent, no further command of an admin is taken.
const SLOW: usize = 65_536;

// An admin that has been silent for this many seconds may have to give way.
const SILENCE: u64 = 30;

// The token under which the door is watched, and the one of the admins that it lets in.
const DOOR: usize = 2;

const TOKEN: usize = 3;

// The longest command with its line feed, and the most unsent bytes of answers.
const BOUNDS: Bounds = Bounds {
    heard: MAX_COMMAND + 1,
    unsent: MAX_UNSENT,
};

// One admin.
struct Admin {
    connection: Connection<UnixSocket>,
    // Whether the admin is disconnected once it has all answers.
    is_last: bool,
    // The admin's number among all that have connected.
    number: u64,
    // The second of the monotonic clock at which the admin last sent something, or connected.
    spoke: u64,
}

// Written by hand, so that the drop is proved once, and not in each function that drops one.
impl Drop for Admin {
    fn drop(self) {
        let Admin {
            connection: _,
            is_last: _,
            number: _,
            spoke: _,
        } = self;
    }
}

/// A command of an admin.
#[derive(Drop)]
pub struct AdminLine {
    /// The admin's number among all that have connected, from 0.
    pub number: u64,
    /// The command, without its line feed.
    pub line: Vec<u8>,
}

/// The door for admins, and the admins that are connected.
pub struct Admins {
    door: UnixDoor,
    seats: Vec<Admin>,
    // The number of admins that have connected so far.
    count: u64,
    // Whether somebody may wait at the door: false after a poll that found nobody, until an event names the door again.
    may_come: bool,
    // The second of the monotonic clock at which the door was last polled.
    asked: u64,
}

// Written by hand, so that the drop is proved once, and not in each function that drops one.
impl Drop for Admins {
    fn drop(self) {
        let Admins {
            door: _,
            seats: _,
            count: _,
            may_come: _,
            asked: _,
        } = self;
    }
}

impl Admins {
    /// Listens at `path`, where no file may exist.
    ///
    /// # Errors
    /// Those of [`UnixDoor::open`].
    pub fn open<R: AllocGlobal + Net + Files>(
        rt: &R,
        registry: &Registry,
        path: &str,
    ) -> Result<Admins, DoorFault> {
        match UnixDoor::open(rt, registry, DOOR, path) {
            Ok(door) => Ok(Admins {
                door,
                seats: Vec::new(rt.alloc()),
                count: 0,
                may_come: true,
                asked: 0,
            }),
            Err(fault) => Err(fault),
        }
    }

    /// Accepts the admins that wait at the door, and reads from each admin. `watch` names the door or the admins, which
    /// share a token, if something has arrived there. An admin for whose change `asks` has somebody wait does not give way.
    /// Returns whether a byte arrived.
    ///
    /// # Errors
    /// `NoMemory` if an allocation fails.
    pub fn read<R: AllocGlobal>(
        &mut self,
        rt: &R,
        log: &mut Log,
        watch: &Watch,
        asks: &Asks,
        seconds: Seconds,
    ) -> Result<bool, NoMemory> {
        self.let_in(rt, log, watch, asks, seconds)?;
        let is_named = watch.tokens().contains(&TOKEN);
        let mut came = false;
        for seat in self.seats.iter_mut() {
            if is_named {
                seat.connection.wake();
            }
            if !seat.is_last && seat.connection.read(1)? {
                seat.spoke = seconds.steady;
                came = true;
            }
        }
        Ok(came)
    }

    // Accepts waiting admins, as long as there are places or an admin gives way. Polls the door if somebody may wait
    // there, until nobody does, since one event names it for all that came before. Also polls it once a second: at the
    // limit of open files nobody seems to wait, and no event announces that a file is free again.
    fn let_in<R: AllocGlobal>(
        &mut self,
        rt: &R,
        log: &mut Log,
        watch: &Watch,
        asks: &Asks,
        seconds: Seconds,
    ) -> Result<(), NoMemory> {
        if watch.tokens().contains(&DOOR) {
            self.may_come = true;
        }
        if !self.may_come && self.asked == seconds.steady {
            return Ok(());
        }
        self.asked = seconds.steady;
        for _admin in 0..MAX_ADMINS {
            if self.is_full() && self.silent(asks, seconds.steady).is_none() {
                return Ok(());
            }
            let Some(socket) = self.door.let_in(watch.registry(), TOKEN) else {
                self.may_come = false;
                return Ok(());
            };
            self.make_way(log, asks, seconds);
            self.seat(rt.alloc(), socket, seconds.steady)?;
        }
        Ok(())
    }

    // Whether all places are taken.
    fn is_full(&self) -> bool {
        self.seats.len() >= MAX_ADMINS
    }

    // The place of the admin that gives way if all places are taken, if one does. The monotonic clock shows second
    // `steady`.
    fn silent(&self, asks: &Asks, steady: u64) -> Option<usize>
        ensures within { IfSome result (λ place. place < vec_len self.now.seats) }
    {
        let mut found = None;
        let mut longest = SILENCE - 1;
        for (place, seat) in self.seats.iter().enumerate() {
            let silence = steady.saturating_sub(seat.spoke);
            if silence > longest && seat.is_idle() && !asks.holds(seat.number) {
                found = Some(place);
                longest = silence;
            }
        }
        found
    }

    // If all places are taken, disconnects the admin that gives way.
    fn make_way(&mut self, log: &mut Log, asks: &Asks, seconds: Seconds) {
        if !self.is_full() {
            return;
        }
        if let Some(place) = self.silent(asks, seconds.steady) {
            let _gone = self.seats.remove(place);
            log.note(seconds.wall, &LogEntry::GaveWay);
        }
    }

    // Adds an admin, which connects when the monotonic clock shows second `steady`.
    fn seat(&mut self, alloc: Global, socket: UnixSocket, steady: u64) -> Result<(), NoMemory> {
        self.seats.push(Admin {
            connection: Connection::new(alloc, socket, BOUNDS),
            is_last: false,
            number: self.count,
            spoke: steady,
        })?;
        self.count = self.count.wrapping_add(1);
        Ok(())
    }

    /// The number of connected admins.
    pub fn len(&self) -> usize {
        self.seats.len()
    }

    /// Takes a command of the admin at `place`, if it has sent a whole one and takes its answers. A line that does not
    /// end is cut once it is too long; it is the admin's last.
    ///
    /// # Errors
    /// `NoMemory` if an allocation fails.
    pub fn take_command(
        &mut self,
        alloc: Global,
        place: usize,
    ) -> Result<Option<AdminLine>, NoMemory> {
        let Some(seat) = self.seats.get_mut(place) else {
            return Ok(None);
        };
        if seat.is_last || seat.connection.unsent.len() > SLOW {
            return Ok(None);
        }
        let number = seat.number;
        if let Some(end) = line_end(seat.connection.heard.as_slice()) {
            let line = Vec::from_slice(alloc, &seat.connection.heard[..end])?;
            seat.connection.take_front(end + 1);
            return Ok(Some(AdminLine { number, line }));
        }
        if !seat.connection.is_full() {
            return Ok(None);
        }
        seat.is_last = true;
        let line = seat.connection.take_heard(alloc);
        Ok(Some(AdminLine { number, line }))
    }

    /// Queues an answer for the admin numbered `number`, followed by the line that ends it, if it is still connected.
    ///
    /// # Errors
    /// `NoMemory` if an allocation fails.
    pub fn tell(&mut self, number: u64, answer: &[u8]) -> Result<(), NoMemory> {
        for seat in self.seats.iter_mut() {
            if seat.number == number {
                let _fits = seat.connection.tell(answer, b".\n")?;
            }
        }
        Ok(())
    }

    /// Whether all admins have their answers.
    pub fn are_answered(&self) -> bool {
        self.seats
            .iter()
            .all(|seat| seat.connection.unsent.is_empty())
    }

    /// The number of unsent bytes of answers.
    pub fn unsent(&self) -> usize {
        let mut sum = 0usize;
        for seat in self.seats.iter() {
            sum = sum.saturating_add(seat.connection.unsent.len());
        }
        sum
    }

    /// Offers each admin its unsent bytes, and drops the connections that are over. Returns whether an admin took
    /// a byte, or a place is free for somebody who may wait at the door.
    pub fn send(&mut self) -> bool {
        let mut moved = false;
        for seat in self.seats.iter_mut() {
            if seat.send() {
                moved = true;
            }
        }
        let seated = self.seats.len();
        self.seats.retain(|seat| !seat.connection.is_over);
        moved || (self.may_come && self.seats.len() < seated)
    }
}

impl Admin {
    // Whether no command of the admin waits, and no byte of an answer is unsent.
    fn is_idle(&self) -> bool {
        self.connection.unsent.is_empty() && line_end(self.connection.heard.as_slice()).is_none()
    }

    // Offers the unsent bytes, once. Returns whether the admin took a byte.
    fn send(&mut self) -> bool {
        if self.is_last && self.connection.unsent.is_empty() {
            self.connection.is_over = true;
        }
        self.connection.send()
    }
}

// The place of the first line feed.
fn line_end(bytes: &[u8]) -> Option<usize>
    ensures within { IfSome result (λ end. end < length bytes.now) }
{
    bytes.iter().position(|byte| *byte == b'\n')
}
