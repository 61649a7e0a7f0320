// The door of a page, and the readers that are connected.
ghost use Rattle.std.specs.Prelude.{◌≤◌, ◌<◌, IfSome, IsTrue, vec_len};
ghost use Rattle.page.specs.declared.server.TheConstants.{MAX_READERS};

use crate::answer::PageAnswer;
use crate::request::PageRequest;
use crate::seat::Seat;
use crate::site::PageSite;
use net::{Arrival, DoorFault, Registry, TcpDoor, Watch};
use std::alloc::Global;
use std::net::{Net, SocketAddr};

/// The most readers at once. Others wait at the door until a seat is free.
pub const MAX_READERS: usize = 8;

// The token under which the door is watched, and the one of the readers that it lets in.
const DOOR: usize = 8;

const TOKEN: usize = 9;

/// The request of a reader.
#[derive(Drop)]
pub struct PageAsk {
    /// The reader's number.
    pub number: u64,
    /// What the reader asks for.
    pub request: PageRequest,
}

/// The door of a page, and the readers that are connected: at most [`MAX_READERS`].
pub struct PageServer {
    site: PageSite,
    door: TcpDoor,
    // In the order in which they came.
    seats: Vec<Seat>,
    // The number of readers that have come so far.
    count: u64,
    // Whether somebody may wait at the door: false after a poll that found nobody, until an event names the door again.
    may_come: bool,
    // The second of the monotonic clock at which the door was last polled.
    asked: u64,
    /// At most so many readers are connected.
    pub ghost few: { vec_len seats ≤ MAX_READERS },
}

// Written by hand, so that the drop is proved once, and not in each function that drops one.
impl Drop for PageServer {
    fn drop(self) {
        let PageServer {
            site: _,
            door: _,
            seats: _,
            count: _,
            may_come: _,
            asked: _,
        } = self;
    }
}

impl PageServer {
    /// Listens at `address`. `registry` watches the door under the token 8 and the readers under the token 9, which
    /// nothing else may use.
    ///
    /// # Errors
    /// Those of [`TcpDoor::open`].
    pub fn open<R: AllocGlobal + Net>(
        rt: &R,
        registry: &Registry,
        address: SocketAddr,
        site: PageSite,
    ) -> Result<PageServer, DoorFault> {
        match TcpDoor::open(rt, registry, DOOR, address) {
            Ok(door) => Ok(PageServer {
                site,
                door,
                seats: Vec::new(rt.alloc()),
                count: 0,
                may_come: true,
                asked: 0,
            }),
            Err(fault) => Err(fault),
        }
    }

    /// Accepts the readers that wait at the door, and reads a piece from each reader, at second `steady` of the monotonic
    /// clock. `watch` names the door or the readers if something has arrived there. Returns whether a byte arrived.
    pub fn read(&mut self, alloc: Global, watch: &Watch, steady: u64) -> bool {
        self.let_in(alloc, watch, steady);
        let is_named = watch.tokens().contains(&TOKEN);
        let mut came = false;
        for seat in self.seats.iter_mut() {
            came |= seat.read(alloc, is_named);
        }
        came
    }

    // Accepts waiting readers, as long as there is a seat, or one whose answer was sent. Polls the door if somebody may
    // wait there, until nobody does, since one event names it for all that came before. Also polls it once a second: at
    // the limit of open files nobody seems to wait, and no event announces that a file is free again.
    fn let_in(&mut self, alloc: Global, watch: &Watch, steady: u64) {
        if watch.tokens().contains(&DOOR) {
            self.may_come = true;
        }
        if !self.may_come && self.asked == steady {
            return;
        }
        self.asked = steady;
        for _reader in 0..MAX_READERS {
            if !self.make_way() {
                return;
            }
            let Some(Arrival { socket, address: _ }) = self.door.let_in(watch.registry(), TOKEN)
            else {
                self.may_come = false;
                return;
            };
            let seat = Seat::new(alloc, socket, self.count, steady);
            self.count = self.count.wrapping_add(1);
            // Without memory the connection is closed.
            let _seated = self.seats.push(seat);
        }
    }

    // If all seats are taken, disconnects the first reader whose answer was sent. Returns whether there is a free seat.
    fn make_way(&mut self) -> bool
        ensures { IsTrue result → vec_len self.new.seats < MAX_READERS }
    {
        if self.seats.len() < MAX_READERS {
            return true;
        }
        match self.taken() {
            Some(place) => {
                let _gone = self.seats.remove(place);
                true
            }
            None => false,
        }
    }

    // The place of the first reader whose answer was sent.
    fn taken(&self) -> Option<usize>
        ensures within { IfSome result (λ place. place < vec_len self.now.seats) }
    {
        for (place, seat) in self.seats.iter().enumerate() {
            if seat.is_taken() {
                return Some(place);
            }
        }
        None
    }

    /// Takes the request of the first reader whose request is all there. The process answers it in this turn: call
    /// this once a turn.
    pub fn take_request(&mut self, alloc: Global) -> Option<PageAsk> {
        let PageServer { site, seats, .. } = self;
        for seat in seats.iter_mut() {
            if let Some(request) = seat.take_request(alloc, site) {
                let number = seat.number;
                return Some(PageAsk { number, request });
            }
        }
        None
    }

    /// Queues the answer for the reader of this number, or ends the connection if there is none for lack of memory.
    pub fn answer(&mut self, number: u64, answer: Option<PageAnswer>) {
        for seat in self.seats.iter_mut() {
            if seat.number == number {
                seat.answer(&answer);
            }
        }
    }

    /// Offers each reader its unsent bytes, and drops the connections that are over, or late at second `steady` of the
    /// monotonic clock. Returns whether another turn is due at once: a reader took a byte, or a seat is free for somebody
    /// who may wait at the door.
    pub fn send(&mut self, steady: u64) -> bool {
        let mut moved = false;
        for seat in self.seats.iter_mut() {
            moved |= seat.send(steady);
        }
        let seated = self.seats.len();
        self.seats.retain(|seat| !seat.is_over());
        moved || (self.may_come && self.seats.len() < seated)
    }

    /// Returns the number of readers that are connected.
    pub fn len(&self) -> usize
        ensures { result ≤ MAX_READERS }
    {
        self.seats.len()
    }
}
