// The connection of one reader.

use crate::answer::{MAX_ANSWER, PageAnswer};
use crate::request::{MAX_HEAD, PageRequest};
use crate::site::PageSite;
use net::{Bounds, Connection, TcpSocket};
use std::alloc::Global;

/// A connection is closed once so many seconds have passed since it came.
pub const LIMIT: u64 = 10;

// A connection whose answer was sent is closed once so many seconds have passed since, if the reader hasn't closed it.
const LINGER: u64 = 1;

const BOUNDS: Bounds = Bounds {
    heard: MAX_HEAD,
    unsent: MAX_ANSWER,
};

// The connection of one reader.
pub(crate) struct Seat {
    connection: Connection<TcpSocket>,
    // The reader's number among all that have come.
    pub(crate) number: u64,
    // The second of the monotonic clock at which the connection came.
    came: u64,
    // How many of the bytes that were heard were read as a request that is not all there yet.
    tried: usize,
    state: SeatState,
}

// How far a reader is.
#[derive(Clone, Copy)]
enum SeatState {
    // The request is not all there.
    Asks,
    // The request was taken.
    Waits,
    // The answer is queued.
    Takes,
    // The answer was sent, at this second of the monotonic clock.
    Taken(u64),
}

// Written by hand, so that the drop is proved once, and not in each function that drops one.
impl Drop for Seat {
    fn drop(self) {
        let Seat {
            connection: _,
            number: _,
            came: _,
            tried: _,
            state: _,
        } = self;
    }
}

impl Seat {
    // The seat of a connection that comes at second `steady` of the monotonic clock.
    pub(crate) fn new(alloc: Global, socket: TcpSocket, number: u64, steady: u64) -> Seat {
        Seat {
            connection: Connection::new(alloc, socket, BOUNDS),
            number,
            came: steady,
            tried: 0,
            state: SeatState::Asks,
        }
    }

    // Whether the connection is to be dropped.
    pub(crate) fn is_over(&self) -> bool {
        self.connection.is_over
    }

    // Whether the answer was sent, so that another reader may have the seat.
    pub(crate) fn is_taken(&self) -> bool {
        match self.state {
            SeatState::Taken(_) => true,
            SeatState::Asks | SeatState::Waits | SeatState::Takes => false,
        }
    }

    // Reads a piece of what has arrived, if `is_named` says that an event has named the connection, or if more may be
    // there. What comes after the request is dropped. Returns whether a byte arrived. The connection is over if no memory
    // is left.
    pub(crate) fn read(&mut self, alloc: Global, is_named: bool) -> bool {
        if is_named {
            self.connection.wake();
        }
        match self.connection.read(1) {
            Ok(came) => {
                if !matches!(self.state, SeatState::Asks) {
                    let _dropped = self.connection.take_heard(alloc);
                }
                came
            }
            Err(_) => {
                self.connection.is_over = true;
                false
            }
        }
    }

    // Takes the request, if it is all there. The connection is over if no memory is left.
    pub(crate) fn take_request(&mut self, alloc: Global, site: &PageSite) -> Option<PageRequest> {
        if !matches!(self.state, SeatState::Asks) || self.connection.heard.len() == self.tried {
            return None;
        }
        self.tried = self.connection.heard.len();
        let connection = &mut self.connection;
        match PageRequest::read(alloc, connection.heard.as_slice(), site) {
            Ok(Some(request)) => {
                let _dropped = connection.take_heard(alloc);
                self.state = SeatState::Waits;
                Some(request)
            }
            Ok(None) => None,
            Err(_) => {
                connection.is_over = true;
                None
            }
        }
    }

    // Queues the answer. The connection is over if there is none, or if no memory is left.
    pub(crate) fn answer(&mut self, answer: &Option<PageAnswer>) {
        let Some(answer) = answer else {
            self.connection.is_over = true;
            return;
        };
        self.state = SeatState::Takes;
        let told = self
            .connection
            .tell(answer.head.as_slice(), answer.body.as_slice());
        if told.is_err() {
            self.connection.is_over = true;
        }
    }

    // Offers the unsent bytes, once, at second `steady` of the monotonic clock, and ends the connection if it is late.
    // Returns whether a byte was taken.
    pub(crate) fn send(&mut self, steady: u64) -> bool {
        let moved = self.connection.send();
        if matches!(self.state, SeatState::Takes) && self.connection.unsent.is_empty() {
            self.state = SeatState::Taken(steady);
        }
        if self.is_late(steady) {
            self.connection.is_over = true;
        }
        moved
    }

    // Whether the connection has lasted for too long.
    fn is_late(&self, steady: u64) -> bool {
        let since = match self.state {
            SeatState::Taken(since) => since.saturating_add(LINGER),
            SeatState::Asks | SeatState::Waits | SeatState::Takes => {
                self.came.saturating_add(LIMIT)
            }
        };
        steady > since
    }
}
