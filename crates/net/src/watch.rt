// The wait for sockets.
ghost use Rattle.std.specs.Prelude.{◌≡◌, ◌≤◌, [], map, filter, length, vec_len, vec_capacity};
ghost use Rattle.mio.specs.Event.{event_token};
ghost use Rattle.mio.specs.Events.{items, capacity as events_capacity};
ghost use Rattle.net.specs.Watching.{is_ending};

use mio::event::Event;
use mio::{Events, Poll, Registry};
use std::io;
use std::marker::Model;
use std::net::Net;
use std::time::Duration;

/// Waits for sockets and doors, and names those that are ready. Contracts see it as a
/// `Rattle.net.specs.Watching.Watching`.
pub struct Watch {
    poll: Poll,
    events: Events,
    // The tokens of the last wait.
    tokens: Vec<usize>,
    // The tokens of those events of the last wait that tell of an end.
    endings: Vec<usize>,
    // Each event of a wait has room in `tokens` and in `endings`.
    ghost fits: { events_capacity events ≤ vec_capacity tokens },
    ghost few: { vec_len tokens ≤ events_capacity events },
    ghost endings_fit: { events_capacity events ≤ vec_capacity endings },
    ghost few_endings: { vec_len endings ≤ events_capacity events },
}

// By hand, so that this is proved once, and not in each crate in which a watch ends.
impl Drop for Watch {
    fn drop(self) {
        let Watch {
            poll: _,
            events: _,
            tokens: _,
            endings: _,
        } = self;
    }
}

impl Model for Watch {
    ghost use Rattle.mio.specs.Events.{capacity as events_capacity};
    ghost use Rattle.net.specs.Watching.{Watching};

    ghost Value = { Watching };

    ghost view = { λ watch. record {
      tokens = watch.tokens.items;
      endings = watch.endings.items;
      room = events_capacity watch.events;
    } };
}

impl Watch {
    ghost use Rattle.std.specs.Prelude.{IfOk, OnErr};

    /// Creates a watch of nothing yet. Each wait reports at most `room` events; the next wait reports the others. All
    /// memory is allocated here.
    ///
    /// # Errors
    /// `OutOfMemory` if an allocation fails, and those of the system if it has no more files.
    pub fn new<R: Net + AllocGlobal>(rt: &R, room: usize) -> io::Result<Watch>
        ensures tokens { IfOk result (λ watch. watch.tokens ≡ []) }
        ensures endings { IfOk result (λ watch. watch.endings ≡ []) }
        ensures room { IfOk result (λ watch. watch.room ≡ room) }
    {
        Ok(Watch {
            poll: Poll::new(rt)?,
            events: Events::with_capacity(rt.alloc(), room)?,
            tokens: Vec::with_capacity(rt.alloc(), room)?,
            endings: Vec::with_capacity(rt.alloc(), room)?,
        })
    }

    /// Returns the registry, with which sockets and doors are opened.
    pub fn registry(&self) -> &Registry {
        self.poll.registry()
    }

    /// Waits until something can be read, written or accepted, or until `milliseconds` have passed. A signal ends the
    /// wait early. Does not allocate.
    ///
    /// # Errors
    /// Those of the system. The watch has no token and no ending then.
    pub fn wait(&mut self, milliseconds: u64) -> io::Result<()>
        ensures few { length self.new.tokens ≤ self.new.room }
        ensures room { self.new.room ≡ self.old.room }
        ensures none { OnErr result (self.new.tokens ≡ []) }
        ensures few_endings { length self.new.endings ≤ self.new.room }
        ensures no_ending { OnErr result (self.new.endings ≡ []) }
    {
        self.tokens.clear();
        self.endings.clear();
        let most = Duration::from_millis(milliseconds);
        self.poll.poll(&mut self.events, Some(most))?;
        put_tokens(&mut self.tokens, &self.events);
        put_endings(&mut self.endings, &self.events);
        Ok(())
    }

    /// Returns the tokens of the last wait, one for each event. A socket that has ended since may be among them.
    pub fn tokens(&self) -> &[usize]
        ensures { result.now ≡ self.now.tokens }
    {
        self.tokens.as_slice()
    }

    /// Returns the tokens of those events of the last wait that tell of an end: the other side sends no more, or the
    /// socket failed. The bytes that it sent before can still be read. No later event is sure to announce the end, so read
    /// such a socket until its stream ends or fails.
    pub fn endings(&self) -> &[usize]
        ensures { result.now ≡ self.now.endings }
    {
        self.endings.as_slice()
    }
}

// Appends the token of each event, in order.
fn put_tokens(tokens: &mut Vec<usize>, events: &Events)
    requires none { tokens.old.items ≡ [] }
    requires room { length (items events.now) ≤ vec_capacity tokens.old }
    ensures items { tokens.new.items ≡ map (λ event. (event_token event).0) (items events.now) }
    ensures capacity { vec_capacity tokens.new ≡ vec_capacity tokens.old }
{
    for event in events.iter() {
        tokens.push_reserved(event.token().0);
    }
}

// Appends the token of each event that tells of an end, in order.
fn put_endings(endings: &mut Vec<usize>, events: &Events)
    requires none { endings.old.items ≡ [] }
    requires room { length (items events.now) ≤ vec_capacity endings.old }
    ensures items { endings.new.items ≡ map (λ event. (event_token event).0) (filter is_ending (items events.now)) }
    ensures few { vec_len endings.new ≤ length (items events.now) }
    ensures capacity { vec_capacity endings.new ≡ vec_capacity endings.old }
{
    for event in events.iter() {
        if is_ending(event) {
            endings.push_reserved(event.token().0);
        }
    }
}

// Whether an event tells of an end: of the other side's bytes, or of the socket.
fn is_ending(event: &Event) -> bool
    ensures { result ≡ is_ending event.now }
{
    event.is_read_closed() || event.is_error()
}
