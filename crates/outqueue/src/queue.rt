// Which queue is meant.
ghost use Rattle.std.specs.Prelude.{◌≡◌};
ghost use Rattle.outqueue.specs.Once.{has_shares};

/// One of the three queues, in the order in which they are served (Eggdrop's Tcl commands, at `clearqueue`).
#[derive(Clone, Copy, Debug, PartialEq, Eq)]
pub enum Queue {
    /// Lines that can't wait: answers to the server, channel modes, kicks.
    Mode,
    /// Lines for the server: joins and the like.
    Server,
    /// Lines for people.
    Help,
}

impl Queue {
    // Returns whether targets have shares of this queue: all queues but the mode queue.
    pub(crate) fn has_shares(self) -> bool
        ensures { result ≡ has_shares self }
    {
        match self {
            Queue::Mode => false,
            Queue::Server => true,
            Queue::Help => true,
        }
    }
}

/// One queue or all of them.
#[derive(Clone, Copy, Debug)]
pub enum QueueSet {
    /// This queue alone.
    One(Queue),
    /// All three, and the answers to PING, which wait before them.
    All,
}
