// How a bot queues a line.
ghost use Rattle.std.specs.Prelude.{◌≡◌};
ghost use Rattle.botcore.specs.Putting.{usual};

/// How a line is put among those that wait for the server.
#[derive(Clone, Copy)]
pub enum Manner {
    /// After the lines of its queue.
    InTurn,
    /// After the lines of its queue too, unless it stands in the mode queue already; and refused if its target has its
    /// share of the other queues.
    Once,
    /// After the answers to PING alone, so that it waits for no queue.
    Prompt,
}

impl Manner {
    // Returns how a bot queues a line that is no answer to PING: once if it sends at once.
    pub(crate) fn usual(sends_at_once: bool) -> Manner
        ensures { result ≡ usual sends_at_once }
    {
        if sends_at_once {
            Manner::Once
        } else {
            Manner::InTurn
        }
    }
}
