// Queued lines of the process's own.
use bytetext::{NoMemory, Text};
use std::alloc::Global;
use std::collections::VecDeque;
use std::marker::Model;

/// The most lines of operators and of answers that are queued.
const MAX_WAITING: usize = 64;

/// A queue of lines that the process itself has for the server, the oldest first. They are sent once the server has
/// welcomed the bot, as many as its pace allows. Contracts see the lines.
#[derive(Drop)]
pub struct OwnLines {
    lines: VecDeque<Text>,
}

impl Model for OwnLines {
    ghost use Rattle.std.specs.Prelude.{ℕ, List};

    ghost Value = { List (List ℕ) };

    ghost view = { λ own. own.lines.items };
}

impl OwnLines {
    ghost use Rattle.std.specs.Prelude.{◌≡◌, ◌<◌, ◌↔◌, ◌∷◌, ◌++◌, [], length, drop, slice_get, IsTrue, OnOk, OnErr};
    ghost use Rattle.serverlink.specs.declared.own_lines.TheConstants.{MAX_WAITING};

    // An empty queue. Allocates nothing.
    pub(crate) fn new(alloc: Global) -> OwnLines
        ensures { result ≡ [] }
    {
        OwnLines {
            lines: VecDeque::new(alloc),
        }
    }

    /// Returns the number of queued lines.
    pub fn len(&self) -> usize
        ensures { result ≡ length self.now }
    {
        self.lines.len()
    }

    /// Whether the queue accepts a line of an operator, or of an answer to a person: fewer than 64 lines are queued.
    pub fn has_room(&self) -> bool
        ensures { IsTrue result ↔ (length self.now < MAX_WAITING) }
    {
        self.lines.len() < MAX_WAITING
    }

    /// Appends `line`, even if [`OwnLines::has_room`] is false.
    ///
    /// # Errors
    /// `NoMemory` if an allocation fails. The line is not queued then.
    pub fn put(&mut self, line: Text) -> Result<(), NoMemory>
        ensures put { OnOk result (self.new ≡ self.old ++ line ∷ []) }
        ensures err { OnErr result (self.new ≡ self.old) }
    {
        self.lines.push_back(line)?;
        Ok(())
    }

    // Removes and returns the oldest line.
    pub(crate) fn next(&mut self) -> Option<Text>
        ensures first { result ≡ slice_get self.old 0 }
        ensures rest { self.new ≡ drop 1 self.old }
    {
        self.lines.pop_front()
    }

    /// Drops all lines.
    pub fn clear(&mut self)
        ensures { self.new ≡ [] }
    {
        self.lines.clear();
    }
}
