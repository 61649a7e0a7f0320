// The last lines of a log.
ghost use Rattle.std.specs.Prelude.{◌≤◌, vec_capacity, vec_len};

use bytetext::NoMemory;
use std::alloc::Global;
use std::marker::Model;
use std::mem;

/// The most bytes in each of the two parts of a log's tail: see [`Log::keep_tail`](crate::Log::keep_tail).
pub const MAX_LOG_TAIL: usize = 65_536;

// The last lines of a log, in two parts: the latest lines, and those before them. Once the latest part is full, it takes
// the place of the earlier one. So a line is copied once, and nothing is moved.
pub(crate) struct LogTail {
    // The most bytes of each part; 0 if no line is kept.
    most: usize,
    earlier: Vec<u8>,
    latest: Vec<u8>,
    ghost fits: { (vec_len earlier ≤ most) × (vec_len latest ≤ most) },
    // Each part has room for its most bytes, so keeping a line allocates nothing.
    ghost room: { (most ≤ vec_capacity earlier) × (most ≤ vec_capacity latest) },
}

// By hand, so that this is proved once.
impl Drop for LogTail {
    fn drop(self) {
        let LogTail {
            most: _,
            earlier: _,
            latest: _,
        } = self;
    }
}

impl Model for LogTail {
    ghost use Rattle.net.specs.Tails.{Tail};

    ghost Value = { Tail };

    ghost view = { λ tail. record { most = tail.most; earlier = tail.earlier.items; latest = tail.latest.items } };
}

impl LogTail {
    ghost use Rattle.std.specs.Prelude.{◌≡◌, ◌≤◌, IfOk, length};
    ghost use Rattle.net.specs.Tails.{empty_tail, no_tail, tail_after};
    ghost use Rattle.net.specs.declared.log_tail.TheConstants.{MAX_LOG_TAIL};

    // A tail that keeps no line.
    pub(crate) fn none(alloc: Global) -> LogTail
        ensures { result ≡ no_tail }
    {
        LogTail {
            most: 0,
            earlier: Vec::new(alloc),
            latest: Vec::new(alloc),
        }
    }

    // A tail of no line yet.
    pub(crate) fn empty(alloc: Global) -> Result<LogTail, NoMemory>
        ensures { IfOk result (λ tail. tail ≡ empty_tail) }
    {
        Ok(LogTail {
            most: MAX_LOG_TAIL,
            earlier: Vec::with_capacity(alloc, MAX_LOG_TAIL)?,
            latest: Vec::with_capacity(alloc, MAX_LOG_TAIL)?,
        })
    }

    // Keeps `lines` as the last ones, if lines are kept.
    pub(crate) fn keep(&mut self, lines: &[u8])
        ensures { self.new ≡ tail_after lines.now self.old }
    {
        if lines.len() > self.most {
            return;
        }
        if lines.len() > self.most - self.latest.len() {
            mem::swap(&mut self.earlier, &mut self.latest);
            self.latest.clear();
        }
        // There is room.
        let _kept = self.latest.extend_from_slice(lines);
    }

    // The lines before the latest part.
    pub(crate) fn earlier(&self) -> &[u8]
        ensures lines { result.now ≡ self.now.earlier }
        ensures bound { length result.now ≤ self.now.most }
    {
        self.earlier.as_slice()
    }

    // The latest lines.
    pub(crate) fn latest(&self) -> &[u8]
        ensures lines { result.now ≡ self.now.latest }
        ensures bound { length result.now ≤ self.now.most }
    {
        self.latest.as_slice()
    }
}
