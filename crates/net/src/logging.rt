// The log of a process, which never blocks.
ghost use Rattle.std.specs.Prelude.{◌≤◌, vec_len};
ghost use Rattle.net.specs.declared.logging.TheConstants.{MAX_LOG_WAITING};

use crate::log_file::LogFile;
use crate::log_form::LogForm;
use crate::log_lines::{Gap, lines_of};
use crate::log_piece::{write_out, write_to_file};
use crate::log_tail::LogTail;
use crate::standard_output::StandardOutput;
use bytetext::NoMemory;
use std::alloc::Global;
use std::fmt::Display;
use std::fs::File;
use std::io;
use std::marker::Model;
use std::net::Net;
use std::rt::Files;

/// The most bytes that wait in a [`Log`].
pub const MAX_LOG_WAITING: usize = 262_144;

/// The log of a process: lines that wait in memory until standard output or a file takes them. So a process doesn't block
/// when nobody reads its log. Contracts see it as a `Rattle.net.specs.Logs.Logged`.
///
/// [`note`](Log::note) queues a line, and [`flush`](Log::flush) writes what waits. At most [`MAX_LOG_WAITING`] bytes
/// wait. A line that doesn't fit, or for which no memory is left, is dropped. Before the next line that is kept, the log
/// says how many were dropped, and why.
///
/// ```text
/// let mut log = Log::open(&rt)?;
/// log.note(now, &"up");      // waits in memory
/// log.flush(&rt);            // 1700000000 up
/// ```
pub struct Log {
    alloc: Global,
    output: LogOutput,
    form: LogForm,
    // The bytes of the lines that wait.
    waiting: Vec<u8>,
    // How many lines were dropped since the last one that was kept.
    gap: Gap,
    // The last lines that were kept.
    tail: LogTail,
    ghost fits: { vec_len waiting ≤ MAX_LOG_WAITING },
}

// Where the lines of a log go.
pub(crate) enum LogOutput {
    Standard(StandardOutput),
    File(LogFile),
}

// By hand, so that this is proved once.
impl Drop for LogOutput {
    fn drop(self) {
        match self {
            LogOutput::Standard(_) | LogOutput::File(_) => {}
        }
    }
}

// By hand, so that this is proved once, and not in each crate in which a log ends.
impl Drop for Log {
    fn drop(self) {
        let Log {
            alloc: _,
            output: _,
            form: _,
            waiting: _,
            gap: _,
            tail: _,
        } = self;
    }
}

impl Model for Log {
    ghost use Rattle.net.specs.Logs.{Logged};

    ghost Value = { Logged };

    ghost view = { λ log. record { form = log.form; waiting = log.waiting.items; dropped = log.gap.dropped; unmade = log.gap.unmade; tail = log.tail } };
}

impl Log {
    ghost use Rattle.std.specs.Prelude.{◌≡◌, ◌≤◌, ◌==◌, ◌⊎◌, [], length, IfOk, OnErr, OnOk};
    ghost use Rattle.net.specs.Connections.{Grows};
    ghost use Rattle.net.specs.Logs.{EndsWith, Notes, SameCounts, nothing_yet, queued, without_memory};
    ghost use Rattle.net.specs.Tails.{empty_tail};
    ghost use Rattle.net.specs.declared.logging.TheConstants.{MAX_LOG_WAITING};

    /// Creates a log of no line yet, and has the system watch standard output. The system can't watch a regular file,
    /// `/dev/null` or a closed descriptor. None of them blocks, so the log writes to it at once.
    ///
    /// # Errors
    /// `OutOfMemory` if an allocation fails, and those of the system if it has no more files or watches.
    pub fn open(rt: &(impl Net + AllocGlobal)) -> io::Result<Log>
        ensures none { IfOk result (λ log. log.waiting ≡ []) }
        ensures whole { IfOk result (λ log. log.dropped ≡ 0) }
        ensures made { IfOk result (λ log. log.unmade ≡ 0) }
        ensures form { IfOk result (λ log. log.form ≡ LogForm.Text) }
    {
        let output = LogOutput::Standard(StandardOutput::watch(rt)?);
        Ok(Log::empty(rt.alloc(), output))
    }

    /// Creates a log of no line yet, whose lines are appended to the file at `path`. If there is no such file, it is
    /// created for its owner alone (mode 600).
    ///
    /// # Errors
    /// `OutOfMemory` if an allocation fails, and those of the system if it can't open the file.
    pub fn open_file<R: AllocGlobal + Files<File = File>>(rt: &R, path: &str) -> io::Result<Log>
        ensures none { IfOk result (λ log. log.waiting ≡ []) }
        ensures whole { IfOk result (λ log. log.dropped ≡ 0) }
        ensures made { IfOk result (λ log. log.unmade ≡ 0) }
        ensures form { IfOk result (λ log. log.form ≡ LogForm.Text) }
    {
        let output = LogOutput::File(LogFile::open(rt, rt.alloc(), path)?);
        Ok(Log::empty(rt.alloc(), output))
    }

    // A log of no line yet.
    fn empty(alloc: Global, output: LogOutput) -> Log
        ensures { result ≡ nothing_yet }
    {
        Log {
            alloc,
            output,
            form: LogForm::Text,
            waiting: Vec::new(alloc),
            gap: Gap {
                dropped: 0,
                unmade: 0,
            },
            tail: LogTail::none(alloc),
        }
    }

    /// Sets the form of the lines that are noted from now on. A new log has [`LogForm::Text`].
    pub fn set_form(&mut self, form: LogForm)
        ensures { self.new ≡ record self.old { form = form } }
    {
        self.form = form;
    }

    /// Queues a line for `entry`, what happened at second `now`, in the log's form ([`set_form`](Log::set_form)). If the
    /// entry has more than [`MAX_LOG_LINE`](crate::MAX_LOG_LINE) bytes, it is cut there, or before the character that is
    /// there.
    ///
    /// If lines were dropped before, lines of their own say how many, and why. If the lines don't fit into
    /// [`MAX_LOG_WAITING`] bytes with what waits, or an allocation fails, the line is dropped and counted.
    pub fn note<E: Display>(&mut self, now: u64, entry: &E)
        ensures noted { Notes now (E.output entry.now) self.old self.new }
        ensures kept { Grows self.old.waiting self.new.waiting }
        ensures bound { length self.new.waiting ≤ MAX_LOG_WAITING }
    {
        match lines_of(self.alloc, self.form, self.gap, now, entry) {
            Ok(lines) => self.queue(lines.as_slice()),
            Err(NoMemory) => self.count_unmade(),
        }
    }

    // Queues `lines` if they fit and memory is left for them; else counts a line that was dropped.
    fn queue(&mut self, lines: &[u8])
        ensures { (self.new ≡ queued lines.now self.old) ⊎ (self.new ≡ without_memory self.old) }
    {
        if lines.len() > MAX_LOG_WAITING - self.waiting.len() {
            self.gap.dropped = self.gap.dropped.saturating_add(1);
        } else if self.waiting.extend_from_slice(lines).is_ok() {
            self.tail.keep(lines);
            self.gap = Gap {
                dropped: 0,
                unmade: 0,
            };
        } else {
            self.count_unmade();
        }
    }

    // Counts a line for which no memory was left.
    fn count_unmade(&mut self)
        ensures { self.new ≡ without_memory self.old }
    {
        self.gap.unmade = self.gap.unmade.saturating_add(1);
    }

    /// Writes what waits, in pieces of whole lines and at most 4,096 bytes. Stops when standard output takes no more, or
    /// when a write fails, as on a full disk: the rest waits on, and the next call tries it again. So a log that can't be
    /// written does not stop the bot.
    ///
    /// A full pipe or socket doesn't block it, nor does a terminal that the user stopped. Two things still can: another
    /// process that fills the same pipe at that instant, and a terminal whose window no longer reads. A log in a file
    /// waits as long as the system takes for a write to it.
    pub fn flush<R: Print>(&mut self, rt: &R)
        ensures rest { EndsWith self.old.waiting self.new.waiting }
        ensures counts { SameCounts self.old self.new }
    {
        match &mut self.output {
            LogOutput::Standard(output) => write_out(&mut self.waiting, output, rt),
            LogOutput::File(log_file) => write_to_file(&mut self.waiting, &mut log_file.file),
        }
    }

    /// Opens the file of the log at its path again, so that a file that was renamed stops growing. What waits is written to
    /// the new file. A log of standard output stays as it is.
    ///
    /// # Errors
    /// Those of the system if it can't open the file. The log then goes on with the old one.
    pub fn reopen<R: Files<File = File>>(&mut self, rt: &R) -> io::Result<()>
        ensures kept { self.new ≡ self.old }
    {
        match &mut self.output {
            LogOutput::Standard(_) => Ok(()),
            LogOutput::File(log_file) => log_file.reopen(rt),
        }
    }

    /// From now on, keeps the last lines in memory too, for a reader of this process ([`latest_lines`](Log::latest_lines)).
    /// The lines that were kept before are forgotten.
    ///
    /// # Errors
    /// `NoMemory` if an allocation fails. The log is then as before.
    pub fn keep_tail(&mut self) -> Result<(), NoMemory>
        ensures kept { OnOk result (self.new ≡ record self.old { tail = empty_tail }) }
        ensures same { OnErr result (self.new ≡ self.old) }
    {
        self.tail = LogTail::empty(self.alloc)?;
        Ok(())
    }

    /// Returns the latest lines that were queued since [`keep_tail`](Log::keep_tail), each with its LF: at most
    /// [`MAX_LOG_TAIL`](crate::MAX_LOG_TAIL) bytes. [`earlier_lines`](Log::earlier_lines) are those before them.
    pub fn latest_lines(&self) -> &[u8]
        ensures lines { result.now ≡ self.now.tail.latest }
        ensures bound { length result.now ≤ self.now.tail.most }
    {
        self.tail.latest()
    }

    /// Returns the lines just before [`latest_lines`](Log::latest_lines): at most [`MAX_LOG_TAIL`](crate::MAX_LOG_TAIL)
    /// bytes. If there are none, fewer than `MAX_LOG_TAIL` bytes of lines were queued since
    /// [`keep_tail`](Log::keep_tail).
    pub fn earlier_lines(&self) -> &[u8]
        ensures lines { result.now ≡ self.now.tail.earlier }
        ensures bound { length result.now ≤ self.now.tail.most }
    {
        self.tail.earlier()
    }

    /// Returns how many bytes wait, at most [`MAX_LOG_WAITING`].
    pub fn len(&self) -> usize
        ensures count { result ≡ length self.now.waiting }
        ensures bound { result ≤ MAX_LOG_WAITING }
    {
        self.waiting.len()
    }

    /// Returns whether nothing waits.
    pub fn is_empty(&self) -> bool
        ensures { result ≡ (length self.now.waiting == 0) }
    {
        self.waiting.is_empty()
    }

    /// Returns how many lines were dropped because they did not fit, since the last line that was kept, at most
    /// 2 ^ 64 - 1.
    pub fn dropped(&self) -> u64
        ensures { result ≡ self.now.dropped }
    {
        self.gap.dropped
    }
}
