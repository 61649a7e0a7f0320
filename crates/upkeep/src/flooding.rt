// Who floods the bot or a channel, what the bot hears of it, what the log says, and what an admin can do about it.
ghost use Rattle.std.specs.Prelude.{◌≡◌, ◌++◌, ◌<◌, [], IfOk, OnErr, OnOk};
ghost use Rattle.bytetext.specs.declared.moment.TheConstants.{MOMENTS_END};
ghost use Rattle.floods.specs.Sifting.{after_bytes};
ghost use Rattle.upkeep.specs.Flooding.{begun_with, flood_line, flood_lines, forgiven, heard_lines, kind_words, place_word};

use bytetext::{NoMemory, Text};
use floods::{FloodKind, FloodPlace, Ignore, Limits, Sieve, Sifted, Trusts};
use itoa::Buffer;
use net::Log;
use recordjson::JsonLine;
use serverlink::{Shown, put};
use std::alloc::Global;
use std::fmt;
use std::fmt::Display;
use std::marker::Model;

// How often the log says how many lines were dropped, in seconds.
const TOLD_EACH: u64 = 60;

/// The sieve between the server and the bot. Contracts see a `Rattle.floods.specs.Sifting.Sieving`.
#[derive(Drop)]
pub struct FloodWatch {
    sieve: Sieve,
    // How many lines were dropped since the log said so last.
    dropped: usize,
    // The second at which it said so.
    told: u64,
}

impl Model for FloodWatch {
    ghost use Rattle.floods.specs.Sifting.{Sieving};

    ghost Value = { Sieving };

    ghost view = { λ f. f.sieve };
}

impl FloodWatch {
    /// Watches nobody yet.
    ///
    /// # Errors
    /// `NoMemory` if the sieve cannot be allocated.
    pub fn new(alloc: Global, limits: Limits) -> Result<FloodWatch, NoMemory>
        ensures { IfOk result (λ floods. floods ≡ record { watch = record { limits = limits; counts = []; ignores = [] }; line = [] }) }
    {
        Ok(FloodWatch {
            sieve: Sieve::new(alloc, limits)?,
            dropped: 0,
            told: 0,
        })
    }

    /// Takes `bytes` that the server sent, under these `limits`, and returns the lines that pass ([`Sieve::sift`]). A
    /// connection begins with them if it is `connected`. After them stands a line `FLOOD USER@HOST PLACE :KIND` for each
    /// ignore that began, in their order; of more than 100 for the last 100. PLACE is the channel of the line that passed
    /// the limit, or `*`. KIND is `messages`, `CTCPs`, `lines`, `joins`, `nick changes`, `kicks` or `deops`.
    ///
    /// Logs whom it ignores from now on, and once a minute how many lines it dropped.
    ///
    /// # Errors
    /// `NoMemory` if the lines cannot be allocated. They may then be lost, though what they did is counted.
    pub fn hear<T: Trusts>(
        &mut self,
        alloc: Global,
        log: &mut Log,
        limits: Limits,
        connected: bool,
        bytes: &[u8],
        now: u64,
        trusts: &T,
    ) -> Result<Vec<u8>, NoMemory>
        requires moment { now < MOMENTS_END }
        ensures heard { IfOk result (λ heard. heard.items ≡
            heard_lines (T.trusted trusts.now) now (begun_with limits connected self.old) bytes.now) }
        ensures after { OnOk result (self.new ≡
            after_bytes (T.trusted trusts.now) now (begun_with limits connected self.old) bytes.now) }
    {
        self.begin(limits, connected);
        let sifted = self.sieve.sift(alloc, bytes, now, trusts)?;
        let Sifted {
            bytes: mut lines,
            dropped,
            begun,
        } = sifted;
        self.tell(log, dropped, begun, now);
        put_floods(&mut lines, self.sieve.last_ignores(begun))?;
        Ok(lines)
    }

    // Takes these limits, and forgets the line that has begun if a connection begins.
    fn begin(&mut self, limits: Limits, connected: bool)
        ensures { self.new ≡ begun_with limits connected self.old }
    {
        self.sieve.set_limits(limits);
        if connected {
            self.sieve.restart();
        }
    }

    // Logs the last `begun` ignores, and what is due of the lines that were dropped, of which these are new.
    fn tell(&mut self, log: &mut Log, dropped: usize, begun: usize, now: u64)
        ensures { self.new ≡ self.old }
    {
        if begun > 0 {
            tell_ignores(log, self.sieve.last_ignores(begun), now);
        }
        self.dropped = self.dropped.saturating_add(dropped);
        if self.dropped > 0 && now.saturating_sub(self.told) >= TOLD_EACH {
            log.note(now, &FloodEntry::Dropped(self.dropped));
            self.dropped = 0;
            self.told = now;
        }
    }

    /// Ends the ignore of `key`, as an admin asks, and returns the answer.
    ///
    /// # Errors
    /// `NoMemory` if the answer cannot be allocated: the ignore then goes on.
    pub fn forgive(&mut self, alloc: Global, key: &Text, now: u64) -> Result<Vec<u8>, NoMemory>
        ensures forgiven { OnOk result (self.new ≡ forgiven now key.now self.old) }
        ensures err { OnErr result (self.new ≡ self.old) }
    {
        if !self.sieve.is_ignored(now, key.as_bytes()) {
            return Ok(Vec::from_slice(
                alloc,
                b"refused nobody of this name is ignored: status shows who is\n",
            )?);
        }
        let answer = Vec::from_slice(alloc, b"no longer ignored\n")?;
        self.sieve.forgive(key.as_bytes());
        Ok(answer)
    }

    /// Appends a line for each person who is ignored at `now`: `ignored KEY for N`, in seconds.
    ///
    /// # Errors
    /// `NoMemory` if the lines cannot be allocated.
    pub fn put_status(&self, text: &mut Vec<u8>, now: u64) -> Result<(), NoMemory> {
        for ignore in self.sieve.ignores() {
            if ignore.is_in_force(now) {
                put_ignore(text, ignore, now)?;
            }
        }
        Ok(())
    }
}

// Appends a line for each of these ignores.
fn put_floods(lines: &mut Vec<u8>, ignores: &[Ignore]) -> Result<(), NoMemory>
    ensures { OnOk result (lines.new.items ≡ lines.old.items ++ flood_lines ignores.now) }
{
    for ignore in ignores {
        put_flood(lines, ignore)?;
    }
    Ok(())
}

// Appends `FLOOD USER@HOST PLACE :KIND`.
fn put_flood(lines: &mut Vec<u8>, ignore: &Ignore) -> Result<(), NoMemory>
    ensures { OnOk result (lines.new.items ≡ lines.old.items ++ flood_line ignore.now) }
{
    lines.extend_from_slice(b"FLOOD ")?;
    lines.extend_from_slice(ignore.key.as_bytes())?;
    lines.extend_from_slice(b" ")?;
    lines.extend_from_slice(place_word(&ignore.place))?;
    lines.extend_from_slice(b" :")?;
    lines.extend_from_slice(kind_words(ignore.kind).as_bytes())?;
    lines.extend_from_slice(b"\r\n")?;
    Ok(())
}

// The channel, or a star for none.
fn place_word(place: &FloodPlace) -> &[u8]
    ensures { result.now ≡ place_word place.now }
{
    let channel = place.as_bytes();
    if channel.is_empty() {
        return b"*";
    }
    channel
}

// What the lines are of which there were too many.
fn kind_words(kind: FloodKind) -> &'static str
    ensures { result.now ≡ kind_words kind }
{
    match kind {
        FloodKind::Message => "messages",
        FloodKind::Ctcp => "CTCPs",
        FloodKind::Channel => "lines",
        FloodKind::Join => "joins",
        FloodKind::Nick => "nick changes",
        FloodKind::Kick => "kicks",
        FloodKind::Deop => "deops",
    }
}

// Logs these ignores.
fn tell_ignores(log: &mut Log, ignores: &[Ignore], now: u64) {
    for ignore in ignores {
        log.note(
            now,
            &FloodEntry::Ignores(ignore, ignore.until.saturating_sub(now)),
        );
    }
}

fn put_ignore(text: &mut Vec<u8>, ignore: &Ignore, now: u64) -> Result<(), NoMemory> {
    let mut buffer = Buffer::new();
    text.extend_from_slice(b"ignored ")?;
    text.extend_from_slice(ignore.key.as_bytes())?;
    text.extend_from_slice(b" for ")?;
    text.extend_from_slice(buffer.format(ignore.until.saturating_sub(now)).as_bytes())?;
    text.extend_from_slice(b"\n")?;
    Ok(())
}

/// Puts who is ignored at `now` into the state of a bot as JSON: a list under the name `ignored`.
///
/// # Errors
/// `NoMemory` if the line cannot be allocated.
pub fn put_ignores(line: &mut JsonLine, floods: &FloodWatch, now: u64) -> Result<(), NoMemory> {
    line.put_next(b"ignored")?;
    line.put_words(b"[")?;
    let mut place = 0;
    for ignore in floods.sieve.ignores() {
        if ignore.is_in_force(now) {
            line.put_comma(place)?;
            put_ignore_json(line, ignore, now)?;
            // A comma stands before each but the first.
            place = 1;
        }
    }
    line.put_words(b"]")
}

fn put_ignore_json(line: &mut JsonLine, ignore: &Ignore, now: u64) -> Result<(), NoMemory> {
    line.put_first(b"key")?;
    line.put_text(ignore.key.as_bytes())?;
    line.put_next(b"seconds")?;
    line.put_number(ignore.until.saturating_sub(now))?;
    line.put_words(b"}")
}

// What the log says of who floods the bot.
#[derive(Drop)]
enum FloodEntry<'a> {
    // This person is ignored for so many seconds.
    Ignores(&'a Ignore, u64),
    // So many lines were dropped since the log said so last.
    Dropped(usize),
}

impl Display for FloodEntry<'_> {
    fn fmt<W: fmt::Write>(&self, f: &mut fmt::Formatter<W>) -> fmt::Result {
        match *self {
            FloodEntry::Ignores(ignore, seconds) => {
                put(f, "ignores ", &Shown(ignore.key.as_bytes()))?;
                put(f, " for ", &seconds)?;
                put(f, " s: more than ", &ignore.limit.lines)?;
                put(f, " ", &kind_words(ignore.kind))?;
                put(f, " in ", &ignore.limit.seconds)?;
                f.write_str(" s")
            }
            FloodEntry::Dropped(count) => {
                put(f, "dropped ", &count)?;
                f.write_str(" lines of ignored persons")
            }
        }
    }
}
