// How many lines each person has sent in a window.
ghost use Rattle.std.specs.Prelude.{◌≡◌, ◌<◌, ◌≤◌, [], length, map, IfOk};
ghost use Rattle.std.specs.Vec.{vec_capacity};
ghost use Rattle.rfccase.specs.Casemapping.{is_same_by};
ghost use Rattle.rfccase.specs.declared.casemappings.Casemapping.TheVariants.{Rfc1459};
ghost use Rattle.floods.specs.Windows.{counted, is_at, is_counted, is_of, others, renewed, roomy, window_at, window_in, with_window};

use crate::act::Act;
use crate::key::FloodKey;
use crate::kind::FloodKind;
use crate::limits::Limit;
use crate::place::FloodPlace;
use bytetext::NoMemory;
use rfccase::{Casemapping, same_by};
use std::alloc::Global;
use std::marker::Model;

/// The most persons, kinds and channels that are counted at once. If there are more, what was counted first is
/// forgotten.
pub(crate) const MAX_COUNTS: usize = 256;

// A window of time, and the lines in it.
#[derive(Clone, Copy, Debug, PartialEq, Eq)]
pub(crate) struct Window {
    pub(crate) since: u64,
    pub(crate) lines: u16,
}

// The lines of one kind that one person sent in a window, on one channel if the kind is counted so.
#[derive(Drop)]
pub(crate) struct Count {
    pub(crate) key: FloodKey,
    pub(crate) kind: FloodKind,
    pub(crate) place: FloodPlace,
    pub(crate) window: Window,
}

impl Count {
    // Whether it counts such lines as `act`.
    fn is_of(&self, act: &Act) -> bool
        ensures { result ≡ is_of act.now self.now }
    {
        self.kind.number() == act.kind.number()
            && self.key.as_bytes() == act.key.as_bytes()
            && is_at(act.kind, self.place.as_bytes(), act.place.as_bytes())
    }

    // Takes this window if it counts such lines as `act`.
    fn set_window(&mut self, act: &Act, window: Window)
        ensures { self.new ≡ with_window act.now window self.old }
    {
        if self.is_of(act) {
            self.window = window;
        }
    }
}

// Whether two lines of a kind are counted together: on one channel, if the kind is counted so.
fn is_at(kind: FloodKind, one: &[u8], other: &[u8]) -> bool
    ensures { result ≡ is_at kind one.now other.now }
{
    !kind.is_by_channel() || is_same(one, other)
}

// Whether two names of channels are the same.
fn is_same(one: &[u8], other: &[u8]) -> bool
    ensures { result ≡ is_same_by Rfc1459 one.now other.now }
{
    same_by(Casemapping::Rfc1459, one, other)
}

// At most 256 counts, with room for as many.
#[derive(Drop)]
pub(crate) struct Counts {
    counts: Vec<Count>,
}

impl Model for Counts {
    ghost use Rattle.std.specs.Prelude.{List, length, ◌≤◌};
    ghost use Rattle.std.specs.Vec.{vec_capacity};
    ghost use Rattle.floods.specs.declared.counts.Count.{Count};
    ghost use Rattle.floods.specs.declared.counts.TheConstants.{MAX_COUNTS};

    ghost Value = { List Count };

    ghost view = { λ c. c.counts.items };

    ghost invariant = { λ c. (length c.counts.items ≤ MAX_COUNTS) × (MAX_COUNTS ≤ vec_capacity c.counts) };
}

impl Counts {
    // Counts nothing yet.
    pub(crate) fn new(alloc: Global) -> Result<Counts, NoMemory>
        ensures { IfOk result (λ counts. counts ≡ []) }
    {
        Ok(Counts {
            counts: Vec::with_capacity(alloc, MAX_COUNTS)?,
        })
    }

    // The window in which `act` counts now.
    pub(crate) fn window_at(&self, limit: Limit, now: u64, act: &Act) -> Window
        ensures { result ≡ window_at limit now self.now act.now }
    {
        renewed(limit, now, window_in(self.counts.as_slice(), act, now))
    }

    // Counts `act` in this window. Does not allocate.
    pub(crate) fn count(&mut self, act: Act, window: Window)
        ensures { self.new ≡ counted act window self.old }
    {
        if is_counted(self.counts.as_slice(), &act) {
            set_window(&mut self.counts, &act, window);
            return;
        }
        make_room(&mut self.counts);
        self.counts.push_reserved(Count {
            key: act.key,
            kind: act.kind,
            place: act.place,
            window,
        });
    }

    // Forgets what is counted of such lines as `act`.
    pub(crate) fn forget(&mut self, act: &Act)
        ensures { self.new ≡ others act.now self.old }
    {
        keep_others(&mut self.counts, act);
    }
}

// The window of such lines as `act`, or a new one.
fn window_in(counts: &[Count], act: &Act, now: u64) -> Window
    ensures { result ≡ window_in counts.now act.now now }
{
    for count in counts {
        if count.is_of(act) {
            return count.window;
        }
    }
    Window {
        since: now,
        lines: 0,
    }
}

// Whether such lines as `act` are counted.
fn is_counted(counts: &[Count], act: &Act) -> bool
    ensures { result ≡ is_counted act.now counts.now }
{
    counts.iter().any(|count| count.is_of(act))
}

// Gives the count of such lines as `act` this window.
fn set_window(counts: &mut [Count], act: &Act, window: Window)
    ensures { counts.new ≡ map (λ count. with_window act.now window count) counts.old }
{
    for count in counts.iter_mut() {
        count.set_window(act, window);
    }
}

// A window that is over is begun anew.
fn renewed(limit: Limit, now: u64, window: Window) -> Window
    ensures { result ≡ renewed limit now window }
{
    if now.saturating_sub(window.since) < u64::from(limit.seconds) {
        return window;
    }
    Window {
        since: now,
        lines: 0,
    }
}

// Removes the count of such lines as `act`.
fn keep_others(counts: &mut Vec<Count>, act: &Act)
    ensures items { counts.new.items ≡ others act.now counts.old.items }
    ensures bound { length counts.new.items ≤ length counts.old.items }
    ensures capacity { vec_capacity counts.new ≡ vec_capacity counts.old }
{
    counts.retain(|count| !count.is_of(act));
}

// Removes the oldest count if there are 256.
fn make_room(counts: &mut Vec<Count>)
    requires few { length counts.old.items ≤ MAX_COUNTS }
    ensures items { counts.new.items ≡ roomy MAX_COUNTS counts.old.items }
    ensures bound { length counts.new.items < MAX_COUNTS }
    ensures capacity { vec_capacity counts.new ≡ vec_capacity counts.old }
{
    if counts.len() >= MAX_COUNTS {
        let _oldest = counts.remove(0);
    }
}
