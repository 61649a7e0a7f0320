// Who is ignored.
ghost use Rattle.std.specs.Prelude.{◌≡◌, ◌<◌, ◌≤◌, [], length, IfOk};
ghost use Rattle.std.specs.Vec.{vec_capacity};
ghost use Rattle.floods.specs.Watching.{is_ignored, is_in_force, in_force, with_ignore, without};
ghost use Rattle.floods.specs.Windows.{roomy};

use crate::key::FloodKey;
use crate::kind::FloodKind;
use crate::limits::Limit;
use crate::place::FloodPlace;
use bytetext::NoMemory;
use std::alloc::Global;
use std::marker::Model;

/// The most persons who are ignored at once. If there are more, the ignore that began first ends.
pub(crate) const MAX_IGNORES: usize = 100;

/// A person who is ignored.
#[derive(Drop)]
pub struct Ignore {
    /// Who is ignored.
    pub key: FloodKey,
    /// The second at which the ignore ends.
    pub until: u64,
    /// The limit that the person passed.
    pub limit: Limit,
    /// What the lines were of which there were too many.
    pub kind: FloodKind,
    /// The channel of the line that passed the limit. Empty for a NICK, and for a line to the bot itself.
    pub place: FloodPlace,
}

impl Ignore {
    /// Returns whether the ignore has not ended at `now`.
    pub fn is_in_force(&self, now: u64) -> bool
        ensures { result ≡ is_in_force now self.now }
    {
        now < self.until
    }
}

// At most 100 ignores, with room for as many.
#[derive(Drop)]
pub(crate) struct Ignores {
    ignores: Vec<Ignore>,
}

impl Model for Ignores {
    ghost use Rattle.std.specs.Prelude.{List, length, ◌≤◌};
    ghost use Rattle.std.specs.Vec.{vec_capacity};
    ghost use Rattle.floods.specs.declared.ignores.Ignore.{Ignore};
    ghost use Rattle.floods.specs.declared.ignores.TheConstants.{MAX_IGNORES};

    ghost Value = { List Ignore };

    ghost view = { λ i. i.ignores.items };

    ghost invariant = { λ i. (length i.ignores.items ≤ MAX_IGNORES) × (MAX_IGNORES ≤ vec_capacity i.ignores) };
}

impl Ignores {
    // Ignores nobody yet.
    pub(crate) fn new(alloc: Global) -> Result<Ignores, NoMemory>
        ensures { IfOk result (λ ignores. ignores ≡ []) }
    {
        Ok(Ignores {
            ignores: Vec::with_capacity(alloc, MAX_IGNORES)?,
        })
    }

    // The ignores, the oldest first. Some may be over.
    pub(crate) fn as_slice(&self) -> &[Ignore]
        ensures { result.now ≡ self.now }
    {
        self.ignores.as_slice()
    }

    // Whether `key` is ignored at `now`.
    pub(crate) fn is_ignored(&self, now: u64, key: &[u8]) -> bool
        ensures { result ≡ is_ignored now key.now self.now }
    {
        is_ignored(self.ignores.as_slice(), now, key)
    }

    // One more ignore. Those that are over are forgotten. Does not allocate.
    pub(crate) fn push(&mut self, now: u64, ignore: Ignore)
        ensures { self.new ≡ with_ignore now ignore self.old }
    {
        keep_in_force(&mut self.ignores, now);
        make_room(&mut self.ignores);
        self.ignores.push_reserved(ignore);
    }

    // Ends the ignores of `key`.
    pub(crate) fn remove(&mut self, key: &[u8])
        ensures { self.new ≡ without key.now self.old }
    {
        keep_other_keys(&mut self.ignores, key);
    }
}

fn is_ignored(ignores: &[Ignore], now: u64, key: &[u8]) -> bool
    ensures { result ≡ is_ignored now key.now ignores.now }
{
    ignores.iter().any(|ignore| ignore.key.as_bytes() == key && ignore.is_in_force(now))
}

// Removes the ignores that are over.
fn keep_in_force(ignores: &mut Vec<Ignore>, now: u64)
    ensures items { ignores.new.items ≡ in_force now ignores.old.items }
    ensures bound { length ignores.new.items ≤ length ignores.old.items }
    ensures capacity { vec_capacity ignores.new ≡ vec_capacity ignores.old }
{
    ignores.retain(|ignore| ignore.is_in_force(now));
}

// Removes the ignores of `key`.
fn keep_other_keys(ignores: &mut Vec<Ignore>, key: &[u8])
    ensures items { ignores.new.items ≡ without key.now ignores.old.items }
    ensures bound { length ignores.new.items ≤ length ignores.old.items }
    ensures capacity { vec_capacity ignores.new ≡ vec_capacity ignores.old }
{
    ignores.retain(|ignore| ignore.key.as_bytes() != key);
}

// Removes the oldest ignore if there are 100.
fn make_room(ignores: &mut Vec<Ignore>)
    requires few { length ignores.old.items ≤ MAX_IGNORES }
    ensures items { ignores.new.items ≡ roomy MAX_IGNORES ignores.old.items }
    ensures bound { length ignores.new.items < MAX_IGNORES }
    ensures capacity { vec_capacity ignores.new ≡ vec_capacity ignores.old }
{
    if ignores.len() >= MAX_IGNORES {
        let _oldest = ignores.remove(0);
    }
}
