// What is to be done with the members of a channel, prepared before anything changes.
ghost use Rattle.std.specs.Prelude.{◌≡◌, IfOk, length};
ghost use Rattle.chanstate.specs.Tasks.{done_by, IsKeyed, places_for};
ghost use Rattle.chanstate.specs.Members.{arrived, unmarked, renamed};

use crate::member::Member;
use bytetext::{NoMemory, Text};
use ircline::Person;
use rfccase::{Casemapping, fold_text_by};
use std::alloc::Global;

/// What is to be done with the members of a channel.
#[derive(Drop)]
pub enum Task {
    // Someone joins.
    Arrive { key: Vec<u8>, one: Member },
    // The member called `old`, if there is one, changes nick.
    Rename { old: Text, key: Vec<u8>, nick: Text },
    // Several are listed, in their order.
    List(Vec<(Vec<u8>, Member)>),
}

impl Task {
    // Prepares the join of `person`.
    pub(crate) fn arrive(
        alloc: Global,
        mapping: Casemapping,
        person: Person<'_>,
    ) -> Result<Task, NoMemory>
        ensures keyed { IfOk result (λ task. IsKeyed mapping task) }
        ensures done { IfOk result (λ task. done_by mapping task
            ≡ arrived mapping (unmarked person.entry.nick.now person.entry.user.now person.entry.host.now)) }
    {
        let key = fold_text_by(alloc, mapping, person.nick)?;
        let one = Member::new(alloc, person.nick, person.user, person.host)?;
        Ok(Task::Arrive { key, one })
    }

    // Prepares the change of nick from `old` to `new`.
    pub(crate) fn rename(
        alloc: Global,
        mapping: Casemapping,
        old: &[u8],
        new: &[u8],
    ) -> Result<Task, NoMemory>
        ensures keyed { IfOk result (λ task. IsKeyed mapping task) }
        ensures done { IfOk result (λ task. done_by mapping task ≡ renamed mapping old.now new.now) }
    {
        let key = fold_text_by(alloc, mapping, new)?;
        Ok(Task::Rename {
            old: Text::from_slice(alloc, old)?,
            key,
            nick: Text::from_slice(alloc, new)?,
        })
    }

    // Returns how many places it may fill.
    pub(crate) fn places(&self) -> usize
        ensures { result ≡ places_for self.now }
    {
        match self {
            Task::Arrive { .. } | Task::Rename { .. } => 1,
            Task::List(ones) => ones.len(),
        }
    }
}
