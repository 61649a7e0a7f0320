// What is done with the members of a channel, by calls that allocate nothing.
ghost use Rattle.std.specs.Prelude.{true, ◌≡◌, ◌+◌, ◌<◌, ◌≤◌};
ghost use Rattle.std.specs.Vec.{vec_len, vec_capacity};
ghost use Rattle.indexmap.specs.IndexMap.{spare};
ghost use Rattle.chanstate.specs.Members.{arrived};
ghost use Rattle.chanstate.specs.Seats.{AreSeated, IsUnder, seated};
ghost use Rattle.chanstate.specs.Takes.{pick};
ghost use Rattle.chanstate.specs.Tasks.{done_by, IsKeyed, places_for};

use crate::member::Member;
use crate::member_edit::MemberEdit;
use crate::newcomers::list_each;
use crate::roster::Roster;
use crate::seats::{Seats, edit_at, place_of, rename_in, seat_last};
use crate::task::Task;
use std::marker::Model;

/// The members of a channel, taken out of it with room for what is to be done with them. Contracts see the members as
/// they are, and as they will be.
#[derive(Drop)]
pub struct Seating {
    pub(crate) seats: Seats,
    pub(crate) task: Task,
}

impl Model for Seating {
    ghost use Rattle.std.specs.Prelude.{true, ◌≡◌, ◌+◌, ◌≤◌, List};
    ghost use Rattle.std.specs.Vec.{vec_len, vec_capacity};
    ghost use Rattle.indexmap.specs.IndexMap.{spare};
    ghost use Rattle.chanstate.specs.declared.member.Member.{Member};
    ghost use Rattle.chanstate.specs.Seats.{AreSeated, seated};
    ghost use Rattle.chanstate.specs.Tasks.{done_by, IsKeyed, places_for};

    ghost Value = { List Member × List Member };

    ghost view = { λ s. (seated s.seats.places.items, done_by s.seats.mapping s.task (seated s.seats.places.items)) };

    ghost invariant = { λ s. AreSeated s.seats × IsKeyed s.seats.mapping s.task
        × (vec_len s.seats.places + places_for s.task ≤ vec_capacity s.seats.places) × (s.seats.indexed ≡ true → places_for s.task ≤ spare s.seats.index) };
}

impl Seating {
    // Returns the members as they will be if `done`, else as they are.
    pub(crate) fn into_roster(self, done: bool) -> Roster
        ensures { result ≡ pick done self }
    {
        let Seating { mut seats, task } = self;
        if done {
            carry_out(&mut seats, task);
        }
        Roster { seats }
    }
}

// Carries out `task`. There must be room for it.
fn carry_out(seats: &mut Seats, task: Task)
    requires indexed { AreSeated seats.old }
    requires keyed { IsKeyed seats.old.mapping task }
    requires places { vec_len seats.old.places + places_for task ≤ vec_capacity seats.old.places }
    requires entries { seats.old.indexed ≡ true → places_for task ≤ spare seats.old.index }
    ensures indexed { AreSeated seats.new }
    ensures done { seated seats.new.places.items ≡ done_by seats.old.mapping task (seated seats.old.places.items) }
{
    match task {
        Task::Arrive { key, one } => arrive(seats, key, one),
        Task::Rename { old, key, nick } => rename_in(seats, old.as_bytes(), key, nick),
        Task::List(ones) => list_each(seats, ones),
    }
}

// Takes in someone who joins; someone who is a member already gets the new address. There must be room for one more.
fn arrive(seats: &mut Seats, key: Vec<u8>, one: Member)
    requires indexed { AreSeated seats.old }
    requires key { IsUnder seats.old.mapping key one }
    requires place { vec_len seats.old.places < vec_capacity seats.old.places }
    requires entry { seats.old.indexed ≡ true → 0 < spare seats.old.index }
    ensures indexed { AreSeated seats.new }
    ensures arrived { seated seats.new.places.items ≡ arrived seats.old.mapping one (seated seats.old.places.items) }
{
    match place_of(seats, one.nick.as_bytes()) {
        Some(at) => {
            let Member { user, host, .. } = one;
            edit_at(seats, at, MemberEdit::Addressed(user, host));
        }
        None => seat_last(seats, key, one),
    }
}
