// The members of one channel, as the bot keeps them: found by their nicks, in the order in which they came.
ghost use Rattle.std.specs.Prelude.{◌≡◌, ◌<◌, [], ◌∷◌, not, length, IfOk, IfErr, OnErr, find};
ghost use Rattle.std.specs.List.{list_any};
ghost use Rattle.std.specs.Option.{option_copied, option_to_list};
ghost use Rattle.chanstate.specs.Views.{is_op};
ghost use Rattle.chanstate.specs.Members.{is_called, has_member, with_mark, with_address, with_detail, edited, shown_each};
ghost use Rattle.chanstate.specs.Memory.{respells};
ghost use Rattle.chanstate.specs.Items.{named, names_in};
ghost use Rattle.chanstate.specs.Firsts.{first_removed, first_changed};
ghost use Rattle.chanstate.specs.Tasks.{IsKeyed, done_by};

use crate::copies::{copies_of, seats_of};
use crate::detail::Detail;
use crate::member::{Mark, Member};
use crate::member_edit::MemberEdit;
use crate::room::{index_of_copy, make_room};
use crate::seating::Seating;
use crate::seats::{Seats, add, compare_by, edit_called, is_one, member_of, vacate, walk_for};
use crate::support::Support;
use crate::task::Task;
use crate::words::{marks_of, split_entry, split_signs};
use bytetext::{NoMemory, Text, TryCopy};
use rfccase::Casemapping;
use std::alloc::Global;
use std::marker::Model;
use std::mem;

/// The members, on their seats. Contracts see the list of them. Each call that looks for a nick takes the casemapping by
/// which nicks compare. A roster of many members keeps an index for one casemapping. A call with another casemapping finds
/// nicks by a walk over the seats, as does each call on a roster of few members, which has no index.
#[derive(Debug, Drop)]
pub struct Roster {
    pub(crate) seats: Seats,
}

impl Model for Roster {
    ghost use Rattle.std.specs.Prelude.{List};
    ghost use Rattle.chanstate.specs.declared.member.Member.{Member};
    ghost use Rattle.chanstate.specs.Seats.{AreSeated, seated};

    ghost Value = { List Member };

    ghost view = { λ r. seated r.seats.places.items };

    ghost invariant = { λ r. AreSeated r.seats };
}

impl Roster {
    // Creates a roster of one member, whose nicks compare by `mapping`.
    pub(crate) fn one(
        alloc: Global,
        mapping: Casemapping,
        member: Member,
    ) -> Result<Roster, NoMemory>
        ensures { IfOk result (λ r. r ≡ member ∷ []) }
    {
        let mut seats = Seats::new(alloc, mapping);
        add(&mut seats, alloc, member)?;
        Ok(Roster { seats })
    }

    // Copies the members, in order.
    pub(crate) fn copies(&self, alloc: Global) -> Result<Vec<Member>, NoMemory>
        ensures copies { IfOk result (λ copies. copies.items ≡ self.now) }
        ensures memory { IfErr result (λ _. 0 < length self.now) }
    {
        copies_of(alloc, self.seats.places.as_slice())
    }

    // Returns the member called `nick`.
    pub(crate) fn find(&self, mapping: Casemapping, nick: &[u8]) -> Option<&Member>
        ensures { option_copied result ≡ find (is_called mapping nick.now) self.now }
    {
        if is_one(self.seats.mapping, mapping) {
            member_of(&self.seats, nick)
        } else {
            walk_for(mapping, self.seats.places.as_slice(), nick)
        }
    }

    // Returns whether a member is called `nick`.
    pub(crate) fn holds(&self, mapping: Casemapping, nick: &[u8]) -> bool
        ensures { result ≡ has_member mapping nick.now self.now }
    {
        self.find(mapping, nick).is_some()
    }

    // Returns whether a member is called `old`, and its nick is not spelled as `new`.
    pub(crate) fn respells(&self, mapping: Casemapping, old: &[u8], new: &[u8]) -> bool
        ensures { result ≡ respells new.now (find (is_called mapping old.now) self.now) }
    {
        match self.find(mapping, old) {
            Some(member) => member.nick.as_bytes() != new,
            None => false,
        }
    }

    // Returns whether the member called `nick` is a channel operator.
    pub(crate) fn is_op(&self, mapping: Casemapping, nick: &[u8]) -> bool
        ensures { result ≡ is_op (find (is_called mapping nick.now) self.now) }
    {
        match self.find(mapping, nick) {
            Some(member) => member.op,
            None => false,
        }
    }

    // Removes the member called `nick`.
    pub(crate) fn remove(&mut self, mapping: Casemapping, nick: &[u8])
        ensures { self.new ≡ first_removed (is_called mapping nick.now) self.old }
    {
        compare_by(&mut self.seats, mapping);
        vacate(&mut self.seats, nick);
    }

    // Changes what is known of the member called `nick`.
    fn edit(&mut self, mapping: Casemapping, nick: &[u8], edit: MemberEdit)
        ensures { self.new ≡ first_changed (is_called mapping nick.now) (edited edit) self.old }
    {
        compare_by(&mut self.seats, mapping);
        edit_called(&mut self.seats, nick, edit);
    }

    // Sets or clears a mark.
    pub(crate) fn mark(&mut self, mapping: Casemapping, nick: &[u8], mark: Mark, on: bool)
        ensures { self.new ≡ first_changed (is_called mapping nick.now) (with_mark mark on) self.old }
    {
        self.edit(mapping, nick, MemberEdit::Marked(mark, on));
    }

    // Sets the user and host of the member called `nick`.
    pub(crate) fn place_at(&mut self, mapping: Casemapping, nick: &[u8], user: Text, host: Text)
        ensures { self.new ≡ first_changed (is_called mapping nick.now) (with_address user host) self.old }
    {
        self.edit(mapping, nick, MemberEdit::Addressed(user, host));
    }

    // Takes in what the server tells of the member called `nick`.
    pub(crate) fn tell(&mut self, mapping: Casemapping, nick: &[u8], detail: Detail)
        ensures { self.new ≡ first_changed (is_called mapping nick.now) (with_detail detail) self.old }
    {
        self.edit(mapping, nick, MemberEdit::Told(detail));
    }

    // Returns whether `word` of a list of names names someone who is not a member.
    fn lacks(&self, mapping: Casemapping, support: &Support, word: &[u8]) -> bool
        ensures { result ≡ list_any (λ one. not (has_member mapping one.nick self.now)) (option_to_list (named support.now word.now)) }
    {
        let (_, text) = split_signs(support, word);
        let entry = split_entry(text);
        !entry.nick.is_empty() && !self.holds(mapping, entry.nick)
    }

    // Returns whether the list of names `names` names someone who is not a member.
    pub(crate) fn lacks_any(&self, mapping: Casemapping, support: &Support, names: &[u8]) -> bool
        ensures { result ≡ list_any (λ one. not (has_member mapping one.nick self.now)) (names_in support.now names.now) }
    {
        for word in names.split(|byte| *byte == b' ') {
            if self.lacks(mapping, support, word) {
                return true;
            }
        }
        false
    }

    // Gives the member that `word` names, if there is one, the marks whose signs stand before the nick.
    fn show(&mut self, alloc: Global, mapping: Casemapping, support: &Support, word: &[u8])
        ensures { self.new ≡ shown_each mapping (option_to_list (named support.now word.now)) self.old }
    {
        let (signs, text) = split_signs(support, word);
        let entry = split_entry(text);
        if !entry.nick.is_empty() {
            self.edit(
                mapping,
                entry.nick,
                MemberEdit::Listed(marks_of(alloc, signs)),
            );
        }
    }

    // Does the same for each word of the list of names `names`, in order.
    pub(crate) fn show_all(
        &mut self,
        alloc: Global,
        mapping: Casemapping,
        support: &Support,
        names: &[u8],
    )
        ensures { self.new ≡ shown_each mapping (names_in support.now names.now) self.old }
    {
        for word in names.split(|byte| *byte == b' ') {
            self.show(alloc, mapping, support, word);
        }
    }

    // Takes the members out, with room for `task`. The roster is then empty.
    pub(crate) fn take(
        &mut self,
        alloc: Global,
        mapping: Casemapping,
        task: Task,
    ) -> Result<Seating, NoMemory>
        requires { IsKeyed mapping task }
        ensures ok { IfOk result (λ seating. seating ≡ (self.old, done_by mapping task self.old)) }
        ensures err { OnErr result (self.new ≡ self.old) }
    {
        compare_by(&mut self.seats, mapping);
        make_room(&mut self.seats, alloc, task.places())?;
        let seats = mem::replace(&mut self.seats, Seats::new(alloc, mapping));
        Ok(Seating { seats, task })
    }
}

impl TryCopy for Roster {
    fn copy(&self, alloc: Global) -> Result<Roster, NoMemory> {
        let index = index_of_copy(alloc, &self.seats)?;
        let members = copies_of(alloc, self.seats.places.as_slice())?;
        let places = seats_of(alloc, members)?;
        Ok(Roster {
            seats: Seats {
                places,
                index,
                mapping: self.seats.mapping,
                indexed: self.seats.indexed,
            },
        })
    }
}
