// The userfile.
use crate::ban::Ban;
use crate::bans::{has_ban, has_ban_room};
use crate::change::{Asker, Change};
use crate::edit::Edit;
use crate::entries::{edit_user, find_user};
use crate::error::{ChangeError, ChangeFault};
use crate::flags::PersonFlags;
use crate::gather::{map_of, user_copies};
use crate::index::{TailIndex, new_index};
use crate::indexing::index_of;
use crate::limits::{MAX_BANS, MAX_USERS};
use crate::persons::user_for;
use crate::plan::{Plan, plan_for, take_back, take_in};
use crate::refusals::{fault_if, fault_unless, first_of_two, shape};
use crate::rights::{may_ask, one_owns_beside};
use crate::together::records_fault;
use crate::user::User;
use crate::user_edits::{UserEdit, add_mask_fault, del_mask_fault, set_channel_fault};
use bytetext::{NoMemory, TryCopy, copies_of, refuse};
use indexmap::IndexMap;
use rfccase::Casemapping;
use std::alloc::Global;
use std::marker::Model;

/// Users and bans, each in the order in which they were added. Contracts see its records.
#[derive(Drop)]
pub struct Userfile {
    users: IndexMap<Vec<u8>, User>,
    index: TailIndex,
    bans: Vec<Ban>,
}

impl Model for Userfile {
    ghost use Rattle.std.specs.Prelude.{List};
    ghost use Rattle.userfile.specs.Records.{Records};
    ghost use Rattle.userfile.specs.Keys.{IsKeyed, records_of};
    ghost use Rattle.userfile.specs.Together.{AreSound};
    ghost use Rattle.userfile.specs.Index.{IsIndexOf};
    ghost use Rattle.std.specs.Map.{values_of};

    ghost Value = { Records };

    ghost view = { λ u. records_of u.users.entries u.bans.items };

    ghost invariant = { λ u. IsKeyed u.users.entries × IsIndexOf u.index (values_of u.users.entries)
        × AreSound (records_of u.users.entries u.bans.items) };
}

impl Userfile {
    ghost use Rattle.std.specs.Prelude.{◌≡◌, ◌<◌, true, None, Err, IsTrue, IfOk, IfErr, OnErr, length, slice_get};
    ghost use Rattle.std.specs.List.{list_all, list_any};
    ghost use Rattle.std.specs.Option.{option_copied};
    ghost use Rattle.userfile.specs.Together.{is_user, is_good_ban, AreSound, Gathers};
    ghost use Rattle.userfile.specs.Records.{no_records};
    ghost use Rattle.userfile.specs.Apply.{Applies, edit_grows, edit_refusal, grows, is_within_share, not_allowed, not_taken, refusal};
    ghost use Rattle.userfile.specs.Rights.{may, owns_beside};
    ghost use Rattle.userfile.specs.Plans.{IsPlanFor, Suits, before, after};
    ghost use Rattle.bytetext.specs.declared.failure.Failure.TheVariants.{NoMemory as no_memory};
    ghost use Rattle.userfile.specs.Held.{user_of};
    ghost use Rattle.userfile.specs.Persons.{ban_for, flags_of, handle_of, info_of, sticky_ban, IsHandleFor};

    /// Creates a userfile without records. Does not allocate.
    pub fn new(alloc: Global) -> Userfile
        ensures { result ≡ no_records }
    {
        Userfile {
            users: IndexMap::new(alloc),
            index: new_index(alloc),
            bans: Vec::new(alloc),
        }
    }

    /// Creates a userfile of exactly these `users` and `bans`, in their order. Copies neither.
    ///
    /// # Errors
    /// `Refused` with the first of these that applies: `UserExists` if two users have the same handle, `MaskExists`
    /// if a user has a mask twice, `BanExists` if two bans have the same channel and mask, `Full` if there are more
    /// users, bans, masks of a user or channels of a user than a userfile holds. Or `NoMemory`, if none of them
    /// applies and an allocation fails; never if `users` is empty. Each error drops `users` and `bans`.
    pub fn from_records(
        alloc: Global,
        users: Vec<User>,
        bans: Vec<Ban>,
    ) -> Result<Userfile, ChangeError>
        requires users { IsTrue (list_all is_user users.items) }
        requires bans { IsTrue (list_all is_good_ban bans.items) }
        ensures gathers { Gathers users.items bans.items result }
        ensures memory { result ≡ Err no_memory → 0 < length users.items }
    {
        refuse(records_fault(users.as_slice(), bans.as_slice()))?;
        let users = map_of(alloc, users)?;
        let index = index_of(alloc, &users)?;
        Ok(Userfile { users, index, bans })
    }

    /// States what always holds of the records: each user and each ban is good, and
    /// [`from_records`](Userfile::from_records) has no reason to refuse them. Does nothing at run time: a caller that
    /// writes the records calls it for its clause, by which the records can be read back.
    pub fn are_sound(&self)
        ensures { AreSound self.now }
    {
        let _ = &self.users;
    }

    /// Returns the number of users.
    pub fn user_count(&self) -> usize
        ensures { result ≡ length self.now.users }
    {
        self.users.len()
    }

    /// Returns the user at index `place`, counted from 0, or `None` after the last.
    pub fn user_at(&self, place: usize) -> Option<&User>
        ensures { option_copied result ≡ slice_get self.now.users place }
    {
        match self.users.get_index(place) {
            Some((_, user)) => Some(user),
            None => None,
        }
    }

    /// Returns the number of bans, including those that have ended.
    pub fn ban_count(&self) -> usize
        ensures { result ≡ length self.now.bans }
    {
        self.bans.len()
    }

    /// Returns the ban at index `place`, counted from 0, or `None` after the last.
    pub fn ban_at(&self, place: usize) -> Option<&Ban>
        ensures { option_copied result ≡ slice_get self.now.bans place }
    {
        self.bans.as_slice().get(place)
    }

    /// Returns the user with the `handle`, if there is one.
    pub fn user(&self, handle: &[u8]) -> Option<&User>
        ensures { option_copied result ≡ user_of handle.now self.now.users }
    {
        find_user(&self.users, handle)
    }

    /// Returns the handle of the person `who`, written as `nick!user@host`. Of all hostmasks that match, the one with
    /// most literals decides, then the earlier user, then the earlier mask. Returns `*` if none matches. `mapping` is
    /// the casemapping of the person's server, by which masks match.
    pub fn handle_of(&self, mapping: Casemapping, who: &[u8]) -> &[u8]
        ensures value { result.now ≡ handle_of mapping self.now.users who.now }
        ensures decides { IsHandleFor mapping self.now.users who.now result.now }
    {
        match user_for(mapping, &self.users, &self.index, who) {
            Some(user) => user.handle.as_bytes(),
            None => b"*",
        }
    }

    /// Returns the flags of the user with the `handle`, including those on `channel`; no flags if there is no such
    /// user.
    pub fn flags_of(&self, handle: &[u8], channel: &[u8]) -> PersonFlags
        ensures { result ≡ flags_of self.now.users handle.now channel.now }
    {
        match self.user(handle) {
            Some(user) => PersonFlags::on(user, channel),
            None => PersonFlags::none(),
        }
    }

    /// Returns the info text of the user with the `handle`, or the empty text if the user has none or does not exist.
    /// Does not allocate.
    pub fn info_of(&self, handle: &[u8]) -> &[u8]
        ensures { result.now ≡ info_of self.now.users handle.now }
    {
        match self.user(handle) {
            Some(user) => user.info.as_bytes(),
            None => b"",
        }
    }

    /// Returns the first ban that keeps the person `who`, written as `nick!user@host`, off `channel` at the second
    /// `now`: the ban is of that channel or of all, its mask matches, and it has not ended. Channel and mask are
    /// compared by `mapping`, the casemapping of the person's server.
    pub fn ban_for(
        &self,
        mapping: Casemapping,
        channel: &[u8],
        who: &[u8],
        now: u64,
    ) -> Option<&Ban>
        ensures { option_copied result ≡ ban_for mapping self.now.bans channel.now who.now now }
    {
        self.bans
            .iter()
            .find(|ban| ban.bars(mapping, channel, who, now))
    }

    /// Returns the first ban that comes back to `channel` if somebody removes `mask` from it at the second `now`: the
    /// ban is sticky, of that channel or of all, it has not ended, and its mask equals `mask`. Channel and mask are
    /// compared by `mapping`, the casemapping of the channel's server. Does not allocate.
    pub fn sticky_ban(
        &self,
        mapping: Casemapping,
        channel: &[u8],
        mask: &[u8],
        now: u64,
    ) -> Option<&Ban>
        ensures { option_copied result ≡ sticky_ban mapping self.now.bans channel.now mask.now now }
    {
        self.bans
            .iter()
            .find(|ban| ban.returns_to(mapping, channel, mask, now))
    }

    /// Returns the first refusal that applies to `change`, without making it. Does not allocate.
    pub fn refusal_of(&self, change: &Change) -> Option<ChangeFault>
        ensures { result ≡ refusal self.now change.now }
    {
        match shape(change) {
            Some(fault) => Some(fault),
            None => self.not_allowed(change),
        }
    }

    // Why a change of good shape is refused.
    fn not_allowed(&self, change: &Change) -> Option<ChangeFault>
        ensures { result ≡ not_allowed self.now change.now }
    {
        match &change.by {
            Some(asker) => first_of_two(
                fault_unless(self.may(asker, &change.edit), ChangeFault::NotAllowed),
                first_of_two(
                    self.not_taken(&change.edit),
                    fault_unless(self.has_share(&change.edit), ChangeFault::Full),
                ),
            ),
            None => self.not_taken(&change.edit),
        }
    }

    /// Returns whether the person `asker` has the right to `edit`, by the users that the userfile holds now. It says
    /// nothing about the edit's shape, and nothing about what else the userfile holds:
    /// [`refusal_of`](Userfile::refusal_of) does. Does not allocate.
    ///
    /// | Edit | Who has the right |
    /// |---|---|
    /// | `AddUser`, `DelUser`, `AddHost`, `DelHost`, `SetChan`, `SetBot` | `m` or `n`; `n` if the user has `m` or `n` |
    /// | `SetGlobal` | the same; `n` also if the new flags have `m` or `n` |
    /// | `AddBan`, `DelBan` | `o`, `m` or `n`, everywhere or on the ban's channel |
    /// | `SetSticky` | `m` or `n` |
    /// | `SetInfo` | the user with the handle |
    ///
    /// Flags are those that a user has everywhere, except where the table says more. Nobody has the right to delete
    /// the only user with `n`, or to take `n` from that user.
    pub fn may(&self, asker: &Asker, edit: &Edit) -> bool
        ensures { result ≡ may self.now.users asker.now edit.now }
    {
        let user = user_for(
            asker.casemapping,
            &self.users,
            &self.index,
            asker.person.as_bytes(),
        );
        may_ask(self, user, edit)
    }

    // Whether a user with another handle is an owner.
    pub(crate) fn has_owner_beside(&self, handle: &[u8]) -> bool
        ensures { result ≡ list_any (owns_beside handle.now) self.now.users }
    {
        one_owns_beside(&self.users, handle)
    }

    // Whether an edit leaves persons within their share of a limit.
    fn has_share(&self, edit: &Edit) -> bool
        ensures { result ≡ is_within_share self.now.bans edit.now }
    {
        match edit {
            Edit::AddBan { channel, .. } => has_ban_room(channel.as_bytes(), self.bans.as_slice()),
            Edit::AddUser { .. }
            | Edit::DelUser { .. }
            | Edit::AddHost { .. }
            | Edit::DelHost { .. }
            | Edit::SetGlobal { .. }
            | Edit::SetChan { .. }
            | Edit::SetBot { .. }
            | Edit::DelBan { .. }
            | Edit::SetInfo { .. }
            | Edit::SetSticky { .. } => true,
        }
    }

    // Why an edit of good shape is refused, whoever asks.
    fn not_taken(&self, edit: &Edit) -> Option<ChangeFault>
        ensures { result ≡ not_taken self.now edit.now }
    {
        match edit {
            Edit::AddUser { handle } => first_of_two(
                fault_if(
                    self.user(handle.as_bytes()).is_some(),
                    ChangeFault::UserExists,
                ),
                fault_unless(self.users.len() < MAX_USERS, ChangeFault::Full),
            ),
            Edit::DelUser { handle }
            | Edit::SetGlobal { handle, .. }
            | Edit::SetBot { handle, .. }
            | Edit::SetInfo { handle, .. } => fault_unless(
                self.user(handle.as_bytes()).is_some(),
                ChangeFault::NoSuchUser,
            ),
            Edit::AddHost { handle, mask } => match self.user(handle.as_bytes()) {
                Some(user) => add_mask_fault(mask.as_bytes(), user),
                None => Some(ChangeFault::NoSuchUser),
            },
            Edit::DelHost { handle, mask } => match self.user(handle.as_bytes()) {
                Some(user) => del_mask_fault(mask.as_bytes(), user),
                None => Some(ChangeFault::NoSuchUser),
            },
            Edit::SetChan {
                handle,
                channel,
                flags,
            } => match self.user(handle.as_bytes()) {
                Some(user) => set_channel_fault(channel.as_bytes(), *flags, user),
                None => Some(ChangeFault::NoSuchUser),
            },
            Edit::AddBan { channel, mask, .. } => first_of_two(
                fault_if(
                    has_ban(self.bans.as_slice(), channel.as_bytes(), mask.as_bytes()),
                    ChangeFault::BanExists,
                ),
                fault_unless(self.bans.len() < MAX_BANS, ChangeFault::Full),
            ),
            Edit::DelBan { channel, mask } | Edit::SetSticky { channel, mask, .. } => fault_unless(
                has_ban(self.bans.as_slice(), channel.as_bytes(), mask.as_bytes()),
                ChangeFault::NoSuchBan,
            ),
        }
    }

    /// Makes `change`: [`ready`](Userfile::ready), and then [`commit`](crate::Update::commit).
    ///
    /// # Errors
    /// `Refused` with the first fault that applies, or `NoMemory`; both leave the userfile as it was.
    pub fn apply(&mut self, alloc: Global, change: &Change) -> Result<(), ChangeError>
        ensures applies { Applies self.old change.now result self.new }
        ensures memory { result ≡ Err no_memory → grows change.now ≡ true }
    {
        let update = self.ready(alloc, change)?;
        update.commit();
        Ok(())
    }

    // Makes in advance what an edit needs; the edit isn't refused.
    pub(crate) fn plan(&mut self, alloc: Global, edit: &Edit) -> Result<Plan, ChangeError>
        requires { edit_refusal self.old edit.now ≡ None }
        ensures ready { IfOk result (λ plan. IsPlanFor plan edit.now self.old self.new) }
        ensures err { OnErr result (self.new ≡ self.old) }
        ensures memory { IfErr result (λ e. (e ≡ no_memory) × (edit_grows edit.now ≡ true)) }
    {
        plan_for(
            &mut self.users,
            &mut self.index,
            &mut self.bans,
            alloc,
            edit,
        )
    }

    // Makes an edit for which this plan was made.
    pub(crate) fn settle(&mut self, edit: &Edit, plan: Plan)
        requires { Suits plan edit.now self.old }
        ensures { self.new ≡ after plan edit.now self.old }
    {
        match plan {
            Plan::Later => take_in(&mut self.users, &mut self.index, &mut self.bans, edit),
            Plan::Added => {}
            Plan::Channels(handle, entries) => {
                edit_user(
                    &mut self.users,
                    handle.as_bytes(),
                    UserEdit::SetChannels(entries),
                );
            }
            Plan::Info(handle, info) => {
                edit_user(&mut self.users, handle.as_bytes(), UserEdit::SetInfo(info));
            }
        }
    }

    // Removes what this plan has added for an edit.
    pub(crate) fn take_back(&mut self, edit: &Edit, plan: Plan)
        requires { Suits plan edit.now self.old }
        ensures { self.new ≡ before plan edit.now self.old }
    {
        match plan {
            Plan::Later => {}
            Plan::Added => take_back(&mut self.users, &mut self.index, &mut self.bans, edit),
            Plan::Channels(_, _) => {}
            Plan::Info(_, _) => {}
        }
    }
}

impl TryCopy for Userfile {
    fn copy(&self, alloc: Global) -> Result<Userfile, NoMemory> {
        let users = user_copies(alloc, &self.users)?;
        let users = map_of(alloc, users)?;
        let index = index_of(alloc, &users)?;
        let bans = copies_of(alloc, self.bans.as_slice())?;
        Ok(Userfile { users, index, bans })
    }
}
