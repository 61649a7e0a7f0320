// A change that is ready to be made.
ghost use Rattle.std.specs.Prelude.{◌≡◌, true, IfOk, IfErr, OnErr};
ghost use Rattle.std.specs.Borrow.{sem};
ghost use Rattle.bytetext.specs.declared.failure.Failure.TheVariants.{NoMemory as no_memory};
ghost use Rattle.userfile.specs.Apply.{grows};
ghost use Rattle.userfile.specs.Plans.{IsMade};
ghost use Rattle.userfile.specs.Updates.{IsReady, IsWhy, IsSuited, records_before, records_after, rests_if_refused};

use crate::change::Change;
use crate::error::ChangeError;
use crate::plan::Plan;
use crate::userfile::Userfile;
use bytetext::refuse;
use std::alloc::Global;

/// A change that is ready to be made: all memory that it needs is allocated. The caller must call either
/// [`commit`](Update::commit) or [`cancel`](Update::cancel). Until then the update borrows the userfile, and nobody
/// else sees it.
pub struct Update<'a, 'c, P> {
    userfile: &'a mut Userfile,
    change: &'c Change,
    plan: P,
}

impl Userfile {
    /// Allocates all memory that `change` needs, before anybody can see the change.
    ///
    /// # Errors
    /// `Refused` with the first fault that applies. Or `NoMemory`, only for a change that adds a user, a hostmask or a
    /// ban, that sets flags on a channel, or that sets an info text that isn't empty. Both leave the userfile as it
    /// was.
    pub fn ready<'a, 'c>(
        &'a mut self,
        alloc: Global,
        change: &'c Change,
    ) -> Result<Update<'a, 'c, Plan>, ChangeError>
        ensures* unchanged_at_err { sem 𝓛 (rests_if_refused self.entry result) }
        ensures same_reference { IfOk result (λ update. update.userfile.ghost_name ≡ self.entry.ghost_name) }
        ensures ready { IfOk result (λ update. IsReady change.now self.old update) }
        ensures refused { IfErr result (λ e. IsWhy change.now self.old e) }
        ensures memory { IfErr result (λ e. e ≡ no_memory → grows change.now ≡ true) }
    {
        let plan = make(self, alloc, change)?;
        Ok(Update {
            userfile: self,
            change,
            plan,
        })
    }
}

impl Update<'_, '_, Plan> {
    /// Makes the change. Does not allocate.
    pub fn commit(self)
        requires { IsSuited self }
        ensures { self.exit.0.now ≡ records_after self.entry }
    {
        let Update {
            userfile,
            change,
            plan,
        } = self;
        userfile.settle(&change.edit, plan);
    }

    /// Rolls the change back: the records are as they were before [`ready`](Userfile::ready). Does not allocate. To
    /// roll back the addition of a user, a hostmask or a ban, it searches the others for the added one and removes
    /// it; for a user or a hostmask it also goes through the look-up index.
    pub fn cancel(self)
        requires { IsSuited self }
        ensures { self.exit.0.now ≡ records_before self.entry }
    {
        let Update {
            userfile,
            change,
            plan,
        } = self;
        userfile.take_back(&change.edit, plan);
    }
}

// Refuses the change, or makes in advance what it needs.
fn make(userfile: &mut Userfile, alloc: Global, change: &Change) -> Result<Plan, ChangeError>
    ensures ready { IfOk result (λ plan. IsMade plan change.now userfile.old userfile.new) }
    ensures refused { IfErr result (λ e. IsWhy change.now userfile.old e) }
    ensures memory { IfErr result (λ e. e ≡ no_memory → grows change.now ≡ true) }
    ensures err { OnErr result (userfile.new ≡ userfile.old) }
{
    refuse(userfile.refusal_of(change))?;
    userfile.plan(alloc, &change.edit)
}
