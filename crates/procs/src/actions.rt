// The actions of a reply.
ghost use Rattle.std.specs.Prelude.{◌≡◌, ◌<◌, ◌≤◌, ◌↔◌, ◌++◌, ◌∷◌, [], length, IsOk, IsTrue, IfOk, OnErr};
ghost use Rattle.procs.specs.Actions.{Pushes};

use crate::action::Action;
use crate::limits::MAX_ACTIONS;
use crate::proc_fault::{ActionsFault, PushError};
use bytetext::{Failure, NoMemory, TryCopy, copies_of};
use std::alloc::Global;
use std::marker::Model;

/// At most eight actions, in the order in which the bot does them. Contracts see the list of them.
#[derive(Debug, Drop)]
pub struct Actions {
    items: Vec<Action>,
}

impl Model for Actions {
    ghost use Rattle.std.specs.Prelude.{List, ◌≤◌, length};
    ghost use Rattle.procs.specs.declared.action.Action.{Action};
    ghost use Rattle.procs.specs.declared.limits.TheConstants.{MAX_ACTIONS};

    ghost Value = { List Action };

    ghost view = { λ a. a.items.items };

    ghost invariant = { λ a. length a.items.items ≤ MAX_ACTIONS };
}

impl Actions {
    /// Creates an empty list. Does not allocate.
    pub fn empty(alloc: Global) -> Actions
        ensures { result ≡ [] }
    {
        Actions {
            items: Vec::new(alloc),
        }
    }

    /// Creates a list of `action` alone.
    ///
    /// # Errors
    /// `NoMemory` if the list can't be allocated; `action` is dropped.
    pub fn one(alloc: Global, action: Action) -> Result<Actions, NoMemory>
        ensures { IfOk result (λ actions. actions ≡ action ∷ []) }
    {
        let mut items = Vec::new(alloc);
        items.push(action)?;
        Ok(Actions { items })
    }

    /// Creates the list of the actions in `items`. Does not allocate.
    ///
    /// # Errors
    /// `TooMany` if there are more than eight; `items` is dropped.
    pub fn from_vec(items: Vec<Action>) -> Result<Actions, ActionsFault>
        ensures actions { IfOk result (λ actions. actions ≡ items.items) }
        ensures few { IsOk result ↔ (length items.items ≤ MAX_ACTIONS) }
    {
        if items.len() > MAX_ACTIONS {
            return Err(ActionsFault::TooMany);
        }
        Ok(Actions { items })
    }

    /// Appends `action`.
    ///
    /// # Errors
    /// `TooMany` if there are eight actions already, and `NoMemory` if there are fewer and the list can't grow. The
    /// list is unchanged, and `action` is dropped.
    pub fn push(&mut self, action: Action) -> Result<(), PushError>
        ensures { Pushes self.old action result self.new }
    {
        if self.items.len() >= MAX_ACTIONS {
            return Err(Failure::Refused(ActionsFault::TooMany));
        }
        self.items.push(action)?;
        Ok(())
    }

    /// Returns the actions, in order.
    pub fn as_slice(&self) -> &[Action]
        ensures actions { result.now ≡ self.now }
        ensures few { length result.now ≤ MAX_ACTIONS }
    {
        self.items.as_slice()
    }

    /// Returns the number of actions.
    pub fn len(&self) -> usize
        ensures count { result ≡ length self.now }
        ensures few { result ≤ MAX_ACTIONS }
    {
        self.items.len()
    }

    /// Returns whether there is no action.
    pub fn is_empty(&self) -> bool
        ensures { IsTrue result ↔ (self.now ≡ []) }
    {
        self.items.is_empty()
    }

    /// Returns the actions as a `Vec`. Does not allocate.
    pub fn into_vec(self) -> Vec<Action>
        ensures actions { result.items ≡ self }
        ensures few { length result.items ≤ MAX_ACTIONS }
    {
        self.items
    }
}

impl TryCopy for Actions {
    fn copy(&self, alloc: Global) -> Result<Actions, NoMemory> {
        let items = copies_of(alloc, self.items.as_slice())?;
        Ok(Actions { items })
    }
}
