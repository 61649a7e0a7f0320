// One edit of the userfile, and who asks for it.
ghost use Rattle.std.specs.Prelude.{◌≡◌, None, Some};
ghost use Rattle.userfile.specs.Changes.{by_nobody, by_person};

use crate::edit::Edit;
use bytetext::{NoMemory, Text, TryCopy};
use rfccase::Casemapping;
use std::alloc::Global;

/// The person who asks for a change.
#[derive(Debug)]
pub struct Asker {
    /// The person, written as `nick!user@host`, or as `$a:NAME` if the bot knows the person by the account `NAME`: at most
    /// 120 bytes, each above 32, and none of them `*` or `?`.
    pub person: Text,
    /// The casemapping of the server on which the person asked. The hostmasks of the userfile match the person by it.
    pub casemapping: Casemapping,
}

// By hand, so that the drop is proved once, and not in each function that drops an asker.
impl Drop for Asker {
    fn drop(self) {
        let Asker {
            person: _,
            casemapping: _,
        } = self;
    }
}

impl TryCopy for Asker {
    fn copy(&self, alloc: Global) -> Result<Asker, NoMemory> {
        let person = self.person.copy(alloc)?;
        Ok(Asker {
            person,
            casemapping: self.casemapping,
        })
    }
}

/// One change of a userfile, as it is requested, sent and stored: an edit, and who asks for it.
#[derive(Debug)]
pub struct Change {
    /// Who asks. Each userfile to which the change is applied judges the person's right to the edit by its records just
    /// before the change. A change in nobody's name (`None`) has the right to every edit: an operator or the bot itself
    /// asks for it.
    pub by: Option<Asker>,
    /// What the change edits.
    pub edit: Edit,
}

impl Change {
    /// Creates the change that makes `edit` in nobody's name. Does not allocate.
    pub fn by_nobody(edit: Edit) -> Change
        ensures { result ≡ by_nobody edit }
    {
        Change { by: None, edit }
    }

    /// Creates the change that makes `edit` in the name of `asker`. Does not allocate.
    pub fn by_person(asker: Asker, edit: Edit) -> Change
        ensures { result ≡ by_person asker edit }
    {
        Change {
            by: Some(asker),
            edit,
        }
    }
}

// By hand, so that the drop is proved once, and not in each function that drops a change.
impl Drop for Change {
    fn drop(self) {
        let Change { by: _, edit: _ } = self;
    }
}

impl TryCopy for Change {
    fn copy(&self, alloc: Global) -> Result<Change, NoMemory> {
        let by = match &self.by {
            Some(asker) => Some(asker.copy(alloc)?),
            None => None,
        };
        let edit = self.edit.copy(alloc)?;
        Ok(Change { by, edit })
    }
}
