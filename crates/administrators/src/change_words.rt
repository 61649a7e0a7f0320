// A change in the words that an admin would use for it.
ghost use Rattle.std.specs.Prelude.{◌≡◌, Some};
ghost use Rattle.administrators.specs.ToldChanges.{acceptance, command_for};

use control::CommandWord;
use flagexpr::Flags;
use serverlink::{Shown, put};
use std::fmt;
use std::fmt::Display;
use userfile::{Change, Edit};

/// A change in words, such as `addhost ann *!ann@host.example`: an admin can ask for it by these words, if no text in it
/// has control bytes or invalid UTF-8. Before that a change that a person asked for has `in the name of NICK!USER@HOST: `.
#[derive(Clone, Copy)]
pub struct ChangeWords<'a>(
    /// The change.
    pub &'a Change,
);

impl Display for ChangeWords<'_> {
    fn fmt<W: fmt::Write>(&self, f: &mut fmt::Formatter<W>) -> fmt::Result {
        if let Some(asker) = &self.0.by {
            put(f, "in the name of ", &Shown(asker.person.as_bytes()))?;
            f.write_str(": ")?;
        }
        EditWords(&self.0.edit).fmt(f)
    }
}

/// In whose name a change is requested, as a line of the log says it before the change: nothing if in nobody's.
#[derive(Clone, Copy)]
pub(crate) struct NameWords<'a>(pub &'a Change);

impl Display for NameWords<'_> {
    fn fmt<W: fmt::Write>(&self, f: &mut fmt::Formatter<W>) -> fmt::Result {
        match &self.0.by {
            Some(asker) => put(f, ", in the name of ", &Shown(asker.person.as_bytes())),
            None => Ok(()),
        }
    }
}

/// Under which number a change was accepted, and which bot asked for it.
#[derive(Clone, Copy)]
pub(crate) struct Acceptance {
    pub number: u64,
    pub bot: u16,
}

impl Display for Acceptance {
    ghost output = { λ it. Some (acceptance it.number it.bot) };

    fn fmt<W: fmt::Write>(&self, f: &mut fmt::Formatter<W>) -> fmt::Result {
        let (number, bot) = (self.number, self.bot);
        write!(f, "change {number}, asked by bot {bot}")
    }
}

/// Returns the command by which an admin asks for an edit.
pub(crate) fn command_for(edit: &Edit) -> CommandWord
    ensures { result ≡ command_for edit.now }
{
    match edit {
        Edit::AddUser { .. } => CommandWord::AddUser,
        Edit::DelUser { .. } => CommandWord::DelUser,
        Edit::AddHost { .. } => CommandWord::AddHost,
        Edit::DelHost { .. } => CommandWord::DelHost,
        Edit::SetGlobal { .. } => CommandWord::Global,
        Edit::SetChan { .. } => CommandWord::Chan,
        Edit::SetBot { .. } => CommandWord::Bot,
        Edit::AddBan { .. } => CommandWord::AddBan,
        Edit::DelBan { .. } => CommandWord::DelBan,
        Edit::SetInfo { .. } => CommandWord::Info,
        Edit::SetSticky { .. } => CommandWord::Sticky,
    }
}

/// The edit of a change in words.
#[derive(Clone, Copy)]
pub(crate) struct EditWords<'a>(pub &'a Edit);

impl Display for EditWords<'_> {
    fn fmt<W: fmt::Write>(&self, f: &mut fmt::Formatter<W>) -> fmt::Result {
        put(f, command_for(self.0).spelling(), &EditArgs(self.0))
    }
}

/// What follows the command's first word: a space before each word.
#[derive(Clone, Copy)]
pub(crate) struct EditArgs<'a>(pub &'a Edit);

impl Display for EditArgs<'_> {
    fn fmt<W: fmt::Write>(&self, f: &mut fmt::Formatter<W>) -> fmt::Result {
        match self.0 {
            Edit::AddUser { handle } | Edit::DelUser { handle } => Word(handle.as_bytes()).fmt(f),
            Edit::AddHost { handle, mask } | Edit::DelHost { handle, mask } => {
                Word(handle.as_bytes()).fmt(f)?;
                Word(mask.as_bytes()).fmt(f)
            }
            Edit::SetGlobal { handle, flags } | Edit::SetBot { handle, flags } => {
                Word(handle.as_bytes()).fmt(f)?;
                Letters(*flags).fmt(f)
            }
            Edit::SetChan {
                handle,
                channel,
                flags,
            } => {
                Word(handle.as_bytes()).fmt(f)?;
                Word(channel.as_bytes()).fmt(f)?;
                Letters(*flags).fmt(f)
            }
            Edit::SetInfo { handle, info } => {
                Word(handle.as_bytes()).fmt(f)?;
                Rest(info.as_bytes()).fmt(f)
            }
            Edit::AddBan { .. } | Edit::DelBan { .. } | Edit::SetSticky { .. } => {
                put_ban(f, self.0)
            }
        }
    }
}

// Writes what follows the command's first word for an edit of a ban; nothing for any other.
fn put_ban<W: fmt::Write>(f: &mut fmt::Formatter<W>, edit: &Edit) -> fmt::Result {
    match edit {
        Edit::AddBan {
            channel,
            mask,
            creator,
            expires,
            comment,
        } => {
            Channel(channel.as_bytes()).fmt(f)?;
            Word(mask.as_bytes()).fmt(f)?;
            Word(creator.as_bytes()).fmt(f)?;
            put(f, " ", expires)?;
            Rest(comment.as_bytes()).fmt(f)
        }
        Edit::DelBan { channel, mask } => {
            Channel(channel.as_bytes()).fmt(f)?;
            Word(mask.as_bytes()).fmt(f)
        }
        Edit::SetSticky { channel, mask, on } => {
            Channel(channel.as_bytes()).fmt(f)?;
            Word(mask.as_bytes()).fmt(f)?;
            f.write_str(if *on { " 1" } else { " 0" })
        }
        Edit::AddUser { .. }
        | Edit::DelUser { .. }
        | Edit::AddHost { .. }
        | Edit::DelHost { .. }
        | Edit::SetGlobal { .. }
        | Edit::SetChan { .. }
        | Edit::SetBot { .. }
        | Edit::SetInfo { .. } => Ok(()),
    }
}

// A space and a word.
#[derive(Clone, Copy)]
struct Word<'a>(&'a [u8]);

impl Display for Word<'_> {
    fn fmt<W: fmt::Write>(&self, f: &mut fmt::Formatter<W>) -> fmt::Result {
        put(f, " ", &Shown(self.0))
    }
}

// A space and the channel of a ban, or `*` for all channels.
#[derive(Clone, Copy)]
struct Channel<'a>(&'a [u8]);

impl Display for Channel<'_> {
    fn fmt<W: fmt::Write>(&self, f: &mut fmt::Formatter<W>) -> fmt::Result {
        if self.0.is_empty() {
            f.write_str(" *")
        } else {
            put(f, " ", &Shown(self.0))
        }
    }
}

// A space and the rest of a line, if there is one.
#[derive(Clone, Copy)]
struct Rest<'a>(&'a [u8]);

impl Display for Rest<'_> {
    fn fmt<W: fmt::Write>(&self, f: &mut fmt::Formatter<W>) -> fmt::Result {
        if self.0.is_empty() {
            Ok(())
        } else {
            put(f, " ", &Shown(self.0))
        }
    }
}

// A space and flags as letters, or `-` for none.
#[derive(Clone, Copy)]
struct Letters(Flags);

impl Display for Letters {
    fn fmt<W: fmt::Write>(&self, f: &mut fmt::Formatter<W>) -> fmt::Result {
        if self.0.is_empty() {
            return f.write_str(" -");
        }
        f.write_str(" ")?;
        for letter in b"abcdefghijklmnopqrstuvwxyzABCDEFGHIJKLMNOPQRSTUVWXYZ" {
            if self.0.has(*letter) {
                f.write_char(char::from(*letter))?;
            }
        }
        Ok(())
    }
}
