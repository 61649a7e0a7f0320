// The occasions on which procs are called.
ghost use Rattle.std.specs.Prelude.{◌≡◌, IfOk};
ghost use Rattle.procs.specs.Occasions.{due_call, time_call, cron_call, said_call};

use crate::call::Call;
use crate::call_kind::CallKind;
use crate::heard::kind_of;
use crate::words::bot_name;
use bottimers::{CivilMinute, cron_args, time_args};
use bytetext::{NoMemory, Text, Texts, TryCopy, after_word, first_word};
use chanstate::IrcEvent;
use std::alloc::Global;

/// An occasion on which procs are called.
#[derive(Drop)]
pub enum Trigger {
    /// An event of a message.
    Heard(IrcEvent),
    /// A timer is due.
    Due {
        /// The name of the proc that it calls.
        proc: Text,
        /// The argument of its calls.
        text: Text,
    },
    /// A minute begins, for time binds.
    Time(CivilMinute),
    /// A minute begins, for cron binds.
    Cron(CivilMinute),
    /// Another bot sends this bot a text.
    Said {
        /// The number of the bot that sends it.
        from: u16,
        /// The text.
        text: Text,
    },
}

impl Trigger {
    ghost use Rattle.std.specs.Prelude.{◌≡◌};
    ghost use Rattle.procs.specs.Occasions.{kind_for};

    // Returns the kind of the calls.
    pub(crate) fn kind(&self) -> CallKind
        ensures { result ≡ kind_for self.now }
    {
        match self {
            Trigger::Heard(event) => kind_of(event.kind).kind(),
            Trigger::Due { .. } => CallKind::Timer,
            Trigger::Time(_) => CallKind::Time,
            Trigger::Cron(_) => CallKind::Cron,
            Trigger::Said { .. } => CallKind::Bot,
        }
    }
}

// Returns the call of a due timer's proc with this text.
pub(crate) fn due_call(alloc: Global, text: &Text) -> Result<Call, NoMemory>
    ensures { IfOk result (λ call. call ≡ due_call text.now) }
{
    let text = text.copy(alloc)?;
    Ok(Call {
        kind: CallKind::Timer,
        args: Texts::new(vec![in alloc; text]?),
    })
}

// Returns the call of the procs of time binds.
pub(crate) fn time_call(alloc: Global, minute: &CivilMinute) -> Result<Call, NoMemory>
    ensures { IfOk result (λ call. call ≡ time_call minute.now) }
{
    Ok(Call {
        kind: CallKind::Time,
        args: time_args(alloc, minute)?,
    })
}

// Returns the call of the procs of cron binds.
pub(crate) fn cron_call(alloc: Global, minute: &CivilMinute) -> Result<Call, NoMemory>
    ensures { IfOk result (λ call. call ≡ cron_call minute.now) }
{
    Ok(Call {
        kind: CallKind::Cron,
        args: cron_args(alloc, minute)?,
    })
}

// Returns the call of the procs of bot binds.
pub(crate) fn said_call(alloc: Global, from: u16, text: &[u8]) -> Result<Call, NoMemory>
    ensures { IfOk result (λ call. call ≡ said_call from text.now) }
{
    let name = bot_name(alloc, from)?;
    let word = Text::from_slice(alloc, first_word(text))?;
    let rest = Text::from_slice(alloc, after_word(text))?;
    Ok(Call {
        kind: CallKind::Bot,
        args: Texts::new(vec![in alloc; name, word, rest]?),
    })
}
