// An event, as binds see it.
use crate::bind_kind::BindKind;
use bottimers::CivilMinute;
use flagexpr::Flags;

/// The parts of an event that decide which binds it calls.
#[derive(Clone, Copy, Debug)]
pub struct BindEvent<'a> {
    /// The kind of event.
    pub kind: BindKind,
    /// The text that keywords and wildcards are matched against, by kind as in the crate's table. A cron bind ignores
    /// it.
    pub subject: &'a [u8],
    /// The minute that begins, against which cron fields are matched. No other bind looks at it.
    pub minute: Option<CivilMinute>,
    /// The person's global flags.
    pub global: Flags,
    /// The person's flags on the channel of the event; none if the event has no channel.
    pub channel: Flags,
    /// The person's bot flags.
    pub bot: Flags,
}
