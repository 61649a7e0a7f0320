// Why a line of a live script breaks a rule.
use crate::MAX_LEAVES;
use crate::saying::{LiveSaying, saying_of};
use bytetext::NoMemory;
use script::{Reason, Verb, line_reason, pieces_of, spacing_reason};
use std::alloc::Global;
use std::fmt;
use std::fmt::Display;

/// Why a line of a live script breaks a rule. The words of a line are counted from 1.
#[derive(Clone, Copy, Debug, PartialEq, Eq)]
pub enum LiveReason {
    /// The line would break a rule in a replay's script too.
    Script(Reason),
    /// The first word is not a command.
    Unknown,
    /// The script has more than 8 leaves.
    Leaves,
    /// A bot reads what its server sends, and no line of a script.
    NoLine,
    /// Packets are delivered by the network, and not by a script.
    NoDeliver,
    /// The line has too few or too many words for this verb, or an empty word.
    Form(LiveVerb),
    /// The second word is not a version.
    Version,
    /// The second word is not a number of turns, or it is above 100,000.
    Turns,
    /// The second word is not a moment.
    Moment,
}

/// The first words that only lines of a live script have, and `clock`, which has other words in a live script.
#[derive(Clone, Copy, Debug, PartialEq, Eq)]
pub enum LiveVerb {
    /// Makes turns until each bot is at a version.
    Until,
    /// Makes a number of turns.
    Turns,
    /// Connects a client in memory.
    Guest,
    /// Makes a guest say something.
    Say,
    /// Prints what a guest received.
    Heard,
    /// Sets what all clocks show.
    Clock,
}

impl LiveReason {
    /// Returns what is wrong, and what to write instead.
    pub fn sentence(self) -> &'static str {
        match self {
            LiveReason::Script(reason) => reason.sentence(),
            LiveReason::Unknown =>
                "word 1 is no command: say leaves, zone, ask, pump, compact, restart, connect, bind, unbind, show, until, \
                 turns, guest, say, heard or clock",
            LiveReason::Leaves => "word 2 is no number of leaves: say 0 to 8 in a live script",
            LiveReason::NoLine =>
                "a live script has no line: say guest NICK CHANNEL, and then say NICK TARGET TEXT",
            LiveReason::NoDeliver =>
                "a live script has no deliver: say until V or turns N, and packets come",
            LiveReason::Form(verb) => form_of(verb),
            LiveReason::Version => "word 2 is no version: say 0 to 4294967295",
            LiveReason::Turns => "word 2 is no number of turns: say 0 to 100000",
            LiveReason::Moment =>
                "word 2 is no moment: say the seconds since 1970-01-01 UTC, before the year 3000, as in 1767225600",
        }
    }
}

impl Display for LiveReason {
    fn fmt<W: fmt::Write>(&self, f: &mut fmt::Formatter<W>) -> fmt::Result {
        f.write_str(self.sentence())
    }
}

// The words of a line of this verb.
fn form_of(verb: LiveVerb) -> &'static str {
    match verb {
        LiveVerb::Until => "say until V, as in until 2",
        LiveVerb::Turns => "say turns N, as in turns 100",
        LiveVerb::Guest => "say guest NICK CHANNEL, as in guest alice #egg",
        LiveVerb::Say => "say say NICK TARGET TEXT, as in say alice #egg hello",
        LiveVerb::Heard => "say heard NICK, as in heard alice",
        LiveVerb::Clock => "say clock N in a live script, as in clock 1767225600",
    }
}

// The verb that is spelled like this.
fn verb_named(spelling: &[u8]) -> Option<LiveVerb> {
    if spelling == b"until".as_slice() {
        Some(LiveVerb::Until)
    } else if spelling == b"turns".as_slice() {
        Some(LiveVerb::Turns)
    } else if spelling == b"guest".as_slice() {
        Some(LiveVerb::Guest)
    } else if spelling == b"say".as_slice() {
        Some(LiveVerb::Say)
    } else if spelling == b"heard".as_slice() {
        Some(LiveVerb::Heard)
    } else if spelling == b"clock".as_slice() {
        Some(LiveVerb::Clock)
    } else {
        None
    }
}

/// Returns why `line`, which breaks a rule, does so; `is_begun` says whether a line before it gives the number of
/// leaves.
///
/// # Errors
/// `NoMemory` if memory cannot be allocated.
pub fn reason_of(alloc: Global, is_begun: bool, line: &[u8]) -> Result<LiveReason, NoMemory> {
    match saying_of(alloc, line)? {
        LiveSaying::Wrong => wrong_reason(alloc, line),
        LiveSaying::Leaves(leaves) => {
            if leaves > MAX_LEAVES {
                Ok(LiveReason::Leaves)
            } else {
                Ok(LiveReason::Script(Reason::LeavesAgain))
            }
        }
        LiveSaying::Nothing | LiveSaying::Zone(_) | LiveSaying::Told(_) => {
            if is_begun {
                Ok(LiveReason::Script(Reason::ZoneLate))
            } else {
                Ok(LiveReason::Script(Reason::LeavesFirst))
            }
        }
    }
}

// Why a line breaks a rule by itself.
fn wrong_reason(alloc: Global, line: &[u8]) -> Result<LiveReason, NoMemory> {
    let words = pieces_of(alloc, line, b' ')?;
    if let Some(reason) = own_reason(words.as_slice()) {
        return match spacing_reason(line, words.as_slice()) {
            Some(spacing) => Ok(LiveReason::Script(spacing)),
            None => Ok(reason),
        };
    }
    match line_reason(alloc, line)? {
        Some(Reason::Unknown) | None => Ok(LiveReason::Unknown),
        Some(Reason::Leaves) => Ok(LiveReason::Leaves),
        Some(reason) => Ok(LiveReason::Script(reason)),
    }
}

// Why a line of these words breaks a rule that only a live script has; `None` if it doesn't.
fn own_reason(words: &[&[u8]]) -> Option<LiveReason> {
    match words {
        [] => None,
        [spelling, words @ ..] => match (verb_named(spelling), Verb::named(spelling)) {
            (Some(verb), _) => Some(verb_reason(verb, words.len())),
            (None, Some(Verb::Line)) => Some(LiveReason::NoLine),
            (None, Some(Verb::Deliver)) => Some(LiveReason::NoDeliver),
            (None, _) => None,
        },
    }
}

// Why a line with this verb and this number of words after it breaks a rule.
fn verb_reason(verb: LiveVerb, count: usize) -> LiveReason {
    if count != 1 {
        return LiveReason::Form(verb);
    }
    match verb {
        LiveVerb::Until => LiveReason::Version,
        LiveVerb::Turns => LiveReason::Turns,
        LiveVerb::Clock => LiveReason::Moment,
        LiveVerb::Guest | LiveVerb::Say | LiveVerb::Heard => LiveReason::Form(verb),
    }
}
