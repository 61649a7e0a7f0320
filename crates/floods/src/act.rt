// Who does what a line tells.
ghost use Rattle.std.specs.Prelude.{◌≡◌};
ghost use Rattle.ircline.specs.Sources.{source_of};
ghost use Rattle.floods.specs.Acts.{act_by, act_of, by_source, person_of, told_by, words_of};

use crate::command::{Command, command_named};
use crate::deed::{Deed, deed_of};
use crate::key::FloodKey;
use crate::kind::FloodKind;
use crate::place::FloodPlace;
use bytetext::{after_word, first_word};
use ircline::{Source, source};

// A line of a person that is counted.
#[derive(Drop)]
pub(crate) struct Act {
    // Whose it is.
    pub(crate) key: FloodKey,
    pub(crate) kind: FloodKind,
    // The channel of the line.
    pub(crate) place: FloodPlace,
    // For how many lines it counts.
    pub(crate) weight: usize,
}

// The prefix of `line`, `nick!user@host` if a person sent it, and empty if it has none.
pub(crate) fn person_of(line: &[u8]) -> &[u8]
    ensures { result.now ≡ person_of line.now }
{
    match line {
        [b':', rest @ ..] => first_word(rest),
        _ => b"",
    }
}

// The command of `line` and what follows it.
fn words_of(line: &[u8]) -> &[u8]
    ensures { result.now ≡ words_of line.now }
{
    match line {
        [b':', ..] => after_word(line),
        _ => b"",
    }
}

// What `line` tells, without its end, if it is counted and of a person with a user and a host.
pub(crate) fn act_of(line: &[u8]) -> Option<Act>
    ensures { result ≡ act_of line.now }
{
    let words = words_of(line);
    told_by(
        person_of(line),
        command_named(first_word(words)),
        after_word(words),
    )
}

// What `person` does by a line with this command and these words.
#[tactic(auto, unfolding(crate::specs::Acts::told_by))]
fn told_by(person: &[u8], command: Option<Command>, words: &[u8]) -> Option<Act>
    ensures { result ≡ told_by person.now command words.now }
{
    act_by(person, deed_of(command?, words))
}

fn act_by(person: &[u8], deed: Option<Deed>) -> Option<Act>
    ensures { result ≡ act_by person.now deed }
{
    by_prefix(deed?, person)
}

// What the person does whom `prefix` names, if that has a user and a host.
fn by_prefix(deed: Deed, prefix: &[u8]) -> Option<Act>
    ensures { result ≡ by_source deed (source_of prefix.now) }
{
    match source(prefix) {
        Source::Person(person) => {
            if person.user.is_empty() || person.host.is_empty() {
                return None;
            }
            Some(Act {
                key: FloodKey::new(person.user, person.host),
                kind: deed.kind,
                place: deed.place,
                weight: deed.weight,
            })
        }
        Source::Server(_) | Source::None => None,
    }
}
