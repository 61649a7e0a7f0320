// Which word of a line is wrong, or that there are too few or too many.
ghost use Rattle.std.specs.Prelude.{◌≡◌, map};
ghost use Rattle.script.specs.ChangeDoubts.{first_of};
ghost use Rattle.script.specs.Doubts.{bind_doubt, bot_doubt, clock_doubt, doubt_of, kind_doubt, leaves_doubt, packet_doubt};
ghost use Rattle.script.specs.Doubts.{proc_doubt, seconds_doubt, unbind_doubt, verb_doubt, word_doubt, words_doubt, zone_doubt};
ghost use Rattle.script.specs.declared.reason.Reason.TheVariants.{TwoSpaces};

use crate::change_doubts::{ask_doubt, gap_doubt, text_doubt};
use crate::reason::Reason;
use crate::spacing::{gap_before, misread};
use crate::verb::Verb;
use bottimers::Zone;
use procs::BindKind;
use recordtext::{bot_number, number};
use sharelink::MAX_LEAVES;

/// Returns what is wrong with a line of these `words`, except for its spacing, or `None` if it is right.
pub fn doubt_of(words: &[&[u8]]) -> Option<Reason>
    ensures { result ≡ doubt_of (map (λ word. word.now) words.now) }
{
    match words {
        [] => Some(Reason::Unknown),
        [spelling, words @ ..] => match Verb::named(spelling) {
            Some(verb) => verb_doubt(verb, words),
            None => Some(misread(Reason::SpaceBefore, Reason::Unknown, spelling)),
        },
    }
}

// The words after a verb.
fn verb_doubt(verb: Verb, words: &[&[u8]]) -> Option<Reason>
    ensures { result ≡ verb_doubt verb (map (λ word. word.now) words.now) }
{
    match words {
        [] => Some(Reason::Form(verb)),
        [a] => word_doubt(verb, a),
        [a, first, words @ ..] => words_doubt(verb, a, first, words),
    }
}

// VERB A
fn word_doubt(verb: Verb, a: &[u8]) -> Option<Reason>
    ensures { result ≡ word_doubt verb a.now }
{
    match verb {
        Verb::Leaves => leaves_doubt(a),
        Verb::Zone => zone_doubt(a),
        Verb::Deliver => packet_doubt(a),
        Verb::Pump | Verb::Compact | Verb::Restart | Verb::Connect | Verb::Show => bot_doubt(
            Reason::SpaceAfter,
            a,
        ),
        Verb::Ask | Verb::Line | Verb::Clock | Verb::Bind | Verb::Unbind => Some(Reason::Form(
            verb,
        )),
    }
}

// VERB A, and the words after it
fn words_doubt(verb: Verb, a: &[u8], first: &[u8], words: &[&[u8]]) -> Option<Reason>
    ensures { result ≡ words_doubt verb a.now first.now (map (λ word. word.now) words.now) }
{
    match verb {
        Verb::Ask => bot_or(a, ask_doubt(first, words)),
        Verb::Line => bot_or(a, text_doubt(Reason::Form(verb), first, words)),
        Verb::Clock => bot_or(a, clock_doubt(first, words)),
        Verb::Bind => bot_or(a, bind_doubt(first, words)),
        Verb::Unbind => bot_or(a, unbind_doubt(first, words)),
        Verb::Leaves
        | Verb::Pump
        | Verb::Compact
        | Verb::Restart
        | Verb::Connect
        | Verb::Deliver
        | Verb::Show
        | Verb::Zone => Some(Reason::Form(verb)),
    }
}

// What is wrong with the number of a bot that other words follow, or else `other`.
fn bot_or(a: &[u8], other: Option<Reason>) -> Option<Reason>
    ensures { result ≡ first_of (bot_doubt TwoSpaces a.now) other }
{
    match bot_doubt(Reason::TwoSpaces, a) {
        Some(reason) => Some(reason),
        None => other,
    }
}

fn bot_doubt(gap: Reason, a: &[u8]) -> Option<Reason>
    ensures { result ≡ bot_doubt gap a.now }
{
    match bot_number(a) {
        Some(_) => None,
        None => Some(misread(gap, Reason::Bot, a)),
    }
}

// At most 1,000.
fn leaves_doubt(a: &[u8]) -> Option<Reason>
    ensures { result ≡ leaves_doubt a.now }
{
    match bot_number(a) {
        Some(leaves) => {
            if leaves <= MAX_LEAVES {
                None
            } else {
                Some(Reason::Leaves)
            }
        }
        None => Some(misread(Reason::SpaceAfter, Reason::Leaves, a)),
    }
}

fn zone_doubt(rule: &[u8]) -> Option<Reason>
    ensures { result ≡ zone_doubt rule.now }
{
    match Zone::posix(rule) {
        Ok(_) => None,
        Err(_) => Some(misread(Reason::SpaceAfter, Reason::Zone, rule)),
    }
}

fn packet_doubt(a: &[u8]) -> Option<Reason>
    ensures { result ≡ packet_doubt a.now }
{
    match number(a) {
        Some(_) => None,
        None => Some(misread(Reason::SpaceAfter, Reason::Packet, a)),
    }
}

// N
fn clock_doubt(word: &[u8], words: &[&[u8]]) -> Option<Reason>
    ensures { result ≡ clock_doubt word.now (map (λ word. word.now) words.now) }
{
    if words.is_empty() {
        seconds_doubt(word)
    } else {
        Some(Reason::Form(Verb::Clock))
    }
}

fn seconds_doubt(word: &[u8]) -> Option<Reason>
    ensures { result ≡ seconds_doubt word.now }
{
    match number(word) {
        Some(_) => None,
        None => Some(misread(Reason::SpaceAfter, Reason::Seconds, word)),
    }
}

// TYPE FLAGS PROC MASK..
fn bind_doubt(kind: &[u8], words: &[&[u8]]) -> Option<Reason>
    ensures { result ≡ bind_doubt kind.now (map (λ word. word.now) words.now) }
{
    if let Some(reason) = kind_doubt(kind, words) {
        return Some(reason);
    }
    match words {
        [flags, words @ ..] => match gap_doubt(gap_before(words), flags) {
            Some(reason) => Some(reason),
            None => proc_doubt(Verb::Bind, words),
        },
        [] => Some(Reason::Form(Verb::Bind)),
    }
}

// TYPE PROC MASK..
fn unbind_doubt(kind: &[u8], words: &[&[u8]]) -> Option<Reason>
    ensures { result ≡ unbind_doubt kind.now (map (λ word. word.now) words.now) }
{
    match kind_doubt(kind, words) {
        Some(reason) => Some(reason),
        None => proc_doubt(Verb::Unbind, words),
    }
}

// The word of a kind of binds, which these words follow.
fn kind_doubt(kind: &[u8], words: &[&[u8]]) -> Option<Reason>
    ensures { result ≡ kind_doubt kind.now (map (λ word. word.now) words.now) }
{
    match BindKind::of_word(kind) {
        Some(_) => None,
        None => Some(misread(gap_before(words), Reason::Kind, kind)),
    }
}

// PROC MASK..
fn proc_doubt(verb: Verb, words: &[&[u8]]) -> Option<Reason>
    ensures { result ≡ proc_doubt verb (map (λ word. word.now) words.now) }
{
    match words {
        [proc, mask, rest @ ..] => match gap_doubt(Reason::TwoSpaces, proc) {
            Some(reason) => Some(reason),
            None => text_doubt(Reason::Form(verb), mask, rest),
        },
        [] | [_] => Some(Reason::Form(verb)),
    }
}
