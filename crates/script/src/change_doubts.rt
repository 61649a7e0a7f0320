// Which word of a change is wrong, or that there are too few or too many.
ghost use Rattle.std.specs.Prelude.{◌≡◌, map, option_map};
ghost use Rattle.script.specs.Askers.{in_name};
ghost use Rattle.script.specs.ChangeDoubts.{ask_doubt, asked_doubt, asker_doubt, ban_doubt, change_doubt, comment_doubt, counted_doubt, expiry_doubt, first_of};
ghost use Rattle.script.specs.ChangeDoubts.{flags_doubt, edit_doubt, four_doubt, gap_doubt, gaps_doubt, info_doubt, mapped_doubt, mark_doubt, one_doubt, text_doubt};
ghost use Rattle.script.specs.ChangeDoubts.{three_doubt, two_doubt};

use crate::change_word::ChangeWord;
use crate::reason::Reason;
use crate::spacing::{gap_before, misread};
use flagexpr::Flags;
use recordtext::{mapping_of, number};

/// Returns what is wrong with the change that is called `name` and has these `words`, or `None` if it is right. The change
/// of the name `as` has who asks and the edit in its words.
pub fn ask_doubt(name: &[u8], words: &[&[u8]]) -> Option<Reason>
    ensures { result ≡ ask_doubt name.now (map (λ word. word.now) words.now) }
{
    if name == b"as".as_slice() {
        asker_doubt(words)
    } else {
        edit_doubt(name, words)
    }
}

// NICK!USER@HOST, perhaps CASEMAPPING, and the edit.
fn asker_doubt(words: &[&[u8]]) -> Option<Reason>
    ensures { result ≡ asker_doubt (map (λ word. word.now) words.now) }
{
    match words {
        [] => Some(Reason::AskerForm),
        [person, words @ ..] => first_of(gap_doubt(gap_before(words), person), asked_doubt(words)),
    }
}

// Perhaps CASEMAPPING, and the edit.
fn asked_doubt(words: &[&[u8]]) -> Option<Reason>
    ensures { result ≡ asked_doubt (map (λ word. word.now) words.now) }
{
    match words {
        [] => Some(Reason::AskerForm),
        [word, words @ ..] => match mapping_of(word) {
            Some(_) => mapped_doubt(words),
            None => in_name(edit_doubt(word, words)),
        },
    }
}

// The edit after who asks and a casemapping.
fn mapped_doubt(words: &[&[u8]]) -> Option<Reason>
    ensures { result ≡ mapped_doubt (map (λ word. word.now) words.now) }
{
    match words {
        [] => Some(Reason::AskerForm),
        [name, words @ ..] => in_name(edit_doubt(name, words)),
    }
}

// What is wrong with an edit that a person asks for: its words stand further on in the line.
fn in_name(reason: Option<Reason>) -> Option<Reason>
    ensures { result ≡ option_map in_name reason }
{
    Some(reason?.in_name())
}

// NAME, and the words of the edit.
fn edit_doubt(name: &[u8], words: &[&[u8]]) -> Option<Reason>
    ensures { result ≡ edit_doubt name.now (map (λ word. word.now) words.now) }
{
    match ChangeWord::named(name) {
        Some(word) => change_doubt(word, words),
        None => Some(misread(gap_before(words), Reason::Change, name)),
    }
}

// What is wrong with the words of a change.
fn change_doubt(word: ChangeWord, words: &[&[u8]]) -> Option<Reason>
    ensures { result ≡ change_doubt word (map (λ word. word.now) words.now) }
{
    match word {
        ChangeWord::Info => info_doubt(words),
        ChangeWord::AddUser
        | ChangeWord::DelUser
        | ChangeWord::AddHost
        | ChangeWord::DelHost
        | ChangeWord::DelBan
        | ChangeWord::Global
        | ChangeWord::Bot
        | ChangeWord::Chan
        | ChangeWord::AddBan
        | ChangeWord::Sticky => counted_doubt(word, words),
    }
}

// info H, and the text
fn info_doubt(words: &[&[u8]]) -> Option<Reason>
    ensures { result ≡ info_doubt (map (λ word. word.now) words.now) }
{
    match words {
        [] => Some(Reason::ChangeForm(ChangeWord::Info)),
        [h, text @ ..] => first_of(
            gap_doubt(gap_before(text), h),
            comment_doubt(ChangeWord::Info, text),
        ),
    }
}

// Every change but info, by its number of words.
fn counted_doubt(word: ChangeWord, words: &[&[u8]]) -> Option<Reason>
    ensures { result ≡ counted_doubt word (map (λ word. word.now) words.now) }
{
    match words {
        [] => Some(Reason::ChangeForm(word)),
        [a] => one_doubt(word, a),
        [a, b] => two_doubt(word, a, b),
        [a, b, c] => three_doubt(word, a, b, c),
        [a, b, c, d, comment @ ..] => four_doubt(word, a, b, c, d, comment),
    }
}

// adduser H, deluser H
fn one_doubt(word: ChangeWord, h: &[u8]) -> Option<Reason>
    ensures { result ≡ one_doubt word h.now }
{
    match word {
        ChangeWord::AddUser | ChangeWord::DelUser => gap_doubt(Reason::SpaceAfter, h),
        ChangeWord::AddHost
        | ChangeWord::DelHost
        | ChangeWord::DelBan
        | ChangeWord::Global
        | ChangeWord::Bot
        | ChangeWord::Chan
        | ChangeWord::AddBan
        | ChangeWord::Info
        | ChangeWord::Sticky => Some(Reason::ChangeForm(word)),
    }
}

// addhost H M, delhost H M, delban C M, global H F, bot H F
fn two_doubt(word: ChangeWord, a: &[u8], b: &[u8]) -> Option<Reason>
    ensures { result ≡ two_doubt word a.now b.now }
{
    match word {
        ChangeWord::AddHost | ChangeWord::DelHost | ChangeWord::DelBan => first_of(
            gap_doubt(Reason::TwoSpaces, a),
            gap_doubt(Reason::SpaceAfter, b),
        ),
        ChangeWord::Global | ChangeWord::Bot => first_of(
            gap_doubt(Reason::TwoSpaces, a),
            flags_doubt(Reason::Flags, b),
        ),
        ChangeWord::AddUser
        | ChangeWord::DelUser
        | ChangeWord::Chan
        | ChangeWord::AddBan
        | ChangeWord::Info
        | ChangeWord::Sticky => Some(Reason::ChangeForm(word)),
    }
}

// chan H C F, sticky C M N
fn three_doubt(word: ChangeWord, a: &[u8], b: &[u8], c: &[u8]) -> Option<Reason>
    ensures { result ≡ three_doubt word a.now b.now c.now }
{
    match word {
        ChangeWord::Chan => first_of(gaps_doubt(a, b), flags_doubt(Reason::ChannelFlags, c)),
        ChangeWord::Sticky => first_of(gaps_doubt(a, b), mark_doubt(c)),
        ChangeWord::AddUser
        | ChangeWord::DelUser
        | ChangeWord::AddHost
        | ChangeWord::DelHost
        | ChangeWord::DelBan
        | ChangeWord::Global
        | ChangeWord::Bot
        | ChangeWord::AddBan
        | ChangeWord::Info => Some(Reason::ChangeForm(word)),
    }
}

// Two words that others follow; neither may be empty.
fn gaps_doubt(a: &[u8], b: &[u8]) -> Option<Reason>
    ensures { result ≡ gaps_doubt a.now b.now }
{
    first_of(
        gap_doubt(Reason::TwoSpaces, a),
        gap_doubt(Reason::TwoSpaces, b),
    )
}

// addban C M H E, and the comment
fn four_doubt(
    word: ChangeWord,
    c: &[u8],
    m: &[u8],
    h: &[u8],
    e: &[u8],
    comment: &[&[u8]],
) -> Option<Reason>
    ensures { result ≡ four_doubt word c.now m.now h.now e.now (map (λ word. word.now) comment.now) }
{
    match word {
        ChangeWord::AddBan => first_of(
            ban_doubt(c, m, h),
            first_of(
                expiry_doubt(gap_before(comment), e),
                comment_doubt(word, comment),
            ),
        ),
        ChangeWord::AddUser
        | ChangeWord::DelUser
        | ChangeWord::AddHost
        | ChangeWord::DelHost
        | ChangeWord::DelBan
        | ChangeWord::Global
        | ChangeWord::Bot
        | ChangeWord::Chan
        | ChangeWord::Info
        | ChangeWord::Sticky => Some(Reason::ChangeForm(word)),
    }
}

fn ban_doubt(c: &[u8], m: &[u8], h: &[u8]) -> Option<Reason>
    ensures { result ≡ ban_doubt c.now m.now h.now }
{
    first_of(
        gap_doubt(Reason::TwoSpaces, c),
        first_of(
            gap_doubt(Reason::TwoSpaces, m),
            gap_doubt(Reason::TwoSpaces, h),
        ),
    )
}

fn expiry_doubt(gap: Reason, e: &[u8]) -> Option<Reason>
    ensures { result ≡ expiry_doubt gap e.now }
{
    match number(e) {
        Some(_) => None,
        None => Some(misread(gap, Reason::Expiry, e)),
    }
}

// Whether a ban is sticky.
fn mark_doubt(n: &[u8]) -> Option<Reason>
    ensures { result ≡ mark_doubt n.now }
{
    match number(n) {
        Some(0 | 1) => None,
        Some(_) | None => Some(misread(Reason::SpaceAfter, Reason::Mark, n)),
    }
}

// A comment, and likewise an info, is the rest of the line. It may be left out, but not be empty.
fn comment_doubt(word: ChangeWord, comment: &[&[u8]]) -> Option<Reason>
    ensures { result ≡ comment_doubt word (map (λ word. word.now) comment.now) }
{
    match comment {
        [] => None,
        [first, rest @ ..] => text_doubt(Reason::ChangeForm(word), first, rest),
    }
}

// Flags, the last word of a change.
fn flags_doubt(reason: Reason, word: &[u8]) -> Option<Reason>
    ensures { result ≡ flags_doubt reason word.now }
{
    if word.is_empty() {
        return Some(Reason::SpaceAfter);
    }
    match Flags::parse(word) {
        Ok(_) => None,
        Err(_) => Some(misread(Reason::SpaceAfter, reason, word)),
    }
}

/// Returns `gap` if `word` is empty, and `None` otherwise: the word may be any other.
pub fn gap_doubt(gap: Reason, word: &[u8]) -> Option<Reason>
    ensures { result ≡ gap_doubt gap word.now }
{
    if word.is_empty() { Some(gap) } else { None }
}

/// Returns `reason` if a last word that takes the rest of the line, `first` and `rest`, is empty.
pub fn text_doubt(reason: Reason, first: &[u8], rest: &[&[u8]]) -> Option<Reason>
    ensures { result ≡ text_doubt reason first.now (map (λ word. word.now) rest.now) }
{
    if first.is_empty() && rest.is_empty() {
        Some(reason)
    } else {
        None
    }
}

/// Returns `one` if it is a reason, and `other` otherwise.
pub fn first_of(one: Option<Reason>, other: Option<Reason>) -> Option<Reason>
    ensures { result ≡ first_of one other }
{
    match one {
        Some(reason) => Some(reason),
        None => other,
    }
}
