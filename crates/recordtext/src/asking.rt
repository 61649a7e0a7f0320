// The changes that words spell: an edit, and perhaps who asks for it.
ghost use Rattle.std.specs.Prelude.{◌≡◌, ◌≢◌, map, option_map, None, IfOk, IfErr};
ghost use Rattle.recordtext.specs.Words.{words_of};
ghost use Rattle.recordtext.specs.Edits.{edit_named};
ghost use Rattle.recordtext.specs.Changes.{asked_as, asked_by, change_named, change_of, in_name, mapping_of};
ghost use Rattle.userfile.specs.Changes.{by_nobody};

use crate::editing::{edit_named, edit_of};
use crate::pieces::first_word;
use bytetext::{NoMemory, Text};
use rfccase::Casemapping;
use std::alloc::Global;
use userfile::{Asker, Change, Edit};

/// Returns the change that `words` spells, with one space between each two words, or `None` if they spell no change.
///
/// # Errors
/// `NoMemory` if memory cannot be allocated; never if the words spell no change.
#[tactic(auto, using(crate::proofs::Asks::some_by_nobody))]
pub fn change_of(alloc: Global, words: &[u8]) -> Result<Option<Change>, NoMemory>
    ensures change { IfOk result (λ change. change ≡ change_of words.now) }
    ensures memory { IfErr result (λ _. change_of words.now ≢ None) }
{
    let (name, rest) = first_word(words);
    if name != b"as".as_slice() {
        return Ok(in_no_name(edit_of(alloc, words)?));
    }
    match rest {
        Some(rest) => asked_in(alloc, rest),
        None => Ok(None),
    }
}

/// Returns the change that is called `name` and has these `words`, or `None` if they spell no change. The change of the
/// name `as` has who asks and the edit in its words.
///
/// # Errors
/// `NoMemory` if memory cannot be allocated; never if the words spell no change.
pub fn change_named(alloc: Global, name: &[u8], words: &[&[u8]]) -> Result<Option<Change>, NoMemory>
    ensures change { IfOk result (λ change. change ≡ change_named name.now (map (λ word. word.now) words.now)) }
    ensures memory { IfErr result (λ _. change_named name.now (map (λ word. word.now) words.now) ≢ None) }
{
    if name == b"as".as_slice() {
        asked_by(alloc, words)
    } else {
        asked_by_nobody(alloc, name, words)
    }
}

// NAME, and the words of the edit, which is asked for in nobody's name.
#[tactic(auto, using(crate::proofs::Asks::some_by_nobody))]
fn asked_by_nobody(alloc: Global, name: &[u8], words: &[&[u8]]) -> Result<Option<Change>, NoMemory>
    ensures change { IfOk result (λ change. change
        ≡ option_map by_nobody (edit_named name.now (map (λ word. word.now) words.now))) }
    ensures memory { IfErr result (λ _. option_map by_nobody (edit_named name.now (map (λ word. word.now) words.now))
        ≢ None) }
{
    Ok(in_no_name(edit_named(alloc, name, words)?))
}

// An edit in nobody's name.
fn in_no_name(edit: Option<Edit>) -> Option<Change>
    ensures { result ≡ option_map by_nobody edit }
{
    Some(Change::by_nobody(edit?))
}

// PERSON, perhaps CASEMAPPING, and the edit, as words.
fn asked_by(alloc: Global, words: &[&[u8]]) -> Result<Option<Change>, NoMemory>
    ensures change { IfOk result (λ change. change ≡ asked_by (map (λ word. word.now) words.now)) }
    ensures memory { IfErr result (λ _. asked_by (map (λ word. word.now) words.now) ≢ None) }
{
    let [person, word, words @ ..] = words else {
        return Ok(None);
    };
    if person.is_empty() {
        return Ok(None);
    }
    let Some(casemapping) = mapping_of(word) else {
        let edit = edit_named(alloc, word, words)?;
        return in_name(alloc, person, Casemapping::Rfc1459, edit);
    };
    let [name, words @ ..] = words else {
        return Ok(None);
    };
    let edit = edit_named(alloc, name, words)?;
    in_name(alloc, person, casemapping, edit)
}

// PERSON, perhaps CASEMAPPING, and the edit, as the rest of a line.
fn asked_in(alloc: Global, words: &[u8]) -> Result<Option<Change>, NoMemory>
    ensures change { IfOk result (λ change. change ≡ asked_by (words_of words.now)) }
    ensures memory { IfErr result (λ _. asked_by (words_of words.now) ≢ None) }
{
    let (person, rest) = first_word(words);
    if person.is_empty() {
        return Ok(None);
    }
    match rest {
        Some(rest) => asked_as(alloc, person, rest),
        None => Ok(None),
    }
}

// Perhaps CASEMAPPING, and the edit.
fn asked_as(alloc: Global, person: &[u8], words: &[u8]) -> Result<Option<Change>, NoMemory>
    ensures change { IfOk result (λ change. change ≡ asked_as person.now (words_of words.now)) }
    ensures memory { IfErr result (λ _. asked_as person.now (words_of words.now) ≢ None) }
{
    let (word, rest) = first_word(words);
    let Some(casemapping) = mapping_of(word) else {
        let edit = edit_of(alloc, words)?;
        return in_name(alloc, person, Casemapping::Rfc1459, edit);
    };
    let Some(rest) = rest else {
        return Ok(None);
    };
    let edit = edit_of(alloc, rest)?;
    in_name(alloc, person, casemapping, edit)
}

// An edit in the name of a person.
fn in_name(
    alloc: Global,
    person: &[u8],
    casemapping: Casemapping,
    edit: Option<Edit>,
) -> Result<Option<Change>, NoMemory>
    ensures change { IfOk result (λ change. change ≡ option_map (in_name person.now casemapping) edit) }
    ensures memory { IfErr result (λ _. edit ≢ None) }
{
    let Some(edit) = edit else {
        return Ok(None);
    };
    let person = Text::from_slice(alloc, person)?;
    let asker = Asker {
        person,
        casemapping,
    };
    Ok(Some(Change::by_person(asker, edit)))
}

/// Returns the casemapping that a server announces by this name: `ascii`, `strict-rfc1459` or `rfc1459`.
pub fn mapping_of(word: &[u8]) -> Option<Casemapping>
    ensures { result ≡ mapping_of word.now }
{
    if word == b"ascii".as_slice() {
        Some(Casemapping::Ascii)
    } else if word == b"strict-rfc1459".as_slice() {
        Some(Casemapping::StrictRfc1459)
    } else if word == b"rfc1459".as_slice() {
        Some(Casemapping::Rfc1459)
    } else {
        None
    }
}
