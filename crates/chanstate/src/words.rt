// The parts of a parameter: channels separated by commas, names separated by spaces.
ghost use Rattle.std.specs.Prelude.{◌≡◌, ◌≤◌, length, IfOk, IfErr, is_some, true, [], take, drop, codes};
ghost use Rattle.std.specs.List.{slice_get};
ghost use Rattle.std.specs.Option.{option_copied, option_map};
ghost use Rattle.chanstate.specs.Items.{account_but, signs_len, shown_by, named, entry_of, last_of};
ghost use Rattle.chanstate.specs.Given.{text_at};
ghost use Rattle.chanstate.specs.Seen.{entry_seen};

use crate::member::Member;
use crate::support::{Support, cut};
use bytetext::{NoMemory, Text};
use std::alloc::Global;

/// Returns the parameter at `index` of `params`, from 0.
pub fn param(params: &[Text], index: usize) -> Option<&[u8]>
    ensures { option_copied result ≡ slice_get params.now index }
{
    match params.get(index) {
        Some(text) => Some(text.as_bytes()),
        None => None,
    }
}

/// Returns the parameter at `index` of `params`, from 0, or an empty text if it is missing.
pub fn text_at(params: &[Text], index: usize) -> &[u8]
    ensures { result.now ≡ text_at params.now index }
{
    match params.get(index) {
        Some(text) => text.as_bytes(),
        None => b"",
    }
}

/// Returns the account that `text` names; empty if `text` is `none`.
pub fn account_but<'a>(none: &[u8], text: &'a [u8]) -> &'a [u8]
    ensures { result.now ≡ account_but none.now text.now }
{
    if text == none { b"" } else { text }
}

/// Returns the account that the parameters of a JOIN name with the capability extended-join.
pub fn account_at_join(params: &[Text]) -> Option<&[u8]>
    ensures { option_copied result ≡ option_map (account_but (codes "*")) (slice_get params.now 1) }
{
    match param(params, 1) {
        Some(account) => Some(account_but(b"*", account)),
        None => None,
    }
}

/// Returns the last of `params`.
pub fn last(params: &[Text]) -> Option<&[u8]>
    ensures { option_copied result ≡ last_of params.now }
{
    match params.last() {
        Some(text) => Some(text.as_bytes()),
        None => None,
    }
}

/// Returns those of `params` from the place `from` on.
pub fn params_from(params: &[Text], from: usize) -> &[Text]
    ensures { result.now ≡ drop from params.now }
{
    if from < params.len() {
        &params[from..]
    } else {
        &[]
    }
}

// Returns how many signs stand before the nick.
fn count_signs(support: &Support, word: &[u8]) -> usize
    ensures value { result ≡ signs_len support.now word.now }
    ensures within { result ≤ length word.now }
{
    let mut count = 0;
    while count < word.len() && support.is_sign(word[count]) {
        count += 1;
    }
    count
}

/// Splits `word` of a list of names into its signs and what stands after them. `support` says which bytes are signs.
pub fn split_signs<'a>(support: &Support, word: &'a [u8]) -> (&'a [u8], &'a [u8])
    ensures signs { result.0.now ≡ take (signs_len support.now word.now) word.now }
    ensures rest { result.1.now ≡ drop (signs_len support.now word.now) word.now }
{
    word.split_at(count_signs(support, word))
}

/// Whom a word of a list of names names after the signs.
#[derive(Clone, Copy)]
pub struct Listing<'a> {
    pub(crate) nick: &'a [u8],
    // Empty if the word has no address.
    pub(crate) user: &'a [u8],
    pub(crate) host: &'a [u8],
}

/// Splits `text`, which is a nick or `nick!user@host`.
pub fn split_entry(text: &[u8]) -> Listing<'_>
    ensures { entry_seen result ≡ entry_of text.now }
{
    let Some((nick, rest)) = cut(text, b'!') else {
        return Listing {
            nick: text,
            user: b"",
            host: b"",
        };
    };
    match cut(rest, b'@') {
        Some((user, host)) => Listing { nick, user, host },
        None => Listing {
            nick,
            user: b"",
            host: b"",
        },
    }
}

/// Creates a member without nick and address, with the marks that `signs` stand for. Allocates nothing.
pub fn marks_of(alloc: Global, signs: &[u8]) -> Member
    ensures { result ≡ shown_by signs.now (record { nick = []; user = []; host = [] }) }
{
    let empty = Text::empty(alloc);
    shown(alloc, signs, empty, Text::empty(alloc), Text::empty(alloc))
}

// Creates a member with the marks that `signs` stand for. Allocates nothing.
fn shown(alloc: Global, signs: &[u8], nick: Text, user: Text, host: Text) -> Member
    ensures { result ≡ shown_by signs.now (record { nick = nick; user = user; host = host }) }
{
    Member {
        nick,
        user,
        host,
        account: Text::empty(alloc),
        op: signs.contains(&b'@'),
        voice: signs.contains(&b'+'),
        half_op: signs.contains(&b'%'),
    }
}

/// Returns the member that `word` of a list of names shows; `None` if no nick follows the signs. `support` says which
/// bytes are signs.
///
/// # Errors
/// Returns `NoMemory` if the nick or the address can't be allocated, never if no nick follows the signs.
pub fn named_member(
    alloc: Global,
    support: &Support,
    word: &[u8],
) -> Result<Option<Member>, NoMemory>
    ensures named { IfOk result (λ one. one ≡ named support.now word.now) }
    ensures memory { IfErr result (λ _. is_some (named support.now word.now) ≡ true) }
{
    let (signs, text) = split_signs(support, word);
    let entry = split_entry(text);
    if entry.nick.is_empty() {
        return Ok(None);
    }
    let nick = Text::from_slice(alloc, entry.nick)?;
    let user = Text::from_slice(alloc, entry.user)?;
    let host = Text::from_slice(alloc, entry.host)?;
    Ok(Some(shown(alloc, signs, nick, user, host)))
}
