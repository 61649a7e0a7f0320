// The edits that words spell.
ghost use Rattle.std.specs.Prelude.{◌≡◌, ◌≢◌, ◌∷◌, map, option_map, None, IfOk, IfErr};
ghost use Rattle.userfile.specs.declared.edit.Edit.{Edit};
ghost use Rattle.userfile.specs.declared.edit.Edit.TheVariants.{SetChan, SetInfo, SetSticky};
ghost use Rattle.recordtext.specs.Edits.{by_more_words, by_one_word, by_three_words, by_two_words, info_by_words, pair_of};
ghost use Rattle.recordtext.specs.Edits.{edit_named, edit_of, channel_of, comment_of, flags_of, mark_of};

use crate::numeral::number;
use crate::pieces::first_word;
use crate::rest::rest_of;
use bytetext::{NoMemory, Text};
use flagexpr::Flags;
use std::alloc::Global;
use userfile::Edit;

/// The edits that have two words after their name.
#[derive(Clone, Copy)]
pub enum TwoWords {
    AddHost,
    DelHost,
    DelBan,
    Global,
    Bot,
}

/// Returns the edit that `words` spells, with one space between each two words, or `None` if they spell no edit.
///
/// # Errors
/// `NoMemory` if memory cannot be allocated; never if the words spell no edit.
pub fn edit_of(alloc: Global, words: &[u8]) -> Result<Option<Edit>, NoMemory>
    ensures edit { IfOk result (λ edit. edit ≡ edit_of words.now) }
    ensures memory { IfErr result (λ _. edit_of words.now ≢ None) }
{
    let (name, rest) = first_word(words);
    let Some(rest) = rest else {
        return edit_named(alloc, name, &[]);
    };
    let (a, rest) = first_word(rest);
    let Some(rest) = rest else {
        return edit_named(alloc, name, &[a]);
    };
    let (b, rest) = first_word(rest);
    let Some(rest) = rest else {
        return edit_named(alloc, name, &[a, b]);
    };
    let (c, rest) = first_word(rest);
    let Some(rest) = rest else {
        return edit_named(alloc, name, &[a, b, c]);
    };
    let (d, rest) = first_word(rest);
    let Some(rest) = rest else {
        return edit_named(alloc, name, &[a, b, c, d]);
    };
    // Only a text can follow four words, and it takes the rest of the line.
    edit_named(alloc, name, &[a, b, c, d, rest])
}

/// Returns the edit that is called `name` and has these `words`, or `None` if they spell no edit.
///
/// # Errors
/// `NoMemory` if memory cannot be allocated; never if the words spell no edit.
pub fn edit_named(alloc: Global, name: &[u8], words: &[&[u8]]) -> Result<Option<Edit>, NoMemory>
    ensures edit { IfOk result (λ edit. edit ≡ edit_named name.now (map (λ word. word.now) words.now)) }
    ensures memory { IfErr result (λ _. edit_named name.now (map (λ word. word.now) words.now) ≢ None) }
{
    if name == b"info".as_slice() {
        return match words {
            [] => Ok(None),
            [h, text @ ..] => set_info(alloc, h, text),
        };
    }
    match words {
        [] => Ok(None),
        [h] => by_one_word(alloc, name, h),
        [a, b] => by_two_words(alloc, name, a, b),
        [a, b, c] => by_three_words(alloc, name, a, b, c),
        [a, b, c, d, comment @ ..] => by_more_words(alloc, name, a, b, c, d, comment),
    }
}

// info H, and the text.
fn set_info(alloc: Global, h: &[u8], words: &[&[u8]]) -> Result<Option<Edit>, NoMemory>
    ensures edit { IfOk result (λ edit. edit ≡ info_by_words (h.now ∷ map (λ word. word.now) words.now)) }
    ensures memory { IfErr result (λ _. info_by_words (h.now ∷ map (λ word. word.now) words.now) ≢ None) }
{
    if h.is_empty() {
        return Ok(None);
    }
    let Some(info) = comment_of(alloc, words)? else {
        return Ok(None);
    };
    let handle = Text::from_slice(alloc, h)?;
    Ok(Some(Edit::SetInfo { handle, info }))
}

// NAME H
fn by_one_word(alloc: Global, name: &[u8], h: &[u8]) -> Result<Option<Edit>, NoMemory>
    ensures edit { IfOk result (λ edit. edit ≡ by_one_word name.now h.now) }
    ensures memory { IfErr result (λ _. by_one_word name.now h.now ≢ None) }
{
    if h.is_empty() {
        return Ok(None);
    }
    if name == b"adduser".as_slice() {
        let handle = Text::from_slice(alloc, h)?;
        Ok(Some(Edit::AddUser { handle }))
    } else if name == b"deluser".as_slice() {
        let handle = Text::from_slice(alloc, h)?;
        Ok(Some(Edit::DelUser { handle }))
    } else {
        Ok(None)
    }
}

// addhost H M, delhost H M, delban C M, global H F, bot H F
fn by_two_words(alloc: Global, name: &[u8], a: &[u8], b: &[u8]) -> Result<Option<Edit>, NoMemory>
    ensures edit { IfOk result (λ edit. edit ≡ by_two_words name.now a.now b.now) }
    ensures memory { IfErr result (λ _. by_two_words name.now a.now b.now ≢ None) }
{
    if a.is_empty() || b.is_empty() {
        return Ok(None);
    }
    match pair_of(name) {
        Some(TwoWords::AddHost) => add_host(alloc, a, b),
        Some(TwoWords::DelHost) => del_host(alloc, a, b),
        Some(TwoWords::DelBan) => del_ban(alloc, a, b),
        Some(TwoWords::Global) => set_global(alloc, a, flags_of(b)),
        Some(TwoWords::Bot) => set_bot(alloc, a, flags_of(b)),
        None => Ok(None),
    }
}

// The edit of two words that has this name.
fn pair_of(name: &[u8]) -> Option<TwoWords>
    ensures { result ≡ pair_of name.now }
{
    if name == b"addhost".as_slice() {
        Some(TwoWords::AddHost)
    } else if name == b"delhost".as_slice() {
        Some(TwoWords::DelHost)
    } else if name == b"delban".as_slice() {
        Some(TwoWords::DelBan)
    } else if name == b"global".as_slice() {
        Some(TwoWords::Global)
    } else if name == b"bot".as_slice() {
        Some(TwoWords::Bot)
    } else {
        None
    }
}

fn add_host(alloc: Global, h: &[u8], m: &[u8]) -> Result<Option<Edit>, NoMemory>
    ensures { IfOk result (λ edit. edit ≡ Some (Edit.AddHost h.now m.now)) }
{
    let handle = Text::from_slice(alloc, h)?;
    let mask = Text::from_slice(alloc, m)?;
    Ok(Some(Edit::AddHost { handle, mask }))
}

fn del_host(alloc: Global, h: &[u8], m: &[u8]) -> Result<Option<Edit>, NoMemory>
    ensures { IfOk result (λ edit. edit ≡ Some (Edit.DelHost h.now m.now)) }
{
    let handle = Text::from_slice(alloc, h)?;
    let mask = Text::from_slice(alloc, m)?;
    Ok(Some(Edit::DelHost { handle, mask }))
}

fn del_ban(alloc: Global, c: &[u8], m: &[u8]) -> Result<Option<Edit>, NoMemory>
    ensures { IfOk result (λ edit. edit ≡ Some (Edit.DelBan (channel_of c.now) m.now)) }
{
    let channel = Text::from_slice(alloc, channel_of(c))?;
    let mask = Text::from_slice(alloc, m)?;
    Ok(Some(Edit::DelBan { channel, mask }))
}

fn set_global(alloc: Global, h: &[u8], flags: Option<Flags>) -> Result<Option<Edit>, NoMemory>
    ensures edit { IfOk result (λ edit. edit ≡ option_map (λ f. Edit.SetGlobal h.now f) flags) }
    ensures memory { IfErr result (λ _. flags ≢ None) }
{
    let Some(flags) = flags else {
        return Ok(None);
    };
    let handle = Text::from_slice(alloc, h)?;
    Ok(Some(Edit::SetGlobal { handle, flags }))
}

fn set_bot(alloc: Global, h: &[u8], flags: Option<Flags>) -> Result<Option<Edit>, NoMemory>
    ensures edit { IfOk result (λ edit. edit ≡ option_map (λ f. Edit.SetBot h.now f) flags) }
    ensures memory { IfErr result (λ _. flags ≢ None) }
{
    let Some(flags) = flags else {
        return Ok(None);
    };
    let handle = Text::from_slice(alloc, h)?;
    Ok(Some(Edit::SetBot { handle, flags }))
}

// chan H C F, sticky C M N
fn by_three_words(
    alloc: Global,
    name: &[u8],
    a: &[u8],
    b: &[u8],
    c: &[u8],
) -> Result<Option<Edit>, NoMemory>
    ensures edit { IfOk result (λ edit. edit ≡ by_three_words name.now a.now b.now c.now) }
    ensures memory { IfErr result (λ _. by_three_words name.now a.now b.now c.now ≢ None) }
{
    if a.is_empty() || b.is_empty() || c.is_empty() {
        return Ok(None);
    }
    if name == b"chan".as_slice() {
        set_chan(alloc, a, b, flags_of(c))
    } else if name == b"sticky".as_slice() {
        set_sticky(alloc, a, b, mark_of(c))
    } else {
        Ok(None)
    }
}

fn set_chan(
    alloc: Global,
    h: &[u8],
    c: &[u8],
    flags: Option<Flags>,
) -> Result<Option<Edit>, NoMemory>
    ensures edit { IfOk result (λ edit. edit ≡ option_map (SetChan h.now c.now) flags) }
    ensures memory { IfErr result (λ _. flags ≢ None) }
{
    let Some(flags) = flags else {
        return Ok(None);
    };
    let handle = Text::from_slice(alloc, h)?;
    let channel = Text::from_slice(alloc, c)?;
    Ok(Some(Edit::SetChan {
        handle,
        channel,
        flags,
    }))
}

fn set_sticky(
    alloc: Global,
    c: &[u8],
    m: &[u8],
    mark: Option<bool>,
) -> Result<Option<Edit>, NoMemory>
    ensures edit { IfOk result (λ edit. edit ≡ option_map (SetSticky (channel_of c.now) m.now) mark) }
    ensures memory { IfErr result (λ _. mark ≢ None) }
{
    let Some(on) = mark else {
        return Ok(None);
    };
    let channel = Text::from_slice(alloc, channel_of(c))?;
    let mask = Text::from_slice(alloc, m)?;
    Ok(Some(Edit::SetSticky { channel, mask, on }))
}

// addban C M H E, and the comment.
fn by_more_words(
    alloc: Global,
    name: &[u8],
    c: &[u8],
    m: &[u8],
    h: &[u8],
    e: &[u8],
    words: &[&[u8]],
) -> Result<Option<Edit>, NoMemory>
    ensures edit { IfOk result (λ edit. edit ≡ by_more_words name.now c.now m.now h.now e.now
        (map (λ word. word.now) words.now)) }
    ensures memory { IfErr result (λ _. by_more_words name.now c.now m.now h.now e.now
        (map (λ word. word.now) words.now) ≢ None) }
{
    if c.is_empty() || m.is_empty() || h.is_empty() || name != b"addban".as_slice() {
        return Ok(None);
    }
    let Some(expires) = number(e) else {
        return Ok(None);
    };
    let Some(comment) = comment_of(alloc, words)? else {
        return Ok(None);
    };
    Ok(Some(Edit::AddBan {
        channel: Text::from_slice(alloc, channel_of(c))?,
        mask: Text::from_slice(alloc, m)?,
        creator: Text::from_slice(alloc, h)?,
        expires,
        comment,
    }))
}

// Letters, or - for no flags.
fn flags_of(word: &[u8]) -> Option<Flags>
    ensures { result ≡ flags_of word.now }
{
    match Flags::parse(word) {
        Ok(flags) => Some(flags),
        Err(_) => None,
    }
}

// The channel of a ban: `*` means all of them.
fn channel_of(word: &[u8]) -> &[u8]
    ensures { result.now ≡ channel_of word.now }
{
    if word == b"*".as_slice() { b"" } else { word }
}

// Whether a ban is sticky: 1 if it is, 0 if it is not.
fn mark_of(word: &[u8]) -> Option<bool>
    ensures { result ≡ mark_of word.now }
{
    let number = number(word)?;
    if number < 2 { Some(number == 1) } else { None }
}

// A comment is the rest of the line. It may be left out, but not be empty.
fn comment_of(alloc: Global, words: &[&[u8]]) -> Result<Option<Text>, NoMemory>
    ensures comment { IfOk result (λ comment. comment ≡ comment_of (map (λ word. word.now) words.now)) }
    ensures memory { IfErr result (λ _. comment_of (map (λ word. word.now) words.now) ≢ None) }
{
    match words {
        [] => Ok(Some(Text::empty(alloc))),
        [first, rest @ ..] => rest_of(alloc, first, rest),
    }
}
