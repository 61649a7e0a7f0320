// The replies that list the members of a channel (RFC 2812 section 5.1, replies 353 and 366).
ghost use Rattle.std.specs.Prelude.{◌≡◌, ◌<◌, ◌+◌, ◌-◌, ◌*◌, ◌/◌, ◌++◌, ◌∷◌, [], length, take, drop, IfOk, OnOk, codes};
ghost use Rattle.std.specs.List.{flat_map};
ghost use Rattle.std.specs.Option.{option_copied};
ghost use Rattle.miniircd.specs.Mail.{posted, readers};
ghost use Rattle.miniircd.specs.Lines.{marks, name_of, names_of, repeated, listed, listing};

use crate::client_identity::ClientIdentity;
use crate::lines::repeated;
use crate::member::ServerMember;
use crate::post::Post;
use crate::replies::{Sender, tell, tell_of};
use bytetext::{NoMemory, Text};
use slab::Slab;
use std::alloc::Global;

// How many names a line has.
const NAMES_IN_A_LINE: usize = 10;

/// Returns the mark before the nick of `member`.
pub fn marks(member: &ServerMember) -> &'static [u8]
    ensures { result.now ≡ marks member.now }
{
    if member.op {
        b"@"
    } else if member.voice {
        b"+"
    } else {
        b""
    }
}

/// Returns `name`, a nick or the name of a channel, after the marks of `member`.
///
/// # Errors
/// Returns `NoMemory` if an allocation fails.
pub fn marked_name(alloc: Global, member: &ServerMember, name: &[u8]) -> Result<Text, NoMemory>
    ensures { IfOk result (λ marked. marked ≡ marks member.now ++ name.now) }
{
    let mut marked = Vec::from_slice(alloc, marks(member))?;
    marked.extend_from_slice(name)?;
    Ok(Text::new(marked))
}

// Appends the name of a member to `names`.
fn push_name(
    alloc: Global,
    names: &mut Vec<Text>,
    member: &ServerMember,
    person: Option<&ClientIdentity>,
) -> Result<(), NoMemory>
    ensures { OnOk result (names.new.items ≡ names.old.items ++ name_of (option_copied person.entry) member.now) }
{
    if let Some(person) = person {
        names.push(marked_name(alloc, member, person.nick.as_bytes())?)?;
    }
    Ok(())
}

// Returns the nicks of these members with their marks.
fn names_of(
    alloc: Global,
    clients: &Slab<ClientIdentity>,
    members: &[ServerMember],
) -> Result<Vec<Text>, NoMemory>
    ensures { IfOk result (λ names. names.items ≡ names_of clients.now.slots members.now) }
{
    let mut names = Vec::with_capacity(alloc, members.len())?;
    for member in members {
        push_name(alloc, &mut names, member, clients.get(member.client))?;
    }
    Ok(names)
}

// Returns `names` with a space before each.
fn spaced(alloc: Global, names: &[Text]) -> Result<Vec<u8>, NoMemory>
    ensures { IfOk result (λ text. text.items ≡ flat_map (λ name. 32 ∷ name) names.now) }
{
    let mut text = Vec::new(alloc);
    for name in names {
        text.push(b' ')?;
        text.extend_from_slice(name.as_bytes())?;
    }
    Ok(text)
}

// Returns the names from place `i` on, as many as stand in a line.
fn names_at(names: &[Text], i: usize) -> &[Text]
    requires { i < (length names.now + 10 - 1) / 10 }
    ensures { result.now ≡ take 10 (drop (10 * i) names.now) }
{
    let rest = &names[NAMES_IN_A_LINE * i..];
    &rest[..NAMES_IN_A_LINE.min(rest.len())]
}

// Returns the words of a line of names, with a space before each.
fn words_of(alloc: Global, name: &[u8]) -> Result<Vec<u8>, NoMemory>
    ensures { IfOk result (λ words. words.items ≡ codes " =" ++ repeated name.now) }
{
    let mut words = Vec::from_slice(alloc, b" =")?;
    words.extend_from_slice(repeated(alloc, name)?.as_slice())?;
    Ok(words)
}

// Sends one line of names.
fn list_line(
    alloc: Global,
    post: &mut Post<'_>,
    me: &Sender<'_>,
    name: &[u8],
    names: &[Text],
    i: usize,
) -> Result<(), NoMemory>
    requires { i < (length names.now + 10 - 1) / 10 }
    ensures { OnOk result (post.new ≡ posted (listed me.now.key me.now.person.now name.now names.now i ∷ []) post.old) }
{
    let words = words_of(alloc, name)?;
    let text = spaced(alloc, names_at(names, i))?;
    let row = match text.as_slice() {
        [] => b"",
        [_, row @ ..] => row,
    };
    tell(alloc, post, me, b"353", words.as_slice(), row)
}

// Sends names, ten in a line, and the reply that ends them.
fn list_names(
    alloc: Global,
    post: &mut Post<'_>,
    me: &Sender<'_>,
    name: &[u8],
    names: &[Text],
) -> Result<(), NoMemory>
    ensures told { OnOk result (post.new ≡ posted (listing me.now.key me.now.person.now name.now names.now) post.old) }
    ensures readers { OnOk result (readers post.new ≡ readers post.old) }
{
    for i in 0..(names.len() + NAMES_IN_A_LINE - 1) / NAMES_IN_A_LINE {
        list_line(alloc, post, me, name, names, i)?;
    }
    tell_of(alloc, post, me, b"366", name, b"End of names")?;
    Ok(())
}

/// Sends the names of `members`, who are on the channel `name`, to the client `me`.
///
/// # Errors
/// Returns `NoMemory` if an allocation fails.
pub fn tell_names(
    alloc: Global,
    post: &mut Post<'_>,
    clients: &Slab<ClientIdentity>,
    me: &Sender<'_>,
    name: &[u8],
    members: &[ServerMember],
) -> Result<(), NoMemory>
    ensures told { OnOk result (post.new
        ≡ posted (listing me.now.key me.now.person.now name.now (names_of clients.now.slots members.now)) post.old) }
    ensures readers { OnOk result (readers post.new ≡ readers post.old) }
{
    let names = names_of(alloc, clients, members)?;
    list_names(alloc, post, me, name, names.as_slice())
}
