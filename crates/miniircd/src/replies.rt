// Replies to a client, and lines for the members of a channel.
ghost use Rattle.std.specs.Prelude.{◌≡◌, ◌∷◌, [], OnOk};
ghost use Rattle.miniircd.specs.Mail.{posted, readers};
ghost use Rattle.miniircd.specs.Lines.{repeated, told, spread, others};

use crate::channel_edit::without;
use crate::client_identity::ClientIdentity;
use crate::lines::{numbered, repeated};
use crate::member::ServerMember;
use crate::post::Post;
use bytetext::NoMemory;
use std::alloc::Global;

/// The client whose line is answered.
#[derive(Clone, Copy)]
pub struct Sender<'a> {
    /// Its number.
    pub key: usize,
    /// What the server knows of it.
    pub person: &'a ClientIdentity,
}

/// Appends to `post` the reply to the sender `me` with the number `code`. `words` have a space before each, and `last`
/// is the last parameter.
pub fn tell(
    alloc: Global,
    post: &mut Post<'_>,
    me: &Sender<'_>,
    code: &[u8],
    words: &[u8],
    last: &[u8],
) -> Result<(), NoMemory>
    ensures told { OnOk result (post.new
        ≡ posted (told me.now.key me.now.person.now code.now words.now last.now ∷ []) post.old) }
    ensures readers { OnOk result (readers post.new ≡ readers post.old) }
{
    let line = numbered(alloc, me.person.nick.as_bytes(), code, words, last)?;
    post.send(alloc, me.key, line.as_slice())
}

/// Appends to `post` the reply to the sender `me` with the number `code`, which repeats `word`. `last` is the last
/// parameter.
pub fn tell_of(
    alloc: Global,
    post: &mut Post<'_>,
    me: &Sender<'_>,
    code: &[u8],
    word: &[u8],
    last: &[u8],
) -> Result<(), NoMemory>
    ensures told { OnOk result (post.new
        ≡ posted (told me.now.key me.now.person.now code.now (repeated word.now) last.now ∷ []) post.old) }
    ensures readers { OnOk result (readers post.new ≡ readers post.old) }
{
    let words = repeated(alloc, word)?;
    tell(alloc, post, me, code, words.as_slice(), last)
}

/// Appends to `post` the line `text` for each of `members`.
pub fn spread(
    alloc: Global,
    post: &mut Post<'_>,
    members: &[ServerMember],
    text: &[u8],
) -> Result<(), NoMemory>
    ensures told { OnOk result (post.new ≡ posted (spread text.now members.now) post.old) }
    ensures readers { OnOk result (readers post.new ≡ readers post.old) }
{
    for member in members {
        post.send(alloc, member.client, text)?;
    }
    Ok(())
}

/// Appends to `post` the line `text` for each of `members` except `client`.
pub fn spread_to_others(
    alloc: Global,
    post: &mut Post<'_>,
    members: &[ServerMember],
    client: usize,
    text: &[u8],
) -> Result<(), NoMemory>
    ensures told { OnOk result (post.new ≡ posted (spread text.now (others client members.now)) post.old) }
    ensures readers { OnOk result (readers post.new ≡ readers post.old) }
{
    let others = without(alloc, members, client)?;
    spread(alloc, post, others.as_slice(), text)
}
