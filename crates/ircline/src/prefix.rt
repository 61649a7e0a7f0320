// The parts of a prefix.
ghost use Rattle.std.specs.Prelude.{◌≡◌};
ghost use Rattle.ircline.specs.Sources.{source_of, nick_of};
ghost use Rattle.ircline.specs.View.{seen};

use crate::person::Person;
use crate::sources::Source;
use crate::words::halves;

/// Returns the source that `prefix` names. The prefix is split at its first `!` and the first `@` after that; without
/// `!`, at its first `@`. A prefix with neither is a server's name if it holds a dot, else a nick. Does not allocate.
pub fn source(prefix: &[u8]) -> Source<'_>
    ensures { seen result ≡ source_of prefix.now }
{
    if prefix.is_empty() {
        return Source::None;
    }
    match halves(prefix, b'!') {
        Some((nick, behind)) => {
            let (user, host) = halves(behind, b'@').unwrap_or((behind, b""));
            Source::Person(Person { nick, user, host })
        }
        None => match halves(prefix, b'@') {
            Some((nick, host)) => Source::Person(Person {
                nick,
                user: b"",
                host,
            }),
            None if prefix.contains(&b'.') => Source::Server(prefix),
            None => Source::Person(Person {
                nick: prefix,
                user: b"",
                host: b"",
            }),
        },
    }
}

/// Returns the nick or the server's name of `prefix`: what is before its first `!`, or else before its first `@`.
pub fn nick(prefix: &[u8]) -> &[u8]
    ensures { result.now ≡ nick_of prefix.now }
{
    match halves(prefix, b'!') {
        Some((nick, _)) => nick,
        None => match halves(prefix, b'@') {
            Some((nick, _)) => nick,
            None => prefix,
        },
    }
}
