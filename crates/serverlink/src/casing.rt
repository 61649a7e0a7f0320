// How the server of a connection compares names.
ghost use Rattle.std.specs.Prelude.{◌≡◌, MatchOption, None, Some};
ghost use Rattle.serverlink.specs.Casings.{name_in};

use bytetext::Text;
use ircline::Message;
use rfccase::Casemapping;

// The casemapping by which a server compares names, as a connection learns it from the server's lines. It is that of
// RFC 1459 until the server announces another one (CASEMAPPING of a 005). After a JOIN it stays: the channels that the
// bot is on were found by it. The bot's channel state reads the same lines by the same rule.
#[derive(Clone, Copy, Debug)]
pub(crate) struct Casing {
    mapping: Casemapping,
    // Whether a JOIN has been read since the welcome.
    join_read: bool,
}

impl Casing {
    ghost use Rattle.std.specs.Prelude.{◌≡◌};
    ghost use Rattle.serverlink.specs.Casings.{heard, with_token, with_tokens, unannounced};

    // Creates the casing of a server that has announced nothing.
    pub(crate) fn unannounced() -> Casing
        ensures { result ≡ unannounced }
    {
        Casing {
            mapping: Casemapping::Rfc1459,
            join_read: false,
        }
    }

    // Returns the casemapping.
    pub(crate) fn mapping(&self) -> Casemapping
        ensures { result ≡ self.now.mapping }
    {
        self.mapping
    }

    // Takes in `message` of the server.
    pub(crate) fn hear(&mut self, message: &Message)
        ensures { self.new ≡ heard message.now self.old }
    {
        let command = message.command.as_bytes();
        if command == b"001".as_slice() {
            *self = Casing::unannounced();
        } else if command == b"005".as_slice() {
            if let Some((_nick, tokens)) = message.params.as_slice().split_first() {
                self.announce(tokens);
            }
        } else if command == b"JOIN".as_slice() {
            self.join_read = true;
        }
    }

    // Takes in `tokens`, the tokens of one line.
    fn announce(&mut self, tokens: &[Text])
        ensures { self.new ≡ with_tokens tokens.now self.old }
    {
        for token in tokens {
            self.announce_one(token.as_bytes());
        }
    }

    fn announce_one(&mut self, token: &[u8])
        ensures { self.new ≡ with_token token.now self.old }
    {
        if let Some(name) = name_in(token) {
            if !self.join_read {
                self.mapping = Casemapping::named(name);
            }
        }
    }
}

// Returns the name of the casemapping that a token announces, if it announces one. The name may be empty.
pub(crate) fn name_in(token: &[u8]) -> Option<&[u8]>
    ensures { MatchOption result (name_in token.now ≡ None) (λ name. name_in token.now ≡ Some name.now) }
{
    if token == b"CASEMAPPING".as_slice() {
        return Some(b"");
    }
    token.strip_prefix(b"CASEMAPPING=")
}
