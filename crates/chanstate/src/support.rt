// What a server announces (RPL_ISUPPORT, numeric 005), and whether its JOINs tell accounts.
ghost use Rattle.std.specs.Prelude.{◌≡◌, ◌≤◌, length, MatchOption, None, Some};
ghost use Rattle.chanstate.specs.Announced.{front_len, cut, key_and_value, with_prefix, with_types, with_token, announced, unannounced, takes_argument};
ghost use Rattle.chanstate.specs.Announced.{is_sign, is_in, has_status, with_casemapping, with_channel_types, with_join, with_joins_tell, welcomed};
ghost use Rattle.chanstate.specs.Announced.{digit_onto, number_in, with_modes};
ghost use Rattle.chanstate.specs.Items.{is_channel_on};

use crate::letters::Letters;
use bytetext::Text;
use rfccase::{Casemapping, is_channel_name};

/// How many modes one MODE line has at most, whatever the server announces: our own choice, as the line must not get
/// long.
const MAX_MODES: u8 = 20;

/// What a server announces: its channel modes, as far as they are needed to read a MODE or a list of names, how many of
/// them one MODE line may have, which names are channels, which signs may stand before them, and how it compares names.
/// Allocates nothing.
#[derive(Clone, Copy, Debug)]
pub struct Support {
    // The modes that mark a member, and the signs that stand for them before a nick.
    ranks: Letters,
    signs: Letters,
    // Of the other modes, those that always have an argument, and those that have one only when they are set.
    always: Letters,
    when_set: Letters,
    // The signs that may stand before the name of a channel to which a text is sent.
    status: Letters,
    // The bytes with which the names of channels begin.
    channel_types: Letters,
    // How the server compares names.
    casemapping: Casemapping,
    // Whether a JOIN has been read since the welcome. From then on the casemapping and the types of channels stay.
    join_read: bool,
    // Whether a JOIN tells the account of the person: the server has acknowledged the capability extended-join.
    joins_tell: bool,
    // How many modes with an argument one MODE line may have.
    mode_limit: u8,
}

impl Support {
    /// Returns what holds before a server has announced anything: the modes of RFC 2812, half-operators, and their
    /// usual signs.
    #[tactic(auto, unfolding(crate::specs::Announced::unannounced))]
    pub fn unannounced() -> Support
        ensures { result ≡ unannounced }
    {
        Support {
            ranks: Letters::of(b"ovh"),
            signs: Letters::of(b"@%+&~"),
            always: Letters::of(b"beIk"),
            when_set: Letters::of(b"l"),
            status: Letters::none(),
            channel_types: Letters::of(b"&#+!"),
            casemapping: Casemapping::Rfc1459,
            join_read: false,
            joins_tell: false,
            mode_limit: 3,
        }
    }

    // Returns what holds after a welcome: nothing is announced, but the acknowledged capabilities stay.
    pub(crate) fn welcomed(self) -> Support
        ensures { result ≡ welcomed self }
    {
        let mut support = Support::unannounced();
        support.joins_tell = self.joins_tell;
        support
    }

    /// Returns whether a JOIN tells the account of the person: the server has acknowledged the capability
    /// extended-join.
    pub fn joins_tell(&self) -> bool
        ensures { result ≡ self.now.joins_tell }
    {
        self.joins_tell
    }

    // Takes in whether a JOIN tells the account.
    pub(crate) fn set_joins_tell(&mut self, tell: bool)
        ensures { self.new ≡ with_joins_tell tell self.old }
    {
        self.joins_tell = tell;
    }

    /// Returns whether the mode `letter` has an argument. `on` says whether the mode is set or cleared.
    pub fn takes_argument(&self, on: bool, letter: u8) -> bool
        ensures { result ≡ takes_argument self.now on letter }
    {
        self.ranks.holds(letter) || self.always.holds(letter) || (on && self.when_set.holds(letter))
    }

    /// Returns whether the mode `letter` marks a member.
    pub fn is_rank(&self, letter: u8) -> bool
        ensures { result ≡ is_in letter self.now.ranks }
    {
        self.ranks.holds(letter)
    }

    /// Returns how many modes with an argument one MODE line may have: as the server has announced (MODES), at most 20;
    /// three before that (RFC 2812 section 3.2.3).
    pub fn mode_limit(&self) -> usize
        ensures value { result ≡ self.now.mode_limit }
    {
        usize::from(self.mode_limit)
    }

    /// Returns how the server compares names: as it has announced before the first JOIN, else by RFC 1459.
    pub fn casemapping(&self) -> Casemapping
        ensures { result ≡ self.now.casemapping }
    {
        self.casemapping
    }

    /// Returns whether `byte` is a sign that stands before a nick.
    pub fn is_sign(&self, byte: u8) -> bool
        ensures { result ≡ is_sign self.now byte }
    {
        self.signs.holds(byte)
    }

    // Returns whether `name` is the name of a channel on this server.
    pub(crate) fn is_channel(&self, name: &[u8]) -> bool
        ensures { result ≡ is_channel_on self.now name.now }
    {
        !name.is_empty() && is_channel_name(name) && self.channel_types.holds(name[0])
    }

    // Returns whether `target` begins with a sign that may stand before the name of a channel.
    pub(crate) fn has_status(&self, target: &[u8]) -> bool
        ensures { result ≡ has_status self.now target.now }
    {
        !target.is_empty() && self.status.holds(target[0])
    }

    /// Takes in `tokens`, the tokens of one line.
    pub fn announce(&mut self, tokens: &[Text])
        ensures { self.new ≡ announced tokens.now self.old }
    {
        for token in tokens {
            self.announce_one(token.as_bytes());
        }
    }

    fn announce_one(&mut self, token: &[u8])
        ensures { self.new ≡ with_token token.now self.old }
    {
        let (key, value) = key_and_value(token);
        if key == b"PREFIX".as_slice() {
            self.set_ranks(value);
        } else if key == b"CHANMODES".as_slice() {
            self.set_types(value);
        } else if key == b"CASEMAPPING".as_slice() {
            self.set_casemapping(value);
        } else if key == b"CHANTYPES".as_slice() {
            self.set_channel_types(value);
        } else if key == b"STATUSMSG".as_slice() {
            self.status = Letters::of(value);
        } else if key == b"MODES".as_slice() {
            self.set_mode_limit(value);
        }
    }

    // Takes in that a JOIN has been read.
    pub(crate) fn note_join(&mut self)
        ensures { self.new ≡ with_join self.old }
    {
        self.join_read = true;
    }

    // Takes in the name of a casemapping, unless a JOIN has been read: channels and members are held then, which were
    // found by the casemapping before it.
    fn set_casemapping(&mut self, value: &[u8])
        ensures { self.new ≡ with_casemapping value.now self.old }
    {
        if !self.join_read {
            self.casemapping = Casemapping::named(value);
        }
    }

    // Takes in the bytes with which the names of channels begin, unless a JOIN has been read: a channel that is held
    // then stays one.
    fn set_channel_types(&mut self, value: &[u8])
        ensures { self.new ≡ with_channel_types value.now self.old }
    {
        if self.join_read {
            return;
        }
        self.channel_types = Letters::of(value);
    }

    // Takes in `(letters)signs`, or an empty value if no mode marks a member.
    fn set_ranks(&mut self, value: &[u8])
        ensures { self.new ≡ with_prefix value.now self.old }
    {
        if value.is_empty() {
            self.ranks = Letters::none();
            self.signs = Letters::none();
            return;
        }
        let Some((front, ranks)) = cut(value, b'(') else {
            return;
        };
        if !front.is_empty() {
            return;
        }
        let Some((letters, signs)) = cut(ranks, b')') else {
            return;
        };
        if letters.len() == signs.len() {
            self.ranks = Letters::of(letters);
            self.signs = Letters::of(signs);
        }
    }

    // Takes in `A,B,C,D`.
    fn set_types(&mut self, value: &[u8])
        ensures { self.new ≡ with_types value.now self.old }
    {
        let Some((lists, rest)) = cut(value, b',') else {
            return;
        };
        let Some((settings, rest)) = cut(rest, b',') else {
            return;
        };
        let Some((when_set, _)) = cut(rest, b',') else {
            return;
        };
        let mut always = Letters::of(lists);
        always.add_all(settings);
        self.always = always;
        self.when_set = Letters::of(when_set);
    }

    // Takes in the number of modes with an argument that one MODE line may have, or an empty value if there is no limit.
    fn set_mode_limit(&mut self, value: &[u8])
        ensures { self.new ≡ with_modes value.now self.old }
    {
        if value.is_empty() {
            self.mode_limit = MAX_MODES;
            return;
        }
        let Some(number) = number_in(value) else {
            return;
        };
        if number != 0 {
            self.mode_limit = number;
        }
    }
}

// Returns the number that `text` spells in digits, but at most `MAX_MODES`.
fn number_in(text: &[u8]) -> Option<u8>
    ensures { result ≡ number_in text.now }
{
    let mut value = 0;
    for byte in text {
        value = digit_onto(value, *byte)?;
    }
    Some(value)
}

// Returns the number that one more digit makes of `value`, but at most `MAX_MODES`.
fn digit_onto(value: u8, byte: u8) -> Option<u8>
    ensures { result ≡ digit_onto value byte }
{
    if byte < b'0' || byte > b'9' {
        return None;
    }
    Some(
        value
            .saturating_mul(10)
            .saturating_add(byte - b'0')
            .min(MAX_MODES),
    )
}

// Returns the key of a token and its value, which is empty if it has none.
fn key_and_value(token: &[u8]) -> (&[u8], &[u8])
    ensures { (result.0.now, result.1.now) ≡ key_and_value token.now (cut 61 token.now) }
{
    match cut(token, b'=') {
        Some(parts) => parts,
        None => (token, b""),
    }
}

// Returns how many bytes stand before the first `byte`.
fn count_front(text: &[u8], byte: u8) -> usize
    ensures value { result ≡ front_len byte text.now }
    ensures within { result ≤ length text.now }
{
    let mut count = 0;
    while count < text.len() && text[count] != byte {
        count += 1;
    }
    count
}

// Returns the text before and after the first `byte`.
pub(crate) fn cut(text: &[u8], byte: u8) -> Option<(&[u8], &[u8])>
    ensures { MatchOption result (cut byte text.now ≡ None) (λ parts. cut byte text.now ≡ Some (parts.0.now, parts.1.now)) }
{
    let len = count_front(text, byte);
    if len == text.len() {
        return None;
    }
    let (front, back) = text.split_at(len);
    Some((front, &back[1..]))
}
