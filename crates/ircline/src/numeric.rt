// The numerics that answer a registration.
ghost use Rattle.std.specs.Prelude.{◌≡◌};
ghost use Rattle.ircline.specs.Numeric.{numeric_of};

/// What a server answers to a registration by its number (RFC 2812 sections 5.1 and 5.2).
#[derive(Clone, Copy, Debug, PartialEq, Eq)]
pub enum Numeric {
    /// 001: the server welcomes the client under the nick that is the first parameter.
    Welcome,
    /// 432: no nick may be written so.
    ErroneousNickname,
    /// 433: somebody else has the nick.
    NicknameInUse,
    /// 436: somebody else has the nick on another server.
    NickCollision,
    /// 437: the nick, or the channel, can't be had for a while.
    UnavailableResource,
    /// Another number, or a command that is none.
    Other,
}

/// Returns which of these `command` is. Allocates nothing.
pub fn numeric_of(command: &[u8]) -> Numeric
    ensures { result ≡ numeric_of command.now }
{
    match command {
        b"001" => Numeric::Welcome,
        b"432" => Numeric::ErroneousNickname,
        b"433" => Numeric::NicknameInUse,
        b"436" => Numeric::NickCollision,
        b"437" => Numeric::UnavailableResource,
        _ => Numeric::Other,
    }
}
