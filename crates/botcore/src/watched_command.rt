// Which messages make a bot queue lines by itself.
ghost use Rattle.std.specs.Prelude.{◌≡◌};
ghost use Rattle.botcore.specs.Automatic.{cue_of, numeric_cue};

use ircline::{Numeric, numeric_of};

/// A command, by the lines that a bot queues for it (RFC 2812 sections 3.1 to 3.7 and 5).
#[derive(Clone, Copy)]
pub enum WatchedCommand {
    /// The server checks that the bot is still connected.
    Ping,
    /// Somebody joins channels.
    Join,
    /// Somebody sets or clears modes of a channel.
    Mode,
    /// 001: the server has welcomed the bot.
    RplWelcome,
    /// 433: the nick is in use.
    ErrNicknameInUse,
    /// Any other command.
    Other,
}

// Returns the cue of a command.
pub(crate) fn cue_of(command: &[u8]) -> WatchedCommand
    ensures { result ≡ cue_of command.now }
{
    match command {
        b"PING" => WatchedCommand::Ping,
        b"JOIN" => WatchedCommand::Join,
        b"MODE" => WatchedCommand::Mode,
        _ => numeric_cue(numeric_of(command)),
    }
}

// Returns the cue of a numeric.
fn numeric_cue(numeric: Numeric) -> WatchedCommand
    ensures { result ≡ numeric_cue numeric }
{
    match numeric {
        Numeric::Welcome => WatchedCommand::RplWelcome,
        Numeric::NicknameInUse => WatchedCommand::ErrNicknameInUse,
        Numeric::ErroneousNickname
        | Numeric::NickCollision
        | Numeric::UnavailableResource
        | Numeric::Other => WatchedCommand::Other,
    }
}
