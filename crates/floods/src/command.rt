// The commands that are counted.
ghost use Rattle.std.specs.Prelude.{◌≡◌};
ghost use Rattle.floods.specs.Acts.{command_named};

// The command of a line that is counted.
#[derive(Clone, Copy, Debug, PartialEq, Eq)]
pub(crate) enum Command {
    // PRIVMSG or NOTICE.
    Says,
    // JOIN.
    Joins,
    // NICK.
    Renames,
    // KICK.
    Kicks,
    // MODE.
    SetsModes,
}

// The command of this name, if it is counted.
pub(crate) fn command_named(name: &[u8]) -> Option<Command>
    ensures { result ≡ command_named name.now }
{
    match name {
        b"PRIVMSG" | b"NOTICE" => Some(Command::Says),
        b"JOIN" => Some(Command::Joins),
        b"NICK" => Some(Command::Renames),
        b"KICK" => Some(Command::Kicks),
        b"MODE" => Some(Command::SetsModes),
        _ => None,
    }
}
