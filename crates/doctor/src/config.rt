// The configuration, which reads well.
ghost use Rattle.std.specs.Prelude.{◌≡◌};
ghost use Rattle.std.specs.List.{list_any};
ghost use Rattle.doctor.specs.Configs.{config_verdict, has_password, holds_passwords};

use crate::modes::FileMode;
use crate::verdict::{Fine, Note, Verdict};
use settings::{Server, Settings};

// What it means that the file of these settings is to get this mode, so that no others may read it.
pub(crate) fn config_verdict(settings: &Settings, mode: Option<FileMode>) -> Verdict
    ensures { result ≡ config_verdict settings.now mode }
{
    match mode {
        Some(mode) if holds_passwords(settings) => Verdict::Note(Note::OpenConfig(mode)),
        Some(_) | None => Verdict::Fine(Fine::Config),
    }
}

// Whether settings have the password of a server, or lines that may hold one.
fn holds_passwords(settings: &Settings) -> bool
    ensures { result ≡ holds_passwords settings.now }
{
    !settings.performs.is_empty() || has_password(settings.servers.as_slice())
}

fn has_password(servers: &[Server]) -> bool
    ensures { result ≡ list_any has_password servers.now }
{
    for server in servers {
        if server.pass.is_some() {
            return true;
        }
    }
    false
}
