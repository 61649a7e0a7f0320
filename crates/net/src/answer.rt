// What an answer of a stream brings.
ghost use Rattle.std.specs.Prelude.{◌≡◌};
ghost use Rattle.net.specs.Connections.{brings};

use streams::Given;

// Whether an answer brings bytes.
pub(crate) fn brings(answer: Given) -> bool
    ensures { result ≡ brings answer }
{
    match answer {
        Given::Bytes(_) => true,
        Given::End | Given::Stall | Given::Fault => false,
    }
}
