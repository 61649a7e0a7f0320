// The requests of a leaf among the packets of a step.
ghost use Rattle.std.specs.Prelude.{◌≡◌, count_by};
ghost use Rattle.administrators.specs.Askers.{is_request};

use sharelink::Outgoing;
use sharewire::Packet;

/// Returns the number of requests among these packets: those of a leaf's pump are all that are out.
pub fn requests_in(packets: &[Outgoing]) -> usize
    ensures { result ≡ count_by is_request packets.now }
{
    let mut count = 0;
    for outgoing in packets {
        if is_request(outgoing) {
            count += 1;
        }
    }
    count
}

fn is_request(outgoing: &Outgoing) -> bool
    ensures { result ≡ is_request outgoing.now }
{
    match &outgoing.packet {
        Packet::Request { .. } => true,
        Packet::Hello { .. }
        | Packet::Change { .. }
        | Packet::Part { .. }
        | Packet::Accepted { .. }
        | Packet::Refused { .. }
        | Packet::BotText { .. } => false,
    }
}
