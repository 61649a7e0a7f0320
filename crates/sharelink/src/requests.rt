// A leaf's outstanding requests.
ghost use Rattle.std.specs.Prelude.{◌≡◌};
ghost use Rattle.protocol.specs.LeafRules.{is_out, has_room, without};

use botjournal::{Request, WINDOW};

// Whether the request of this number is outstanding.
pub(crate) fn is_out(number: u32, out: &[Request]) -> bool
    ensures { result ≡ is_out number out.now }
{
    out.iter().any(|request| request.number == number)
}

// Whether the number after the last is less than eight above the lowest outstanding one.
pub(crate) fn has_room(last: u32, out: &[Request]) -> bool
    ensures { result ≡ has_room last out.now }
{
    match out {
        [] => true,
        [lowest, ..] => last as u64 + 1 < lowest.number as u64 + WINDOW as u64,
    }
}

// Removes the request of this number, if it is outstanding.
pub(crate) fn remove_request(out: &mut Vec<Request>, number: u32)
    ensures { out.new.items ≡ without number out.old.items }
{
    for place in 0..out.len() {
        if out[place].number == number {
            out.remove(place);
            return;
        }
    }
}
