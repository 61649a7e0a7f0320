// What a case of the edge of a bot as a process asks for.
use crate::{
    books, configurations, handshakes, keepbans, lookups, records, registrations, seconds, uplinks,
    whois, wires,
};
use bytetext::Text;
use caselines::{CaseError, NO_SUCH_CASE, Sink};
use std::alloc::Global;

/// Writes to `out` the answer to the case whose first word is `first` and whose other words are `words`.
pub fn answer(
    first: &[u8],
    alloc: Global,
    words: &[Text],
    out: &mut Sink,
) -> Result<(), CaseError> {
    match first {
        b"book" => books::book(alloc, words, out),
        b"cue" => uplinks::cue(alloc, words, out),
        b"hmac" => books::hmac(words, out),
        b"hosts" => lookups::hosts(alloc, words, out),
        b"hub" => handshakes::hub(alloc, words, out),
        b"judge" => handshakes::judge(alloc, words, out),
        b"keepbans" => keepbans::kept(alloc, words, out),
        b"late" => handshakes::late(words, out),
        b"leaf" => handshakes::leaf(alloc, words, out),
        b"leafkey" => books::leaf_key(words, out),
        b"long" => configurations::long(alloc, words, out),
        b"open" => records::open(alloc, words, out),
        b"pbkdf2" => registrations::pbkdf2(alloc, words, out),
        b"query" => lookups::query(words, out),
        b"redial" => seconds::redial(words, out),
        b"regain" => uplinks::regain(alloc, words, out),
        b"register" => registrations::register(alloc, words, out),
        b"reply" => lookups::reply(alloc, words, out),
        b"seal" => records::seal(alloc, words, out),
        b"seat" => uplinks::seat(alloc, words, out),
        b"secret" => books::secret(alloc, words, out),
        b"servers" => lookups::servers(alloc, words, out),
        b"settings" => configurations::settings(alloc, words, out),
        b"timeline" => seconds::timeline(words, out),
        b"tunnelkey" => books::tunnel_key(words, out),
        b"tunnels" => configurations::tunnels(alloc, words, out),
        b"whois" => whois::told(alloc, words, out),
        b"wire" => wires::wire(alloc, words, out),
        _ => Err(NO_SUCH_CASE),
    }
}
