// Which module answers a case.
use crate::{bots, drives, hubs, inboxes, lives, packets, scripts};
use bytetext::Text;
use caselines::{CaseError, NO_SUCH_CASE, Sink};
use std::net::Net;

/// Writes the answer to the case of these `words` to `out`.
pub fn answer<R: Net + AllocGlobal>(
    rt: &R,
    words: &[Text],
    out: &mut Sink,
) -> Result<(), CaseError> {
    let Some((first, words)) = words.split_first() else {
        return Err(NO_SUCH_CASE);
    };
    let alloc = rt.alloc();
    match first.as_bytes() {
        b"bot" => bots::bot(alloc, words, out),
        b"commands" => scripts::commands(alloc, words, out),
        b"config" => bots::config(alloc, words, out),
        b"drive" => drives::drive_case(alloc, words, out),
        b"inbox" => inboxes::inbox(alloc, words, out),
        b"live" => lives::live_case(rt, words, out),
        b"said" => packets::said(alloc, words, out),
        b"script" => scripts::script(alloc, words, out),
        b"turn" => hubs::turns(alloc, words, out),
        b"why" => scripts::why(alloc, words, out),
        _ => Err(NO_SUCH_CASE),
    }
}
