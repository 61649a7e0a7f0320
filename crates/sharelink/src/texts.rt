// Texts from one bot to another.
ghost use Rattle.std.specs.Prelude.{◌≡◌, ◌<◌, length, IfOk, IfErr};
ghost use Rattle.sharelink.specs.Texts.{text_fault, text_by};

use crate::MAX_TEXTS;
use crate::answer::Outgoing;
use crate::error::LinkFault;
use bytetext::{NoMemory, Text};
use sharewire::{Packet, is_bot_text};
use std::alloc::Global;

// The way of a text through the net, by bot numbers.
#[derive(Clone, Copy)]
pub(crate) struct Route {
    // The bot that takes the packet next.
    pub(crate) next: u16,
    // The bot that sent the text.
    pub(crate) from: u16,
    // The bot that the text is for.
    pub(crate) to: u16,
}

// Returns why the bot `number` may not send `text` to the bot `to`, in a net of `leaves` leaves, when its step has
// sent `sent` texts: `BadBotText`, then `TextsFull`. Allocates nothing.
pub(crate) fn text_fault(
    leaves: u16,
    number: u16,
    to: u16,
    text: &[u8],
    sent: usize,
) -> Option<LinkFault>
    ensures { result ≡ text_fault leaves number to text.now sent }
{
    if to > leaves || to == number || !is_bot_text(text) {
        return Some(LinkFault::BadBotText);
    }
    if sent >= MAX_TEXTS {
        return Some(LinkFault::TextsFull);
    }
    None
}

// Returns the packet that takes `text` along `route`. `NoMemory` if it cannot allocate room for the text; never for the
// empty text.
pub(crate) fn text_by(alloc: Global, route: Route, text: &[u8]) -> Result<Outgoing, NoMemory>
    ensures outgoing { IfOk result (λ outgoing. outgoing ≡ text_by route.next route.from route.to text.now) }
    ensures memory { IfErr result (λ _. 0 < length text.now) }
{
    let text = Text::from_slice(alloc, text)?;
    let packet = Packet::BotText {
        from: route.from,
        to: route.to,
        text,
    };
    Ok(Outgoing {
        to: route.next,
        packet,
    })
}
