// People leave (RFC 2812 sections 3.1.7, 3.2.2 and 3.2.8).
ghost use Rattle.std.specs.Prelude.{◌≡◌, map, filter, [], ◌∷◌};
ghost use Rattle.chanstate.specs.Items.{Left, channels_in};
ghost use Rattle.chanstate.specs.Steps.{left, departed, steps};
ghost use Rattle.rfccase.specs.Channels.{is_channel_name};

use crate::names::is_same;
use crate::state::ChanState;
use rfccase::is_channel_name;

impl ChanState {
    // Takes `nick` off one channel, or removes the channel if the nick is the bot's.
    pub(crate) fn leave(&mut self, nick: &[u8], channel: &[u8])
        ensures { self.new ≡ left nick.now channel.now self.old }
    {
        let mapping = self.casemapping();
        if is_same(mapping, nick, self.nick.as_bytes()) {
            self.channels.remove(mapping, channel);
        } else {
            self.channels.leave(mapping, channel, nick);
        }
    }

    // Takes `nick` off the channel that `piece` names, if it names one.
    fn leave_piece(&mut self, nick: &[u8], piece: &[u8])
        ensures { self.new ≡ steps (map (Left nick.now) (filter is_channel_name (piece.now ∷ []))) self.old }
    {
        if is_channel_name(piece) {
            self.leave(nick, piece);
        }
    }

    // Takes `nick` off the channels of `list`, in their order.
    pub(crate) fn leave_all(&mut self, nick: &[u8], list: &[u8])
        ensures { self.new ≡ steps (map (Left nick.now) (channels_in list.now)) self.old }
    {
        for piece in list.split(|byte| *byte == b',') {
            self.leave_piece(nick, piece);
        }
    }

    // Takes `nick`, which leaves the network, off every channel, or removes all channels if the nick is the bot's.
    pub(crate) fn depart(&mut self, nick: &[u8])
        ensures { self.new ≡ departed nick.now self.old }
    {
        let mapping = self.casemapping();
        if is_same(mapping, nick, self.nick.as_bytes()) {
            self.channels.clear();
        } else {
            self.channels.depart(mapping, nick);
        }
    }
}
