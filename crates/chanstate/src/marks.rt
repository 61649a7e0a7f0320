// Marks are set and cleared (RFC 2812 section 3.2.3).
ghost use Rattle.std.specs.Prelude.{◌≡◌, ◌∷◌, [], true};
ghost use Rattle.std.specs.Option.{option_to_list};
ghost use Rattle.chanstate.specs.Items.{ModesSet, markings, single_at};
ghost use Rattle.chanstate.specs.Steps.{each_step, steps};

use crate::modes::{argument, mark_in, next_arguments, next_sign};
use crate::state::ChanState;
use bytetext::Text;

impl ChanState {
    // Sets or clears the mark of a member that `byte` of a mode string stands for, if it stands for one.
    fn mark(&mut self, channel: &[u8], on: bool, byte: u8, arguments: &[Text])
        ensures marked { self.new ≡ each_step (markings self.old.support channel.now
            (option_to_list (single_at self.old.support on byte arguments.now))) self.old }
        ensures support { self.new.support ≡ self.old.support }
    {
        if let Some(mark) = mark_in(&self.support, byte) {
            let nick = argument(&self.support, on, byte, arguments);
            let mapping = self.casemapping();
            self.channels.mark(mapping, channel, nick, mark, on);
        }
    }

    // Changes the modes of a channel, in the order of their letters.
    pub(crate) fn mode(&mut self, channel: &[u8], string: &[u8], arguments: &[Text])
        ensures { self.new ≡ steps (ModesSet channel.now string.now arguments.now ∷ []) self.old }
    {
        let mut on = true;
        let mut rest = arguments;
        for byte in string {
            self.mark(channel, on, *byte, rest);
            rest = next_arguments(&self.support, on, *byte, rest);
            on = next_sign(on, *byte);
        }
    }
}
