// Laws about the lines that a bot queues by itself.
ghost use Rattle.std.specs.Prelude.{◌≡◌, ◌≢◌, ℕ, List, Option, Some, None, Bool, true, false, slice_get};
ghost use Rattle.ircline.specs.declared.message.Message.{Message};
ghost use Rattle.ircline.specs.Printing.{canonical};
ghost use Rattle.outqueue.specs.Refusals.{prompt_refusal, put_prompt};
ghost use Rattle.outqueue.specs.Sending.{Sending};
ghost use Rattle.userfile.specs.declared.ban.Ban.{Ban};
ghost use Rattle.chanstate.specs.declared.state.ChanState.{ChanState};
ghost use Rattle.chanstate.specs.Steps.{after};
ghost use Rattle.botcore.specs.declared.config.Config.{Config};
ghost use Rattle.botcore.specs.declared.manner.Manner.TheVariants.{InTurn, Once};
ghost use Rattle.botcore.specs.declared.watched_command.WatchedCommand.TheVariants.{Mode, Ping};
ghost use Rattle.botcore.specs.Automatic.{automatic_lines, cue_of, manner_of, pong};
ghost use Rattle.botcore.specs.Putting.{put_all};

/// States a law and does nothing: unless a message is a MODE, a bot queues the same lines for it by the channels
/// before the message and by the channels after it. The rule of these lines uses the channels after the message.
pub fn laws_of_automatic_lines()
    ensures { (config : Config) (s : ChanState) (bans : List Ban) (last : Option ℕ) (welcomed : Bool)
        (message : Message) → cue_of message.command ≢ Mode
        → automatic_lines config (after message s) bans last welcomed message
        ≡ automatic_lines config s bans last welcomed message }
{}

/// States laws and does nothing. If a bot sends at once, it queues for a PING one PONG, which waits for earlier PONGs alone:
/// for no line of a queue, unless 500 PONGs wait or the PONG is too long for a line. Its other lines stand once. If it doesn't
/// send at once, all its lines wait in their queues.
pub fn laws_of_answers()
    ensures at_once { (config : Config) (s : ChanState) (bans : List Ban) (last : Option ℕ) (welcomed : Bool)
        (message : Message) (text : List ℕ) (queues : Sending) → config.sends_at_once ≡ true
        → cue_of message.command ≡ Ping → slice_get message.params 0 ≡ Some text
        → prompt_refusal queues (canonical (pong text)) ≡ None
        → put_all (manner_of config message) queues (automatic_lines config s bans last welcomed message)
        ≡ put_prompt queues (canonical (pong text)) }
    ensures once { (config : Config) (message : Message) → config.sends_at_once ≡ true
        → cue_of message.command ≢ Ping → manner_of config message ≡ Once }
    ensures in_turn { (config : Config) (message : Message) → config.sends_at_once ≡ false
        → manner_of config message ≡ InTurn }
{}
