// What the state is, as the history of messages says.
ghost use Rattle.std.specs.Prelude.{List, ℕ};
ghost use Rattle.ircline.specs.declared.message.Message.{Message};
ghost use Rattle.chanstate.specs.History.{Agrees, history, after_all};
ghost use Rattle.chanstate.specs.Views.{connected};

/// States a law and does nothing: after any messages since the bot connected, the state is what looking back over them
/// says.
pub fn history_says()
    ensures { (first : List ℕ) (messages : List Message) → Agrees first (history messages) (after_all messages (connected first)) }
{}
