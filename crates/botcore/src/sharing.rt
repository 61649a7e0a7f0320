// A law about the lines that wait in a bot that sends at once.
ghost use Rattle.std.specs.Prelude.{◌≡◌, true, ℕ, List};
ghost use Rattle.sharelink.specs.BotLinks.{BotEnd};
ghost use Rattle.botcore.specs.declared.config.Config.{Config};
ghost use Rattle.botcore.specs.declared.event.BotEvent.{BotEvent};
ghost use Rattle.botcore.specs.declared.report.Report.{Report};
ghost use Rattle.botcore.specs.Bots.{Bot, begun};
ghost use Rattle.botcore.specs.Sharing.{SharesLines};
ghost use Rattle.botcore.specs.Steps.{TakesStep};

use procs::Promise;

/// States a law and does nothing. If a bot sends at once, its mode queue never holds two equal lines, and never do more
/// lines than its share wait for one target in its other queues, whatever the events of the bot.
///
/// So it is when the bot begins, and each step leaves it so.
pub fn laws_of_sharing<P: Promise>()
    ensures begun { (config : Config) (link : BotEnd) → config.sends_at_once ≡ true → SharesLines (begun config link) }
    ensures step { (names : List (List ℕ)) (event : BotEvent) (old : Bot) (report : Report) (new : Bot)
        → SharesLines old → TakesStep P.promised names old event report new → SharesLines new }
{}
