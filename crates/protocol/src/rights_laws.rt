// What a net promises of the rights to what it accepts.
ghost use Rattle.protocol.specs.History.{History};
ghost use Rattle.protocol.specs.Soundness.{IsSound};
ghost use Rattle.protocol.specs.Rights.{EachIsAllowed, OnlyOwnersChangeRanks, NobodyClimbs, NobodyBecomesOwner};

/// The laws of rights over a link. The function does nothing: its clauses hold at each moment of history that a run
/// leaves, of all changes that the hub has accepted by then.
///
/// A leaf judges a request by its own records, which may be old, so its judgement promises nothing. The hub judges each
/// change by the records just before it, and a bot at version v shows the records that the first v accepted changes make.
/// So these laws say what each bot of the net shows at its version.
///
/// They speak of the person in whose name a change asks. A change in nobody's name has the right to everything: an
/// operator or a bot asks for it. A bot that lies about who asks is not meant by them.
pub fn laws_of_rights()
    // Each change that a person asked for was that person's right, by the records just before it.
    ensures allowed { (h : History) → IsSound h → EachIsAllowed h.hub.kept.accepted }
    // A change for which somebody asked who was no owner just before it left the owners and masters as they were.
    ensures ranks { (h : History) → IsSound h → OnlyOwnersChangeRanks h.hub.kept.accepted }
    // Nobody climbs. Take any version and any later one. If all that was accepted in between was asked for by persons whom
    // no owner's hostmask matched at the first, the owners and masters are the same at both, with their hostmasks and flags.
    ensures nobody_climbs { (h : History) → IsSound h → NobodyClimbs h.hub.kept.accepted }
    // Nor is anyone an owner at the later version whom no owner's hostmask matched at the first.
    ensures nobody_becomes_owner { (h : History) → IsSound h → NobodyBecomesOwner h.hub.kept.accepted }
{}
