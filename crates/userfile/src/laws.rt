// Laws of the look-ups by a server's casemapping, and of the rights to changes.
ghost use Rattle.std.specs.Prelude.{◌≡◌, ℕ, List, drop, Some, None, true, false};
ghost use Rattle.rfccase.specs.declared.casemappings.Casemapping.{Casemapping};
ghost use Rattle.userfile.specs.Apply.{refusal, changed};
ghost use Rattle.userfile.specs.Persons.{user_for};
ghost use Rattle.userfile.specs.Ranks.{guarded, has_owner, is_like_owner, AreAccepted, AreTaken, AreByOthers};
ghost use Rattle.userfile.specs.Records.{Records, no_records};
ghost use Rattle.userfile.specs.Rights.{may, is_owner};
ghost use Rattle.userfile.specs.Together.{AreSound};
ghost use Rattle.userfile.specs.Versions.{after_changes, records_at};
ghost use Rattle.userfile.specs.declared.change.Asker.{Asker};
ghost use Rattle.userfile.specs.declared.change.Change.{Change};
ghost use Rattle.userfile.specs.Widening.{MatchIsWider, KnownIsWider, StrangersStay, BanIsWider, StickyIsWider};

/// A law; calling it does nothing. A server's casemapping only narrows what the casemapping of RFC 2812 does:
///
/// - A mask that matches by the server's matches by that of RFC 2812.
/// - Whoever is known by the server's has a mask that matches by that of RFC 2812. So no server makes anyone known whom
///   RFC 2812 leaves unknown.
/// - The ban that keeps a person off a channel, or that comes back to one, does so by RFC 2812, too.
///
/// It does not say that a person has fewer rights by the server's: if two masks match by RFC 2812 and the one with more
/// literals does not match by the server's, the user of the other mask decides, who may have more flags.
pub fn laws_of_casemappings()
    ensures matches { (mapping : Casemapping) → MatchIsWider mapping }
    ensures known { (mapping : Casemapping) → KnownIsWider mapping }
    ensures unknown { (mapping : Casemapping) → StrangersStay mapping }
    ensures bans { (mapping : Casemapping) → BanIsWider mapping }
    ensures sticky { (mapping : Casemapping) → StickyIsWider mapping }
{}

/// A law; calling it does nothing. Nobody climbs: persons who are no owners leave masters and owners as they are.
///
/// - A person's change that isn't refused was that person's right, by the records just before it.
/// - If the person is no owner just before the change, each master and owner stays, in the same order, with the same
///   hostmasks and flags, and nobody becomes one. Only the info text of one who asks may change.
/// - The same holds of every list of changes, if a person asks for each whom no owner's hostmask matches before the
///   first. Nothing is assumed of what these persons become in between: masters are among them.
/// - None of these persons is an owner afterwards.
/// - The same holds of all that a net accepts after a version.
///
/// It says nothing of changes in nobody's name. A person whom an owner's hostmask matches may become that owner when
/// the hostmask that made the person another user is deleted, so owners need narrow hostmasks.
pub fn laws_of_rights()
    ensures allowed { (old : Records) (change : Change) (asker : Asker) → change.by ≡ Some asker → refusal old change ≡ None
        → may old.users asker change.edit ≡ true }
    ensures step { (old : Records) (change : Change) (asker : Asker) → AreSound old → change.by ≡ Some asker → refusal old change ≡ None
        → is_owner (user_for asker.casemapping asker.person old.users) ≡ false → guarded (changed old change).users ≡ guarded old.users }
    ensures runs { (old : Records) (changes : List Change) → AreSound old → AreTaken old changes → AreByOthers old.users changes
        → guarded (after_changes old changes).users ≡ guarded old.users }
    ensures persons { (old : Records) (changes : List Change) (asker : Asker) → AreSound old → AreTaken old changes
        → AreByOthers old.users changes → is_like_owner old.users asker ≡ false
        → is_owner (user_for asker.casemapping asker.person (after_changes old changes).users) ≡ false }
    ensures owner { (old : Records) (change : Change) (asker : Asker) → AreSound old → change.by ≡ Some asker → refusal old change ≡ None
        → has_owner old.users ≡ true → has_owner (changed old change).users ≡ true }
    ensures since { (changes : List Change) (version : ℕ) → AreAccepted changes → AreSound (records_at changes version)
        → AreByOthers (records_at changes version).users (drop version changes)
        → guarded (after_changes no_records changes).users ≡ guarded (records_at changes version).users }
{}
