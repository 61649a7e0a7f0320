// A hub that is handed over to one of its leaves.
ghost use Rattle.std.specs.Prelude.{◌≡◌, true, None, IfSome, IsSome, OnOk};
ghost use Rattle.botcore.specs.Links.{link_version};
ghost use Rattle.peers.specs.HandOver.{has_all};

use crate::process::Process;
use net::Log;
use settings::Settings;
use upkeep::{
    HandOver, HandOverEntry, HandOverState, RunError, end_handed_over, handed_over_answer,
    no_hand_over_answer, not_handed_over_answer,
};

// No admin has this number.
const NOBODY: u64 = u64::MAX;

impl Process {
    // Begins to hand the hub over to `leaf`, in place of an earlier hand-over. Returns the answer if that is refused;
    // otherwise it comes later.
    pub(crate) fn begin_hand_over<R: AllocGlobal>(
        &mut self,
        rt: &R,
        log: &mut Log,
        settings: &Settings,
        leaf: u16,
        now: u64,
    ) -> Result<Vec<u8>, RunError>
        ensures bot { self.new.bot ≡ self.old.bot }
        ensures mail { self.new.others.mail ≡ self.old.others.mail }
    {
        let asker = self.obeyed.unwrap_or(NOBODY);
        let links = &self.others.mail.links;
        match HandOver::begin(links, settings, leaf, asker, now) {
            Ok(handing) => {
                self.replace(rt, log, now)?;
                self.others.handing = Some(handing);
                self.obeyed = None;
                log.note(now, &HandOverEntry::Begins(leaf));
                Ok(Vec::new(rt.alloc()))
            }
            Err(why) => Ok(no_hand_over_answer(rt.alloc(), why, leaf, settings)?),
        }
    }

    // Gives up an earlier hand-over for another one.
    fn replace<R: AllocGlobal>(&mut self, rt: &R, log: &mut Log, now: u64) -> Result<(), RunError>
        ensures bot { self.new.bot ≡ self.old.bot }
        ensures mail { self.new.others.mail ≡ self.old.others.mail }
    {
        match self.others.handing {
            Some(handing) => self.give_hand_over_up(
                rt,
                log,
                handing,
                HandOverEntry::Replaced(handing.leaf),
                now,
            ),
            None => Ok(()),
        }
    }

    // If the hub is being handed over, looks how that stands, unless the process is to end. Once the leaf has all changes,
    // the process ends, and accepts no change before that. If the time is up, the hub takes changes again.
    pub(crate) fn hand_over<R: AllocGlobal>(
        &mut self,
        rt: &R,
        log: &mut Log,
        settings: &Settings,
        now: u64,
    ) -> Result<(), RunError>
        ensures bot { self.new.bot ≡ self.old.bot }
        ensures mail { self.new.others.mail ≡ self.old.others.mail }
        // The process is to end by this only if the leaf has shown the hub's own version: no accepted change is lost.
        ensures handed { OnOk result (self.old.until ≡ None → IsSome self.new.until → IfSome self.old.others.handing
            (λ handing. has_all handing.leaf (link_version self.old.bot.link) self.old.others.mail.links ≡ true)) }
        ensures unasked { OnOk result (self.old.others.handing ≡ None → self.new.until ≡ self.old.until) }
    {
        let Some(handing) = self.others.handing else {
            return Ok(());
        };
        if self.until.is_some() {
            return Ok(());
        }
        let version = self.bot.version();
        match handing.state(&self.others.mail.links, version, now) {
            HandOverState::Waits => Ok(()),
            HandOverState::HandedOver => {
                self.end_hand_over(rt, log, settings, handing, version, now)
            }
            HandOverState::TooLate => {
                let why = HandOverEntry::TooLate(handing.leaf, version);
                self.give_hand_over_up(rt, log, handing, why, now)
            }
        }
    }

    // Tells that the leaf has all `version` changes, and has the process end.
    fn end_hand_over<R: AllocGlobal>(
        &mut self,
        rt: &R,
        log: &mut Log,
        settings: &Settings,
        handing: HandOver,
        version: u32,
        now: u64,
    ) -> Result<(), RunError>
        ensures bot { self.new.bot ≡ self.old.bot }
        ensures mail { self.new.others.mail ≡ self.old.others.mail }
    {
        let answer = handed_over_answer(rt.alloc(), handing.leaf, version)?;
        self.admins.tell(handing.asker, answer.as_slice())?;
        log.note(now, &HandOverEntry::Done(handing.leaf, version));
        let (asks, admins) = (&mut self.others.asks, &mut self.admins);
        let (uplink, until) = (&mut self.uplink, &mut self.until);
        end_handed_over(rt, log, asks, admins, uplink, until, settings, now)
    }

    // Tells why the hub is not handed over. It takes changes again.
    fn give_hand_over_up<R: AllocGlobal>(
        &mut self,
        rt: &R,
        log: &mut Log,
        handing: HandOver,
        why: HandOverEntry,
        now: u64,
    ) -> Result<(), RunError>
        ensures bot { self.new.bot ≡ self.old.bot }
        ensures mail { self.new.others.mail ≡ self.old.others.mail }
        ensures until { self.new.until ≡ self.old.until }
    {
        self.others.handing = None;
        log.note(now, &why);
        let answer = not_handed_over_answer(rt.alloc(), &why)?;
        self.admins.tell(handing.asker, answer.as_slice())?;
        Ok(())
    }
}
