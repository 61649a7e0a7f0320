// Looks people up.
//
// The events of one line are all by one person, who is looked up once: pubm and pub of a channel message, or a sign
// for each channel of a person who quits. The person is known by the account of the event and by `nick!user@host`.
ghost use Rattle.std.specs.Prelude.{◌≡◌, [], IfOk};
ghost use Rattle.procs.specs.Heard.{text_at, who_of};

use crate::heard::is_personal;
use crate::identity::handle_by;
use crate::view::View;
use bytetext::{NoMemory, Text, TryCopy};
use chanstate::IrcEvent;
use flagexpr::Flags;
use rfccase::Casemapping;
use std::alloc::Global;
use std::marker::Model;
use userfile::{PersonFlags, Userfile};

// The person behind an event, as far as the userfile knows.
#[derive(Clone, Copy)]
pub(crate) struct Person<'a> {
    // Empty if the event is by nobody.
    pub(crate) handle: &'a [u8],
    pub(crate) flags: PersonFlags,
}

// The users of a scene, and the person who was looked up last. Contracts see the users and the casemapping by which
// their hostmasks match.
#[derive(Drop)]
pub(crate) struct People<'a> {
    mapping: Casemapping,
    userfile: &'a Userfile,
    last: Option<Known<'a>>,
}

// A person, by an account and `nick!user@host`, and the person's handle.
#[derive(Drop)]
struct Known<'a> {
    account: Text,
    who: Text,
    handle: &'a [u8],
}

impl<'a> Model for People<'a> {
    ghost use Rattle.std.specs.Prelude.{◌≡◌, IfSome};
    ghost use Rattle.procs.specs.Heard.{KnownPeople};
    ghost use Rattle.procs.specs.Identity.{handle_by};

    ghost Value = { KnownPeople };

    ghost view = { λ p. record { mapping = p.mapping; users = p.userfile.now.users } };

    ghost invariant = { λ p. IfSome p.last (λ known. known.handle.now ≡ handle_by p.mapping p.userfile.now.users known.account known.who) };
}

impl Known<'_> {
    ghost use Rattle.std.specs.Prelude.{◌≡◌, ◌↔◌, IsTrue};

    // Whether the person has this account and this `nick!user@host`.
    fn is_by(&self, account: &Text, who: &Text) -> bool
        ensures { IsTrue result ↔ ((self.now.account ≡ account.now) × (self.now.who ≡ who.now)) }
    {
        self.account.is_same(account.as_bytes()) && self.who.is_same(who.as_bytes())
    }
}

impl<'a> People<'a> {
    ghost use Rattle.std.specs.Prelude.{◌≡◌, true, IfOk, OnErr};
    ghost use Rattle.std.specs.Option.{option_copied};
    ghost use Rattle.procs.specs.Heard.{is_personal, flags_on, person_of, people_in};
    ghost use Rattle.procs.specs.Identity.{handle_by};

    // Starts with the people of a bot that shows this `view`, and nobody looked up. Does not allocate.
    pub(crate) fn new(view: &'a View<'_>) -> People<'a>
        ensures { result ≡ people_in view.now.sight }
    {
        People {
            mapping: view.channels().casemapping(),
            userfile: view.userfile(),
            last: None,
        }
    }

    // Returns the person behind an event.
    pub(crate) fn person_of(
        &mut self,
        alloc: Global,
        event: &IrcEvent,
    ) -> Result<Person<'a>, NoMemory>
        ensures handle { IfOk result (λ person. person.handle.now ≡ (person_of self.old.mapping self.old.users event.now).handle) }
        ensures flags { IfOk result (λ person. person.flags ≡ (person_of self.old.mapping self.old.users event.now).flags) }
        ensures users { self.new ≡ self.old }
        ensures memory { OnErr result (is_personal event.now.kind ≡ true) }
    {
        if !is_personal(event.kind) {
            return Ok(nobody());
        }
        let who = who_of(alloc, event.arguments.as_slice())?;
        let handle = self.handle_by(alloc, &event.account, who)?;
        let channel = event.channel.as_ref().map(|name| name.as_bytes());
        let flags = self.flags_on(handle, channel);
        Ok(Person { handle, flags })
    }

    // Returns the handle of the person of this account, if it isn't empty, and this `nick!user@host`.
    fn handle_by(&mut self, alloc: Global, account: &Text, who: Text) -> Result<&'a [u8], NoMemory>
        ensures value { IfOk result (λ handle. handle.now ≡ handle_by self.old.mapping self.old.users account.now who) }
        ensures users { self.new ≡ self.old }
    {
        match &self.last {
            Some(known) if known.is_by(account, &who) => Ok(known.handle),
            Some(_) | None => {
                let handle = handle_by(
                    self.userfile,
                    self.mapping,
                    account.as_bytes(),
                    who.as_bytes(),
                );
                let account = account.copy(alloc)?;
                self.last = Some(Known {
                    account,
                    who,
                    handle,
                });
                Ok(handle)
            }
        }
    }

    // Returns the flags of a handle for an event on this channel, or on none.
    fn flags_on(&self, handle: &[u8], channel: Option<&[u8]>) -> PersonFlags
        ensures { result ≡ flags_on self.now.users handle.now (option_copied channel.entry) }
    {
        match channel {
            Some(channel) => self.userfile.flags_of(handle, channel),
            None => {
                let flags = self.userfile.flags_of(handle, b"");
                PersonFlags {
                    global: flags.global,
                    chan: Flags::empty(),
                    bot: flags.bot,
                }
            }
        }
    }
}

// Returns nobody.
fn nobody<'a>() -> Person<'a>
    ensures handle { result.handle.now ≡ [] }
    ensures flags { result.flags ≡ record { global = 0; chan = 0; bot = 0 } }
{
    let flags = PersonFlags {
        global: Flags::empty(),
        chan: Flags::empty(),
        bot: Flags::empty(),
    };
    Person { handle: b"", flags }
}

// Returns a text of a list, or the empty text if there is none.
fn text_at(texts: &[Text], place: usize) -> &[u8]
    ensures { result.now ≡ text_at texts.now place }
{
    match texts.get(place) {
        Some(text) => text.as_bytes(),
        None => b"",
    }
}

// Returns the person in these arguments, as hostmasks match one.
fn who_of(alloc: Global, arguments: &[Text]) -> Result<Text, NoMemory>
    ensures { IfOk result (λ who. who ≡ who_of arguments.now) }
{
    let nick = text_at(arguments, 0);
    let address = text_at(arguments, 1);
    let mut who = Vec::with_capacity(alloc, nick.len() + 1 + address.len())?;
    who.extend_from_slice(nick)?;
    who.push(b'!')?;
    who.extend_from_slice(address)?;
    Ok(Text::new(who))
}
