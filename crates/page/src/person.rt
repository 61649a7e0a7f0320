// Who a person would be, and by which hostmask.
ghost use Rattle.std.specs.Prelude.{◌≡◌, MatchOption, None};
ghost use Rattle.std.specs.Option.{option_copied};
ghost use Rattle.userfile.specs.Persons.{user_for};
ghost use Rattle.page.specs.Persons.{IsKnown, better_of, deciding_mask};

use rfccase::Casemapping;
use userfile::{Hostmask, User, Userfile};

// A known person: the user, and the hostmask by which the person is that user.
#[derive(Clone, Copy)]
pub(crate) struct KnownPerson<'a> {
    pub(crate) user: &'a User,
    pub(crate) mask: &'a Hostmask,
}

// Returns the user that the person `who` would be by a server's casemapping, and the hostmask that decides it. `None` just
// if no hostmask of any user matches.
pub(crate) fn person_of<'a>(
    mapping: Casemapping,
    userfile: &'a Userfile,
    who: &[u8],
) -> Option<KnownPerson<'a>>
    ensures { MatchOption result (user_for mapping who.now userfile.now.users ≡ None)
        (λ known. IsKnown mapping userfile.now.users who.now known.user.now known.mask.now) }
{
    userfile.are_sound();
    let Some(user) = userfile.user(userfile.handle_of(mapping, who)) else {
        return None;
    };
    match deciding_mask(mapping, user.masks.as_slice(), who) {
        Some(mask) => Some(KnownPerson { user, mask }),
        None => None,
    }
}

// Returns the first of a user's hostmasks that matches `who`, of those with most literals.
#[tactic(auto, using(crate::proofs::PersonLemmas::decided_next))]
fn deciding_mask<'a>(
    mapping: Casemapping,
    masks: &'a [Hostmask],
    who: &[u8],
) -> Option<&'a Hostmask>
    ensures { option_copied result ≡ deciding_mask mapping who.now masks.now }
{
    let mut best = None;
    for mask in masks {
        best = better_of(mapping, who, best, mask);
    }
    best
}

// Returns the best mask so far, or `mask` if it matches `who` and has more literals.
fn better_of<'a>(
    mapping: Casemapping,
    who: &[u8],
    best: Option<&'a Hostmask>,
    mask: &'a Hostmask,
) -> Option<&'a Hostmask>
    ensures { option_copied result ≡ better_of mapping who.now (option_copied best.entry) mask.now }
{
    if !mask.matches(mapping, who) {
        return best;
    }
    match best {
        Some(found) if found.literals() >= mask.literals() => best,
        Some(_) | None => Some(mask),
    }
}
