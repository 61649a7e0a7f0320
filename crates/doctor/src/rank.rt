// How bad a finding is.
ghost use Rattle.std.specs.Prelude.{◌≡◌, ◌↔◌, Contains};
ghost use Rattle.std.specs.List.{list_any};
ghost use Rattle.doctor.specs.Status.{is_bad, status_of};

use std::fmt;
use std::fmt::Display;

/// How bad a finding is. Each line begins with it.
#[derive(Clone, Copy)]
pub enum Rank {
    /// All is well.
    Fine,
    /// The bot runs, but something is to be seen to.
    Note,
    /// The bot does not run, reaches nobody there, or is open to others.
    Bad,
}

impl Display for Rank {
    fn fmt<W: fmt::Write>(&self, f: &mut fmt::Formatter<W>) -> fmt::Result {
        f.write_str(match *self {
            Rank::Fine => "ok",
            Rank::Note => "note",
            Rank::Bad => "bad",
        })
    }
}

/// Returns the exit status after findings of these ranks: 1 if one is bad, else 0.
pub fn status_of(ranks: &[Rank]) -> u8
    ensures value { result ≡ status_of ranks.now }
    ensures bad { (result ≡ 1) ↔ Contains ranks.now Rank.Bad }
{
    if has_bad(ranks) { 1 } else { 0 }
}

fn has_bad(ranks: &[Rank]) -> bool
    ensures { result ≡ list_any is_bad ranks.now }
{
    for rank in ranks {
        if is_bad(*rank) {
            return true;
        }
    }
    false
}

fn is_bad(rank: Rank) -> bool
    ensures { result ≡ is_bad rank }
{
    match rank {
        Rank::Bad => true,
        Rank::Fine | Rank::Note => false,
    }
}
