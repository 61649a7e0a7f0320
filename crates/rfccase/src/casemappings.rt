// How a server compares names.
ghost use Rattle.std.specs.Prelude.{◌≡◌};
ghost use Rattle.rfccase.specs.Casemapping.{folds_brackets, folds_tilde, mapping_named};

use crate::folds::same;

/// How a server compares names, as its line 005 says it (`CASEMAPPING=`). What an earlier one of these takes for the
/// same, each later one does too.
#[derive(Clone, Copy, Debug, PartialEq, Eq)]
pub enum Casemapping {
    /// A to Z have a lower case, and no other byte has one.
    Ascii,
    /// `{ | }` are the lower case of `[ \ ]` too.
    StrictRfc1459,
    /// And `^` is that of `~`.
    Rfc1459,
}

impl Casemapping {
    /// The casemapping that a server announces by this name (`CASEMAPPING=` of its line 005), in either case. Of one that
    /// is not known the strictest is taken, which never takes one name for another that the server tells apart from it.
    pub fn named(name: &[u8]) -> Casemapping
        ensures { result ≡ mapping_named name.now }
    {
        if same(name, b"rfc1459") {
            return Casemapping::Rfc1459;
        }
        if same(name, b"strict-rfc1459") {
            return Casemapping::StrictRfc1459;
        }
        Casemapping::Ascii
    }

    /// Whether `{ | }` are the lower case of `[ \ ]`.
    pub fn folds_brackets(self) -> bool
        ensures { result ≡ folds_brackets self }
    {
        match self {
            Casemapping::Ascii => false,
            Casemapping::StrictRfc1459 | Casemapping::Rfc1459 => true,
        }
    }

    /// Whether `^` is the lower case of `~`.
    pub fn folds_tilde(self) -> bool
        ensures { result ≡ folds_tilde self }
    {
        match self {
            Casemapping::Ascii | Casemapping::StrictRfc1459 => false,
            Casemapping::Rfc1459 => true,
        }
    }
}
