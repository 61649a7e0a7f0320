// The binds of one kind: an entry for each, which saves looking at the bind, and the keywords of a single kind.
ghost use Rattle.std.specs.Prelude.{◌≡◌, ◌<◌, ◌≤◌, ◌+◌, true, [], ◌∷◌, ◌++◌, OnOk};
ghost use Rattle.std.specs.List.{remove};
ghost use Rattle.std.specs.Vec.{vec_len, vec_capacity};
ghost use Rattle.indexmap.specs.IndexSet.{spare};
ghost use Rattle.procs.specs.Kinds.{is_single};
ghost use Rattle.procs.specs.Words.{words_of, HasNoWord, AreWords, AreCandidates, place_of_word};

use crate::bind_kind::BindKind;
use crate::kinds::is_single;
use crate::limits::MAX_MASK;
use bytetext::NoMemory;
use indexmap::IndexSet;
use rfccase::ShortFold;
use std::alloc::Global;
use wildmask::WideSignature;

/// An entry says where a bind is, and which pairs of bytes a subject needs to match it.
#[derive(Clone, Copy)]
pub struct IndexEntry {
    pub number: u32,
    pub needs: WideSignature,
}

/// The binds of one kind, oldest first. `words` holds the keywords of a single kind in lower case, at the same places;
/// other kinds have no words.
#[derive(Drop)]
pub struct KindIndex {
    pub entries: Vec<IndexEntry>,
    pub words: IndexSet<Vec<u8>>,
}

impl KindIndex {
    // Creates an empty index. Does not allocate.
    pub(crate) fn new(alloc: Global) -> KindIndex
        ensures entries { result.entries.items ≡ [] }
        ensures words { words_of result ≡ [] }
    {
        KindIndex {
            entries: Vec::new(alloc),
            words: IndexSet::new(alloc),
        }
    }

    // Reserves room for one more bind.
    pub(crate) fn reserve(&mut self) -> Result<(), NoMemory>
        ensures entries { self.new.entries.items ≡ self.old.entries.items }
        ensures words { self.new.words ≡ self.old.words }
        ensures room { OnOk result (vec_len self.new.entries < vec_capacity self.new.entries) }
    {
        self.entries.reserve(1)?;
        Ok(())
    }

    // Reserves room for one more keyword.
    pub(crate) fn reserve_word(&mut self) -> Result<(), NoMemory>
        ensures entries { self.new.entries ≡ self.old.entries }
        ensures words { self.new.words.keys ≡ self.old.words.keys }
        ensures room { OnOk result (0 < spare self.new.words) }
    {
        self.words.reserve(1)?;
        Ok(())
    }

    // Appends a bind for which there is room.
    pub(crate) fn push(&mut self, entry: IndexEntry)
        requires { vec_len self.old.entries < vec_capacity self.old.entries }
        ensures entries { self.new.entries.items ≡ self.old.entries.items ++ entry ∷ [] }
        ensures words { self.new.words ≡ self.old.words }
    {
        self.entries.push_reserved(entry);
    }

    // Appends a new keyword for which there is room.
    pub(crate) fn push_word(&mut self, word: Vec<u8>)
        requires room { 0 < spare self.old.words }
        requires absent { HasNoWord word.items (words_of self.old) }
        ensures entries { self.new.entries ≡ self.old.entries }
        ensures words { words_of self.new ≡ words_of self.old ++ word.items ∷ [] }
    {
        self.words.insert(word).unwrap();
    }

    // Removes the bind at a place, with its keyword if it has one.
    pub(crate) fn remove(&mut self, at: usize)
        requires { at < vec_len self.old.entries }
        ensures entries { self.new.entries.items ≡ remove self.old.entries.items at }
        ensures words { words_of self.new ≡ remove (words_of self.old) at }
        ensures len { vec_len self.new.entries ≤ vec_len self.old.entries }
        ensures capacity { vec_capacity self.new.entries ≡ vec_capacity self.old.entries }
        ensures word_room { spare self.old.words ≤ spare self.new.words }
    {
        let _entry = self.entries.remove(at);
        let _word = self.words.shift_remove_index(at);
    }

    // Returns the entries of the binds that an event may call: all binds of a kind with masks, or the one bind of a
    // keyword.
    pub(crate) fn candidates(&self, kind: BindKind, subject: &[u8]) -> &[IndexEntry]
        requires { is_single kind ≡ true → AreWords self.now }
        ensures { AreCandidates kind subject.now self.now result.now }
    {
        if !is_single(kind) {
            return self.entries.as_slice();
        }
        match self.place_of_word(subject) {
            Some(at) => &self.entries[at..at + 1],
            None => &[],
        }
    }

    // Returns the place of a keyword.
    fn place_of_word(&self, word: &[u8]) -> Option<usize>
        requires { AreWords self.now }
        ensures { result ≡ place_of_word word.now self.now }
    {
        match ShortFold::<MAX_MASK>::new(word) {
            Some(lower) => self.words.get_index_of(lower.as_bytes()),
            None => None,
        }
    }
}
