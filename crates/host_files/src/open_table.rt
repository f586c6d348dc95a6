ghost use Rattle.std.specs.Prelude.{◌≡◌, ◌≢◌, ◌↔◌, ℕ, ◌≤◌, ◌<◌, [], ◌∷◌, ◌++◌, length, slice_index, string_bytes, nat_le, IsSome, None, IfOk, OnOk, OnErr, map, MatchOption};
ghost use Rattle.fault_counts.specs.Faults.{raised};
ghost use Rattle.file_traits.specs.State.{opened_at, name_at, without};
ghost use Rattle.host_files.specs.OpenTable.{opened_of, StandsAt};

use fault_counts::raised_count;
use file_traits::{FileId, OpenMode};
use std::alloc::{AllocError, Global};
use std::marker::Model;

/// An open file, with what its owner keeps of it.
#[derive(Drop)]
pub struct Entry<T: Drop> {
    file: u32,
    name: String,
    mode: OpenMode,
    handle: T,
}

/// The files that are open, each with what its owner keeps of it, and how often the calls on each id have failed. Ids
/// count up from 0.
#[derive(Drop)]
pub struct OpenTable<T: Drop> {
    entries: Vec<Entry<T>>,
    counts: Vec<u64>,
}

impl<T: Drop> Model for OpenTable<T> {
    ghost use Rattle.std.specs.Prelude.{map, length, IsTrue};
    ghost use Rattle.host_files.specs.OpenTable.{TableState, opened_of, all_given};

    ghost Value = { TableState };

    ghost view = { λ t. record { opened = map opened_of t.entries.items; counts = t.counts.items } };

    ghost invariant = { λ t. IsTrue (all_given (map opened_of t.entries.items) (length t.counts.items)) };
}

impl<T: Drop> OpenTable<T> {
    /// Nothing is open, and no id was given.
    pub fn new(alloc: Global) -> OpenTable<T>
        ensures { result ≡ record { opened = []; counts = [] } }
    {
        OpenTable {
            entries: Vec::new(alloc),
            counts: Vec::new(alloc),
        }
    }

    /// Whether every id was given.
    pub fn is_full(&self) -> bool
        ensures { result ≡ nat_le 4294967296 (length self.now.counts) }
    {
        self.counts.len() >= 4_294_967_296
    }

    /// How often a call on that id has failed.
    pub fn count(&self, file: FileId) -> u64
        ensures { result ≡ slice_index self.now.counts file.0 }
    {
        match self.counts.get(file.0 as usize) {
            Some(count) => *count,
            None => 0,
        }
    }

    /// Raises the count of an open id by one.
    pub fn raise(&mut self, file: FileId)
        requires { IsSome (opened_at self.old.opened file.0) }
        ensures opened { self.new.opened ≡ self.old.opened }
        ensures given { length self.new.counts ≡ length self.old.counts }
        ensures raised { slice_index self.new.counts file.0 ≡ raised (slice_index self.old.counts file.0) }
        ensures others { (other : ℕ) → other ≢ file.0 → slice_index self.new.counts other ≡ slice_index self.old.counts other }
    {
        let count = self.counts[file.0 as usize];
        self.counts[file.0 as usize] = raised_count(count);
    }

    /// Takes the memory for one more opening. Nothing else changes.
    pub fn reserve(&mut self) -> Result<(), AllocError>
        ensures { self.new ≡ self.old }
    {
        self.entries.reserve(1)?;
        self.counts.reserve(1)
    }

    /// Keeps a new opening, under the next id. Where there is no memory, nothing changes, and the handle is dropped.
    pub fn add(&mut self, name: String, mode: OpenMode, handle: T) -> Result<FileId, AllocError>
        requires { length self.old.counts < 4294967296 }
        ensures file { IfOk result (λ id. id.0 ≡ length self.old.counts) }
        ensures opened { IfOk result (λ id. self.new.opened
            ≡ record { file = id.0; name = string_bytes name; mode = mode } ∷ self.old.opened) }
        ensures fresh { OnOk result (opened_at self.old.opened (length self.old.counts) ≡ None) }
        ensures counts { OnOk result (self.new.counts ≡ self.old.counts ++ 0 ∷ []) }
        ensures refused { OnErr result (self.new ≡ self.old) }
    {
        let file = self.counts.len() as u32;
        self.entries.reserve(1)?;
        self.counts.push(0)?;
        let entry = Entry {
            file,
            name,
            mode,
            handle,
        };
        self.entries.insert(0, entry).unwrap();
        Ok(FileId(file))
    }

    /// The name behind an open id; empty for another id.
    pub fn name(&self, file: FileId) -> &str
        ensures { result.now ≡ name_at self.now.opened file.0 }
    {
        match place_of(self.entries.as_slice(), file.0) {
            Some(i) => self.entries[i].name.as_str(),
            None => "",
        }
    }

    /// What the owner keeps of an open id; none for another id.
    pub fn handle(&self, file: FileId) -> Option<&T>
        ensures open { IsSome result ↔ IsSome (opened_at self.now.opened file.0) }
    {
        match place_of(self.entries.as_slice(), file.0) {
            Some(i) => Some(&self.entries[i].handle),
            None => None,
        }
    }

    /// Takes an id out of the open ones.
    pub fn remove(&mut self, file: FileId)
        ensures opened { self.new.opened ≡ without self.old.opened file.0 }
        ensures counts { self.new.counts ≡ self.old.counts }
    {
        if let Some(at) = place_of(self.entries.as_slice(), file.0) {
            let _ = self.entries.remove(at);
        }
    }
}

/// The place of an id among those that are open.
fn place_of<T: Drop>(entries: &[Entry<T>], file: u32) -> Option<usize>
    ensures { MatchOption result
        (opened_at (map opened_of entries.now) file ≡ None)
        (λ i. StandsAt (map opened_of entries.now) file i) }
{
    match entries.split_first() {
        None => None,
        Some((first, rest)) => {
            if first.file == file {
                return Some(0);
            }
            match place_of(rest, file) {
                Some(i) => Some(i + 1),
                None => None,
            }
        }
    }
}
