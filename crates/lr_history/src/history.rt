ghost use Rattle.std.specs.Prelude.{◌≡◌, ◌↔◌, ◌==◌, ◌+◌, ◌^◌, ◌<◌, ◌≤◌, [], ◌∷◌, ◌++◌, length, filter, slice_get, false, IsTrue, IsOk, IfOk, OnOk, OnErr};
ghost use Rattle.lr_history.specs.Limit.{is_limited, is_refused};

use crate::entries::Entries;
use crate::fault::HistoryFault;
use crate::segment::Segment;
use crate::{MOST_SEGMENTS, SEGMENT_ENTRIES, TABLE_SEGMENTS};
use lr_limits::MOST_ENTRIES;
use lr_model::{Act, Entry};
use std::alloc::{AllocError, Global};
use std::marker::Model;
use std::mem;

/// The entries of a server's steps, in order.
#[derive(Drop)]
pub struct History {
    alloc: Global,
    full: Vec<Segment>,
    last: Segment,
    ready: Vec<Segment>,
}

impl Model for History {
    ghost use Rattle.std.specs.Prelude.{vec_len, vec_capacity};
    ghost use Rattle.lr_history.specs.HistoryValue.{HistoryValue};
    ghost use Rattle.lr_history.specs.Segments.{entries_of, spare_of, IsInOrder};

    ghost Value = { HistoryValue };

    ghost view = { λ h. record {
      entries = entries_of h.full.items h.last;
      spare = spare_of h.last (vec_len h.ready);
    } };

    ghost invariant = { λ h. IsInOrder h.full.items h.last h.ready.items
        (vec_len h.full) (vec_len h.ready) (vec_capacity h.full) };
}

impl History {
    /// An empty history. Its table of segments has room for as many entries as a history takes.
    pub fn new(alloc: Global) -> Result<Self, AllocError>
        ensures { IfOk result (λ history. history.entries ≡ []) }
    {
        Ok(History {
            alloc,
            full: Vec::with_capacity(alloc, TABLE_SEGMENTS)?,
            last: Segment::new(alloc)?,
            ready: Vec::new(alloc),
        })
    }

    /// Appends an entry. `HistoryFull` comes at 2,000,000 entries or more and an act other than
    /// `Close`, and `NoMemory` only where `spare` is 0. After an error the history is as it was.
    pub fn push(&mut self, entry: Entry) -> Result<(), HistoryFault>
        ensures ok { OnOk result (self.new.entries ≡ self.old.entries ++ entry ∷ []) }
        ensures full { (result ≡ Err HistoryFault.HistoryFull)
            ↔ IsTrue (is_refused self.old.entries entry.act) }

        // It takes one from what is spare, and no memory while there is any.
        ensures spare { OnOk result (0 < self.old.spare → self.new.spare + 1 ≡ self.old.spare) }
        ensures no_memory { result ≡ Err HistoryFault.NoMemory → self.old.spare ≡ 0 }
        ensures succeeds { 0 < self.old.spare
            → is_refused self.old.entries entry.act ≡ false → IsOk result }

        ensures err { OnErr result (self.new ≡ self.old) }
    {
        if is_limited(&entry.act) && self.len() >= MOST_ENTRIES {
            return Err(HistoryFault::HistoryFull);
        }
        self.reserve(1)?;
        self.append(entry);
        Ok(())
    }

    /// How many entries are stored.
    pub fn len(&self) -> u64
        ensures value { result ≡ length self.now.entries }
        ensures fits { result < 2 ^ 63 }
    {
        (self.full.len() * SEGMENT_ENTRIES + self.last.len()) as u64
    }

    /// Whether none is stored.
    pub fn is_empty(&self) -> bool
        ensures { IsTrue result ↔ (self.now.entries ≡ []) }
    {
        self.len() == 0
    }

    /// The entry at this place, counted from 0: `None` past the end.
    pub fn get(&self, place: u64) -> Option<Entry>
        ensures { result ≡ slice_get self.now.entries place }
    {
        let place = place as usize;
        let before_last = self.full.len() * SEGMENT_ENTRIES;
        if place < before_last {
            self.full[place / SEGMENT_ENTRIES].get(place % SEGMENT_ENTRIES)
        } else {
            self.last.get(place - before_last)
        }
    }

    /// The entries of one caller, in order.
    pub fn filter_caller(&self, caller: u64) -> Result<Entries, AllocError>
        ensures { IfOk result (λ found. found
            ≡ filter (λ e. e.caller == caller) self.now.entries) }
    {
        let mut found = Entries::new(self.alloc);
        for segment in &self.full {
            push_of_caller(&mut found, segment.as_slice(), caller)?;
        }
        push_of_caller(&mut found, self.last.as_slice(), caller)?;
        Ok(found)
    }

    /// Makes `spare` at least `room`. Where there isn't memory for all of it, some of it may be
    /// taken.
    pub fn reserve(&mut self, room: u64) -> Result<(), AllocError>
        ensures ok { OnOk result (room ≤ self.new.spare) }
        ensures err { OnErr result (self.new.spare < room) }

        // The entries stay, and no room is given back; nothing is taken where there is enough.
        ensures entries { self.new.entries ≡ self.old.entries }
        ensures kept { self.old.spare ≤ self.new.spare }
        ensures enough { room ≤ self.old.spare → self.new ≡ self.old }
    {
        while self.spare() < room {
            self.add_segment()?;
        }
        Ok(())
    }

    /// How many entries more are sure to find room: so many pushes don't answer `NoMemory`.
    pub fn spare(&self) -> u64
        ensures value { result ≡ self.now.spare }
        ensures fits { result < 2 ^ 63 }
    {
        (SEGMENT_ENTRIES - self.last.len() + SEGMENT_ENTRIES * self.ready.len()) as u64
    }

    // Takes the memory of one segment more.
    fn add_segment(&mut self) -> Result<(), AllocError>
        ensures ok { OnOk result (self.new.spare ≡ self.old.spare + SEGMENT_ENTRIES) }
        ensures err { OnErr result (self.new.spare ≡ self.old.spare) }
        ensures entries { self.new.entries ≡ self.old.entries }
    {
        if self.full.len() + self.ready.len() >= MOST_SEGMENTS {
            return Err(AllocError);
        }
        let segment = Segment::new(self.alloc)?;
        self.full.reserve(self.ready.len() + 1)?;
        self.ready.push(segment)?;
        Ok(())
    }

    // Appends an entry where there is room.
    fn append(&mut self, entry: Entry)
        requires { 0 < self.old.spare }
        ensures entries { self.new.entries ≡ self.old.entries ++ entry ∷ [] }
        ensures spare { self.new.spare + 1 ≡ self.old.spare }
    {
        if self.last.len() < SEGMENT_ENTRIES {
            self.last.push(entry);
            return;
        }
        let Some(mut next) = self.ready.pop() else {
            unreachable!()
        };
        next.push(entry);
        let full = mem::replace(&mut self.last, next);
        self.full.push_reserved(full);
    }
}

// Whether the limit of a history holds for an act.
fn is_limited(act: &Act) -> bool
    ensures { result ≡ is_limited act.now }
{
    !matches!(act, Act::Close)
}

// Appends those of the entries that are the caller's.
fn push_of_caller(found: &mut Entries, entries: &[Entry], caller: u64) -> Result<(), AllocError>
    ensures { OnOk result (found.new
        ≡ found.old ++ filter (λ e. e.caller == caller) entries.now) }
{
    for entry in entries {
        if entry.caller == caller {
            found.push(*entry)?;
        }
    }
    Ok(())
}
