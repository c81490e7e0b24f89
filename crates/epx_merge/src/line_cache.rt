//! A cache of lines, which recognizes repeated lines by their bytes.
ghost use Rattle.std.specs.Prelude.{◌≡◌, ◌∷◌, ◌++◌, [], IsTrue, IfOk, IfSome, Contains, Some};
ghost use Rattle.std.specs.Prelude.{if◌then◌else◌, slice_get};
ghost use Rattle.epx_lines.specs.Meaning.{meaning_of};

use crate::fresh_line::FreshLine;
use bumpalo::Bump;
use epx_types::Memory;
use std::alloc::Global;
use std::hash::{FoldHasher, Hasher};
use std::marker::Model;

/// The number of slots of a cache. A line that gets no slot is not recognized when it comes again.
const SLOTS: u64 = 131_072;

/// A lookup examines this many slots, so no choice of lines makes it slow. If many lines collide,
/// some are not recognized.
const PROBES: usize = 8;

/// Hashes the bytes of a line.
type LineHasher = FoldHasher;

/// A slot without a line.
const FREE_SLOT: u64 = u64::MAX;

/// The bytes of lines in a cache, each with a number from 0. Contracts see what the lines mean.
#[derive(Drop)]
pub struct LineCache<'a> {
    /// A slot holds the upper half of a line's hash, and the index of the line in `kept`. It is at
    /// the hash or soon after. So other lines are seldom compared, and most slots stay in a
    /// processor's cache. A slot is only a hint: the bytes are compared.
    slots: Vec<u64>,
    /// The lines in the order of their arrival. Logs of one cluster name instances in much the
    /// same order, so lines that are looked up one after another are close here.
    kept: Vec<&'a [u8]>,
}

impl<'a> Model for LineCache<'a> {
    ghost use Rattle.std.specs.Prelude.{List, Result, map};
    ghost use Rattle.epx_types.specs.declared.fault.Why.{Why};
    ghost use Rattle.epx_lines.specs.Meaning.{meaning_of};
    ghost use Rattle.epx_lines.specs.declared.Line.{Line};

    ghost Value = { List (Result Line Why) };

    ghost view = { λ c. map (λ line. meaning_of line.now) c.kept.items };
}

impl<'a> LineCache<'a> {
    /// An empty cache for the lines of this many logs. A single log needs no slots: its lines are
    /// not compared with each other.
    pub fn new(alloc: Global, logs: usize) -> Result<LineCache<'a>, Memory>
        ensures { IfOk result (λ cache. cache ≡ []) }
    {
        if logs < 2 {
            Ok(LineCache::without_slots(alloc))
        } else {
            LineCache::with_slots(alloc)
        }
    }

    /// A cache that never holds a line.
    fn without_slots(alloc: Global) -> LineCache<'a>
        ensures { result ≡ [] }
    {
        LineCache {
            slots: Vec::new(alloc),
            kept: Vec::new(alloc),
        }
    }

    /// An empty cache whose slots are free.
    fn with_slots(alloc: Global) -> Result<LineCache<'a>, Memory>
        ensures { IfOk result (λ cache. cache ≡ []) }
    {
        Ok(LineCache {
            slots: vec![in alloc; FREE_SLOT; SLOTS as usize + PROBES]?,
            kept: Vec::new(alloc),
        })
    }

    /// Whether the cache can hold lines.
    pub(crate) fn has_slots(&self) -> bool {
        !self.slots.is_empty()
    }

    /// The hash of a line, by which it is found. A cache without slots needs none, and returns 0.
    // No clause: lines that a hash finds are compared byte by byte, so any number would do.
    pub fn hash_of(&self, bytes: &[u8]) -> u64 {
        if !self.has_slots() {
            return 0;
        }
        let mut hasher = LineHasher::default();
        hasher.write(bytes);
        hasher.finish()
    }

    /// Whether a line with this hash finds its first slot free. It is not in the cache then.
    fn is_unseen(&self, hash: u64) -> bool {
        self.slot((hash % SLOTS) as usize).unwrap_or(FREE_SLOT) == FREE_SLOT
    }

    /// How many lines with these hashes find their first slot free.
    ///
    /// Look up their lines soon after: the slots are then in the processor's cache. This loop does
    /// so little that the processor loads many slots at once, where `find` waits for each.
    pub(crate) fn count_unseen(&self, hashes: &[u64]) -> usize {
        let mut unseen: usize = 0;
        for hash in hashes {
            if self.is_unseen(*hash) {
                unseen = unseen.saturating_add(1);
            }
        }
        unseen
    }

    /// Makes room for fresh lines. Put them into the cache soon after: as in `count_unseen`, the
    /// loop loads their slots.
    pub(crate) fn make_room(&mut self, fresh: &[FreshLine])
        ensures { self.new ≡ self.old }
    {
        let mut unseen: usize = 0;
        for line in fresh {
            if self.is_unseen(line.hash) {
                unseen = unseen.saturating_add(1);
            }
        }
        // If there is no memory for all, each line still asks for its own.
        let _made = self.kept.reserve(unseen);
    }

    /// What a slot holds. None if there is no such slot.
    fn slot(&self, at: usize) -> Option<u64> {
        self.slots.get(at).copied()
    }

    /// Whether the line with this number has these bytes.
    fn holds(&self, number: usize, bytes: &[u8]) -> bool
        ensures { IsTrue result → slice_get self.now number ≡ Some (meaning_of bytes.now) }
    {
        match self.kept.get(number) {
            Some(line) => *line == bytes,
            None => false,
        }
    }

    /// Stores a line in a slot, and returns whether it did. If out of memory, the slot stays free.
    fn keep(&mut self, at: usize, mark: u64, bytes: &'a [u8]) -> bool
        ensures { self.new ≡ if result then self.old ++ meaning_of bytes.now ∷ [] else self.old }
    {
        let number = self.kept.len() as u64;
        if at < self.slots.len() && self.kept.push(bytes).is_ok() {
            self.slots[at] = (mark << 32) | number;
            return true;
        }
        false
    }

    /// The number of a line with these bytes, which have this hash.
    pub fn find(&self, hash: u64, bytes: &[u8]) -> Option<usize>
        ensures { IfSome result
            (λ number. slice_get self.now number ≡ Some (meaning_of bytes.now)) }
    {
        let mark = hash >> 32;
        let start = (hash % SLOTS) as usize;
        for at in start..start + PROBES {
            let slot = self.slot(at)?;
            if slot == FREE_SLOT {
                return None;
            }
            let number = (slot & 0xFFFF_FFFF) as usize;
            if slot >> 32 == mark && self.holds(number, bytes) {
                return Some(number);
            }
        }
        None
    }

    /// Whether the cache has a line with these bytes, which have this hash.
    pub(crate) fn contains(&self, hash: u64, bytes: &[u8]) -> bool
        ensures { IsTrue result → Contains self.now (meaning_of bytes.now) }
    {
        self.find(hash, bytes).is_some()
    }

    /// The slot where a line with this hash would be kept, if one is free. A slot with the same
    /// half of the hash counts as this line, so a line that comes twice in a batch is kept once,
    /// and none is compared.
    fn free_slot(&self, hash: u64) -> Option<usize> {
        let mark = hash >> 32;
        let start = (hash % SLOTS) as usize;
        for at in start..start + PROBES {
            let slot = self.slot(at)?;
            if slot == FREE_SLOT {
                return Some(at);
            }
            if slot >> 32 == mark {
                return None;
            }
        }
        None
    }

    /// Keeps a copy of a line with this hash if a slot is free, and returns whether it did. Its
    /// number is then the count of lines kept before.
    pub fn insert_copy(&mut self, hash: u64, bytes: &[u8], copies: &'a Bump) -> bool
        ensures { self.new ≡ if result then self.old ++ meaning_of bytes.now ∷ [] else self.old }
    {
        let Some(at) = self.free_slot(hash) else {
            return false;
        };
        match copies.try_alloc_slice_copy(bytes) {
            Ok(copy) => self.keep(at, hash >> 32, copy),
            Err(_) => false,
        }
    }
}
