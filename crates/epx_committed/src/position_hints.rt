//! Hints of the positions of instances in a list by rising Id.
ghost use Rattle.std.specs.Iterator.{IsFinite};

use epx_types::{Id, Memory};
use std::alloc::Global;

/// How many consecutive numbers share a block.
const BLOCK_NUMBERS: u64 = 64;

/// At most this many more blocks than instances are made, for gaps among the first numbers.
const SPARE_BLOCKS: u64 = 1_024;

/// Consecutive numbers of one replica.
#[derive(Clone, Copy, Debug)]
struct Block {
    /// A bit for each number, from the least bit up: whether its instance is noted.
    marks: u64,
    /// The position of the first noted instance.
    position: usize,
}

impl Block {
    /// The position of the instance with a number of this block, if it is noted.
    fn hint(&self, number: u64) -> Option<usize> {
        let mark = 1_u64 << (number % BLOCK_NUMBERS);
        if self.marks & mark == 0 {
            return None;
        }
        let before = (self.marks & mark.wrapping_sub(1)).count_ones();
        Some(self.position.wrapping_add(before as usize))
    }
}

/// Hints at the position of an instance in a list by rising Id by its number, without a search.
///
/// A hint may be wrong, so the caller checks it. An instance may have none if the numbers of
/// its replica have wide gaps: there are at most `SPARE_BLOCKS` more blocks than instances.
#[derive(Debug)]
pub struct PositionHints {
    blocks: Vec<Block>,
    /// For each replica, up to the greatest noted one: add this to a number's block number to get
    /// the index of its block.
    offsets: Vec<Option<u64>>,
}

impl Drop for PositionHints {
    fn drop(self) {
        let PositionHints {
            blocks: _,
            offsets: _,
        } = self;
    }
}

impl PositionHints {
    /// Hints for no instances.
    pub fn new(alloc: Global) -> PositionHints {
        PositionHints {
            blocks: Vec::new(alloc),
            offsets: Vec::new(alloc),
        }
    }

    /// Hints for the instances of a list by rising Id.
    pub fn of<I: Iterator<Item = Id> + Drop>(alloc: Global, ids: I) -> Result<PositionHints, Memory>
        requires can { I.can_next ids }
        requires ends { IsFinite (I.remaining ids) }
    {
        let mut hints = PositionHints::new(alloc);
        let mut position: usize = 0;
        for id in ids {
            hints.note(id, position)?;
            position = position.wrapping_add(1);
        }
        Ok(hints)
    }

    /// Records the position of an instance. Call it by rising Id.
    pub fn note(&mut self, id: Id, position: usize) -> Result<(), Memory> {
        self.open_block(id, position)?;
        if let Some(block) = self.blocks.last_mut() {
            block.marks |= 1 << (id.number % BLOCK_NUMBERS);
        }
        Ok(())
    }

    /// The offset of a replica, if one of its instances is noted.
    fn offset(&self, replica: u8) -> Option<u64> {
        *self.offsets.get(replica as usize)?
    }

    /// Sets the offset of a replica.
    fn set_offset(&mut self, replica: u8, offset: u64) -> Result<(), Memory> {
        for _ in self.offsets.len()..=replica as usize {
            self.offsets.push(None)?;
        }
        if let Some(place) = self.offsets.get_mut(replica as usize) {
            *place = Some(offset);
        }
        Ok(())
    }

    /// Makes the block of this instance the last block. If a gap would take too many blocks, the
    /// replica's blocks start anew.
    fn open_block(&mut self, id: Id, position: usize) -> Result<(), Memory> {
        let len = self.blocks.len() as u64;
        let number = id.number / BLOCK_NUMBERS;
        let mut more = match self.offset(id.replica) {
            Some(offset) => offset
                .wrapping_add(number)
                .wrapping_add(1)
                .wrapping_sub(len),
            None => u64::MAX,
        };
        if more
            > (position as u64)
                .saturating_add(SPARE_BLOCKS)
                .saturating_sub(len)
        {
            self.set_offset(id.replica, len.wrapping_sub(number))?;
            more = 1;
        }
        for _ in 0..more {
            self.blocks.push(Block { marks: 0, position })?;
        }
        Ok(())
    }

    /// A hint of the position of an instance, if it has one.
    pub fn hint(&self, id: Id) -> Option<usize> {
        let offset = self.offset(id.replica)?;
        let index = offset.wrapping_add(id.number / BLOCK_NUMBERS);
        self.blocks.get(index as usize)?.hint(id.number)
    }
}
