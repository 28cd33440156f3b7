//! What has the memory of a closed document go back to the system.
//!
//! The C library gives back what is free at the heap's end, up to the last block that is taken. But of each
//! small size it keeps the first blocks that are freed in a cache, where they count as taken: of a document
//! that is closed those are blocks from all over it, so that nearly all its memory stays. Therefore blocks
//! from the heap's bottom are kept here from the start on, and the cache gets them in place of its own when a
//! document was closed.
//!
//! The numbers are those of glibc, from 2.26 to 2.41. With another C library little is gained, and little
//! lost.

use std::alloc::Global;

/// How many free blocks of one size the cache keeps.
const CACHED: usize = 7;

/// Of how many sizes it keeps blocks.
const SIZES: usize = 64;

/// How many bytes a block of the least of these sizes holds.
const LEAST: usize = 24;

/// How many more bytes one of the next size holds.
const STEP: usize = 16;

/// Of how many bytes a block is from which a small one is cut: what is left is too large for the cache.
const UNCUT: usize = 2_100;

/// How many bytes a large block has: from 128 KiB on a block is no part of the heap, and is given back at
/// once.
const LARGE: usize = 130_000;

/// So many large blocks are 64 MiB: so much has to be free at the heap's end, at most, before the C library
/// gives it back.
const LARGES: usize = 520;

/// Blocks at the heap's bottom, as many of each small size as the cache keeps.
#[derive(Drop)]
pub(crate) struct HeapFloor {
    alloc: Global,
    low: Vec<Vec<u8>>,
    /// Other blocks, for a moment. The room for them is at the bottom too.
    others: Vec<Vec<u8>>,
    /// How many documents were open last.
    open: usize,
}

impl HeapFloor {
    /// To be made at the start. Where memory is refused, less of that of documents is given back.
    pub(crate) fn new(alloc: Global) -> HeapFloor {
        let mut floor = HeapFloor {
            alloc,
            low: with_room(alloc, SIZES * CACHED),
            others: with_room(alloc, LARGES),
            open: 0,
        };
        floor.fill_cache();
        take_small(alloc, &mut floor.low);
        floor
    }

    /// To be called between messages, when so many documents are open: where they were more before, gives
    /// memory back.
    pub(crate) fn settle(&mut self, open: usize) {
        if open < self.open {
            self.empty_cache();
            self.trim();
        }
        self.open = open;
    }

    /// Has the cache full. A block counts there by its very size, and one that is asked for may be greater,
    /// unless it is cut.
    fn fill_cache(&mut self) {
        cut_small(self.alloc, &mut self.others);
        self.others.clear();
    }

    /// Has the blocks that are cached go to the heap.
    fn empty_cache(&mut self) {
        // From a full cache each block that is asked for is taken, and from no other place.
        self.fill_cache();
        take_small(self.alloc, &mut self.others);
        // Now it is full of the low ones, and the others go past it.
        self.low.clear();
        self.others.clear();
        take_small(self.alloc, &mut self.low);
    }

    /// Gives back what is free at the heap's end.
    fn trim(&mut self) {
        for _block in 0..LARGES {
            take(self.alloc, &mut self.others, LARGE, LARGE);
        }
        self.others.clear();
    }
}

/// A vector with room for so many blocks, or with none where that is refused.
fn with_room(alloc: Global, count: usize) -> Vec<Vec<u8>> {
    match Vec::with_capacity(alloc, count) {
        Ok(blocks) => blocks,
        Err(_) => Vec::new(alloc),
    }
}

/// Takes as many blocks of each small size as are cached at most.
fn take_small(alloc: Global, blocks: &mut Vec<Vec<u8>>) {
    for block in 0..SIZES * CACHED {
        let size = small_size(block);
        take(alloc, blocks, size, size);
    }
}

/// The same, but each is cut from a larger one.
fn cut_small(alloc: Global, blocks: &mut Vec<Vec<u8>>) {
    for block in 0..SIZES * CACHED {
        take(alloc, blocks, UNCUT, small_size(block));
    }
}

/// The size of one of the small blocks, by its number.
fn small_size(block: usize) -> usize {
    LEAST.saturating_add(STEP.saturating_mul(block / CACHED))
}

/// Takes a block of `from` bytes and leaves it `size` of them, unless it is refused.
fn take(alloc: Global, blocks: &mut Vec<Vec<u8>>, from: usize, size: usize) {
    if let Ok(mut block) = Vec::with_capacity(alloc, from) {
        block.shrink_to(size);
        let _done = blocks.push(block);
    }
}
