//! The slots of an arena, in blocks of 1,024. A block is made when a node is first placed in one of its slots, and
//! stays as long as the arena. So what is touched is what is used, and not what the arena was opened with.
//!
//! **The word.** Each block has a place beside one word (`OnceSlot`), which says that the block is not there, that a
//! thread is putting it there, or that it is there for good.
//!
//! **Who looks for a slot** loads the word of its block. Where no block is there, nothing was ever placed in the slot.
//!
//! **Who places a node** where no block is there makes one in memory of its own, exchanges the word, and writes down
//! where the block lies. Who loses the exchange drops what it made, and takes the block of the one that won. While that
//! one is still writing, the other looks as often as its call tries, and is Busy then. Nobody waits.
//!
//! **Which clause carries it.** The rule of a block's place is that the block has as many slots as the place's tag
//! says, all of the tag's book (`IsBlock`). The opening lays down the tags (`row`): all blocks are whole but the last,
//! which has the slots that are left. So a slot that there is has its place in its block, and a group of 16 slots
//! makes 16.
//!
//! **Why 1,024.** A block has 72 kB, which a call writes once for 1,024 slots, in some 40 us where the memory is new.
//! Larger ones would make that call longer, and touch more than is used: each seat that publishes takes slots far from
//! those of others, in a block of its own. With smaller ones there would be more places, of 40 bytes each, to be
//! written at an opening and kept in the processor's nearest cache, since each look into a slot goes by one of them.
ghost use Rattle.std.specs.Prelude.{◌≡◌, ◌⊎◌, ◌*◌, ◌<◌, ◌≤◌, IfOk, IfErr, IfSome, length};
ghost use Rattle.std.specs.List.{All};
ghost use Rattle.group_history.specs.Refs.{max_slots};
ghost use Rattle.group_history.specs.declared.refusals.Refusal.TheVariants.{NoMemory, Busy};
ghost use Rattle.chunk_slots.specs.Inside.Blocks.{AreBlocks, IsBlock, length_of, tag_of, block_count};
ghost use Rattle.chunk_slots.specs.Inside.Places.{IsOfBook};

use crate::counted::NodeSlot;
use boxcar::slot::{OnceSlot, SlotRule};
use boxcar::tag::{Names, Tag};
use counted_slot::Counted;
use group_history::{Means, Refusal};
use head_word::{Mark, Sight};
use std::alloc::Global;
use std::marker::Model;

const BLOCK: u32 = 1024;

type Block<M> = Vec<NodeSlot<M>>;

// Where a block is put once, and for good.
type BlockCell<M> = OnceSlot<Block<M>, OfBook>;

// The block has as many slots as its tag says, all of the tag's book.
struct OfBook;

impl<M: Means> SlotRule<Block<M>> for OfBook {
    ghost use Rattle.chunk_slots.specs.Inside.Blocks.{IsBlock};

    ghost holds = { λ tag block. IsBlock tag block.items };
}

// What the tag of a block says.
#[derive(Drop)]
struct Plan<M: Means> {
    length: u32,
    seen: Sight<M>,
}

struct LengthAndBook;

impl<M: Means> Names<Plan<M>> for LengthAndBook {
    ghost use Rattle.std.specs.Prelude.{◌∷◌};
    ghost use Rattle.chunk_slots.specs.Inside.Appended.{numbers};

    ghost numbers = { λ plan. plan.length ∷ numbers plan.seen.book };
}

/// The slots, as many as it was opened with. Those that were never used take no memory.
#[derive(Drop)]
pub(crate) struct Blocks<M: Means> {
    alloc: Global,
    slots: u32,
    blocks: Vec<BlockCell<M>>,
    seen: Sight<M>,
}

impl<M: Means> Model for Blocks<M> {
    ghost use Rattle.chunk_slots.specs.Inside.Blocks.{Room, AreBlocks, block_count};

    ghost Value = { Room };

    ghost view = { λ b. record { slots = b.slots; book = b.seen.book } };

    ghost invariant = { λ b.
        AreBlocks (record { slots = b.slots; book = b.seen.book }) (block_count b.slots) b.blocks.items };
}

// An empty place for each slot.
fn places<M: Means>(alloc: Global, slots: u32, seen: &Sight<M>) -> Result<Block<M>, Refusal>
    ensures count { IfOk result (λ all. length all.items ≡ slots) }
    ensures book { IfOk result (λ all. All (IsOfBook seen.now.book) all.items) }
    ensures err { IfErr result (λ e. e ≡ NoMemory) }
{
    let mut all = Vec::with_capacity(alloc, slots as usize)?;
    for _ in 0..slots {
        all.push(Counted::new(None, seen))?;
    }
    Ok(all)
}

fn length_of(slots: u32, block: u32) -> u32
    requires { block * 1024 < slots }
    ensures { result ≡ length_of slots block }
{
    (slots - block * BLOCK).min(BLOCK)
}

fn tag_of<M: Means>(slots: u32, block: u32, mark: &Mark<M>) -> Tag
    requires { block * 1024 < slots }
    ensures { result.numbers ≡ tag_of (record { slots = slots; book = mark.now.book }) block }
{
    let plan = Plan {
        length: length_of(slots, block),
        seen: mark.sight(),
    };
    Tag::of::<Plan<M>, LengthAndBook>(&plan)
}

// The places of all blocks, of which none is there yet.
fn row<M: Means>(alloc: Global, slots: u32, mark: &Mark<M>) -> Result<Vec<BlockCell<M>>, Refusal>
    requires { slots ≤ max_slots }
    ensures row { IfOk result (λ all.
        AreBlocks (record { slots = slots; book = mark.now.book }) (block_count slots) all.items) }
    ensures err { IfErr result (λ e. e ≡ NoMemory) }
{
    let count = (slots + (BLOCK - 1)) / BLOCK;
    let mut all = Vec::with_capacity(alloc, count as usize)?;
    for block in 0..count {
        all.push(OnceSlot::new(&tag_of(slots, block, mark)))?;
    }
    Ok(all)
}

impl<M: Means> Blocks<M> {
    pub(crate) fn new(alloc: Global, slots: u32, mark: &Mark<M>) -> Result<Blocks<M>, Refusal>
        requires { slots ≤ max_slots }
        ensures slots { IfOk result (λ made. made.slots ≡ slots) }
        ensures book { IfOk result (λ made. made.book ≡ mark.now.book) }
        ensures err { IfErr result (λ e. e ≡ NoMemory) }
    {
        let blocks = row(alloc, slots, mark)?;
        Ok(Blocks {
            alloc,
            slots,
            blocks,
            seen: mark.sight(),
        })
    }

    pub(crate) fn count(&self) -> u32
        ensures { result ≡ self.now.slots }
    {
        self.slots
    }

    /// The slot, where its block is there.
    #[inline(always)]
    pub(crate) fn get(&self, slot: u32) -> Option<&NodeSlot<M>>
        ensures { IfSome result (λ found. found.now.book ≡ self.now.book) }
    {
        let block = self.blocks.get((slot / BLOCK) as usize)?.get()?;
        block.get((slot % BLOCK) as usize)
    }

    /// The slot, whose block is made if it isn't there. It stays, also where the caller is refused then.
    #[inline(always)]
    pub(crate) fn get_made(&self, slot: u32, tries: u32) -> Result<&NodeSlot<M>, Refusal>
        requires { slot < self.now.slots }
        ensures book { IfOk result (λ found. found.now.book ≡ self.now.book) }
        ensures err { IfErr result (λ e. (e ≡ NoMemory) ⊎ (e ≡ Busy)) }
    {
        let number = slot / BLOCK;
        let block = match self.blocks[number as usize].get() {
            Some(block) => block,
            None => self.make(number, tries)?,
        };
        Ok(&block[(slot % BLOCK) as usize])
    }

    // Makes the block, unless another thread was first.
    #[inline(never)]
    fn make(&self, number: u32, tries: u32) -> Result<&Block<M>, Refusal>
        requires { number * 1024 < self.now.slots }
        ensures block { IfOk result (λ block. IsBlock (tag_of self.now number) block.now.items) }
        ensures err { IfErr result (λ e. (e ≡ NoMemory) ⊎ (e ≡ Busy)) }
    {
        let here = &self.blocks[number as usize];
        let made = places(self.alloc, length_of(self.slots, number), &self.seen)?;
        match here.set(made) {
            Ok(block) => Ok(block),
            Err(in_vain) => {
                drop(in_vain);
                made_by_another(here, tries)
            }
        }
    }
}

// The block that another thread has put there, or is putting there.
fn made_by_another<M: Means>(here: &BlockCell<M>, tries: u32) -> Result<&Block<M>, Refusal>
    ensures block { IfOk result (λ block. IsBlock here.now.tag block.now.items) }
    ensures err { IfErr result (λ e. e ≡ Busy) }
{
    for _ in 0..tries.max(1) {
        if let Some(block) = here.get() {
            return Ok(block);
        }
    }
    Err(Refusal::Busy)
}
