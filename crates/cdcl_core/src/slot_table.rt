//! The slots of the clauses by their names. Positions are dense, and the parts of one position come one behind the other, so a
//! name is found in two tables.

ghost use Rattle.std.specs.Prelude.{ℕ, ◌≡◌, ◌+◌, ◌^◌, ◌<◌, ◌≤◌, ◌++◌, [], List, length, Some, None, OnOk, OnErr, IfOk, MatchOption};
ghost use Rattle.cnf_base.specs.declared.clause.ClauseId.{ClauseId};
ghost use Rattle.cdcl_core.specs.Slots.{some_slot, slot_in, IsRenamed};
ghost use Rattle.cdcl_core.specs.Blocks.{block_at, blocks_of, HasPlace, AreBlocks, IsLast, IsWidened};

use cnf_base::ClauseId;
use std::alloc::{AllocError, Global};
use std::marker::Model;

// There are fewer slots, positions and places of the row than this, so that a number of any takes 4 bytes.
const MOST: usize = 0x1_0000_0000;

/// Where the slots of a position's parts stand in the row, and for how many parts there is room.
#[derive(Clone, Copy)]
struct Block {
    first: u32,
    room: u32,
}

/// The slot of each name that has one.
#[derive(Drop)]
pub(crate) struct SlotTable {
    // by position
    blocks: Vec<Block>,
    // the slots of the parts, 0 for none
    row: Vec<u32>,
}

impl Model for SlotTable {
    ghost use Rattle.std.specs.Prelude.{ℕ, List};

    ghost Value = { List (List ℕ) };

    ghost use Rattle.cdcl_core.specs.Blocks.{blocks_of, AreBlocks};

    ghost view = { λ s. blocks_of s.blocks.items s.row.items };

    ghost invariant = { λ s. AreBlocks s.blocks.items s.row.items };
}

impl SlotTable {
    /// No name has a slot.
    pub(crate) fn new(alloc: Global) -> SlotTable
        ensures { result ≡ [] }
    {
        SlotTable {
            blocks: Vec::new(alloc),
            row: Vec::new(alloc),
        }
    }

    /// The slot of a name.
    pub(crate) fn get(&self, id: ClauseId) -> Option<usize>
        ensures { result ≡ slot_in self.now id }
    {
        let Some(place) = place_of(self.blocks.as_slice(), id) else {
            return None;
        };
        some(self.row[place])
    }

    /// Gives a name this slot.
    pub(crate) fn insert(&mut self, id: ClauseId, slot: usize) -> Result<(), AllocError>
        requires { 0 < slot }
        ensures named { OnOk result (IsRenamed self.old self.new id (Some slot)) }
        ensures same { OnErr result ((q : ClauseId) → slot_in self.new q ≡ slot_in self.old q) }
    {
        if slot >= MOST {
            return Err(AllocError);
        }
        let place = make_place(&mut self.blocks, &mut self.row, id)?;
        self.row[place] = slot as u32;
        Ok(())
    }

    /// Takes the slot of a name away: the slot that it had.
    pub(crate) fn remove(&mut self, id: ClauseId) -> Option<usize>
        ensures value { result ≡ slot_in self.old id }
        ensures gone { IsRenamed self.old self.new id None }
    {
        let Some(place) = place_of(self.blocks.as_slice(), id) else {
            return None;
        };
        let slot = self.row[place];
        self.row[place] = 0;
        some(slot)
    }
}

// The slot of this number, 0 for none.
fn some(slot: u32) -> Option<usize>
    ensures { result ≡ some_slot slot }
{
    if slot == 0 { None } else { Some(slot as usize) }
}

// The place of a name in the row, None where there is no room for it.
fn place_of(blocks: &[Block], id: ClauseId) -> Option<usize>
    ensures { MatchOption result ((block_at blocks.now id.pos).room ≤ id.part)
        (HasPlace blocks.now id) }
{
    let pos = id.pos as usize;
    if blocks.len() <= pos {
        return None;
    }
    let block = blocks[pos];
    if block.room <= id.part {
        return None;
    }
    Some(block.first as usize + id.part as usize)
}

// Has a block for the position.
fn lengthen(blocks: &mut Vec<Block>, pos: usize) -> Result<(), AllocError>
    ensures same { (p : ℕ) → block_at blocks.new.items p ≡ block_at blocks.old.items p }
    ensures enough { OnOk result (pos < length blocks.new.items) }
{
    if blocks.len() <= pos {
        if pos >= MOST {
            return Err(AllocError);
        }
        blocks.resize(pos + 1, Block { first: 0, room: 0 })?;
    }
    Ok(())
}

// Copies a block to the end of the row, if it does not end it: where it begins.
fn copy_last(row: &mut Vec<u32>, start: usize, end: usize) -> Result<usize, AllocError>
    requires start { start ≤ end }
    requires end { end ≤ length row.old.items }
    ensures last { IfOk result (IsLast row.old.items start end row.new.items) }
    ensures same { OnErr result (row.new.items ≡ row.old.items) }
{
    let first = row.len();
    if end == first {
        return Ok(start);
    }
    row.extend_from_within(start..end)?;
    Ok(first)
}

// Room for so many parts, and for twice as many as before.
fn next_room(room: u32, count: usize) -> usize
    requires { count ≤ 2 ^ 32 }
    ensures enough { count ≤ result }
    ensures small { result ≤ 2 ^ 33 }
{
    let twice = 2 * room as usize;
    if count < twice { twice } else { count }
}

// Has room for so many parts of a position, and for twice as many as before. Its block ends the row then.
fn widen(
    blocks: &mut Vec<Block>,
    row: &mut Vec<u32>,
    pos: usize,
    count: usize,
) -> Result<(), AllocError>
    requires pos { pos < length blocks.old.items }
    requires count { (block_at blocks.old.items pos).room < count }
    requires small { count ≤ 2 ^ 32 }
    requires within { (block_at blocks.old.items pos).first + (block_at blocks.old.items pos).room
        ≤ length row.old.items }
    ensures widened { OnOk result
        (IsWidened blocks.old.items row.old.items pos count blocks.new.items row.new.items) }
    ensures same { OnErr result (blocks.new.items ≡ blocks.old.items) }
    ensures longer { OnErr result ((more : List ℕ) × (row.new.items ≡ row.old.items ++ more)) }
{
    let block = blocks[pos];
    let start = block.first as usize;
    let room = next_room(block.room, count);
    if row.len() + room >= MOST {
        return Err(AllocError);
    }
    let first = copy_last(row, start, start + block.room as usize)?;
    row.resize(first + room, 0)?;
    blocks[pos] = Block {
        first: first as u32,
        room: room as u32,
    };
    Ok(())
}

// The place of a name in the row, which it gets if it has none.
fn make_place(
    blocks: &mut Vec<Block>,
    row: &mut Vec<u32>,
    id: ClauseId,
) -> Result<usize, AllocError>
    requires { AreBlocks blocks.old.items row.old.items }
    ensures blocks { AreBlocks blocks.new.items row.new.items }
    ensures same { (q : ClauseId) → slot_in (blocks_of blocks.new.items row.new.items) q
        ≡ slot_in (blocks_of blocks.old.items row.old.items) q }
    ensures place { IfOk result (HasPlace blocks.new.items id) }
{
    if let Some(place) = place_of(blocks.as_slice(), id) {
        return Ok(place);
    }
    let pos = id.pos as usize;
    lengthen(blocks, pos)?;
    widen(blocks, row, pos, id.part as usize + 1)?;
    Ok(blocks[pos].first as usize + id.part as usize)
}
