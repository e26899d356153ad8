//! What is read from the store and written in it.

ghost use Rattle.std.specs.Prelude.{◌≡◌, ◌<◌, IsTrue, IfNone, IfSome, MatchOption, List, None, length};
ghost use Rattle.val_core.specs.Memory.{Memory, block_named, load, store, cleared_at, is_live, pointers_equal};
ghost use Rattle.c_interp_store.specs.Ascending.{ascends, IsFoundAt, IsAbsent};
ghost use Rattle.c_interp_store.specs.Blocks.{number_of};
ghost use Rattle.c_interp_store.specs.Holding.{Opened, Holds, IsChanged, IsNamedAt, live_named};

use crate::block::Block;
use crate::store::Store;
use val_core::{BlockName, Value, kept};

// The index of the block of this number, where it is listed. Those of globals and of the newest
// call stand where their number says; another is searched.
fn block_index(blocks: &[Block], number: u64) -> Option<usize>
    ensures some { IfSome result (IsFoundAt number_of blocks.now number) }
    ensures none { IfNone result (IsTrue (ascends number_of 0 blocks.now)
        → IsAbsent number_of blocks.now number) }
{
    if let Some(i) = near_index(blocks, number) {
        return Some(i);
    }
    number_index(blocks, number)
}

fn number_index(blocks: &[Block], number: u64) -> Option<usize>
    ensures some { IfSome result (IsFoundAt number_of blocks.now number) }
    ensures none { IfNone result (IsTrue (ascends number_of 0 blocks.now)
        → IsAbsent number_of blocks.now number) }
{
    match blocks.binary_search_by_key(&number, |block| block.number) {
        Ok(i) => Some(i),
        Err(_) => None,
    }
}

// The same, where the block stands as far from the start as its number says, or as far from the
// last one.
fn near_index(blocks: &[Block], number: u64) -> Option<usize>
    ensures { IfSome result (IsFoundAt number_of blocks.now number) }
{
    let count = blocks.len();
    if number < count as u64 && blocks[number as usize].number == number {
        return Some(number as usize);
    }
    let last = blocks.last()?.number;
    if number <= last && last - number < count as u64 {
        let i = count - 1 - (last - number) as usize;
        if blocks[i].number == number {
            return Some(i);
        }
    }
    None
}

impl Store {
    // The index of the block of this name, where it lives.
    fn find(&self, name: BlockName) -> Option<usize>
        ensures inside { IfSome result (λ i. i < length self.now.blocks.items) }
        ensures named { (calls : List Opened) (m : Memory) → Holds self.now calls m →
            MatchOption result (live_named name m ≡ None) (IsNamedAt self.now.blocks.items name m) }
    {
        match block_index(&self.blocks, name.number) {
            Some(i) if self.blocks[i].size == name.size => Some(i),
            _ => None,
        }
    }

    /// Whether the object of this name lives.
    pub fn is_live(&self, name: BlockName) -> bool
        ensures { (calls : List Opened) (m : Memory) → Holds self.now calls m →
            result ≡ is_live (block_named name m) }
    {
        self.find(name).is_some()
    }

    /// The value at an address: of a leaf of this width, in bytes, in an object that lives, where
    /// the leaf has one.
    #[inline(always)]
    pub fn load(&self, width: u8, at: Value) -> Option<Value>
        ensures { (calls : List Opened) (m : Memory) → Holds self.now calls m →
            result ≡ load width at m }
    {
        let Value::At { block, offset } = at else {
            return None;
        };
        match self.find(block) {
            Some(i) => self.blocks[i].read(width, offset),
            None => None,
        }
    }

    /// Stores a value at an address, where that is defined: at a leaf of this width in an object
    /// that lives and is not fixed.
    pub fn store(&mut self, width: u8, at: Value, value: Value) -> bool
        ensures { (calls : List Opened) (m : Memory) → Holds self.old calls m →
            IsChanged calls (store width at value m) self.new result }
    {
        let Value::At { block, offset } = at else {
            return false;
        };
        let Some(value) = kept(width, value) else {
            return false;
        };
        let Some(i) = self.find(block) else {
            return false;
        };
        if self.blocks[i].fixed {
            return false;
        }
        self.blocks[i].write(width, offset, value)
    }

    /// Makes every leaf of the object at an address 0; `false` where the value is no address.
    pub fn clear(&mut self, at: Value) -> bool
        ensures { (calls : List Opened) (m : Memory) → Holds self.old calls m →
            IsChanged calls (cleared_at at m) self.new result }
    {
        let Value::At { block, .. } = at else {
            return false;
        };
        if let Some(i) = block_index(&self.blocks, block.number) {
            self.blocks[i].clear();
        }
        true
    }

    /// Whether two pointers are equal, as 1 or 0, where they can be compared: words, an address and
    /// null, or addresses in objects that live.
    pub fn pointers_equal(&self, x: Value, y: Value) -> Option<u32>
        ensures { (calls : List Opened) (m : Memory) → Holds self.now calls m →
            result ≡ pointers_equal x y m }
    {
        match (x, y) {
            (Value::Num(a), Value::Num(b)) => Some(u32::from(a == b)),
            (Value::At { .. }, Value::Num(0)) | (Value::Num(0), Value::At { .. }) => Some(0),
            (
                Value::At { block, offset },
                Value::At {
                    block: other,
                    offset: past,
                },
            ) if self.is_live(block) && self.is_live(other) => Some(u32::from(
                block.number == other.number && block.size == other.size && offset == past,
            )),
            _ => None,
        }
    }
}
