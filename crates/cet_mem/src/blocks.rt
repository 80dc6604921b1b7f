//! Regions in order of address: which one holds an interval, and what a write leaves.
ghost use Rattle.std.specs.Prelude.{◌≡◌, ◌≤◌, ◌<◌, length, MatchOption};
ghost use Rattle.std.specs.List.Sorted.{IsPartitionPoint};
ghost use Rattle.cet_machine.specs.Memory.{region_holding, with_bytes, is_free};
ghost use Rattle.cet_mem.specs.Order.{AreInOrder};
ghost use Rattle.cet_mem.specs.Holder.{IsHolder};

use crate::block::Block;

/// How many blocks start at `a` or below it.
pub fn count_up_to(blocks: &[Block], a: u64) -> usize
    requires { AreInOrder blocks.now }
    ensures bound { result ≤ length blocks.now }
    ensures split { IsPartitionPoint (λ r. r.start ≤ a) (λ r. a < r.start) blocks.now result }
{
    blocks.partition_point(|block| block.start() <= a)
}

/// The place of the block that holds the `n` addresses from `a` on. None exactly where no one block does.
pub fn holder(blocks: &[Block], a: u64, n: u64) -> Option<usize>
    requires in_order { AreInOrder blocks.now }
    requires some { 0 < n }
    ensures { MatchOption result (region_holding blocks.now a n ≡ None) (IsHolder blocks.now a n) }
{
    let after = count_up_to(blocks, a);
    if after == 0 {
        return None;
    }
    let block = &blocks[after - 1];
    if block.holds(a, n) {
        Some(after - 1)
    } else {
        None
    }
}

/// Whether no block has an address from `low` up to `high`.
pub fn is_free(blocks: &[Block], low: u64, high: u64) -> bool
    requires in_order { AreInOrder blocks.now }
    requires some { low < high }
    ensures { result ≡ is_free blocks.now low high }
{
    let after = count_up_to(blocks, low);
    if after > 0 {
        let block = &blocks[after - 1];
        if low - block.start() < block.len() {
            return false;
        }
    }
    if after < blocks.len() {
        let block = &blocks[after];
        return high <= block.start();
    }
    true
}

/// Writes `new` from `a` on, into the block at `i`.
pub fn write(blocks: &mut Vec<Block>, i: usize, a: u64, new: &[u8])
    requires in_order { AreInOrder blocks.old.items }
    requires some { 0 < length new.now }
    requires holder { IsHolder blocks.old.items a (length new.now) i }
    ensures { blocks.new.items ≡ with_bytes blocks.old.items a new.now }
{
    let block = &mut blocks[i];
    block.write(a, new);
}
