// Disks of sixteen pages and one log of 64 blocks.
use buffered_engine::{Heads, Master, Node, master_bytes, page_bytes};
use lean_disk::{Choice, Disk, MemDisk};
use std::alloc::{AllocError, Global};

fn first_master(floor: u64) -> Master {
    Master {
        sequence: 0,
        generation: 0,
        floor,
        pages: 16,
        blocks: 64,
        heads: Heads::new(1),
    }
}

fn first_page(number: u32) -> Node {
    if number == 0 {
        return Node::empty_leaf(0, 0, u64::MAX);
    }
    Node::free(number)
}

/// Writes so many pages into their first slots: an empty leaf with all keys, and free ones.
pub(crate) fn put_pages(disk: &mut MemDisk, count: u32) {
    let mut bytes = [0; 1024];
    for page in 0..count {
        page_bytes(&first_page(page), &mut bytes);
        disk.write(1, 2048 * u64::from(page), &bytes);
    }
}

/// Writes the first master, where numbers up to the floor are taken.
pub(crate) fn put_master(disk: &mut MemDisk, floor: u64) {
    let mut bytes = [0; 1024];
    master_bytes(&first_master(floor), &mut bytes);
    disk.write(0, 0, &bytes);
}

/// The disk as it stands, with no call made yet.
pub(crate) fn unused(disk: &MemDisk) -> Result<MemDisk, AllocError> {
    disk.crash(disk.moment(), Choice::AllBytes)
}

/// A formatted disk, where numbers up to the floor are taken, with no call made yet.
pub(crate) fn formatted(alloc: Global, floor: u64) -> Result<MemDisk, AllocError> {
    let mut disk = MemDisk::new(alloc, 3)?;
    put_pages(&mut disk, 16);
    put_master(&mut disk, floor);
    unused(&disk)
}
