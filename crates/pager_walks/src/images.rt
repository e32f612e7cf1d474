// What is recovered from the disks that crashes leave.
use crate::nodes::DEAD;
use crate::wrong::Wrong;
use btree_node::Node;
use lean_disk::{Choice, MemDisk};
use quiet_disk::trees::{GAP, INNER, LEAVES, SLOTS, SPAN};
use recovery::recover;
use std::alloc::Global;

/// What is recovered: how many transactions the log has committed, and the values of all slots.
#[derive(Drop)]
pub struct Found {
    pub winners: u64,
    pub values: Vec<Option<u64>>,
}

/// What is recovered from what a crash leaves.
pub fn left_by(alloc: Global, disk: &MemDisk, moment: u64, choice: Choice) -> Result<Found, Wrong> {
    let mut left = disk.crash(moment, choice)?;
    let Ok(recovered) = recover(alloc, &mut left, 1) else {
        return Err(Wrong::Lost);
    };
    let mut values = Vec::new(alloc);
    values.resize((INNER * LEAVES) as usize * SLOTS, None)?;
    for node in &recovered.pages {
        if node.is_live() && node.level() == 0 {
            set_values(&mut values, node);
        }
    }
    Ok(Found {
        winners: recovered.winners,
        values,
    })
}

// The place of a key among all slots.
fn place_of(key: u64) -> usize {
    (key / SPAN) as usize * SLOTS + (key % SPAN / GAP) as usize
}

fn set_values(values: &mut Vec<Option<u64>>, node: &Node) {
    for at in 0..node.count() {
        let word = node.word_at(at);
        if let Some(value) = values.get_mut(place_of(node.key_at(at)))
            && word < DEAD
        {
            *value = Some(word);
        }
    }
}
