// Walks of random calls.
use crate::counts::Counts;
use crate::walks::{Seen, Walk};
use crate::wrong::Wrong;
use lean_disk::Choice;
use quiet_disk::trees::first_disk;
use std::alloc::Global;
use std::process::Abort;
use std::test::Fail;

/// The blocks of the log.
const BLOCKS: u32 = 1024;

// A walk: how it begins, how many steps it has, of a hundred calls how many are puts, in turn for 250 steps each, and at each how many
// steps a disk that a crash leaves is recovered.
struct Mix {
    name: &'static str,
    seed: u64,
    steps: u32,
    puts: [u32; 2],
    crashes: u32,
}

static WALKS: [Mix; 3] = [
    Mix {
        name: "short and long transactions in turn",
        seed: 1,
        steps: 2000,
        puts: [36, 46],
        crashes: 1,
    },
    Mix {
        name: "few changes, so most pages leave clean",
        seed: 2,
        steps: 500,
        puts: [4, 12],
        crashes: 10,
    },
    Mix {
        name: "many changes, and hardly a commit",
        seed: 3,
        steps: 500,
        puts: [47, 48],
        crashes: 10,
    },
];

// At each so many steps a crash is tried by the plain program.
const IMAGES: u32 = 20;

static CHOICES: [Choice; 4] = [
    Choice::NoBytes,
    Choice::AllBytes,
    Choice::FirstHalf,
    Choice::Zeros,
];

// A step, and what is wrong behind it.
fn step(walk: &mut Walk, alloc: Global, mix: &Mix, step: u32) -> Result<(), Wrong> {
    walk.step(alloc, mix.puts[(step / 250 % 2) as usize])?;
    if step % IMAGES == 0 {
        walk.recalls(alloc)?;
    }
    if step % mix.crashes.max(1) == 0 {
        walk.survives(alloc, CHOICES[(step / mix.crashes.max(1) % 4) as usize])?;
    }
    Ok(())
}

// The first step that is wrong, and what is.
fn first_wrong(walk: &mut Walk, alloc: Global, mix: &Mix) -> Result<(), (u32, Wrong)> {
    for number in 1..mix.steps.saturating_add(1) {
        if let Err(wrong) = step(walk, alloc, mix, number) {
            return Err((number, wrong));
        }
    }
    Ok(())
}

// What was seen in a walk without a wrong step.
fn walked(alloc: Global, mix: &Mix) -> Seen {
    let Ok(Some(disk)) = first_disk(alloc, BLOCKS) else {
        return Err((0, Wrong::Memory));
    };
    let mut walk = match Walk::new(alloc, disk, mix.seed) {
        Ok(walk) => walk,
        Err(wrong) => return Err((0, wrong)),
    };
    let wrong = first_wrong(&mut walk, alloc, mix);
    let counts = walk.end();
    match wrong {
        Ok(()) => Ok(counts),
        Err(wrong) => Err(wrong),
    }
}

#[test]
fn an_engine_goes_as_the_plain_program_has_it(rt: HostRuntime) -> Result<(), Fail> {
    let mut seen = Counts::new();
    for mix in &WALKS {
        match walked(rt.alloc(), mix) {
            Ok(counts) => seen.add(&counts),
            Err(wrong) => assert_eq!(rt;
                wrong,
                (0, Wrong::Memory),
                "{}: a step, and what is wrong behind it",
                mix.name
            ),
        }
    }
    assert!(rt; seen.came_often(), "{seen:?}");
    Ok(())
}
