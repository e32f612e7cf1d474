// Each list is run, and each of its crashes looked at.
use crate::crashes::{admit_saved, choices_of, count_of, crash_of};
use crate::expectations::{Crash, End, Findings, List};
use crate::images::image_of;
use crate::journals::{Committed, after, has_ripe, is_closed, journal_of, kept_of, transcript_of};
use crate::lists::lists;
use crate::maps::{are_pairs, map_of_leaves, written};
use crate::runs::{Run, run_of};
use crate::small_images::{REDONE, SMALL, TREES, is_redone, nodes_of, stands};
use crate::walks::{first_wrong, walks};
use map_model::Replay;
use plain_core::{Core, Kind, Refusal};
use plain_images::{
    Image, Pair, first_break, first_damage, map, reach, recovered_page, sorted, winners,
};
use std::alloc::{AllocError, Global};
use std::collections::BTreeMap;

#[test]
fn each_list_answers_as_is_written_and_each_crash_is_recovered(rt: HostRuntime) {
    let alloc = rt.alloc();
    for list in &lists() {
        let mut findings = Findings {
            first: "",
            number: 0,
        };
        let looked = look(alloc, list, &mut findings);
        assert!(rt;
            looked.is_ok() && findings.first.is_empty(),
            "{}: {} {}",
            list.name,
            findings.first,
            findings.number
        );
    }
}

#[test]
fn each_walk_goes_as_is_written(rt: HostRuntime) {
    let alloc = rt.alloc();
    for walk in &walks() {
        assert!(rt; first_wrong(alloc, walk) == Ok(None), "{}", walk.name);
    }
}

#[test]
fn each_small_image_and_each_tree_is_as_is_written(rt: HostRuntime) -> Result<(), AllocError> {
    let alloc = rt.alloc();
    for small in &SMALL {
        assert!(rt; stands(alloc, small) == Ok(true), "{}", small.name);
    }
    for redone in &REDONE {
        assert!(rt; is_redone(alloc, redone) == Ok(true), "{}", redone.name);
    }
    for (shapes, expected) in &TREES {
        assert_eq!(rt; first_break(&nodes_of(alloc, shapes)?), *expected);
    }
    Ok(())
}

// All that is written of the list, and all rules.
fn look(alloc: Global, list: &List, findings: &mut Findings) -> Result<(), Refusal> {
    let run = run_of(alloc, list)?;
    findings.unless(run.wrong.is_none(), "answer", run.wrong.unwrap_or(0));
    findings.unless(has_ends(&run.core, list.ends), "ends", 0);
    let leaves = map_of_leaves(alloc, &run.core)?;
    findings.unless(are_pairs(&leaves, list.leaves), "leaves", 0);
    let journal = journal_of(alloc, &run.core)?;
    look_at_journal(alloc, &run, &journal, list, findings)?;
    look_at_crashes(alloc, &run, &journal, list, findings)?;
    Ok(())
}

// The ends that were entered are these, the first one first.
fn has_ends(core: &Core, ends: &[End]) -> bool {
    let mut count: usize = 0;
    for entry in core.entries.iter().rev() {
        if matches!(entry.kind, Kind::Commit | Kind::Abort) {
            let Some(End(log, txn, number, need)) = ends.get(count) else {
                return false;
            };
            if entry.log != *log
                || entry.txn != *txn
                || entry.number != *number
                || entry.need != *need
            {
                return false;
            }
            count = count.saturating_add(1);
        }
    }
    count == ends.len()
}

// The committed transactions are serial, by the test's own replay and by that of transcripts, and leave the map.
fn look_at_journal(
    alloc: Global,
    run: &Run,
    journal: &[Committed],
    list: &List,
    findings: &mut Findings,
) -> Result<(), AllocError> {
    match after(alloc, &run.core, &run.first, journal)? {
        Some(map) => findings.unless(are_pairs(&map, list.committed), "committed", 0),
        None => findings.unless(false, "not serial", 0),
    }
    if let Some(lines) = transcript_of(alloc, &run.core, journal)? {
        let mut start = BTreeMap::new(alloc);
        for pair in &run.first {
            start.insert(pair.key, pair.word)?;
        }
        let is_serial = match Replay::run(alloc, start, &lines) {
            Ok(end) => is_map(&end, list.committed),
            Err(_) => false,
        };
        findings.unless(is_serial, "not serial as lines", 0);
    }
    Ok(())
}

fn is_map(map: &BTreeMap<u64, u64>, pairs: &[(u64, u64)]) -> bool {
    for (key, value) in pairs {
        if map.get(key).copied() != Some(*value) {
            return false;
        }
    }
    map.len() == pairs.len()
}

fn look_at_crashes(
    alloc: Global,
    run: &Run,
    journal: &[Committed],
    list: &List,
    findings: &mut Findings,
) -> Result<(), AllocError> {
    let choices = choices_of(alloc, run)?;
    findings.unless(admit_saved(run, &choices), "saved", 0);
    let count = count_of(&choices);
    findings.unless(count == list.crashes, "crashes", count);
    let mut seen: usize = 0;
    for number in 0..count {
        let crash = crash_of(alloc, &choices, number)?;
        let recovered = look_at_crash(alloc, run, journal, &crash, number, findings)?;
        for (place, told) in list.told.iter().enumerate() {
            if is_told(run, &crash, told) {
                look_at_told(&recovered, told, place, findings);
                seen = seen.saturating_add(1);
            }
        }
    }
    findings.unless(seen == list.told.len(), "untold", seen);
    Ok(())
}

// What recovery gives after a crash.
#[derive(Drop)]
struct Recovered {
    reach: u64,
    kept: Vec<Committed>,
    map: Vec<Pair>,
}

// The rules that hold of each crash: the image breaks none; the kept transactions are closed, and the ripe ones are among them; the
// image's map, and that of the pages that recovery leaves, are the one after the kept transactions.
fn look_at_crash(
    alloc: Global,
    run: &Run,
    journal: &[Committed],
    crash: &[usize],
    number: usize,
    findings: &mut Findings,
) -> Result<Recovered, AllocError> {
    let image = image_of(alloc, run, crash)?;
    findings.unless(first_damage(alloc, &image)?.is_none(), "damaged", number);
    let recovered = recovered_of(alloc, journal, &image)?;
    let kept = recovered.kept.as_slice();
    let is_closed = is_closed(alloc, &run.core, journal, kept)?;
    findings.unless(is_closed, "not closed", number);
    findings.unless(has_ripe(&run.core, journal, kept), "ripe lost", number);
    match after(alloc, &run.core, &run.first, kept)? {
        Some(map) => {
            findings.unless(map == recovered.map, "other map", number);
            findings.unless(has_pages(alloc, &image, &map)?, "other pages", number);
        }
        None => findings.unless(false, "kept not serial", number),
    }
    Ok(recovered)
}

fn recovered_of(
    alloc: Global,
    journal: &[Committed],
    image: &Image,
) -> Result<Recovered, AllocError> {
    let records = sorted(alloc, &image.logs)?;
    let reach = reach(image.logs.len(), image.floor, &records);
    let winners = winners(alloc, reach, &records)?;
    Ok(Recovered {
        reach,
        kept: kept_of(alloc, journal, image.floor, &winners)?,
        map: map(alloc, image)?,
    })
}

// The pages that recovery leaves are a tree with this map.
fn has_pages(alloc: Global, image: &Image, after: &[Pair]) -> Result<bool, AllocError> {
    let mut nodes = Vec::new(alloc);
    let mut map = Vec::new(alloc);
    for place in 0..image.bases.len() {
        let node = recovered_page(alloc, image, place as u64)?.node;
        if node.live && node.level == 0 {
            for pair in &node.pairs {
                map = written(alloc, &map, pair.key, pair.word)?;
            }
        }
        nodes.push(node)?;
    }
    Ok(first_break(&nodes).is_none() && map.as_slice() == after)
}

// It leaves so many records of each log, and of each page the contents with this number.
fn is_told(run: &Run, crash: &[usize], told: &Crash) -> bool {
    for (count, wanted) in crash.iter().zip(told.logs) {
        if count != wanted {
            return false;
        }
    }
    for (place, number) in crash.iter().skip(told.logs.len()).zip(told.pages) {
        if !run.has_number(*place, *number) {
            return false;
        }
    }
    crash.len() == told.logs.len().saturating_add(told.pages.len())
}

fn look_at_told(recovered: &Recovered, told: &Crash, place: usize, findings: &mut Findings) {
    findings.unless(recovered.reach == told.reach, "reach", place);
    findings.unless(are_named(&recovered.kept, told.kept), "kept", place);
    findings.unless(are_pairs(&recovered.map, told.map), "map", place);
}

fn are_named(kept: &[Committed], names: &[(u64, u64)]) -> bool {
    for (txn, (session, number)) in kept.iter().zip(names) {
        if txn.session != *session || txn.number != *number {
            return false;
        }
    }
    kept.len() == names.len()
}
