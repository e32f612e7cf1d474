// Lines that are put while no engine has the disk.
ghost use Rattle.std.specs.Prelude.{◌≡◌};
ghost use Rattle.lean_disk.specs.Faults.{HasCause};
ghost use Rattle.script_lang.specs.Notices.{Notice, NoticeFits};
ghost use Rattle.buffered_engine.specs.recovery.declared.opening.Unrecovered.{Unrecovered};
ghost use Rattle.buffered_engine.specs.lean_edge.Outside.{IsWholeLine};
ghost use Rattle.lean_shell.specs.Lines.{IsPut, line_of};
ghost use Rattle.lean_shell.specs.Runs.{first_line, notice_of};

use buffered_engine::{Put, Sink, Unrecovered};
use lean_disk::Disk;
use script_lang::{
    DISK_FAULT, END, NO_MEMORY, NOT_FORMATTED, REPLY, damaged_bytes, fixed_lines, made_bytes,
    notices_are_no_replies, opened_bytes, pair_bytes,
};

/// Puts one line.
fn put_line<K: Sink<D>, D: Disk>(line: &[u8], sink: &mut K, disk: &mut D) -> Put
    requires { IsWholeLine line.now }
    ensures put { IsPut line.now result (K.held sink.old) (K.held sink.new) (D.story disk.old) (D.story disk.new) }
    ensures faults { D.faults disk.new ≡ D.faults disk.old }

    ensures cause { HasCause (K.faults sink.old) (K.faults sink.new) (result ≡ Put.Failed) }
{
    sink.put(disk, line)
}

fn put_damaged<K: Sink<D>, D: Disk>(area: u32, place: u64, sink: &mut K, disk: &mut D) -> Put
    ensures put { IsPut (line_of (Notice.Damaged area place)) result (K.held sink.old) (K.held sink.new) (D.story disk.old) (D.story disk.new) }
    ensures faults { D.faults disk.new ≡ D.faults disk.old }

    ensures cause { HasCause (K.faults sink.old) (K.faults sink.new) (result ≡ Put.Failed) }
{
    notices_are_no_replies();
    let mut line = [0; REPLY];
    let end = damaged_bytes(area, place, &mut line);
    put_line(&line[..end], sink, disk)
}

/// Puts the line of a disk that was not opened. The answer is the status.
pub(crate) fn put_reason<K: Sink<D>, D: Disk>(
    reason: Unrecovered,
    sink: &mut K,
    disk: &mut D,
) -> Put
    ensures fits { NoticeFits (notice_of reason) }
    ensures put { IsPut (line_of (notice_of reason)) result (K.held sink.old) (K.held sink.new) (D.story disk.old) (D.story disk.new) }
    ensures faults { D.faults disk.new ≡ D.faults disk.old }

    ensures cause { HasCause (K.faults sink.old) (K.faults sink.new) (result ≡ Put.Failed) }
{
    fixed_lines();
    notices_are_no_replies();
    match reason {
        Unrecovered::NotFormatted => put_line(NOT_FORMATTED, sink, disk),
        Unrecovered::Damaged { area, place } => put_damaged(area, place, sink, disk),
        Unrecovered::DiskFault => put_line(DISK_FAULT, sink, disk),
        Unrecovered::Memory => put_line(NO_MEMORY, sink, disk),
    }
}

/// Puts the first line: the new generation, and how many transactions were found committed and how many were undone.
pub(crate) fn put_opened<K: Sink<D>, D: Disk>(
    generation: u64,
    winners: u64,
    undone: u64,
    sink: &mut K,
    disk: &mut D,
) -> Put
    ensures put { IsPut (first_line (record { generation = generation; winners = winners; undone = undone })) result (K.held sink.old) (K.held sink.new) (D.story disk.old) (D.story disk.new) }
    ensures faults { D.faults disk.new ≡ D.faults disk.old }

    ensures cause { HasCause (K.faults sink.old) (K.faults sink.new) (result ≡ Put.Failed) }
{
    notices_are_no_replies();
    let mut line = [0; REPLY];
    let end = opened_bytes(generation, winners, undone, &mut line);
    put_line(&line[..end], sink, disk)
}

/// Puts the line of a key and its value.
pub(crate) fn put_pair<K: Sink<D>, D: Disk>(key: u64, value: u64, sink: &mut K, disk: &mut D) -> Put
    ensures put { IsPut (line_of (Notice.Pair key value)) result (K.held sink.old) (K.held sink.new) (D.story disk.old) (D.story disk.new) }
    ensures faults { D.faults disk.new ≡ D.faults disk.old }

    ensures cause { HasCause (K.faults sink.old) (K.faults sink.new) (result ≡ Put.Failed) }
{
    notices_are_no_replies();
    let mut line = [0; REPLY];
    let end = pair_bytes(key, value, &mut line);
    put_line(&line[..end], sink, disk)
}

/// Puts the line behind the last pair.
pub(crate) fn put_end<K: Sink<D>, D: Disk>(sink: &mut K, disk: &mut D) -> Put
    ensures put { IsPut (line_of Notice.End) result (K.held sink.old) (K.held sink.new) (D.story disk.old) (D.story disk.new) }
    ensures faults { D.faults disk.new ≡ D.faults disk.old }

    ensures cause { HasCause (K.faults sink.old) (K.faults sink.new) (result ≡ Put.Failed) }
{
    fixed_lines();
    notices_are_no_replies();
    put_line(END, sink, disk)
}

/// Puts what a workload of so many transactions came to.
pub(crate) fn put_made<K: Sink<D>, D: Disk>(
    count: u32,
    refused: u64,
    pairs: u64,
    sum: u128,
    sink: &mut K,
    disk: &mut D,
) -> Put
    ensures put { IsPut (line_of (Notice.Made count refused pairs sum)) result (K.held sink.old) (K.held sink.new) (D.story disk.old) (D.story disk.new) }
    ensures faults { D.faults disk.new ≡ D.faults disk.old }

    ensures cause { HasCause (K.faults sink.old) (K.faults sink.new) (result ≡ Put.Failed) }
{
    notices_are_no_replies();
    let mut line = [0; REPLY];
    let end = made_bytes(count, refused, pairs, sum, &mut line);
    put_line(&line[..end], sink, disk)
}
