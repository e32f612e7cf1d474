//! A program with a map of its own, which an engine keeps in files of the current folder.
//!
//! The rule of a caller: behind a pair of a scan what follows it is asked, and behind a conflict the abort of its transaction;
//! behind the last answer the commits that have become durable are taken, until there is none, and only then the next call
//! is asked. `ask` keeps it.
#![tactic(auto)]

ghost use Rattle.std.specs.Prelude.{◌≡◌, IfOk, true};
ghost use Rattle.embed.specs.Turns.{IsBehindAnswer, IsNoScan};
ghost use Rattle.host_disk.specs.buffered_engine.engine_trait.Calls.{IsAsked};
ghost use Rattle.host_disk.specs.buffered_engine.engine_front.Turns.{behind_durables};
ghost use Rattle.host_disk.specs.buffered_engine.engine_front.declared.calls.Next.{Next};

use host_disk::{Closed, Engine, Formatted, HostDisk, Next, Opened, Shape, Size, Unopened, format};
use map_model::Call;
use std::io;

const SHAPE: Shape = Shape {
    workers: 2,
    pages: 16,
    blocks: 64,
};

const SIZE: Size = Size {
    frames: 32,
    rows: 256,
    group: 1,
    sessions: 2,
};

fn failed() -> io::Error {
    io::Error::from(io::ErrorKind::Other)
}

// Takes the commits that have become durable.
fn take_durables(rt: &HostRuntime, engine: &mut Engine<HostDisk<'_>>) -> io::Result<()>
    requires { engine.old.works ≡ true }
    ensures next { IfOk result (λ done. engine.new.next ≡ behind_durables engine.old.next) }
    ensures same { (engine.new.works ≡ true) × (engine.new.sessions ≡ engine.old.sessions) }
{
    while let Some(durable) = engine.next_durable() {
        println!(rt; "  {} durable {}", durable.session, durable.number)?;
    }
    Ok(())
}

// Asks what follows each pair of a scan, and prints it.
fn tell_pairs(rt: &HostRuntime, engine: &mut Engine<HostDisk<'_>>) -> io::Result<()>
    requires works { engine.old.works ≡ true }
    requires next { IsBehindAnswer engine.old.next }
    ensures next { IfOk result (λ done. IsBehindAnswer engine.new.next × IsNoScan engine.new.next) }
    ensures works { IfOk result (λ done. engine.new.works ≡ true) }
    ensures sessions { engine.new.sessions ≡ engine.old.sessions }
{
    'pairs: while engine.expects() == Next::Scan {
        let Ok(answer) = engine.answer_scan() else {
            return Err(failed());
        };
        println!(rt; "  {answer:?}")?;
    }
    Ok(())
}

// Asks a call of a session, and prints what it is answered.
fn ask(
    rt: &HostRuntime,
    engine: &mut Engine<HostDisk<'_>>,
    session: u32,
    call: Call,
) -> io::Result<()>
    requires asked { IsAsked engine.old.sessions session call }
    requires next { engine.old.next ≡ Next.Line }
    ensures next { IfOk result (λ done. engine.new.next ≡ Next.Line) }
    ensures sessions { engine.new.sessions ≡ engine.old.sessions }
{
    let Ok(answer) = engine.answer(session, &call) else {
        return Err(failed());
    };
    println!(rt; "{session} {call:?}: {answer:?}")?;
    tell_pairs(rt, engine)?;
    if engine.expects() != Next::Abort {
        return take_durables(rt, engine);
    }
    let Ok(aborted) = engine.answer_abort() else {
        return Err(failed());
    };
    println!(rt; "  {aborted:?}")?;
    take_durables(rt, engine)
}

// A transaction of two keys, which a scan finds, and two sessions that both want one of them.
fn talk(rt: &HostRuntime, engine: &mut Engine<HostDisk<'_>>) -> io::Result<()>
    requires sessions { engine.old.sessions ≡ 2 }
    requires next { engine.old.next ≡ Next.Line }
{
    ask(rt, engine, 1, Call::Begin)?;
    ask(rt, engine, 1, Call::Put { key: 5, value: 7 })?;
    ask(rt, engine, 1, Call::Put { key: 6, value: 8 })?;
    ask(rt, engine, 1, Call::Scan { from: 0, to: 9 })?;
    ask(rt, engine, 1, Call::Commit)?;
    ask(rt, engine, 1, Call::Begin)?;
    ask(rt, engine, 1, Call::Put { key: 5, value: 9 })?;
    ask(rt, engine, 2, Call::Begin)?;
    ask(rt, engine, 2, Call::Get { key: 5 })?;
    ask(rt, engine, 1, Call::Commit)?;
    ask(rt, engine, 2, Call::Begin)?;
    ask(rt, engine, 2, Call::Get { key: 5 })?;
    ask(rt, engine, 2, Call::Commit)
}

fn main(rt: HostRuntime) -> io::Result<()> {
    let alloc = rt.alloc();
    let mut disk = HostDisk::new(&rt, alloc);
    let mut buffer = vec![in alloc; 0; 65536]?;
    // A disk that is there is opened as it stands.
    match format(&mut disk, SHAPE, &mut buffer) {
        Formatted::Done => println!(rt; "formatted")?,
        Formatted::AlreadyFormatted => {}
        Formatted::DiskFault => return Err(failed()),
    }
    let (mut engine, generation, winners) = match Engine::open(alloc, disk, SIZE) {
        Ok(
            Opened {
                engine,
                generation,
                winners,
                undone: _,
            },
        ) => (engine, generation, winners),
        Err(Unopened { disk: _, reason: _ }) => return Err(failed()),
    };
    let mut said = println!(rt; "open {generation}, {winners} transactions found");
    if said.is_ok() && engine.sessions() == 2 {
        said = talk(&rt, &mut engine);
    }
    let Closed {
        disk: _disk,
        front: _,
    } = engine.close();
    said?;
    println!(rt; "closed")
}
