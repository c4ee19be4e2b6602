//! Holds a session over standard input and output and a store in memory, and ends with the status of the run.
#![tactic(auto)]

mod host_time;
mod random_ids;

use delta_cli::{Ended, Status, USAGE, run};
use host_time::HostTime;
use lake_io::{StdSink, StdSource, SystemClock};
use object_store::MemStore;
use rand::make_rng;
use rand::rngs::StdRng;
use random_ids::RandomIds;
use std::process::ExitCode;
use std::{env, io};

fn main(rt: HostRuntime) -> io::Result<ExitCode> {
    let alloc = rt.alloc();
    let mut words = Vec::new(alloc);
    for word in env::args(&rt)?.skip(1) {
        words.push(word)?;
    }
    let mut source = StdSource::new(rt.reader());
    let mut sink = StdSink::new(io::writer(&rt));
    let mut clock = SystemClock::new(HostTime::new(rt.clone()?));
    let generator: StdRng = make_rng(&rt)?;
    let mut ids = RandomIds::new(generator);
    let store = MemStore::new(alloc, Vec::new(alloc));
    let ended = run(
        alloc,
        words.as_slice(),
        store,
        &mut source,
        &mut sink,
        &mut clock,
        &mut ids,
    );
    let status = status_of(ended);
    match status {
        Status::Done => {}
        Status::Usage => eprint!(rt; "{USAGE}")?,
        _ => eprintln!(rt; "delta: {}", status.meaning())?,
    }
    Ok(ExitCode::from(status.code()))
}

/// The status of a run, whose table is given up.
fn status_of(ended: Ended<MemStore>) -> Status {
    match ended {
        Ended::NotRun {
            status,
            store: _store,
        } => status,
        Ended::Ran { status, world } => {
            let (_catalog, _store) = world.close();
            status
        }
    }
}

#[cfg(test)]
mod tests;
