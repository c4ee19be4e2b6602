//! Made states that are written, shuffled by line, and read.

use crate::rows::{applied, written};
use checkpoint_v2::read_checkpoint;
use reconcile::State;
use std::alloc::Global;
use std::str;
use std::test::Fail;

const INFO: &str = "{\"commitInfo\":{\"inCommitTimestamp\":1000}}\n";

const CREATED: &str =
    "{\"commitInfo\":{\"inCommitTimestamp\":1000}}\n{\"protocol\":{\"minReaderVersion\":3,\"minWriterVersion\":7}}\n{\"metaData\":{\"configuration\":{},\"format\":{\"options\":{},\"provider\":\"parquet\"},\"id\":\"t1\",\"partitionColumns\":[],\"schemaString\":\"{}\"}}\n";

/// The next of a row of numbers that look random.
fn next(number: u64) -> u64 {
    number
        .wrapping_mul(6364136223846793005)
        .wrapping_add(1442695040888963407)
}

/// The line of the action of a number: of each kind, over four names.
fn made_line(alloc: Global, number: u64) -> Result<String, Fail> {
    let name = number / 8 % 4;
    let size = number / 32 % 1000;
    let vector =
        "\"deletionVector\":{\"cardinality\":1,\"pathOrInlineDv\":\"x\",\"sizeInBytes\":4,\"storageType\":\"u\"},";
    match number % 8 {
        0 => Ok(format!(in alloc; "{{\"txn\":{{\"appId\":\"{name}\",\"version\":{size}}}}}\n")?),
        1 => Ok(format!(in alloc;
            "{{\"domainMetadata\":{{\"configuration\":\"{size}\",\"domain\":\"{name}\",\"removed\":false}}}}\n"
        )?),
        2 => Ok(format!(in alloc;
            "{{\"domainMetadata\":{{\"configuration\":\"\",\"domain\":\"{name}\",\"removed\":true}}}}\n"
        )?),
        3 => Ok(format!(in alloc;
            "{{\"remove\":{{\"dataChange\":true,\"path\":\"{name}\",\"size\":{size}}}}}\n"
        )?),
        4 => Ok(format!(in alloc;
            "{{\"remove\":{{\"dataChange\":true,{vector}\"path\":\"{name}\",\"size\":{size}}}}}\n"
        )?),
        5 => Ok(format!(in alloc;
            "{{\"add\":{{\"dataChange\":true,{vector}\"modificationTime\":5,\"partitionValues\":{{}},\"path\":\"{name}\",\"size\":{size}}}}}\n"
        )?),
        _ => Ok(format!(in alloc;
            "{{\"add\":{{\"dataChange\":true,\"modificationTime\":5,\"partitionValues\":{{}},\"path\":\"{name}\",\"size\":{size}}}}}\n"
        )?),
    }
}

/// The state after one more commit of one made action.
fn grown(alloc: Global, state: State, number: u64) -> Result<State, Fail> {
    let mut text = String::from_str(alloc, INFO)?;
    text.push_str(made_line(alloc, number >> 32)?.as_str())?;
    applied(alloc, state, text.as_str())
}

fn made_state(alloc: Global, seed: u64) -> Result<State, Fail> {
    let mut state = applied(alloc, State::empty(alloc), CREATED)?;
    let mut number = seed;
    for _ in 0..seed {
        number = next(number);
        state = grown(alloc, state, number)?;
    }
    Ok(state)
}

/// The lines of a text, some of them first and then the others, as a number has it.
fn riffled(alloc: Global, text: &str, seed: u64) -> Result<String, Fail> {
    let mut front = String::new(alloc);
    let mut back = String::new(alloc);
    let mut number = seed;
    for line in text.lines() {
        number = next(number);
        if number >> 63 == 0 {
            front.push_str(line)?;
            front.push('\n')?;
        } else {
            back.push_str(line)?;
            back.push('\n')?;
        }
    }
    front.push_str(back.as_str())?;
    Ok(front)
}

fn shuffled(alloc: Global, text: &[u8], seed: u64) -> Result<String, Fail> {
    let mut shuffled = match str::from_utf8(text) {
        Ok(text) => String::from_str(alloc, text)?,
        Err(_) => String::new(alloc),
    };
    for round in 0..6u64 {
        shuffled = riffled(
            alloc,
            shuffled.as_str(),
            seed.wrapping_mul(7).wrapping_add(round),
        )?;
    }
    Ok(shuffled)
}

/// Whether the state that is read of a text has this canonical text, and no time.
fn is_read_as(alloc: Global, version: u64, text: &[u8], wanted: &[u8]) -> Result<bool, Fail> {
    match read_checkpoint(alloc, version, text) {
        Ok(state) => {
            let again = written(alloc, version, &state)?;
            Ok(state.time().is_none() && again.as_slice() == wanted)
        }
        Err(_) => Ok(false),
    }
}

/// Whether the made state of a seed is read as it was written, in the order of its lines and in another.
fn is_kept(alloc: Global, seed: u64) -> Result<bool, Fail> {
    let state = made_state(alloc, seed)?;
    let text = written(alloc, seed, &state)?;
    let shuffled = shuffled(alloc, text.as_slice(), seed)?;
    Ok(
        is_read_as(alloc, seed, text.as_slice(), text.as_slice())?
            && is_read_as(alloc, seed, shuffled.as_bytes(), text.as_slice())?,
    )
}

#[test]
fn made_states_are_written_and_read(rt: HostRuntime) -> Result<(), Fail> {
    let alloc = rt.alloc();
    for seed in 1..51u64 {
        assert!(rt; is_kept(alloc, seed)?, "{seed}");
    }
    Ok(())
}
