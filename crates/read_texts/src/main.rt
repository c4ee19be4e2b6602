//! Says of each line of standard input what it is as a commit text: the number of its actions and its canonical text, or its
//! first flaw. In a line `@` stands for a commitInfo line with its LF, `^` for an LF, and `~` for the byte 255.
//! With any argument the whole input is one text, and the number of its actions or the line of its first flaw is said, and how
//! many microseconds its reading took.
#![tactic(auto)]

mod spoilt;
mod table;

use action_json::{BadCommit, read_commit};
use std::io::{BufRead, BufReader, Read};
use std::rt::Clock;
use std::time::Instant;
use std::{env, io};

fn main(rt: HostRuntime) -> io::Result<()> {
    if env::args(&rt)?.count() > 1 {
        return say_whole(&rt);
    }
    let input = BufReader::new(rt.alloc(), rt.reader())?;
    for line in input.lines(rt.alloc()) {
        let said = table::said(rt.alloc(), line?.as_str())?;
        println!(rt; "{said}")?;
    }
    Ok(())
}

fn say_whole(rt: &(impl Input + AllocGlobal + Print + Clock)) -> io::Result<()> {
    let mut bytes = Vec::new(rt.alloc());
    rt.reader().read_to_end(&mut bytes)?;
    let start = Instant::now(rt)?;
    let read = read_commit(rt.alloc(), bytes.as_slice());
    let micros = start.elapsed(rt)?.as_micros();
    match read {
        Ok(actions) => {
            let count = actions.len();
            println!(rt; "{count} actions in {micros} us")
        }
        Err(BadCommit::At { line, .. }) => println!(rt; "flaw in line {line} in {micros} us"),
        Err(BadCommit::Memory) => println!(rt; "out of memory"),
    }
}
