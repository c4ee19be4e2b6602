//! What a script's next request depends on.
ghost use Rattle.std.specs.Prelude.{◌≡◌, ◌+◌, ◌^◌, ◌<◌, List, [], ◌∷◌, ◌++◌, IfOk};
ghost use Rattle.table_maker.specs.declared.request.Request.{Request as TheRequest};
ghost use Rattle.table_maker.specs.Requests.{next_request, with_request};
ghost use Rattle.table_maker.specs.declared.request.Request.TheVariants.{New};
ghost use Rattle.table_maker.specs.Knows.{Knows};

use crate::request::{Request, Write};
use std::alloc::{AllocError, Global};

/// What a maker keeps of the requests so far.
#[derive(Drop)]
pub struct Maker {
    /// The live files, in the order of adding.
    live: Vec<u64>,
    /// The last write that was asked for.
    last: Option<Write>,
    /// How many writes were asked for, each counted once.
    writes: u64,
}

/// The live files after a write. A file that cannot be added is left out.
fn update_files(live: &mut Vec<u64>, write: Write) -> Result<(), AllocError>
    ensures { IfOk result (λ _. live.new.items ≡ with_request live.old.items (New write)) }
{
    match write {
        Write::Add { file, .. } => live.push(file)?,
        Write::Remove { file, .. } => live.retain(|other| *other != file),
    }
    Ok(())
}

impl Maker {
    pub fn new(alloc: Global) -> Maker
        ensures { Knows result [] }
    {
        Maker {
            live: Vec::new(alloc),
            last: None,
            writes: 0,
        }
    }

    /// The request for the file of this number, by a draw.
    pub fn choose(&self, file: u64, draw: u64) -> Request
        requires { self.now.writes + 1 < 2 ^ 64 }
        ensures { (before : List TheRequest) → Knows self.now before → result ≡ next_request before file draw }
    {
        let number = self.writes + 1;
        let add = Request::New(Write::Add {
            file,
            size: draw,
            number,
        });
        match draw % 8 {
            0..=4 => add,
            5 => match self.live.first() {
                Some(file) => Request::New(Write::Remove {
                    file: *file,
                    number,
                }),
                None => add,
            },
            6 => match self.last {
                Some(write) => Request::Again(write),
                None => add,
            },
            _ => Request::Publish,
        }
    }

    /// Takes a request into what is kept. An error may have taken the file in or not.
    pub fn take(&mut self, request: Request) -> Result<(), AllocError>
        requires { self.old.writes + 1 < 2 ^ 64 }
        ensures { IfOk result (λ _. (before : List TheRequest) → Knows self.old before → Knows self.new (before ++ request ∷ [])) }
    {
        match request {
            Request::New(write) => {
                update_files(&mut self.live, write)?;
                self.last = Some(write);
                self.writes += 1;
            }
            Request::Again(write) => self.last = Some(write),
            Request::Publish => {}
        }
        Ok(())
    }
}
