//! The outside of the service, as traits: where bytes come from and go to, the clock, ids, and the lines of an input. Objects in
//! memory implement them for tests, and adapters over the standard streams and the system's clock for the program.
#![tactic(auto)]

mod answers;
mod calls;
mod clocks;
mod identifiers;
mod input;
mod law;
mod output;
mod reader;

pub use answers::{End, ReadFault, WriteFault};
pub use clocks::{Clock, FixedClock, SystemClock, TimeOfDay};
pub use identifiers::{Ids, ListIds};
pub use input::{MemSource, Source, StdSource};
pub use law::lines_are_cut_at_lf;
pub use output::{MemSink, Sink, StdSink, put_all};
pub use reader::{InputState, Line, LineError, Lines, MAX_INPUT, MAX_LINE};
