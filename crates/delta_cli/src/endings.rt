ghost use Rattle.std.specs.Prelude.{◌≡◌};
ghost use Rattle.delta_cli.specs.Endings.{code_of, meaning_of};

use object_store::Store;
use table_world::World;

/// How a run of the program ended.
#[derive(Clone, Copy, Debug, PartialEq, Eq)]
pub enum Status {
    /// The input was read to its end, all replies were written, and all versions are published and reported.
    Done,
    /// The words are not in the grammar.
    Usage,
    /// Want of memory.
    Memory,
    /// The input could not be read.
    ReadFault,
    /// A reply could not be written.
    WriteFault,
    /// The store failed at the start or when the table was published.
    StoreFault,
    /// The folder has a name of the log at the start.
    NotEmpty,
    /// The input has 4,294,967,296 bytes or more.
    TooMuch,
}

impl Status {
    /// The exit status of the program: 0 to 6, and 8.
    pub fn code(self) -> u8
        ensures { result ≡ code_of self }
    {
        match self {
            Status::Done => 0,
            Status::Usage => 1,
            Status::Memory => 2,
            Status::ReadFault => 3,
            Status::WriteFault => 4,
            Status::StoreFault => 5,
            Status::NotEmpty => 6,
            Status::TooMuch => 8,
        }
    }

    /// The meaning of a status in words.
    pub fn meaning(self) -> &'static str
        ensures { result.now ≡ meaning_of self }
    {
        match self {
            Status::Done => "done",
            Status::Usage => "usage",
            Status::Memory => "want of memory",
            Status::ReadFault => "read fault",
            Status::WriteFault => "write fault",
            Status::StoreFault => "store fault",
            Status::NotEmpty => "folder not empty",
            Status::TooMuch => "too much input",
        }
    }
}

/// What a run hands back.
pub enum Ended<S: Store> {
    /// No session was begun: nothing was read or written. The store is handed back.
    NotRun { status: Status, store: S },
    /// A session was held, over this table.
    Ran { status: Status, world: World<S> },
}
