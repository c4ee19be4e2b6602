ghost use Rattle.delta_cli.specs.Words.{IsCommandOf};

/// The text of usage: two lines, each ended by LF.
pub const USAGE: &str = "usage: delta COMMAND [--NAME VALUE]...\ncommands: run\n";

/// What the words of the command line ask for.
#[derive(Clone, Copy, Debug, PartialEq, Eq)]
pub enum Command {
    /// A session over standard input and output.
    Run,
}

/// The command of these words, the program's name left out; none exactly where they are no command's. `run` stands alone.
pub fn read_words(words: &[String]) -> Option<Command>
    ensures { IsCommandOf words.now result }
{
    match words {
        [word] if word.as_str() == "run" => Some(Command::Run),
        _ => None,
    }
}
