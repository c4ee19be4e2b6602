//! The requests of a script, and their lines.
ghost use Rattle.std.specs.Prelude.{◌≡◌, ◌++◌, IfOk, decimal};
ghost use Rattle.std.specs.String.{string_bytes};
ghost use Rattle.table_maker.specs.Script.{text_of, write_line, request_line};
ghost use Rattle.table_maker.specs.declared.request.Write.TheVariants.{Add, Remove};

use crate::part::Part;
use std::alloc::AllocError;
use std::fmt::Write as _;

/// A write of the application `maker`, which counts its writes from 1. The file f7 has the number 7.
#[derive(Clone, Copy)]
pub enum Write {
    Add { file: u64, size: u64, number: u64 },
    Remove { file: u64, number: u64 },
}

/// A line of the script between its first and its last.
#[derive(Clone, Copy)]
pub enum Request {
    New(Write),
    /// The last write, once more.
    Again(Write),
    Publish,
}

/// Adds the line of a write to the text.
fn push_write(text: &mut String, write: Write) -> Result<(), AllocError>
    ensures { IfOk result (λ _. string_bytes text.new ≡ string_bytes text.old ++ write_line write) }
{
    match write {
        Write::Add { file, size, number } => push_add(text, file, size, number),
        Write::Remove { file, number } => push_remove(text, file, number),
    }
}

#[tactic(auto, using(std::proofs::Common::append_assoc), unfolding(crate::specs::Script::write_line))]
fn push_add(text: &mut String, file: u64, size: u64, number: u64) -> Result<(), AllocError>
    ensures { IfOk result (λ _. string_bytes text.new ≡ string_bytes text.old ++ write_line (Add file size number)) }
{
    push_number(text, Part::AddModified, file)?;
    push_number(text, Part::AddPath, file)?;
    push_number(text, Part::AddSize, size)?;
    push_number(text, Part::AddNumber, number)?;
    push_part(text, Part::AddEnd)
}

#[tactic(auto, using(std::proofs::Common::append_assoc), unfolding(crate::specs::Script::write_line))]
fn push_remove(text: &mut String, file: u64, number: u64) -> Result<(), AllocError>
    ensures { IfOk result (λ _. string_bytes text.new ≡ string_bytes text.old ++ write_line (Remove file number)) }
{
    push_number(text, Part::RemoveNumber, number)?;
    push_number(text, Part::RemovePath, file)?;
    push_part(text, Part::RemoveEnd)
}

/// Adds a part to the text.
pub fn push_part(text: &mut String, part: Part) -> Result<(), AllocError>
    ensures { IfOk result (λ _. string_bytes text.new ≡ string_bytes text.old ++ text_of part) }
{
    text.push_str(part.text())
}

/// Adds a part and the decimal digits of a number to the text.
fn push_number(text: &mut String, part: Part, number: u64) -> Result<(), AllocError>
    ensures { IfOk result (λ _. string_bytes text.new ≡ string_bytes text.old ++ (text_of part ++ decimal number)) }
{
    let words = part.text();
    write!(text, "{words}{number}")
}

/// Adds the line of a request to the text.
pub fn push_request(text: &mut String, request: Request) -> Result<(), AllocError>
    ensures { IfOk result (λ _. string_bytes text.new ≡ string_bytes text.old ++ request_line request) }
{
    match request {
        Request::New(write) | Request::Again(write) => push_write(text, write),
        Request::Publish => push_part(text, Part::PublishLine),
    }
}
