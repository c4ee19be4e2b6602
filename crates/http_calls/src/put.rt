//! The members of an answer as tokens of a JSON writer.
//! A call that is refused, for want of memory alone, may have written a part; what stood before the writer is kept.
#![tactic(auto, unfolding(action_fields::specs::Tokens::field_tokens))]

ghost use Rattle.std.specs.Prelude.{Some, codes, option_map};
ghost use Rattle.std.specs.Option.{option_copied};
ghost use Rattle.serde_json.specs.Data.{string};
ghost use Rattle.action_fields.specs.Canonical.{integer_data};
ghost use Rattle.action_fields.specs.Tokens.{Puts, field_tokens};
ghost use Rattle.log_names.specs.Texts.{uuid_text};
ghost use Rattle.http_calls.specs.Answers.{count_data, latest_data, spot_name};

use action_types::Name;
use json::Writer;
use log_names::LogName;
use std::alloc::AllocError;
use uuid::Uuid;

/// A member with a text.
pub(crate) fn put_text(out: &mut Writer, name: &str, text: &str) -> Result<(), AllocError>
    ensures { Puts result out.old out.new (field_tokens name.now (Some (string text.now))) }
{
    out.key(name)?;
    out.string(text)
}

/// A member with a text, or nothing.
pub(crate) fn put_optional_text(
    out: &mut Writer,
    name: &str,
    text: Option<&Name>,
) -> Result<(), AllocError>
    ensures { Puts result out.old out.new (field_tokens name.now (option_map string (option_copied text.entry))) }
{
    match text {
        None => Ok(()),
        Some(text) => put_text(out, name, text.as_str()),
    }
}

/// A member with a number from 0.
pub(crate) fn put_count(out: &mut Writer, name: &str, count: u64) -> Result<(), AllocError>
    ensures { Puts result out.old out.new (field_tokens name.now (Some (count_data count))) }
{
    out.key(name)?;
    out.u64(count)
}

/// A member with an integer.
pub(crate) fn put_integer(out: &mut Writer, name: &str, number: i64) -> Result<(), AllocError>
    ensures { Puts result out.old out.new (field_tokens name.now (Some (integer_data number))) }
{
    out.key(name)?;
    out.i64(number)
}

/// A member with a number from 0, or a null.
pub(crate) fn put_latest(
    out: &mut Writer,
    name: &str,
    latest: Option<u64>,
) -> Result<(), AllocError>
    ensures { Puts result out.old out.new (field_tokens name.now (Some (latest_data latest))) }
{
    out.key(name)?;
    match latest {
        None => out.null(),
        Some(latest) => out.u64(latest),
    }
}

/// The id as its UUID text.
#[tactic(auto, unfolding(log_names::specs::Texts::uuid_text))]
pub(crate) fn put_id(out: &mut Writer, id: u128) -> Result<(), AllocError>
    ensures { Puts result out.old out.new (field_tokens (codes "id") (Some (string (uuid_text id)))) }
{
    let mut buffer = Uuid::encode_buffer();
    put_text(
        out,
        "id",
        Uuid::from_u128(id).hyphenated().encode_lower(&mut buffer),
    )
}

/// The name of the file, or the empty text for the folder.
#[tactic(auto)]
pub(crate) fn put_spot(out: &mut Writer, file: &Option<LogName>) -> Result<(), AllocError>
    ensures { Puts result out.old out.new (field_tokens (codes "name") (Some (string (spot_name file.now)))) }
{
    match file {
        None => put_text(out, "name", ""),
        Some(file) => match file.text() {
            None => put_text(out, "name", ""),
            Some(text) => put_text(out, "name", text.as_str()),
        },
    }
}
