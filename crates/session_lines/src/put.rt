//! The members of a reply as tokens of a JSON writer.
//! A call that is refused, for want of memory alone, may have written a part; what stood before the writer is kept.
#![tactic(auto, unfolding(action_fields::specs::Tokens::field_tokens))]

ghost use Rattle.std.specs.Prelude.{Some, option_map};
ghost use Rattle.std.specs.Option.{option_copied};
ghost use Rattle.serde_json.specs.Data.{string};
ghost use Rattle.action_fields.specs.Canonical.{integer_data};
ghost use Rattle.action_fields.specs.Tokens.{Puts, field_tokens};
ghost use Rattle.session_lines.specs.Replies.{base_data, count_data};

use action_types::Name;
use json::Writer;
use std::alloc::AllocError;

/// A member with a text.
pub(crate) fn put_text(out: &mut Writer, name: &str, text: &str) -> Result<(), AllocError>
    ensures { Puts result out.old out.new (field_tokens name.now (Some (string text.now))) }
{
    out.key(name)?;
    out.string(text)
}

/// A member with a text, or nothing.
pub(crate) fn put_optional_text(
    out: &mut Writer,
    name: &str,
    text: Option<&Name>,
) -> Result<(), AllocError>
    ensures { Puts result out.old out.new (field_tokens name.now (option_map string (option_copied text.entry))) }
{
    match text {
        None => Ok(()),
        Some(text) => put_text(out, name, text.as_str()),
    }
}

/// A member with a number from 0.
pub(crate) fn put_count(out: &mut Writer, name: &str, count: u64) -> Result<(), AllocError>
    ensures { Puts result out.old out.new (field_tokens name.now (Some (count_data count))) }
{
    out.key(name)?;
    out.u64(count)
}

/// A member with an integer.
pub(crate) fn put_integer(out: &mut Writer, name: &str, number: i64) -> Result<(), AllocError>
    ensures { Puts result out.old out.new (field_tokens name.now (Some (integer_data number))) }
{
    out.key(name)?;
    out.i64(number)
}

/// A member with a number from 0, or a null.
pub(crate) fn put_base(out: &mut Writer, name: &str, base: Option<u64>) -> Result<(), AllocError>
    ensures { Puts result out.old out.new (field_tokens name.now (Some (base_data base))) }
{
    out.key(name)?;
    match base {
        None => out.null(),
        Some(base) => out.u64(base),
    }
}
