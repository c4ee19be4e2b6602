//! The values of fields and the fields themselves as tokens of a JSON writer.
//! A call that is refused, for want of memory alone, may have written a part; what stood before the writer is kept.
#![tactic(auto, unfolding(crate::specs::Tokens::field_tokens))]

ghost use Rattle.std.specs.Prelude.{OnOk, Some, drop, option_map, take};
ghost use Rattle.serde_json.specs.Data.{boolean, string};
ghost use Rattle.action_fields.specs.Canonical.{format_data, integer_data, names_data, pairs_data, pairs_members, texts_items, value_data, vector_data, vector_fields};
ghost use Rattle.action_fields.specs.Fits.{Fits, FitsIfGiven, VectorFits, VectorFitsIfGiven};
ghost use Rattle.action_fields.specs.Tokens.{Puts, data_tokens, field_tokens, fields_tokens, items_outline_tokens, members_outline_tokens};

use action_types::{Format, Name, Names, Pairs, Vector};
use json::Writer;
use std::alloc::AllocError;

/// A text with or without a value: a string or a null.
fn put_value(out: &mut Writer, value: &Option<Name>) -> Result<(), AllocError>
    ensures { Puts result out.old out.new (data_tokens (value_data value.now)) }
{
    match value {
        None => out.null(),
        Some(text) => out.string(text.as_str()),
    }
}

/// The pairs and the closing brace.
fn put_members(out: &mut Writer, pairs: &[(Name, Option<Name>)]) -> Result<(), AllocError>
    ensures { Puts result out.old out.new (members_outline_tokens (pairs_members pairs.now)) }
{
    for pair in pairs {
        out.key(pair.0.as_str())?;
        put_value(out, &pair.1)?;
    }
    out.end_object()
}

fn put_object(out: &mut Writer, pairs: &Pairs) -> Result<(), AllocError>
    ensures { Puts result out.old out.new (data_tokens (pairs_data pairs.now)) }
{
    out.begin_object()?;
    put_members(out, pairs.as_slice())
}

/// The texts and the closing bracket.
fn put_items(out: &mut Writer, names: &[Name]) -> Result<(), AllocError>
    ensures { Puts result out.old out.new (items_outline_tokens (texts_items names.now)) }
{
    for name in names {
        out.string(name.as_str())?;
    }
    out.end_array()
}

fn put_array(out: &mut Writer, names: &Names) -> Result<(), AllocError>
    ensures { Puts result out.old out.new (data_tokens (names_data names.now)) }
{
    out.begin_array()?;
    put_items(out, names.as_slice())
}

/// A field with a string.
pub(crate) fn put_text(out: &mut Writer, name: &str, text: &Name) -> Result<(), AllocError>
    ensures { Puts result out.old out.new (field_tokens name.now (Some (string text.now))) }
{
    out.key(name)?;
    out.string(text.as_str())
}

/// A field with a string, or nothing.
pub(crate) fn put_optional_text(
    out: &mut Writer,
    name: &str,
    text: &Option<Name>,
) -> Result<(), AllocError>
    ensures { Puts result out.old out.new (field_tokens name.now (option_map string text.now)) }
{
    match text {
        None => Ok(()),
        Some(text) => put_text(out, name, text),
    }
}

/// A field with an integer.
pub(crate) fn put_integer(out: &mut Writer, name: &str, number: i64) -> Result<(), AllocError>
    ensures puts { Puts result out.old out.new (field_tokens name.now (Some (integer_data number))) }
    ensures fits { Fits number }
{
    out.key(name)?;
    out.i64(number)
}

/// A field with an integer, or nothing.
pub(crate) fn put_optional_integer(
    out: &mut Writer,
    name: &str,
    number: Option<i64>,
) -> Result<(), AllocError>
    ensures puts { Puts result out.old out.new (field_tokens name.now (option_map integer_data number)) }
    ensures fits { FitsIfGiven number }
{
    match number {
        None => Ok(()),
        Some(number) => put_integer(out, name, number),
    }
}

/// A field with a boolean.
pub(crate) fn put_flag(out: &mut Writer, name: &str, flag: bool) -> Result<(), AllocError>
    ensures { Puts result out.old out.new (field_tokens name.now (Some (boolean flag))) }
{
    out.key(name)?;
    out.boolean(flag)
}

/// A field with a boolean, or nothing.
pub(crate) fn put_optional_flag(
    out: &mut Writer,
    name: &str,
    flag: Option<bool>,
) -> Result<(), AllocError>
    ensures { Puts result out.old out.new (field_tokens name.now (option_map boolean flag)) }
{
    match flag {
        None => Ok(()),
        Some(flag) => put_flag(out, name, flag),
    }
}

/// A field with an array of strings.
pub(crate) fn put_names(out: &mut Writer, name: &str, names: &Names) -> Result<(), AllocError>
    ensures { Puts result out.old out.new (field_tokens name.now (Some (names_data names.now))) }
{
    out.key(name)?;
    put_array(out, names)
}

/// A field with an array of strings, or nothing.
pub(crate) fn put_optional_names(
    out: &mut Writer,
    name: &str,
    names: &Option<Names>,
) -> Result<(), AllocError>
    ensures { Puts result out.old out.new (field_tokens name.now (option_map names_data names.now)) }
{
    match names {
        None => Ok(()),
        Some(names) => put_names(out, name, names),
    }
}

/// A field with an object of strings and nulls.
pub(crate) fn put_pairs(out: &mut Writer, name: &str, pairs: &Pairs) -> Result<(), AllocError>
    ensures { Puts result out.old out.new (field_tokens name.now (Some (pairs_data pairs.now))) }
{
    out.key(name)?;
    put_object(out, pairs)
}

/// A field with an object of strings and nulls, or nothing.
pub(crate) fn put_optional_pairs(
    out: &mut Writer,
    name: &str,
    pairs: &Option<Pairs>,
) -> Result<(), AllocError>
    ensures { Puts result out.old out.new (field_tokens name.now (option_map pairs_data pairs.now)) }
{
    match pairs {
        None => Ok(()),
        Some(pairs) => put_pairs(out, name, pairs),
    }
}

#[tactic(auto, using(crate::proofs::Tokens::token_laws), unfolding(crate::specs::Tokens::field_tokens))]
fn put_format_value(out: &mut Writer, format: &Format) -> Result<(), AllocError>
    ensures { Puts result out.old out.new (data_tokens (format_data format.now)) }
{
    out.begin_object()?;
    put_pairs(out, "options", &format.options)?;
    put_text(out, "provider", &format.provider)?;
    out.end_object()
}

/// A field with a format.
pub(crate) fn put_format(out: &mut Writer, name: &str, format: &Format) -> Result<(), AllocError>
    ensures { Puts result out.old out.new (field_tokens name.now (Some (format_data format.now))) }
{
    out.key(name)?;
    put_format_value(out, format)
}

#[tactic(auto, using(crate::proofs::Tokens::token_laws))]
fn put_vector_front(out: &mut Writer, vector: &Vector) -> Result<(), AllocError>
    ensures puts { Puts result out.old out.new (fields_tokens (take 2 (vector_fields vector.now))) }
    ensures fits { OnOk result (Fits vector.now.cardinality × FitsIfGiven vector.now.offset) }
{
    put_integer(out, "cardinality", vector.cardinality)?;
    put_optional_integer(out, "offset", vector.offset)
}

#[tactic(auto, using(crate::proofs::Tokens::token_laws))]
fn put_vector_rest(out: &mut Writer, vector: &Vector) -> Result<(), AllocError>
    ensures puts { Puts result out.old out.new (fields_tokens (drop 2 (vector_fields vector.now))) }
    ensures fits { OnOk result (Fits vector.now.size) }
{
    put_text(out, "pathOrInlineDv", &vector.locator)?;
    put_integer(out, "sizeInBytes", vector.size)?;
    put_text(out, "storageType", &vector.storage)
}

#[tactic(auto, using(crate::proofs::Tokens::token_laws))]
fn put_vector_fields(out: &mut Writer, vector: &Vector) -> Result<(), AllocError>
    ensures puts { Puts result out.old out.new (fields_tokens (vector_fields vector.now)) }
    ensures fits { OnOk result (VectorFits vector.now) }
{
    put_vector_front(out, vector)?;
    put_vector_rest(out, vector)
}

#[tactic(auto, using(crate::proofs::Tokens::token_laws))]
fn put_vector_value(out: &mut Writer, vector: &Vector) -> Result<(), AllocError>
    ensures puts { Puts result out.old out.new (data_tokens (vector_data vector.now)) }
    ensures fits { OnOk result (VectorFits vector.now) }
{
    out.begin_object()?;
    put_vector_fields(out, vector)?;
    out.end_object()
}

/// A field with a deletion vector, or nothing.
pub(crate) fn put_optional_vector(
    out: &mut Writer,
    name: &str,
    vector: &Option<Vector>,
) -> Result<(), AllocError>
    ensures puts { Puts result out.old out.new (field_tokens name.now (option_map vector_data vector.now)) }
    ensures fits { OnOk result (VectorFitsIfGiven vector.now) }
{
    match vector {
        None => Ok(()),
        Some(vector) => {
            out.key(name)?;
            put_vector_value(out, vector)
        }
    }
}
