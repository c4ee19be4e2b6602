//! From a text to a value, in one pass over its tokens.
ghost use Rattle.std.specs.Prelude.{◌≡◌, ◌<◌, Err, None, Some, IfOk, OnOk, length};
ghost use Rattle.json.specs.Json.{items, members, value};
ghost use Rattle.serde_json.specs.Data.{no_members};
ghost use Rattle.serde_json.specs.Read.{converted, of_items, of_json, of_members, read};
ghost use Rattle.json_tree.specs.View.{items_view, members_view, view};

use crate::error::ParseError;
use crate::number::number_of;
use crate::tree::Tree;
use json::{Reader, Scratch, Token};
use std::alloc::Global;
use std::collections::BTreeMap;

/// Arrays and objects nest at most so deep.
const MAX_DEPTH: usize = 127;

impl<'a> Tree<'a> {
    /// The value that a text is (RFC 8259), as `serde_json` reads it. The scratch memory is kept from text to text.
    ///
    /// `Invalid` comes only where the text is none; where it is, want of memory may be answered before that is seen.
    pub fn parse(
        alloc: Global,
        text: &'a str,
        scratch: &'a mut Scratch,
    ) -> Result<Tree<'a>, ParseError>
        ensures ok { IfOk result (λ v. read text.now ≡ Some (view v)) }
        ensures invalid { result ≡ Err ParseError.Invalid → read text.now ≡ None }
    {
        let Ok(mut reader) = Reader::new(text, scratch) else {
            return Err(ParseError::Memory);
        };
        let value = read_value(alloc, &mut reader, MAX_DEPTH)?;
        if reader.next().is_some() {
            return Err(ParseError::Invalid);
        }
        Ok(value)
    }
}

#[cycle(read)]
fn read_value<'a>(
    alloc: Global,
    reader: &mut Reader<'a>,
    depth: usize,
) -> Result<Tree<'a>, ParseError>
    ensures ok { IfOk result (λ v. converted of_json (value depth reader.old) ≡ Some (view v, reader.new)) }
    ensures shorter { OnOk result (length reader.new < length reader.old) }
    ensures invalid { result ≡ Err ParseError.Invalid → converted of_json (value depth reader.old) ≡ None }
{
    let Some(token) = reader.next() else {
        return Err(ParseError::Invalid);
    };
    match token {
        Token::String(text) => Ok(Tree::Text(text)),
        Token::Number(text) => match number_of(text) {
            Some(number) => Ok(Tree::Number(number)),
            None => Err(ParseError::Invalid),
        },
        Token::Bool(flag) => Ok(Tree::Bool(flag)),
        Token::Null => Ok(Tree::Null),
        Token::EndObject | Token::EndArray | Token::Key(_) | Token::Bad => Err(ParseError::Invalid),
        Token::BeginArray => {
            if depth == 0 {
                return Err(ParseError::Invalid);
            }
            Ok(Tree::Array(read_items(alloc, reader, depth - 1)?))
        }
        Token::BeginObject => {
            if depth == 0 {
                return Err(ParseError::Invalid);
            }
            Ok(Tree::Object(read_members(alloc, reader, depth - 1)?))
        }
    }
}

#[cycle(read)]
fn read_items<'a>(
    alloc: Global,
    reader: &mut Reader<'a>,
    depth: usize,
) -> Result<Vec<Tree<'a>>, ParseError>
    ensures ok { IfOk result (λ v. converted of_items (items (value depth) (length reader.old) reader.old) ≡ Some (items_view v.items, reader.new)) }
    ensures shorter { OnOk result (length reader.new < length reader.old) }
    ensures invalid { result ≡ Err ParseError.Invalid → converted of_items (items (value depth) (length reader.old) reader.old) ≡ None }
{
    let mut found = Vec::new(alloc);
    'items: while !reader.take_end_array() {
        let item = read_value(alloc, reader, depth)?;
        found.push(item)?;
    }
    Ok(found)
}

#[cycle(read)]
fn read_members<'a>(
    alloc: Global,
    reader: &mut Reader<'a>,
    depth: usize,
) -> Result<BTreeMap<&'a str, Tree<'a>>, ParseError>
    ensures ok { IfOk result (λ m. converted (λ ms. of_members ms no_members) (members (value depth) (length reader.old) reader.old) ≡ Some (members_view m.entries, reader.new)) }
    ensures shorter { OnOk result (length reader.new < length reader.old) }
    ensures invalid { result ≡ Err ParseError.Invalid → converted (λ ms. of_members ms no_members) (members (value depth) (length reader.old) reader.old) ≡ None }
{
    let mut found = BTreeMap::new(alloc);
    'members: while let Some(name) = reader.next_key()? {
        let member = read_value(alloc, reader, depth)?;
        drop(found.insert(name, member)?);
    }
    Ok(found)
}
