//! A JSON value over borrowed text.
ghost use Rattle.std.specs.Prelude.{◌≡◌, is_some, option_and_then, option_map};
ghost use Rattle.serde_json.specs.Find.{as_array, as_bool, as_i64, as_null, as_number, as_object, as_str, get, get_member};
ghost use Rattle.serde_json.specs.View.{number_view};
ghost use Rattle.json_tree.specs.View.{items_view, members_view, view};

use serde_json::Number;
use std::collections::BTreeMap;

/// The members of an object, in byte order of their names. A name that stands twice in the text has its last value.
pub type Members<'a> = BTreeMap<&'a str, Tree<'a>>;

/// A JSON value (RFC 8259). A text is borrowed from the line, or from the memory that its escapes were resolved in.
#[derive(Drop)]
pub enum Tree<'a> {
    Null,
    Bool(bool),
    Number(Number),
    Text(&'a str),
    Array(Vec<Tree<'a>>),
    Object(BTreeMap<&'a str, Tree<'a>>),
}

impl<'a> Tree<'a> {
    /// Whether this is null.
    pub fn is_null(&self) -> bool
        ensures { result ≡ is_some (as_null (view self.now)) }
    {
        matches!(self, Tree::Null)
    }

    /// The boolean that this is.
    pub fn as_bool(&self) -> Option<bool>
        ensures { result ≡ as_bool (view self.now) }
    {
        if let Tree::Bool(flag) = self {
            Some(*flag)
        } else {
            None
        }
    }

    /// The number that this is.
    fn as_number(&self) -> Option<&Number>
        ensures { option_map (λ n. number_view n.now) result ≡ as_number (view self.now) }
    {
        if let Tree::Number(number) = self {
            Some(number)
        } else {
            None
        }
    }

    /// The integer of 64 bits, with a sign, that this is.
    pub fn as_i64(&self) -> Option<i64>
        ensures { result ≡ option_and_then as_i64 (as_number (view self.now)) }
    {
        match self.as_number() {
            Some(number) => number.as_i64(),
            None => None,
        }
    }

    /// The text that this is.
    pub fn as_str(&self) -> Option<&'a str>
        ensures { option_map (λ s. s.now) result ≡ as_str (view self.now) }
    {
        if let Tree::Text(text) = self {
            Some(*text)
        } else {
            None
        }
    }

    /// The items of the array that this is.
    pub fn as_array(&self) -> Option<&Vec<Tree<'a>>>
        ensures { option_map (λ v. items_view v.now.items) result ≡ as_array (view self.now) }
    {
        if let Tree::Array(items) = self {
            Some(items)
        } else {
            None
        }
    }

    /// Whether this is an object.
    pub fn is_object(&self) -> bool
        ensures { result ≡ is_some (as_object (view self.now)) }
    {
        self.as_object().is_some()
    }

    /// The members of the object that this is.
    pub fn as_object(&self) -> Option<&BTreeMap<&'a str, Tree<'a>>>
        ensures { option_map (λ m. members_view m.now.entries) result ≡ as_object (view self.now) }
    {
        if let Tree::Object(members) = self {
            Some(members)
        } else {
            None
        }
    }

    /// The value of this name, where this is an object that has it.
    pub fn get(&self, name: &str) -> Option<&Tree<'a>>
        ensures { option_map (λ v. view v.now) result ≡ get name.now (view self.now) }
    {
        if let Tree::Object(members) = self {
            member(members, name)
        } else {
            None
        }
    }
}

/// The member of this name.
fn member<'t, 'a>(members: &'t BTreeMap<&'a str, Tree<'a>>, name: &str) -> Option<&'t Tree<'a>>
    ensures { option_map (λ v. view v.now) result ≡ get_member name.now (members_view members.now.entries) }
{
    members.get(name)
}
