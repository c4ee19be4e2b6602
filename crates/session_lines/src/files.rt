//! Lists of files to add.
ghost use Rattle.std.specs.Prelude.{◌≡◌, IfOk};
ghost use Rattle.json_tree.specs.View.{items_view, view};
ghost use Rattle.action_fields.specs.Bodies.{body_of};
ghost use Rattle.action_fields.specs.declared.kind.Kind.TheVariants as kind;
ghost use Rattle.staged_commit.specs.Adds.{have_own_files};
ghost use Rattle.session_lines.specs.Members.{adds_in, as_add, files};
ghost use Rattle.session_lines.specs.Names.{name_of_add};

use action_fields::{BadBody, Kind, read_body};
use action_types::{Action, Add, Name};
use conflict_rules::Adds;
use json_tree::Tree;
use std::alloc::{AllocError, Global};
use std::collections::BTreeSet;

/// A list of bodies of `add` in which no file stands twice; refused for want of memory alone.
pub(crate) fn files_of(alloc: Global, value: &Tree<'_>) -> Result<Option<Adds>, AllocError>
    ensures { IfOk result (λ o. o ≡ files (view value.now)) }
{
    let Some(items) = value.as_array() else {
        return Ok(None);
    };
    match adds_of(alloc, items.as_slice())? {
        None => Ok(None),
        Some(adds) => if have_own_files(alloc, adds.as_slice())? {
            Ok(Some(adds))
        } else {
            Ok(None)
        },
    }
}

fn adds_of(alloc: Global, items: &[Tree<'_>]) -> Result<Option<Adds>, AllocError>
    ensures { IfOk result (λ o. o ≡ adds_in (items_view items.now)) }
{
    let mut found = Adds::new(alloc);
    for item in items {
        match add_of(alloc, item)? {
            None => return Ok(None),
            Some(add) => found.push(add)?,
        }
    }
    Ok(Some(found))
}

/// The file that a body of `add` says; refused for want of memory alone.
fn add_of(alloc: Global, value: &Tree<'_>) -> Result<Option<Add>, AllocError>
    ensures { IfOk result (λ o. o ≡ as_add (body_of kind.Add (view value.now))) }
{
    match read_body(alloc, Kind::Add, value) {
        Ok(Action::Add(add)) => Ok(Some(add)),
        Ok(_) | Err(BadBody::Field { .. }) => Ok(None),
        Err(BadBody::Memory) => Err(AllocError),
    }
}

/// What names a file: its path and, where it has a deletion vector, the vector's unique id. The order is that of files.
#[derive(PartialEq, Eq, PartialOrd, Ord, Drop)]
struct FileName {
    path: Name,
    id: Option<Name>,
}

/// What names the file of an add; refused for want of memory alone.
fn file_name(alloc: Global, add: &Add) -> Result<FileName, AllocError>
    ensures { IfOk result (λ n. n ≡ name_of_add add.now) }
{
    let path = add.path.copy()?;
    let id = add.key().id(alloc)?;
    Ok(FileName { path, id })
}

/// Whether no file stands twice; refused for want of memory alone.
#[tactic(auto, unfolding(staged_commit::specs::Adds::have_own_files))]
fn have_own_files(alloc: Global, adds: &[Add]) -> Result<bool, AllocError>
    ensures { IfOk result (λ b. b ≡ have_own_files adds.now) }
{
    let mut names = BTreeSet::new(alloc);
    for add in adds {
        let name = file_name(alloc, add)?;
        let is_new = names.insert(name)?;
        if !is_new {
            return Ok(false);
        }
    }
    Ok(true)
}
