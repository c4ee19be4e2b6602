//! What the actions so far name, which no later action may name again.
ghost use Rattle.std.specs.Prelude.{◌≡◌, ℕ, ◌||◌, List, [], ◌∷◌, ◌++◌, IfOk, OnOk, bytes_eq, option_map};
ghost use Rattle.std.specs.BTreeSet.{contains_text};
ghost use Rattle.action_types.specs.Files.{File, file, same_file, unique_id};
ghost use Rattle.action_types.specs.declared.actions.Action.{Action};
ghost use Rattle.action_json.specs.Commit.{double_of, if_some};
ghost use Rattle.action_json.specs.Keys.{Knows, contains_file};

use action_types::{Action, Name, Vector};
use std::alloc::{AllocError, Global};
use std::collections::BTreeSet;
use std::mem;

/// A path, and the unique id of a deletion vector or none.
type Noted = (Name, Option<Name>);

/// Which kinds that stand once, which applications, which domains and which files have been named.
#[derive(Drop)]
pub struct Keys {
    info: bool,
    protocol: bool,
    meta: bool,
    apps: BTreeSet<String>,
    domains: BTreeSet<String>,
    files: BTreeSet<Noted>,
}

impl Keys {
    /// No keys.
    pub fn new(alloc: Global) -> Keys
        ensures { Knows result [] }
    {
        Keys {
            info: false,
            protocol: false,
            meta: false,
            apps: BTreeSet::new(alloc),
            domains: BTreeSet::new(alloc),
            files: BTreeSet::new(alloc),
        }
    }

    /// Notes what an action names. The answer is the key that it has in common with an action noted before it, if there is one.
    /// Refused for want of memory alone; the keys then serve no more.
    #[tactic(auto, unfolding(crate::specs::Commit::double_of))]
    pub fn add(&mut self, alloc: Global, action: &Action) -> Result<Option<Name>, AllocError>
        ensures double { IfOk result (λ o. (done : List Action) → Knows self.old done → o ≡ double_of done action.now) }
        ensures knows { OnOk result ((done : List Action) → Knows self.old done → Knows self.new (done ++ action.now ∷ [])) }
    {
        match action {
            Action::Info(_) => empty_if(alloc, mem::replace(&mut self.info, true)),
            Action::Protocol(_) => empty_if(alloc, mem::replace(&mut self.protocol, true)),
            Action::Meta(_) => empty_if(alloc, mem::replace(&mut self.meta, true)),
            Action::Txn(txn) => note(alloc, &mut self.apps, &txn.app),
            Action::Domain(domain) => note(alloc, &mut self.domains, &domain.domain),
            Action::Remove(remove) => {
                note_file(alloc, &mut self.files, &remove.path, &remove.vector)
            }
            Action::Add(add) => note_file(alloc, &mut self.files, &add.path, &add.vector),
        }
    }
}

/// The empty key, where one is wanted.
fn empty_if(alloc: Global, wanted: bool) -> Result<Option<Name>, AllocError>
    ensures { IfOk result (λ o. o ≡ if_some wanted []) }
{
    if wanted {
        Ok(Some(Name::from_str(alloc, "")?))
    } else {
        Ok(None)
    }
}

/// Notes a key; the answer is the key where it was noted before.
fn note(alloc: Global, keys: &mut BTreeSet<String>, key: &Name) -> Result<Option<Name>, AllocError>
    ensures double { IfOk result (λ o. o ≡ if_some (contains_text keys.old key.now) key.now) }
    ensures noted { OnOk result ((q : List ℕ) → contains_text keys.new q ≡ (contains_text keys.old q || bytes_eq key.now q)) }
{
    if keys.insert(String::from_str(alloc, key.as_str())?)? {
        Ok(None)
    } else {
        Ok(Some(key.copy()?))
    }
}

/// The unique id of a vector, if there is one; refused for want of memory alone.
fn id_of(alloc: Global, vector: &Option<Vector>) -> Result<Option<Name>, AllocError>
    ensures { IfOk result (λ id. id ≡ option_map unique_id vector.now) }
{
    match vector {
        None => Ok(None),
        Some(vector) => Ok(Some(vector.unique_id(alloc)?)),
    }
}

/// Notes a file; the answer is its path where the file was noted before.
fn note_file(
    alloc: Global,
    files: &mut BTreeSet<Noted>,
    path: &Name,
    vector: &Option<Vector>,
) -> Result<Option<Name>, AllocError>
    ensures double { IfOk result (λ o. o ≡ if_some (contains_file files.old (file path.now vector.now)) path.now) }
    ensures noted { OnOk result ((q : File) → contains_file files.new q ≡ (contains_file files.old q || same_file (file path.now vector.now) q)) }
{
    let id = id_of(alloc, vector)?;
    if files.insert((path.copy()?, id))? {
        Ok(None)
    } else {
        Ok(Some(path.copy()?))
    }
}
