//! The bodies of the two kinds of lines that checkpoints alone have.
ghost use Rattle.std.specs.Prelude.{◌≡◌};
ghost use Rattle.json_tree.specs.View.{view};
ghost use Rattle.action_fields.specs.Bodies.{required, told};
ghost use Rattle.action_fields.specs.Checkpoints.{natural, sidecar_of, version_of};
ghost use Rattle.action_fields.specs.Gives.{Gives};

use crate::fault::BadBody;
use crate::field::needed;
use crate::types::given;
use action_types::Name;
use json_tree::Tree;
use std::alloc::Global;

/// An integer from 0 below 2^64.
fn natural_of(value: &Tree<'_>) -> Option<u64>
    ensures { result ≡ natural (view value.now) }
{
    match value {
        Tree::Number(number) => number.as_u64(),
        _ => None,
    }
}

/// An integer from 0 below 2^64 that has to be there.
#[tactic(auto, unfolding(crate::specs::Bodies::required))]
fn required_natural(alloc: Global, body: &Tree<'_>, name: &str) -> Result<u64, BadBody>
    ensures { Gives told (λ x. x) result (required natural name.now (view body.now)) }
{
    let found = match given(body, name) {
        None => None,
        Some(value) => natural_of(value),
    };
    needed(alloc, name, found)
}

/// The version that the body of a `checkpointMetadata` says, an integer from 0 below 2^64.
///
/// `Field` names `version` where it is missing, null, of another type or out of its range; the empty name stands for a body
/// that is no object. Other fields are passed over.
#[tactic(auto, unfolding(crate::specs::Checkpoints::version_of))]
pub fn read_version(alloc: Global, body: &Tree<'_>) -> Result<u64, BadBody>
    ensures { Gives told (λ x. x) result (version_of (view body.now)) }
{
    if !body.is_object() {
        let field = Name::from_str(alloc, "")?;
        return Err(BadBody::Field { field });
    }
    required_natural(alloc, body, "version")
}

/// Reads the body of a `sidecar`, which has to be an object: else `Field` has the empty name. Its fields are not looked at.
#[tactic(auto, unfolding(crate::specs::Checkpoints::sidecar_of))]
pub fn read_sidecar(alloc: Global, body: &Tree<'_>) -> Result<(), BadBody>
    ensures { Gives told (λ x. x) result (sidecar_of (view body.now)) }
{
    if body.is_object() {
        return Ok(());
    }
    let field = Name::from_str(alloc, "")?;
    Err(BadBody::Field { field })
}
