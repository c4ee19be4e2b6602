//! The deletion vector of a file: its fields in byte order of their names, so the first faulty one is the least.
ghost use Rattle.std.specs.Prelude.{◌≡◌, IfOk};
ghost use Rattle.json_tree.specs.View.{view};
ghost use Rattle.action_fields.specs.Bodies.{told, vector, vector_of};
ghost use Rattle.action_fields.specs.Gives.{Gives};

use crate::fault::BadBody;
use crate::field::{optional_from_zero, required_from_zero, required_text};
use action_types::Vector;
use json_tree::Tree;
use std::alloc::{AllocError, Global};

#[tactic(auto, unfolding(crate::specs::Bodies::vector_of))]
fn read_vector(alloc: Global, value: &Tree<'_>) -> Result<Vector, BadBody>
    ensures { Gives told (λ x. x) result (vector_of (view value.now)) }
{
    let cardinality = required_from_zero(alloc, value, "cardinality")?;
    let offset = optional_from_zero(alloc, value, "offset")?;
    let locator = required_text(alloc, value, "pathOrInlineDv")?;
    let size = required_from_zero(alloc, value, "sizeInBytes")?;
    let storage = required_text(alloc, value, "storageType")?;
    Ok(Vector {
        storage,
        locator,
        offset,
        size,
        cardinality,
    })
}

/// An object with the fields of a deletion vector; refused for want of memory alone.
// Each body of a file is looked at for a vector, and few have one: the lookup is inlined, and what it finds is read apart.
#[inline(never)]
pub(crate) fn vector_of(alloc: Global, value: &Tree<'_>) -> Result<Option<Vector>, AllocError>
    ensures { IfOk result (λ o. o ≡ vector (view value.now)) }
{
    match read_vector(alloc, value) {
        Ok(vector) => Ok(Some(vector)),
        Err(BadBody::Field { .. }) => Ok(None),
        Err(BadBody::Memory) => Err(AllocError),
    }
}
