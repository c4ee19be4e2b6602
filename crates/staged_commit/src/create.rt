//! What a create composes.
ghost use Rattle.std.specs.Prelude.{◌≡◌, pos, ◌≤ℤ◌, [], true, IfErr, IfOk, Ok};
ghost use Rattle.action_fields.specs.Valid.{are_texts};
ghost use Rattle.action_json.specs.Commit.{outcome};
ghost use Rattle.table_rules.specs.Broken.{after};
ghost use Rattle.staged_commit.specs.Answers.{IsComposed, IsRefused};
ghost use Rattle.staged_commit.specs.Composed.{IsCreate, composed_create, meta_for, parquet_format};
ghost use Rattle.staged_commit.specs.WriteAnswers.{IsTextOn};

use crate::commit::{Composed, info_at, judged};
use crate::fault::ComposeError;
use crate::features::protocol_with;
use crate::properties::with_timestamps;
use crate::text::limited;
use action_types::{Action, Format, Meta, Name, Names, Pairs};
use std::alloc::{AllocError, Global};
use table_rules::check_create;

/// A table that a caller wants made.
#[derive(PartialEq, Eq, Debug, Drop)]
pub struct Create {
    /// The id of the table.
    pub id: Name,
    pub name: Option<Name>,
    pub description: Option<Name>,
    /// The schema as a JSON text, which is not read.
    pub schema: Name,
    /// The partition columns.
    pub partition: Names,
    /// The table properties: each has a text, in byte order of their names.
    pub configuration: Pairs,
    /// The table features; where there are none, those of checkpoints.
    pub features: Option<Names>,
}

/// The commit that makes a table, at the time `now` in milliseconds since 1970 UTC, from 0, and under the id of its staged file.
///
/// `Broken` names the first rule that its actions break as the first commit of a table; `TooLarge` comes exactly where none is
/// broken and its text has more bytes than the limit. `TimeEnd` never comes, and `Memory` for want of memory alone.
pub fn compose_create(
    alloc: Global,
    create: &Create,
    id: u128,
    now: i64,
    limit: u64,
) -> Result<Composed, ComposeError>
    requires now { pos 0 ≤ℤ now }
    ensures ok { IfOk result (λ c. IsTextOn (after []) (composed_create create.now id now) now limit c) }
    ensures err { IfErr result (λ e. IsRefused [] (composed_create create.now id now) limit e) }
    // The text is read back where the given properties are texts in byte order of their names.
    ensures reads_back { are_texts create.now.configuration ≡ true →
        IfOk result (λ c. outcome c.bytes.items ≡ Ok c.actions.items) }
{
    let actions = actions_of(alloc, create, id, now)?;
    judged(check_create(alloc, &actions))?;
    limited(alloc, actions, now, limit)
}

/// The same, of a create that names no features and no configuration.
pub fn compose_first(
    alloc: Global,
    create: &Create,
    id: u128,
    now: i64,
    limit: u64,
) -> Result<Composed, ComposeError>
    requires now { pos 0 ≤ℤ now }
    requires valid { IsCreate create.now }
    ensures ok { IfOk result (λ c. IsComposed [] (composed_create create.now id now) now limit c) }
    ensures err { IfErr result (λ e. IsRefused [] (composed_create create.now id now) limit e) }
{
    compose_create(alloc, create, id, now, limit)
}

/// The actions of the commit.
#[tactic(auto, unfolding(crate::specs::Composed::composed_create))]
fn actions_of(alloc: Global, create: &Create, id: u128, now: i64) -> Result<Vec<Action>, AllocError>
    ensures { IfOk result (λ v. v.items ≡ composed_create create.now id now) }
{
    let info = info_at(alloc, id, now)?;
    let protocol = protocol_with(alloc, &create.features)?;
    let meta = first_meta(alloc, create, now)?;
    let mut actions = Vec::new(alloc);
    actions.push(Action::Info(info))?;
    actions.push(Action::Protocol(protocol))?;
    actions.push(Action::Meta(meta))?;
    Ok(actions)
}

/// The metaData of the table; refused for want of memory alone.
fn first_meta(alloc: Global, create: &Create, time: i64) -> Result<Meta, AllocError>
    ensures { IfOk result (λ m. m ≡ meta_for create.now time) }
{
    let configuration = with_timestamps(alloc, &create.configuration)?;
    let description = copied(&create.description)?;
    let format = parquet(alloc)?;
    let id = create.id.copy()?;
    let name = copied(&create.name)?;
    let columns = create.partition.copy()?;
    let schema = create.schema.copy()?;
    Ok(Meta {
        configuration,
        created: Some(time),
        description,
        format,
        id,
        name,
        columns,
        schema,
    })
}

fn parquet(alloc: Global) -> Result<Format, AllocError>
    ensures { IfOk result (λ f. f ≡ parquet_format) }
{
    let provider = Name::from_str(alloc, "parquet")?;
    Ok(Format {
        provider,
        options: Pairs::new(alloc),
    })
}

/// An equal text, or none; refused for want of memory alone.
fn copied(text: &Option<Name>) -> Result<Option<Name>, AllocError>
    ensures { IfOk result (λ n. n ≡ text.now) }
{
    match text {
        None => Ok(None),
        Some(text) => Ok(Some(text.copy()?)),
    }
}
