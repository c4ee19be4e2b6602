//! The members of each reply but Loaded, in byte order of their names.
#![tactic(auto, using(action_fields::proofs::Tokens::token_laws))]

ghost use Rattle.std.specs.Prelude.{codes};
ghost use Rattle.action_fields.specs.Tokens.{Puts, data_tokens, fields_tokens};
ghost use Rattle.std.specs.Prelude.{Some};
ghost use Rattle.serde_json.specs.Data.{string};
ghost use Rattle.action_fields.specs.Tokens.{field_tokens};
ghost use Rattle.log_names.specs.Texts.{uuid_text};
ghost use Rattle.session_lines.specs.Replies.{IsShort, bad_line, bad_line_fields, broken_rest, committed_front, conflict_front, conflict_rest, latest_fields, moment_fields, named_fields, reply_data, reply_fields, spot_name};

use crate::fault::LineWhy;
use crate::names::{broken_key, broken_name, broken_vector, rule_name};
use crate::put::{put_base, put_count, put_integer, put_optional_text, put_text};
use crate::reply::Reply;
use action_types::Name;
use conflict_rules::Rule;
use json::Writer;
use std::alloc::AllocError;
use table_model::Spot;
use table_rules::Broken;
use uuid::Uuid;

/// A reply that is no Loaded.
pub(crate) fn put_reply(out: &mut Writer, reply: &Reply) -> Result<(), AllocError>
    ensures { IsShort reply.now → Puts result out.old out.new (data_tokens (reply_data reply.now)) }
{
    out.begin_object()?;
    put_fields(out, reply)?;
    out.end_object()
}

/// The members of a reply that is no Loaded.
#[tactic(auto)]
fn put_fields(out: &mut Writer, reply: &Reply) -> Result<(), AllocError>
    ensures { IsShort reply.now → Puts result out.old out.new (fields_tokens (reply_fields reply.now)) }
{
    match reply {
        Reply::Committed {
            base,
            time,
            version,
        } => put_committed(out, *base, *time, *version),
        Reply::Already { latest, recorded } => put_already(out, *latest, *recorded),
        Reply::Loaded(_) => Ok(()),
        Reply::NoTable => put_named(out, "noTable"),
        Reply::Exists { latest } => put_latest(out, *latest, "exists"),
        Reply::Broken { base, why } => put_broken(out, *base, why),
        Reply::Conflict {
            base,
            key,
            latest,
            rule,
            vector,
            winner,
        } => { put_conflict(out, *base, key, *latest, *rule, vector, *winner) }
        Reply::Contended { attempts, latest } => put_contended(out, *attempts, *latest),
        Reply::Full { latest } => put_latest(out, *latest, "full"),
        Reply::TimeEnd { base, last } => put_time_end(out, *base, *last),
        Reply::TooLarge { base, bytes } => put_too_large(out, *base, *bytes),
        Reply::Taken { base, id, version } => put_taken(out, *base, *id, *version),
        Reply::Fault { spot } => put_fault(out, spot),
        Reply::Memory => put_named(out, "memory"),
        Reply::BadLine { at, why } => put_bad_line(out, *at, why),
    }
}

/// The name of the reply alone.
fn put_named(out: &mut Writer, name: &str) -> Result<(), AllocError>
    ensures { Puts result out.old out.new (fields_tokens (named_fields name.now)) }
{
    put_text(out, "reply", name)
}

/// The last version and the name of the reply.
fn put_latest(out: &mut Writer, latest: u64, name: &str) -> Result<(), AllocError>
    ensures { Puts result out.old out.new (fields_tokens (latest_fields latest name.now)) }
{
    put_count(out, "latest", latest)?;
    put_text(out, "reply", name)
}

fn put_committed(
    out: &mut Writer,
    base: Option<u64>,
    time: i64,
    version: u64,
) -> Result<(), AllocError>
    ensures { Puts result out.old out.new (fields_tokens (reply_fields (Reply.Committed base time version))) }
{
    put_committed_front(out, base)?;
    put_moment(out, time, version)
}

fn put_committed_front(out: &mut Writer, base: Option<u64>) -> Result<(), AllocError>
    ensures { Puts result out.old out.new (fields_tokens (committed_front base)) }
{
    put_base(out, "base", base)?;
    put_text(out, "reply", "committed")
}

/// The time and the version of a commit.
fn put_moment(out: &mut Writer, time: i64, version: u64) -> Result<(), AllocError>
    ensures { Puts result out.old out.new (fields_tokens (moment_fields time version)) }
{
    put_integer(out, "time", time)?;
    put_count(out, "version", version)
}

fn put_already(out: &mut Writer, latest: u64, recorded: i64) -> Result<(), AllocError>
    ensures { Puts result out.old out.new (fields_tokens (reply_fields (Reply.Already latest recorded))) }
{
    put_count(out, "latest", latest)?;
    put_integer(out, "recorded", recorded)?;
    put_text(out, "reply", "already")
}

fn put_broken(out: &mut Writer, base: Option<u64>, why: &Broken) -> Result<(), AllocError>
    ensures { Puts result out.old out.new (fields_tokens (reply_fields (Reply.Broken base why.now))) }
{
    put_base(out, "base", base)?;
    put_text(out, "key", broken_key(why))?;
    put_broken_rest(out, why)
}

/// The name of the reply, the rule, and the unique id of the vector where the key is a file with one.
fn put_broken_rest(out: &mut Writer, why: &Broken) -> Result<(), AllocError>
    ensures { Puts result out.old out.new (fields_tokens (broken_rest why.now)) }
{
    put_text(out, "reply", "broken")?;
    put_text(out, "rule", broken_name(why))?;
    put_optional_text(out, "vector", broken_vector(why))
}

fn put_conflict(
    out: &mut Writer,
    base: u64,
    key: &Name,
    latest: u64,
    rule: Rule,
    vector: &Option<Name>,
    winner: u64,
) -> Result<(), AllocError>
    ensures { Puts result out.old out.new (fields_tokens (reply_fields (Reply.Conflict base key.now latest rule vector.now winner))) }
{
    put_conflict_front(out, base, key, latest)?;
    put_conflict_rest(out, rule, vector, winner)
}

fn put_conflict_front(
    out: &mut Writer,
    base: u64,
    key: &Name,
    latest: u64,
) -> Result<(), AllocError>
    ensures { Puts result out.old out.new (fields_tokens (conflict_front base key.now latest)) }
{
    put_count(out, "base", base)?;
    put_text(out, "key", key.as_str())?;
    put_count(out, "latest", latest)
}

fn put_conflict_rest(
    out: &mut Writer,
    rule: Rule,
    vector: &Option<Name>,
    winner: u64,
) -> Result<(), AllocError>
    ensures { Puts result out.old out.new (fields_tokens (conflict_rest rule vector.now winner)) }
{
    put_text(out, "reply", "conflict")?;
    put_text(out, "rule", rule_name(rule))?;
    put_optional_text(out, "vector", vector.as_ref())?;
    put_count(out, "winner", winner)
}

fn put_contended(out: &mut Writer, attempts: u64, latest: u64) -> Result<(), AllocError>
    ensures { Puts result out.old out.new (fields_tokens (reply_fields (Reply.Contended attempts latest))) }
{
    put_count(out, "attempts", attempts)?;
    put_latest(out, latest, "contended")
}

fn put_time_end(out: &mut Writer, base: u64, last: i64) -> Result<(), AllocError>
    ensures { Puts result out.old out.new (fields_tokens (reply_fields (Reply.TimeEnd base last))) }
{
    put_count(out, "base", base)?;
    put_integer(out, "last", last)?;
    put_text(out, "reply", "timeEnd")
}

fn put_too_large(out: &mut Writer, base: Option<u64>, bytes: u64) -> Result<(), AllocError>
    ensures { Puts result out.old out.new (fields_tokens (reply_fields (Reply.TooLarge base bytes))) }
{
    put_base(out, "base", base)?;
    put_count(out, "bytes", bytes)?;
    put_text(out, "reply", "tooLarge")
}

fn put_taken(out: &mut Writer, base: Option<u64>, id: u128, version: u64) -> Result<(), AllocError>
    ensures { Puts result out.old out.new (fields_tokens (reply_fields (Reply.Taken base id version))) }
{
    put_base(out, "base", base)?;
    put_id(out, id)?;
    put_text(out, "reply", "taken")?;
    put_count(out, "version", version)
}

/// The id as its UUID text.
#[tactic(auto, unfolding(log_names::specs::Texts::uuid_text))]
fn put_id(out: &mut Writer, id: u128) -> Result<(), AllocError>
    ensures { Puts result out.old out.new (field_tokens (codes "id") (Some (string (uuid_text id)))) }
{
    let mut buffer = Uuid::encode_buffer();
    put_text(
        out,
        "id",
        Uuid::from_u128(id).hyphenated().encode_lower(&mut buffer),
    )
}

fn put_fault(out: &mut Writer, spot: &Spot) -> Result<(), AllocError>
    ensures { Puts result out.old out.new (fields_tokens (reply_fields (Reply.Fault spot.now))) }
{
    put_spot(out, spot)?;
    put_text(out, "reply", "fault")
}

/// The name of the file, or the empty text for the folder.
#[tactic(auto)]
fn put_spot(out: &mut Writer, spot: &Spot) -> Result<(), AllocError>
    ensures { Puts result out.old out.new (field_tokens (codes "name") (Some (string (spot_name spot.now)))) }
{
    match spot {
        Spot::Folder => put_text(out, "name", ""),
        Spot::File(name) => match name.text() {
            None => put_text(out, "name", ""),
            Some(text) => put_text(out, "name", text.as_str()),
        },
    }
}

#[tactic(auto)]
fn put_bad_line(out: &mut Writer, at: u64, why: &LineWhy) -> Result<(), AllocError>
    ensures { Puts result out.old out.new (fields_tokens (bad_line at why.now)) }
{
    match why {
        LineWhy::Utf8 => put_reason(out, at, "utf8"),
        LineWhy::NotJson => put_reason(out, at, "notJson"),
        LineWhy::NotObject => put_reason(out, at, "notObject"),
        LineWhy::Op => put_reason(out, at, "op"),
        LineWhy::Field { field } => put_field(out, at, field),
        LineWhy::TooLong => put_reason(out, at, "tooLong"),
    }
}

fn put_reason(out: &mut Writer, at: u64, reason: &str) -> Result<(), AllocError>
    ensures { Puts result out.old out.new (fields_tokens (bad_line_fields at reason.now)) }
{
    put_count(out, "at", at)?;
    put_text(out, "reply", "badLine")?;
    put_text(out, "why", reason)
}

fn put_field(out: &mut Writer, at: u64, field: &Name) -> Result<(), AllocError>
    ensures { Puts result out.old out.new (fields_tokens (bad_line at (LineWhy.Field field.now))) }
{
    put_count(out, "at", at)?;
    put_text(out, "field", field.as_str())?;
    put_text(out, "reply", "badLine")?;
    put_text(out, "why", "field")
}
