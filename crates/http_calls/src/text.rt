//! The body of an answer.
#![tactic(auto, using(action_fields::proofs::Tokens::token_laws))]

ghost use Rattle.std.specs.Prelude.{◌≡◌, IfOk, Some, codes};
ghost use Rattle.serde_json.specs.Data.{array, object};
ghost use Rattle.serde_json.specs.Written.{compact_text};
ghost use Rattle.action_fields.specs.Canonical.{with_fields};
ghost use Rattle.action_fields.specs.Tokens.{Puts, data_tokens, field_tokens, fields_tokens, items_outline_tokens};
ghost use Rattle.http_calls.specs.Answers.{answer_body, answer_data, answer_fields, bad_commit_fields, broken_fields, commits_fields, entries_items, entry_fields, error_fields, latest_fields, staged_fields, version_fields};
ghost use Rattle.http_calls.specs.declared.answer.Answer.TheVariants as answer;

use crate::answer::{Answer, Entry, refusal_name, why_name};
use crate::content::Entries;
use crate::put::{
    put_count, put_id, put_integer, put_latest, put_optional_text, put_spot, put_text,
};
use action_types::Name;
use json::Writer;
use log_names::LogName;
use std::alloc::{AllocError, Global};

/// The body of an answer: a JSON object on one line without an end, its members in byte order of their names, or the bytes of a
/// file, which are not copied. Refused for want of memory alone.
#[tactic(auto, unfolding(crate::specs::Answers::answer_body))]
pub fn answer_body(alloc: Global, answer: Answer) -> Result<Vec<u8>, AllocError>
    ensures exact { IfOk result (λ v. v.items ≡ answer_body answer) }
{
    match answer {
        Answer::File { bytes } => Ok(bytes.into_vec()),
        answer => object_text(alloc, &answer),
    }
}

/// The text of an answer that is no file.
fn object_text(alloc: Global, answer: &Answer) -> Result<Vec<u8>, AllocError>
    ensures { IfOk result (λ v. v.items ≡ compact_text (answer_data answer.now)) }
{
    let mut out = Writer::new(Vec::new(alloc));
    put_answer(&mut out, answer)?;
    Ok(out.into_inner())
}

fn put_answer(out: &mut Writer, answer: &Answer) -> Result<(), AllocError>
    ensures { Puts result out.old out.new (data_tokens (answer_data answer.now)) }
{
    out.begin_object()?;
    put_fields(out, answer)?;
    out.end_object()
}

/// The members of an answer; a file has none.
#[tactic(auto)]
fn put_fields(out: &mut Writer, answer: &Answer) -> Result<(), AllocError>
    ensures { Puts result out.old out.new (fields_tokens (answer_fields answer.now)) }
{
    match answer {
        Answer::Commits {
            entries,
            count,
            reported,
        } => put_commits(out, entries, *count, *reported),
        Answer::Ratified { latest, version } => put_ratified(out, *latest, *version),
        Answer::Lost { latest } => put_error_latest(out, "lost", Some(*latest)),
        Answer::Ahead { latest } => put_error_latest(out, "ahead", *latest),
        Answer::NotStaged => put_error(out, "staged"),
        Answer::BadCommit { line, why } => put_bad_commit(out, *line, why_name(why)),
        Answer::WrongTime => put_error(out, "time"),
        Answer::Broken { key, rule, vector } => put_broken(out, key, rule, vector),
        Answer::Full { latest } => put_error_latest(out, "full", Some(*latest)),
        Answer::Backlog { latest, reported } => put_backlog(out, *latest, *reported),
        Answer::Reported { reported } => put_count(out, "reported", *reported),
        Answer::Gap { version } => put_gap(out, *version),
        Answer::Staged { id, version } => put_staged(out, *id, *version),
        Answer::StagedBefore { id, version } => put_staged(out, *id, *version),
        Answer::Taken => put_error(out, "taken"),
        Answer::Published { version } => put_version(out, *version),
        Answer::PublishedBefore { version } => put_version(out, *version),
        Answer::Differs => put_error(out, "differs"),
        Answer::File { .. } => Ok(()),
        Answer::Absent => put_error(out, "absent"),
        Answer::Refused(why) => put_error(out, refusal_name(*why)),
        Answer::Fault { file } => put_fault(out, file),
        Answer::Memory => put_error(out, "memory"),
    }
}

fn put_error(out: &mut Writer, name: &str) -> Result<(), AllocError>
    ensures { Puts result out.old out.new (fields_tokens (error_fields name.now)) }
{
    put_text(out, "error", name)
}

fn put_error_latest(out: &mut Writer, name: &str, latest: Option<u64>) -> Result<(), AllocError>
    ensures { Puts result out.old out.new (fields_tokens (latest_fields name.now latest)) }
{
    put_text(out, "error", name)?;
    put_latest(out, "latest", latest)
}

fn put_bad_commit(out: &mut Writer, line: u64, why: &str) -> Result<(), AllocError>
    ensures { Puts result out.old out.new (fields_tokens (bad_commit_fields line why.now)) }
{
    put_text(out, "error", "badCommit")?;
    put_count(out, "line", line)?;
    put_text(out, "why", why)
}

fn put_broken(
    out: &mut Writer,
    key: &Name,
    rule: &Name,
    vector: &Option<Name>,
) -> Result<(), AllocError>
    ensures { Puts result out.old out.new (fields_tokens (broken_fields key.now rule.now vector.now)) }
{
    put_text(out, "error", "broken")?;
    put_text(out, "key", key.as_str())?;
    put_text(out, "rule", rule.as_str())?;
    put_optional_text(out, "vector", vector.as_ref())
}

fn put_ratified(out: &mut Writer, latest: u64, version: u64) -> Result<(), AllocError>
    ensures { Puts result out.old out.new (fields_tokens (answer_fields (answer.Ratified latest version))) }
{
    put_count(out, "latest", latest)?;
    put_count(out, "version", version)
}

fn put_backlog(out: &mut Writer, latest: u64, reported: u64) -> Result<(), AllocError>
    ensures { Puts result out.old out.new (fields_tokens (answer_fields (answer.Backlog latest reported))) }
{
    put_text(out, "error", "backlog")?;
    put_count(out, "latest", latest)?;
    put_count(out, "reported", reported)
}

fn put_gap(out: &mut Writer, version: u64) -> Result<(), AllocError>
    ensures { Puts result out.old out.new (fields_tokens (answer_fields (answer.Gap version))) }
{
    put_text(out, "error", "gap")?;
    put_count(out, "version", version)
}

fn put_staged(out: &mut Writer, id: u128, version: u64) -> Result<(), AllocError>
    ensures { Puts result out.old out.new (fields_tokens (staged_fields id version)) }
{
    put_id(out, id)?;
    put_count(out, "version", version)
}

fn put_version(out: &mut Writer, version: u64) -> Result<(), AllocError>
    ensures { Puts result out.old out.new (fields_tokens (version_fields version)) }
{
    put_count(out, "version", version)
}

fn put_fault(out: &mut Writer, file: &Option<LogName>) -> Result<(), AllocError>
    ensures { Puts result out.old out.new (fields_tokens (answer_fields (answer.Fault file.now))) }
{
    put_text(out, "error", "fault")?;
    put_spot(out, file)
}

fn put_commits(
    out: &mut Writer,
    entries: &Entries,
    count: u64,
    reported: u64,
) -> Result<(), AllocError>
    ensures { Puts result out.old out.new (fields_tokens (commits_fields entries.now count reported)) }
{
    put_entries(out, entries)?;
    put_count(out, "count", count)?;
    put_count(out, "reported", reported)
}

#[tactic(auto, unfolding(action_fields::specs::Tokens::field_tokens))]
fn put_entries(out: &mut Writer, entries: &Entries) -> Result<(), AllocError>
    ensures { Puts result out.old out.new (field_tokens (codes "commits") (Some (array (entries_items entries.now)))) }
{
    out.key("commits")?;
    out.begin_array()?;
    put_items(out, entries.as_slice())
}

/// The entries and the closing bracket.
fn put_items(out: &mut Writer, entries: &[Entry]) -> Result<(), AllocError>
    ensures { Puts result out.old out.new (items_outline_tokens (entries_items entries.now)) }
{
    for entry in entries {
        put_entry(out, *entry)?;
    }
    out.end_array()
}

fn put_entry(out: &mut Writer, entry: Entry) -> Result<(), AllocError>
    ensures { Puts result out.old out.new (data_tokens (object (with_fields (entry_fields entry)))) }
{
    out.begin_object()?;
    put_entry_fields(out, entry)?;
    out.end_object()
}

#[tactic(auto, using(action_fields::proofs::Tokens::token_laws), unfolding(crate::specs::Answers::entry_fields))]
fn put_entry_fields(out: &mut Writer, entry: Entry) -> Result<(), AllocError>
    ensures { Puts result out.old out.new (fields_tokens (entry_fields entry)) }
{
    put_id(out, entry.id)?;
    put_integer(out, "time", entry.time)?;
    put_count(out, "version", entry.version)
}
