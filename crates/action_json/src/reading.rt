//! Reading a commit.
ghost use Rattle.std.specs.Prelude.{◌≡◌, ℕ, ◌+◌, ◌<◌, ◌^◌, List, [], ◌∷◌, ◌++◌, IfErr, IfOk, None, OnOk, Result, ⊤, MatchOption, length};
ghost use Rattle.text_lines.specs.Lines.{cut};
ghost use Rattle.action_types.specs.declared.actions.Action.{Action};
ghost use Rattle.action_fields.specs.Gives.{Fails, Gives};
ghost use Rattle.action_json.specs.Commit.{Flaw, IsCommit, double_of, outcome, told, unless_double};
ghost use Rattle.action_json.specs.Keys.{Knows};
ghost use Rattle.action_json.specs.Reading.{left};
ghost use Rattle.action_json.specs.Text.{IsCommitText, IsFirstFlaw};

use crate::fault::{BadCommit, BadLine, Why};
use crate::keys::Keys;
use crate::line::{Line, read_line};
use crate::quick::read_quickly;
use action_fields::kind_of;
use action_types::Action;
use json_tree::Scratch;
use memchr::memchr;
use std::alloc::Global;

/// The actions so far, the keys that they name, and the number of the next line.
#[derive(Drop)]
pub(crate) struct Reading {
    actions: Vec<Action>,
    keys: Keys,
    number: u64,
}

/// The actions of a commit's bytes: lines ended by LF, the last LF perhaps missing, blank lines and unknown kinds passed over.
///
/// `At` names the first faulty line, from 1, and its first reason. Bytes without any action are the empty list.
pub fn read_commit(alloc: Global, bytes: &[u8]) -> Result<Vec<Action>, BadCommit>
    // The actions or the first flaw of the reading, line by line.
    ensures exact { Gives told (λ v. v.items) result (outcome bytes.now) }
    // What is read is a commit text of these actions.
    ensures text { IfOk result (λ v. IsCommitText bytes.now v.items) }
    // The flaw is the first.
    ensures flaw { IfErr result (λ e. MatchOption (told e) ⊤ (λ f. IsFirstFlaw bytes.now f.0 f.1)) }
    // Bytes with a flaw are no commit text.
    ensures refused { IfErr result (λ e. MatchOption (told e) ⊤ (λ f. (actions : List Action) → ¬ (IsCommitText bytes.now actions))) }
    // What is read can be written.
    ensures commit { IfOk result (λ v. IsCommit v.items) }
{
    read_actions(alloc, bytes)
}

/// The quick reading where it succeeds; else the reading that finds the first flaw.
fn read_actions(alloc: Global, bytes: &[u8]) -> Result<Vec<Action>, BadCommit>
    ensures { Gives told (λ v. v.items) result (outcome bytes.now) }
{
    match read_quickly(alloc, bytes)? {
        Some(actions) => Ok(actions),
        None => read_lines(alloc, bytes),
    }
}

#[tactic(auto, unfolding(crate::specs::Commit::outcome))]
fn read_lines(alloc: Global, bytes: &[u8]) -> Result<Vec<Action>, BadCommit>
    ensures { Gives told (λ v. v.items) result (outcome bytes.now) }
{
    let mut reading = Reading {
        actions: Vec::new(alloc),
        keys: Keys::new(alloc),
        number: 1,
    };
    let mut scratch = Scratch::new(alloc);
    let mut rest = bytes;
    while !rest.is_empty() {
        let (line, after) = first_line(rest);
        take_line(alloc, &mut scratch, &mut reading, line)?;
        rest = after;
    }
    Ok(reading.actions)
}

/// The first line of a text that is not empty, and what follows its LF.
pub fn first_line(text: &[u8]) -> (&[u8], &[u8])
    requires { 0 < length text.now }
    ensures cut { cut text.now ≡ result.0.now ∷ cut result.1.now }
    ensures shorter { length result.1.now < length text.now }
{
    match memchr(b'\n', text) {
        None => (text, &[]),
        Some(end) => (&text[..end], &text[end + 1..]),
    }
}

/// One more line, which leaves the rest of the lines to say what all of them said.
#[tactic(auto, unfolding(crate::specs::Commit::outcome_from))]
fn take_line<'a>(
    alloc: Global,
    scratch: &'a mut Scratch,
    reading: &mut Reading,
    line: &'a [u8],
) -> Result<(), BadCommit>
    requires room { reading.old.number + 1 < 2 ^ 64 }
    requires knows { Knows reading.old.keys reading.old.actions.items }
    ensures ok { OnOk result ((ls : List (List ℕ)) → left reading.old (line.now ∷ ls) ≡ left reading.new ls) }
    ensures err { IfErr result (λ e. (ls : List (List ℕ)) → Fails (told e) (left reading.old (line.now ∷ ls))) }
    ensures keeps { OnOk result (Knows reading.new.keys reading.new.actions.items) }
    ensures number { OnOk result (reading.new.number ≡ reading.old.number + 1) }
{
    let first = reading.actions.is_empty();
    match read_line(alloc, scratch, first, line) {
        Ok(Line::Says(action)) => take_action(alloc, reading, action)?,
        Ok(Line::Blank | Line::Unread) => {}
        Err(BadLine::Because(why)) => {
            return Err(BadCommit::At {
                line: reading.number,
                why,
            });
        }
        Err(BadLine::Memory) => return Err(BadCommit::Memory),
    }
    reading.number += 1;
    Ok(())
}

/// One more action of the line at hand, unless it names again what an action before it does.
fn take_action(alloc: Global, reading: &mut Reading, action: Action) -> Result<(), BadCommit>
    requires { Knows reading.old.keys reading.old.actions.items }
    ensures new { OnOk result (double_of reading.old.actions.items action ≡ None) }
    ensures err { IfErr result (λ e. (rest : Result (List Action) Flaw) → Fails (told e)
        (unless_double reading.old.number action (double_of reading.old.actions.items action) rest)) }
    ensures actions { OnOk result (reading.new.actions.items ≡ reading.old.actions.items ++ action ∷ []) }
    ensures keeps { OnOk result (Knows reading.new.keys reading.new.actions.items) }
    ensures number { reading.new.number ≡ reading.old.number }
{
    if let Some(key) = reading.keys.add(alloc, &action)? {
        let kind = kind_of(&action);
        return Err(BadCommit::At {
            line: reading.number,
            why: Why::Double { kind, key },
        });
    }
    reading.actions.push(action)?;
    Ok(())
}
