//! Writing the lines of adds and removes that stand by themselves, in no `Action`.
ghost use Rattle.std.specs.Prelude.{◌≡◌, ◌++◌, OnErr, OnOk, true};
ghost use Rattle.std.specs.Str.{is_utf8};
ghost use Rattle.action_types.specs.declared.actions.Action.TheVariants as action;
ghost use Rattle.action_fields.specs.Canonical.{action_data, body_data, canonical_line};
ghost use Rattle.action_fields.specs.Fits.{HasFittingFields};
ghost use Rattle.action_fields.specs.Tokens.{Puts, data_tokens};

use crate::write::{finished, put_add, put_remove};
use action_types::{Add, Remove};
use json::Writer;
use std::alloc::{AllocError, Global};
use std::mem;

#[tactic(auto, using(crate::proofs::Tokens::token_laws))]
fn put_add_body(out: &mut Writer, add: &Add) -> Result<(), AllocError>
    ensures puts { Puts result out.old out.new (data_tokens (body_data true (action.Add add.now))) }
    ensures fits { OnOk result (HasFittingFields (action.Add add.now)) }
{
    out.begin_object()?;
    put_add(out, add, true)?;
    out.end_object()
}

#[tactic(auto, using(crate::proofs::Tokens::token_laws))]
fn put_add_line(out: &mut Writer, add: &Add) -> Result<(), AllocError>
    ensures puts { Puts result out.old out.new (data_tokens (action_data (action.Add add.now))) }
    ensures fits { OnOk result (HasFittingFields (action.Add add.now)) }
{
    out.begin_object()?;
    out.key("add")?;
    put_add_body(out, add)?;
    out.end_object()
}

#[tactic(auto, using(crate::proofs::Tokens::token_laws))]
fn put_remove_body(out: &mut Writer, remove: &Remove) -> Result<(), AllocError>
    ensures puts { Puts result out.old out.new (data_tokens (body_data true (action.Remove remove.now))) }
    ensures fits { OnOk result (HasFittingFields (action.Remove remove.now)) }
{
    out.begin_object()?;
    put_remove(out, remove, true)?;
    out.end_object()
}

#[tactic(auto, using(crate::proofs::Tokens::token_laws))]
fn put_remove_line(out: &mut Writer, remove: &Remove) -> Result<(), AllocError>
    ensures puts { Puts result out.old out.new (data_tokens (action_data (action.Remove remove.now))) }
    ensures fits { OnOk result (HasFittingFields (action.Remove remove.now)) }
{
    out.begin_object()?;
    out.key("remove")?;
    put_remove_body(out, remove)?;
    out.end_object()
}

/// Writes the canonical line of an add after what `out` holds, as `push_line` does of an action.
/// After a refusal, for want of memory alone, `out` is unchanged.
pub fn push_add_line(alloc: Global, out: &mut Vec<u8>, add: &Add) -> Result<(), AllocError>
    ensures ok { OnOk result (out.new.items ≡ out.old.items ++ canonical_line (action.Add add.now)) }
    ensures err { OnErr result (out.new.items ≡ out.old.items) }
    ensures fits { OnOk result (HasFittingFields (action.Add add.now)) }
    ensures utf8 { OnOk result (is_utf8 (canonical_line (action.Add add.now)) ≡ true) }
{
    let length = out.len();
    let mut writer = Writer::new(mem::replace(out, Vec::new(alloc)));
    let done = put_add_line(&mut writer, add);
    let (bytes, done) = finished(writer, length, done);
    *out = bytes;
    done
}

/// Writes the canonical line of a remove after what `out` holds, as `push_line` does of an action.
/// After a refusal, for want of memory alone, `out` is unchanged.
pub fn push_remove_line(alloc: Global, out: &mut Vec<u8>, remove: &Remove) -> Result<(), AllocError>
    ensures ok { OnOk result (out.new.items ≡ out.old.items ++ canonical_line (action.Remove remove.now)) }
    ensures err { OnErr result (out.new.items ≡ out.old.items) }
    ensures fits { OnOk result (HasFittingFields (action.Remove remove.now)) }
    ensures utf8 { OnOk result (is_utf8 (canonical_line (action.Remove remove.now)) ≡ true) }
{
    let length = out.len();
    let mut writer = Writer::new(mem::replace(out, Vec::new(alloc)));
    let done = put_remove_line(&mut writer, remove);
    let (bytes, done) = finished(writer, length, done);
    *out = bytes;
    done
}
