//! The script of a number.
ghost use Rattle.std.specs.Prelude.{◌≡◌, ◌^◌, ◌<◌, ◌≤◌, [], IfOk};
ghost use Rattle.table_maker.specs.Draws.{next_state};
ghost use Rattle.table_maker.specs.Requests.{requests};
ghost use Rattle.table_maker.specs.Script.{script_of};
ghost use Rattle.table_maker.specs.Sound.{IsSoundAfter};

use crate::maker::Maker;
use crate::part::Part;
use crate::request::{push_part, push_request};
use std::alloc::{AllocError, Global};

/// The state that follows `state`.
fn step(state: u64) -> u64
    requires { state < 2 ^ 31 }
    ensures next { result ≡ next_state state }
    ensures small { result < 2 ^ 31 }
{
    (state * 1103515245 + 12345) % 2147483648
}

/// The script of `number` with `count` requests between the create and the load: the text of `count + 2` lines.
pub fn script(alloc: Global, number: u64, count: u64) -> Result<Vec<u8>, AllocError>
    requires number { number < 2 ^ 31 }
    requires some { 1 ≤ count }
    requires few { count ≤ 1000 }

    ensures text { IfOk result (λ v. v.items ≡ script_of number count) }

    // Removes name live files, and the writes are numbered 1, 2, 3 and so on.
    ensures sound { IfOk result (λ _. IsSoundAfter [] (requests number count)) }
{
    let mut text = String::from_str(alloc, Part::CreateLine.text())?;
    let mut maker = Maker::new(alloc);
    let mut state = number;
    for k in 0..count {
        state = step(state);
        let request = maker.choose(k + 1, state / 65536);
        push_request(&mut text, request)?;
        maker.take(request)?;
    }
    push_part(&mut text, Part::LoadLine)?;
    Ok(text.into_bytes())
}
