ghost use Rattle.std.specs.Prelude.{◌≡◌, ◌<◌, [], length, IfErr, OnOk, IfSome};
ghost use Rattle.table_model.specs.Knowledge.{IsGrown, IsValid};
ghost use Rattle.table_model.specs.Turns.{TellsTurn};
ghost use Rattle.table_model.specs.Consistency.{IsConsistent};
ghost use Rattle.publisher.specs.Causes.{DrainCause, CountsDrain};
ghost use Rattle.publisher.specs.Publishing.{IsDrained, AsksTwice, KeepsBelow, OnlyAsks, OnlyDrains};
ghost use Rattle.publisher.specs.Worlds.{IsSettled, KeepsLog};

use crate::answers::{DrainError, PublishError};
use crate::clearing::clear_all;
use crate::publishing::publish_all;
use std::alloc::Global;
use table_model::Steps;

/// Publishes, reports and clears all of a table: at most two catalogue turns, one listing, and two turns that read a
/// file for each version that was not known to be reported. An empty table is drained by one catalogue turn.
///
/// Where nobody else acts, the world is settled afterwards: all versions are published and reported, and no staged file
/// of one is left. No commit comes, goes or changes. A table that has a commit fails to be drained only on a fault of
/// the store, which is named by its spot, or for want of memory; over a store that does not tell what it holds also where a version has neither its staged nor
/// its published file.
pub fn drain<T: Steps>(caller: &mut T, alloc: Global) -> Result<(), DrainError>
    ensures drained { OnOk result (IsDrained (T.known caller.old) (T.known caller.new)) }
    ensures settled { OnOk result (IfSome (T.world caller.new) IsSettled) }
    ensures log { TellsTurn KeepsLog (T.world caller.old) (T.world caller.new) }
    ensures empty { OnOk result ((T.known caller.new).seen ≡ [] → OnlyAsks (T.known caller.old) (T.known caller.new)) }
    ensures asked { OnOk result (0 < length (T.known caller.new).seen → AsksTwice (T.known caller.old) (T.known caller.new)) }
    ensures cause { IfErr result (λ e. DrainCause T.tells e (T.known caller.old) (T.known caller.new)) }
    ensures counts { CountsDrain T.tells (T.known caller.old) result (T.known caller.new) }
    ensures turns { OnlyDrains (T.known caller.old) (T.known caller.new) }
    ensures kept { KeepsBelow (length (T.known caller.new).seen) (T.known caller.old) (T.known caller.new) }
    ensures grows { IsGrown (T.known caller.old) (T.known caller.new) }
    ensures valid { IsValid (T.known caller.new) }
    ensures after { T.after caller.old caller.new }
{
    match publish_all(caller, alloc) {
        Ok(_) => {}
        Err(PublishError::NoTable) => return Ok(()),
        Err(PublishError::Fault { spot }) => return Err(DrainError::Fault { spot }),
        Err(PublishError::Memory) => return Err(DrainError::Memory),
    }
    match clear_all(caller, alloc) {
        Ok(_) => Ok(()),
        Err(PublishError::NoTable) => Ok(()),
        Err(PublishError::Fault { spot }) => Err(DrainError::Fault { spot }),
        Err(PublishError::Memory) => Err(DrainError::Memory),
    }
}
