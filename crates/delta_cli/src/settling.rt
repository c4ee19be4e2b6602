ghost use Rattle.std.specs.Prelude.{◌≡◌, IfSome};
ghost use Rattle.delta_cli.specs.declared.endings.Status.TheVariants as status;
ghost use Rattle.delta_cli.specs.Endings.{IsStatusOf, HasFailed, DrainsWithoutFault};
ghost use Rattle.table_model.specs.Knowledge.{IsGrown};
ghost use Rattle.table_model.specs.Turns.{TellsTurn};
ghost use Rattle.publisher.specs.Worlds.{IsSettled, KeepsLog};

use crate::endings::Status;
use lake_io::End;
use publisher::{DrainError, drain};
use std::alloc::Global;
use table_world::Steps;

/// Drains the table after a session. The drain is tried after every end but want of memory; where it fails, that
/// decides the status only of a session that was done.
pub(crate) fn settle<T: Steps>(caller: &mut T, alloc: Global, end: End) -> Status
    ensures end { IsStatusOf end result }
    ensures settled { result ≡ status.Done → IfSome (T.world caller.new) IsSettled }
    ensures cause { result ≡ status.StoreFault
        → HasFailed T.tells (T.known caller.old) (T.known caller.new) }
    ensures quiet { DrainsWithoutFault result
        → (T.known caller.new).faults ≡ (T.known caller.old).faults }
    ensures log { TellsTurn KeepsLog (T.world caller.old) (T.world caller.new) }
    ensures after { T.after caller.old caller.new }
{
    match end {
        End::Done => settle_done(caller, alloc),
        End::ReadFault => {
            let _ = drain(caller, alloc);
            Status::ReadFault
        }
        End::WriteFault => {
            let _ = drain(caller, alloc);
            Status::WriteFault
        }
        End::TooMuch => {
            let _ = drain(caller, alloc);
            Status::TooMuch
        }
        End::Memory => Status::Memory,
    }
}

/// Drains the table after a session that was done.
fn settle_done<T: Steps>(caller: &mut T, alloc: Global) -> Status
    ensures end { IsStatusOf End.Done result }
    ensures settled { result ≡ status.Done → IfSome (T.world caller.new) IsSettled }
    ensures cause { result ≡ status.StoreFault
        → HasFailed T.tells (T.known caller.old) (T.known caller.new) }
    ensures quiet { DrainsWithoutFault result
        → (T.known caller.new).faults ≡ (T.known caller.old).faults }
    ensures log { TellsTurn KeepsLog (T.world caller.old) (T.world caller.new) }
    ensures after { T.after caller.old caller.new }
{
    match drain(caller, alloc) {
        Ok(()) => Status::Done,
        Err(DrainError::Fault { spot: _ }) => Status::StoreFault,
        Err(DrainError::Memory) => Status::Memory,
    }
}
