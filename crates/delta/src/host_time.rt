ghost use Rattle.std.specs.Prelude.{IfSome};
ghost use Rattle.std.specs.Time.{FitsClock, system_time_nanos};

use lake_io::TimeOfDay;
use std::rt::Clock;
use std::time::SystemTime;

/// The time of day of a runtime.
#[derive(Drop)]
pub struct HostTime<R: Clock + Drop> {
    runtime: R,
}

impl<R: Clock + Drop> HostTime<R> {
    /// The time of day of this runtime.
    pub fn new(runtime: R) -> Self {
        HostTime { runtime }
    }
}

impl<R: Clock + Drop> TimeOfDay for HostTime<R> {
    ghost tells = { λ _ time _. IfSome time (λ t. FitsClock (system_time_nanos t)) };

    fn tell(&mut self) -> Option<SystemTime> {
        SystemTime::now(&self.runtime).ok()
    }
}
