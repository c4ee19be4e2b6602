use crate::host_time::HostTime;
use lake_io::{Clock, SystemClock};
use std::test::Fail;

/// 2020-09-13, in milliseconds since 1970: an earlier reading is none of the day on which this is built.
const BUILT_AFTER: i64 = 1_600_000_000_000;

#[test]
fn clock_reads_the_time_of_day(rt: HostRuntime) -> Result<(), Fail> {
    let mut clock = SystemClock::new(HostTime::new(rt.clone()?));
    for _ in 0..3 {
        assert!(rt; clock.now_ms() > BUILT_AFTER);
    }
    Ok(())
}
