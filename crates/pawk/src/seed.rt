//! What the keys of elements are hashed by in a run.

use pawk_par::Seed;
use std::process;
use std::random::RandomSource;
use std::time::SystemTime;

/// A number that differs from run to run where the system has no random ones: the time in seconds and nanoseconds, and the
/// number of the process.
fn number_of_moment(rt: &HostRuntime) -> u64 {
    let process = u64::from(process::id(rt.process())) << 32;
    match SystemTime::now(rt) {
        Ok(now) => match now.duration_since(SystemTime::UNIX_EPOCH) {
            Ok(time) => process ^ time.as_secs() << 30 ^ u64::from(time.subsec_nanos()),
            Err(_) => process,
        },
        Err(_) => process,
    }
}

/// What the keys of elements are hashed by in this run: a random number of the system, or where it has none, a number of
/// this moment.
pub(crate) fn seed_of(rt: &HostRuntime) -> Seed {
    let mut bytes = [0; 8];
    match rt.fill_bytes(&mut bytes) {
        Ok(()) => Seed::new(u64::from_le_bytes(bytes)),
        Err(_) => Seed::new(number_of_moment(rt)),
    }
}
