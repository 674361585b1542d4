// How long work takes.
use std::time::{Duration, Instant};

// What the work answers, and how long it took.
pub fn timed<T: Drop, F: FnOnce() -> T>(rt: &HostRuntime, work: F) -> anyhow::Result<(T, Duration)>
    requires { F.IsAlwaysCallable work }
{
    let begun = Instant::now(rt)?;
    let answer = work();
    Ok((answer, begun.elapsed(rt)?))
}
