//! How long something takes.
use nl_types::VolError;
use std::time::{Clock, Duration, Instant};

/// A clock that can't be read is a fault.
pub(crate) fn now<R: Clock>(rt: &R) -> Result<Instant, VolError> {
    Instant::now(rt).map_err(|_| VolError::Fault)
}

pub(crate) fn since<R: Clock>(rt: &R, begun: Instant) -> Result<Duration, VolError> {
    Ok(now(rt)?.duration_since(begun))
}
