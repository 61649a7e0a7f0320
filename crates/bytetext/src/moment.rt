// The end of time, for each crate that reads a clock.

/// The first second after the year 2999. A moment counts whole seconds since 1970-01-01 UTC and is below this number
/// (our own choice).
pub const MOMENTS_END: u64 = 32_503_680_000;
