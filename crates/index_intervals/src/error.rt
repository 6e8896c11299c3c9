use thiserror::Error;

/// Two numbers are no bounds of an interval.
#[derive(Clone, Copy, Debug, PartialEq, Eq, Error)]
#[error("no bounds of an interval")]
pub struct BadBounds;

/// A finite bound would leave the range of finite indices.
#[derive(Clone, Copy, Debug, PartialEq, Eq, Error)]
#[error("a bound leaves the range of indices")]
pub struct Overflow;

/// A stride or a step is 0.
#[derive(Clone, Copy, Debug, PartialEq, Eq, Error)]
#[error("the step is 0")]
pub struct ZeroStep;
