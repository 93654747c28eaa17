// Small categories that meet the traits: no trait asks the impossible.
mod null;
mod scalars;
#[cfg(test)]
mod tests;

pub use null::{Null, NullCategory};
pub use scalars::{Scalar, Scalars};
