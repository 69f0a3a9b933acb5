//! What tests stand on: assertions, and texts that are put together and compared.

pub(super) mod asserts;
pub(super) mod lines;
