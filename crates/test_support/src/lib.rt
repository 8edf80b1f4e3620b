//! Tools that the tests of other crates share: an allocator that fails requests, and readers and
//! writers that fail.
#![tactic(auto)]

mod memory;
mod refusals;
mod streams;
#[cfg(test)]
mod tests;

pub use memory::Refusing;
pub use refusals::{Heap, MOST};
pub use streams::{EndlessReader, FailingReader, FailingWriter};
