// The allocator with which all tests fail requests.
use crate::memory::Refusing;
use std::alloc::Global;

/// More requests than any call in a test makes, and more reads and writes.
pub const MOST: u64 = 100;

/// A borrowed allocator that fails requests.
pub type Heap<'a> = &'a Refusing<Global>;
