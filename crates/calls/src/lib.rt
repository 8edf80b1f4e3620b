//! Worked callers of single calls, which prove the results from the contracts alone: bytes, counts,
//! copies and decoded values. [`once`] calls public functions that no other proved crate calls.
#![tactic(auto, using(wasm_base::proofs::KnownLengths::drained_array))]

pub mod added;
pub mod bodies;
pub mod copied_segments;
pub mod copies;
pub mod decodings;
pub mod given;
pub mod grammars;
pub mod instructions;
pub mod once;
pub mod operands;
pub mod queries;
pub mod raw_segments;
pub mod readers;
pub mod segments;
pub mod walks;
