//! Workloads that a program in C or Rust calls to measure the encoder. `bench/README.md` describes
//! the input and the result of each function.
#![tactic(auto, using(wasm_base::proofs::KnownLengths::drained_array))]

mod answers;
mod bodies;
mod calls;
mod code;
mod codes;
mod data;
mod decoding;
mod exports;
mod functions;
mod imports;
mod kinds;
mod line;
mod name_section;
mod names;
mod types;
mod values;
mod words;

pub use answers::NO_ANSWER;
