// The laws of the libraries.

pub use wasm_base::laws as base;
pub use wasm_code::laws as code;
pub use wasm_custom::laws as custom;
pub use wasm_immediates::laws as immediates;
pub use wasm_insn::laws as insn;
pub use wasm_reader::laws as reader;
pub use wasm_sections::laws as sections;
pub use wasm_types::laws as types;
