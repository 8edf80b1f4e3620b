//! The laws: functions that do nothing, and whose clauses are the law.
use std::alloc::Global;

pub fn base() {
    wasm_base::laws::numbers();
    wasm_base::laws::frames();
    wasm_base::laws::payloads();
    wasm_base::laws::padded_payloads();
    wasm_base::laws::types();
    wasm_base::laws::constants();
    wasm_base::laws::padded()
}

pub fn instructions() {
    wasm_immediates::laws::immediates();
    wasm_immediates::laws::memory_arguments();
    wasm_immediates::laws::padded();
    wasm_insn::laws::opcodes();
    wasm_insn::laws::rows::<Global>();
    wasm_insn::laws::cases::<Global>();
    wasm_insn::laws::instructions::<Global>();
    wasm_insn::laws::lists();
    wasm_insn::laws::padded()
}

pub fn code() {
    wasm_code::laws::expressions();
    wasm_code::laws::bodies();
    wasm_code::laws::offset::<Global>();
    wasm_code::laws::offsets();
    wasm_code::laws::payloads();
    wasm_code::laws::padded_payloads();
    wasm_code::laws::calls::<Global>();
    wasm_code::laws::padded_calls::<Global>();
    wasm_code::laws::padded();
    wasm_code::laws::locals();
    wasm_code::laws::rejections()
}

pub fn sections() {
    wasm_sections::laws::sections();
    wasm_sections::laws::standard();
    wasm_sections::laws::padded();
    wasm_sections::laws::calls();
    wasm_sections::laws::padded_calls();
    wasm_sections::laws::given_elements::<Global>();
    wasm_sections::laws::payloads();
    wasm_sections::laws::padded_payloads();
    wasm_sections::laws::rejections()
}

pub fn type_sections() {
    wasm_types::laws::types();
    wasm_types::laws::standard();
    wasm_types::laws::padded();
    wasm_types::laws::calls();
    wasm_types::laws::padded_calls();
    wasm_types::laws::payloads();
    wasm_types::laws::padded_payloads();
    wasm_types::laws::rejections()
}

pub fn custom_sections() {
    wasm_custom::laws::sections();
    wasm_custom::laws::object_linking();
    wasm_custom::laws::padded();
    wasm_custom::laws::calls();
    wasm_custom::laws::padded_calls();
    wasm_custom::laws::payloads();
    wasm_custom::laws::padded_payloads();
    wasm_custom::laws::rejections()
}

/// Two laws of each of these libraries have another name too.
pub fn other_names() {
    wasm_base::laws::wide();
    wasm_insn::laws::wide();
    wasm_code::laws::wide();
    wasm_code::laws::nothing_stands();
    wasm_sections::laws::wide();
    wasm_sections::laws::nothing_stands();
    wasm_custom::laws::wide();
    wasm_custom::laws::nothing_stands()
}
