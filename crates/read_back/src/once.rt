//! Laws that no other proved crate calls: functions that do nothing, and whose clauses are the law.

pub fn readers() {
    wasm_reader::laws::encodings();
    wasm_reader::laws::modules()
}
