// Maps the indices of modules, inserts sections and imports, and removes functions: begin with
// [`remap_module`] or [`insert_import`].

pub use wasm_remap::{
    IndexSpace, IndexTooLarge, Instrument, Position, Prologue, Remap, RemapError, RemoveError,
    Shift, Visited, imported, insert_code, insert_import, insert_section, instrument_code,
    remap_items, remap_module, remap_section, remove_functions, spaces_of,
};
