// Decodes modules: begin with [`Sections`].

pub mod remap;

pub use wasm_reader::{
    Bodies, CodeBody, Items, Listed, ModuleFault, Offsets, Outlined, ReadError, Section,
    SectionKind, Sections, encode_items, encode_items_in, instruction_of, list_module, outline,
    read_section, shorten, shorten_module,
};
