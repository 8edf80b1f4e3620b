// Sections without a module.
ghost use Rattle.std.specs.Prelude.{[], ◌∷◌, map, OnOk};
ghost use Rattle.wasm_base.specs.Entries.{counted_format};
ghost use Rattle.wasm_base.specs.Modules.{GainsDecoding};
ghost use Rattle.wasm_code.specs.Code.{code_section};
ghost use Rattle.wasm_sections.specs.Elements.{element};
ghost use Rattle.wasm_sections.specs.Exports.{item_of, export};
ghost use Rattle.wasm_sections.specs.Imports.{import_format};
ghost use Rattle.examples.specs.Bodies.{local_body};
ghost use Rattle.examples.specs.Filled.{later};
ghost use Rattle.examples.specs.Whole.{import_of_function, import_of_functions};

use crate::bodies::local_function;
use std::alloc::Allocator;
use wasm_base::laws::plain_names;
use wasm_base::{CowSlice, Encode, RefType, Result, add_all};
use wasm_code::{CodeSection, ConstExpr};
use wasm_sections::laws::plain_exports;
use wasm_sections::{
    ElementSection, Elements, EntityType, Export, ExportSection, ImportSection, Imports,
};

/// Appends a code section of one function, which returns the local of this index.
pub fn encode_local<A: Allocator + Copy>(sink: &mut Vec<u8, A>, index: u32) -> Result<()>
    ensures { OnOk result (GainsDecoding code_section (local_body index ∷ []) sink.old.items sink.new.items) }
{
    let alloc = *sink.allocator();
    let mut code = CodeSection::new(alloc);
    code.function(&local_function(alloc, index)?)?;
    code.encode(sink)
}

/// Appends an import section of one function.
pub fn encode_import<A: Allocator + Copy>(
    sink: &mut Vec<u8, A>,
    from: &str,
    name: &str,
    index: u32,
) -> Result<()>
    ensures { OnOk result (GainsDecoding (counted_format import_format) (import_of_function from.now name.now index ∷ []) sink.old.items sink.new.items) }
{
    let mut section = ImportSection::new(*sink.allocator());
    section.import(from, name, EntityType::Function(index))?;
    section.encode(sink)
}

/// Appends an export section of the exports of a list. The first call proves that they are
/// well-formed.
pub fn encode_exports<A: Allocator + Copy>(
    sink: &mut Vec<u8, A>,
    exports: &[Export<'_>],
) -> Result<()>
    ensures { OnOk result (GainsDecoding (counted_format export) (map item_of exports.now) sink.old.items sink.new.items) }
{
    plain_exports(exports);
    let mut section = ExportSection::new(*sink.allocator());
    match add_all(&mut section, exports) {
        Ok(()) => section.encode(sink),
        Err((_, refused)) => Err(refused),
    }
}

/// Appends an import section of functions of one type, in one group. The first call proves that
/// their names are UTF-8.
pub fn encode_group<A: Allocator + Copy>(
    sink: &mut Vec<u8, A>,
    from: &str,
    names: &[&str],
    index: u32,
) -> Result<()>
    ensures { OnOk result (GainsDecoding (counted_format import_format) (import_of_functions from.now (map (λ name. name.now) names.now) index ∷ []) sink.old.items sink.new.items) }
{
    plain_names(names);
    let mut section = ImportSection::new(*sink.allocator());
    section.imports(Imports::Compact2 {
        module: from,
        ty: EntityType::Function(index),
        names: CowSlice::Borrowed(names),
    })?;
    section.encode(sink)
}

/// Appends an element section of one reference, which code copies to a table.
pub fn encode_reference(sink: &mut Vec<u8>, index: u32) -> Result<()>
    ensures { OnOk result (GainsDecoding (counted_format element) (later index ∷ []) sink.old.items sink.new.items) }
{
    let alloc = *sink.allocator();
    let references = [ConstExpr::ref_func(alloc, index)?];
    let mut section = ElementSection::new(alloc);
    section.passive(Elements::Expressions(RefType::FUNCREF, CowSlice::Borrowed(&references)))?;
    section.encode(sink)
}
