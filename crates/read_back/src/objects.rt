//! The linking section of an object file, written and read back.
ghost use Rattle.std.specs.Prelude.{◌≡◌, ◌≢◌, [], ◌∷◌, map, codes, IfOk, IfErr, OnOk};
ghost use Rattle.wasm_base.specs.Formats.{size_prefixed};
ghost use Rattle.wasm_base.specs.Modules.{GainsDecoding};
ghost use Rattle.wasm_base.specs.declared.fault.ReadFault.TheVariants.{Memory};
ghost use Rattle.wasm_custom.specs.Comdats.{AreComdatSymbols, AreComdats};
ghost use Rattle.wasm_custom.specs.InitFunctions.{AreInits};
ghost use Rattle.wasm_custom.specs.Linking.{link_view, object_payload};
ghost use Rattle.wasm_custom.specs.Segments.{AreSegments};
ghost use Rattle.wasm_custom.specs.Symbols.{AreObjectSymbols};
ghost use Rattle.read_back.specs.Objects.{read_only, start, member, group, section_symbol, tag_symbol, objects};

use std::alloc::Allocator;
use wasm_base::{Encode, ReadFault, Readable, Result, Standard};
use wasm_custom::{
    ComdatSymbols, Comdats, InitFunctions, LinkItem, ObjectLinking, ObjectSymbols, SegmentInfos,
    laws, read_links,
};

/// Returns a list of one segment.
fn segments<A: Allocator + Copy>(alloc: A, name: &str) -> Result<SegmentInfos<A>>
    ensures { IfOk result (λ list. AreSegments list (read_only name.now ∷ [])) }
{
    let mut list = SegmentInfos::new(alloc);
    list.segment(name, 2, 0)?;
    Ok(list)
}

/// Returns a list of one init function.
fn functions<A: Allocator + Copy>(alloc: A, priority: u32) -> Result<InitFunctions<A>>
    ensures { IfOk result (λ list. AreInits list (start priority ∷ [])) }
{
    let mut list = InitFunctions::new(alloc);
    list.function(priority, 3)?;
    Ok(list)
}

/// Returns the members of a COMDAT group: one data segment.
fn members<A: Allocator + Copy>(alloc: A) -> Result<ComdatSymbols<A>>
    ensures { IfOk result (λ list. AreComdatSymbols list (member ∷ [])) }
{
    let mut list = ComdatSymbols::new(alloc);
    list.symbol(0, 4)?;
    Ok(list)
}

/// Returns a list of one COMDAT group.
fn comdats<A: Allocator + Copy>(alloc: A) -> Result<Comdats<A>>
    ensures { IfOk result (λ list. AreComdats list (group ∷ [])) }
{
    let mut list = Comdats::new(alloc);
    list.comdat("g", 0, &members(alloc)?)?;
    Ok(list)
}

/// Returns the symbols: a section and a tag.
fn symbols<A: Allocator + Copy>(alloc: A) -> Result<ObjectSymbols<A>>
    ensures { IfOk result (λ table. AreObjectSymbols table (section_symbol ∷ tag_symbol ∷ [])) }
{
    let mut table = ObjectSymbols::new(alloc);
    table.section(0, 8)?;
    table.tag(0, 1, Some("t"))?;
    Ok(table)
}

/// Appends the linking section of an object file: a subsection of each kind.
fn write_objects<A: Allocator + Copy>(
    sink: &mut Vec<u8, A>,
    name: &str,
    priority: u32,
) -> Result<()>
    ensures { OnOk result (GainsDecoding (size_prefixed object_payload) (objects name.now priority) sink.old.items sink.new.items) }
{
    let alloc = *sink.allocator();
    let mut section = ObjectLinking::new(alloc);
    section.segments(&segments(alloc, name)?)?;
    section.init_functions(&functions(alloc, priority)?)?;
    section.comdats(&comdats(alloc)?)?;
    section.symbol_table(&symbols(alloc)?)?;
    section.target_arch("wasm32")?;
    section.encode(sink)
}

/// Decodes that section in the standard's grammar, which alone has all of these subsections.
pub fn read_objects<'a, A: Allocator + Copy + 'a>(
    encoding: &'a mut Vec<u8, A>,
    name: &str,
    priority: u32,
) -> Result<Vec<LinkItem<'a, A>, A>, ReadFault>
    requires { encoding.old.items ≡ [] }
    ensures read { IfOk result (λ items. map link_view items.items ≡ objects name.now priority) }
    ensures memory { IfErr result (λ e. e ≢ Memory → ⊥) }
{
    let alloc = *encoding.allocator();
    write_objects(encoding, name, priority)?;
    laws::object_linking();
    let (payload, _rest) = <&'a [u8] as Readable<'a, A, Standard>>::read(encoding, alloc)?;
    let items = read_links::<'a, A, Standard>(payload, alloc)?;
    Ok(items)
}
