//! Entries of the linking sections of object files.
use std::alloc::Allocator;
use wasm_base::Result;
use wasm_custom::{
    ComdatSymbols, Comdats, InitFunctions, ObjectLinking, ObjectSymbols, SegmentInfos,
};

fn add_symbols<A: Allocator + Copy>(symbols: &mut ObjectSymbols<A>) -> Result<()> {
    symbols.function(0, 0, Some("f"))?;
    symbols.global(0, 0, Some("g"))?;
    symbols.table(0, 0, Some("t"))?;
    symbols.tag(0, 0, Some("e"))?;
    symbols.section(0, 1)?;
    symbols.data(16, "d", None)
}

pub fn object_symbols<A: Allocator + Copy>(alloc: A) -> Result<()> {
    let mut symbols = ObjectSymbols::new(alloc);
    add_symbols(&mut symbols)?;
    let mut section = ObjectLinking::new(alloc);
    section.symbol_table(&symbols)?;
    section.target_arch("wasm32")?;
    Ok(())
}

pub fn object_segments<A: Allocator + Copy>(alloc: A) -> Result<()> {
    let mut segments = SegmentInfos::new(alloc);
    segments.segment(".data", 2, 0)?;
    let mut section = ObjectLinking::new(alloc);
    section.segments(&segments)?;
    Ok(())
}

pub fn object_functions<A: Allocator + Copy>(alloc: A) -> Result<()> {
    let mut functions = InitFunctions::new(alloc);
    functions.function(0, 1)?;
    let mut section = ObjectLinking::new(alloc);
    section.init_functions(&functions)?;
    Ok(())
}

pub fn object_comdats<A: Allocator + Copy>(alloc: A) -> Result<()> {
    let mut symbols = ComdatSymbols::new(alloc);
    symbols.symbol(1, 0)?;
    let mut comdats = Comdats::new(alloc);
    comdats.comdat("c", 0, &symbols)?;
    let mut section = ObjectLinking::new(alloc);
    section.comdats(&comdats)?;
    Ok(())
}
