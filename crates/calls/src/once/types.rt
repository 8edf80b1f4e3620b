//! Calls of a type section.
use std::alloc::Allocator;
use wasm_base::{Result, ValType};
use wasm_types::{
    ArrayType, CompositeInnerType, CompositeType, ContType, FieldType, FuncType, StorageType,
    SubType, TypeSection,
};

/// A mutable byte.
const BYTE: FieldType = FieldType {
    element_type: StorageType::I8,
    mutable: true,
};

/// Returns a final subtype: an array of bytes.
fn bytes() -> SubType {
    SubType {
        is_final: true,
        supertype_idx: None,
        composite_type: CompositeType {
            inner: CompositeInnerType::Array(ArrayType(BYTE)),
            shared: false,
            descriptor: None,
            describes: None,
        },
    }
}

pub fn shapes<A: Allocator + Copy>(alloc: A) -> Result<()> {
    let mut section = TypeSection::new(alloc);
    section.ty().array(&StorageType::I8, true)?;
    section.ty().struct_([BYTE])?;
    section.ty().cont(&ContType(0))?;
    Ok(())
}

pub fn subtypes<A: Allocator + Copy>(alloc: A) -> Result<()> {
    let mut section = TypeSection::new(alloc);
    section.ty().subtype(&bytes())?;
    section.ty().rec([bytes()])?;
    Ok(())
}

pub fn functions<A: Allocator + Copy>(alloc: A) -> Result<()> {
    let mut section = TypeSection::new(alloc);
    let function = FuncType::new(alloc, [ValType::I32], [ValType::I64])?;
    let _ = function.params();
    let _ = function.results();
    section.ty().func_type(&function)?;
    Ok(())
}
