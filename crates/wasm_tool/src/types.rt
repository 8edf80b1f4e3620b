// The types that words of a recipe denote.
ghost use Rattle.std.specs.Prelude.{◌≡◌, MatchResult, Some, None, option_map};
ghost use Rattle.wasm_tool.specs.Lines.{counted_words};
ghost use Rattle.wasm_tool.specs.Recipe.{optional_decimal, limits_of, memory_with, table_with, val_type_of, entity_of, imported_function, imported_global, global_of_type};
ghost use Rattle.wasm_tool.specs.Steps.{Parses};

use crate::fault::RecipeCause;
use crate::numbers::{index, number};
use crate::words::Words;
use wasm_base::{RefType, Result, ValType};
use wasm_sections::{EntityType, GlobalType, MemoryType, TableType};

/// The limits of a memory or a table.
#[derive(Clone, Copy)]
pub(crate) struct Limits {
    minimum: u64,
    maximum: Option<u64>,
}

impl Limits {
    /// Returns the type of a memory with these limits, of 32-bit addresses.
    pub(crate) fn memory(self) -> MemoryType
        ensures { result ≡ memory_with self }
    {
        MemoryType {
            minimum: self.minimum,
            maximum: self.maximum,
            memory64: false,
            shared: false,
            page_size_log2: None,
        }
    }

    /// Returns the type of a table of function references with these limits.
    pub(crate) fn table(self) -> TableType
        ensures { result ≡ table_with self }
    {
        TableType {
            element_type: RefType::FUNCREF,
            table64: false,
            minimum: self.minimum,
            maximum: self.maximum,
            shared: false,
        }
    }
}

/// Parses an optional word of decimal digits as a number of 64 bits.
fn optional_number(word: Option<&str>) -> Result<Option<u64>, RecipeCause>
    ensures { MatchResult result (λ n. optional_decimal (option_map (λ w. w.now) word.entry) ≡ Some n) (λ cause. (cause ≡ RecipeCause.BadNumber) × (optional_decimal (option_map (λ w. w.now) word.entry) ≡ None)) }
{
    match word {
        Some(word) => Ok(Some(number(word)?)),
        None => Ok(None),
    }
}

/// Parses a minimum and, in version 2, an optional maximum.
pub(crate) fn limits_in(mut words: Words<'_>) -> Result<Limits, RecipeCause>
    ensures { Parses (limits_of words.entry.version (counted_words words.entry.version words.entry.rest.now)) result }
{
    let minimum = words.needed()?;
    let maximum = words.optional();
    words.end()?;
    Ok(Limits {
        minimum: number(minimum)?,
        maximum: optional_number(maximum)?,
    })
}

/// Returns the value type that a word names.
pub(crate) fn val_type(word: &str) -> Option<ValType>
    ensures { result ≡ val_type_of word.now }
{
    match word {
        "i32" => Some(ValType::I32),
        "i64" => Some(ValType::I64),
        "f32" => Some(ValType::F32),
        "f64" => Some(ValType::F64),
        "v128" => Some(ValType::V128),
        "funcref" => Some(ValType::Ref(RefType::FUNCREF)),
        "externref" => Some(ValType::Ref(RefType::EXTERNREF)),
        _ => None,
    }
}

/// Parses the type index of an imported function.
fn imported_function(mut words: Words<'_>) -> Result<EntityType, RecipeCause>
    ensures { Parses (imported_function words.entry.version (counted_words words.entry.version words.entry.rest.now)) result }
{
    let word = words.needed()?;
    words.end()?;
    Ok(EntityType::Function(index(word)?))
}

/// Returns the type of an imported global. No word may remain.
fn global_of_type(
    mutable: bool,
    word: &str,
    mut words: Words<'_>,
) -> Result<EntityType, RecipeCause>
    ensures { Parses (global_of_type words.entry.version mutable word.now (counted_words words.entry.version words.entry.rest.now)) result }
{
    words.end()?;
    Ok(EntityType::Global(GlobalType {
        val_type: val_type(word).ok_or(RecipeCause::UnknownType)?,
        mutable,
        shared: false,
    }))
}

/// Parses the type of an imported global, after `mut` if it is mutable.
fn imported_global(mut words: Words<'_>) -> Result<EntityType, RecipeCause>
    ensures { Parses (imported_global words.entry.version (counted_words words.entry.version words.entry.rest.now)) result }
{
    let word = words.needed()?;
    if word == "mut" {
        let ty = words.needed()?;
        return global_of_type(true, ty, words);
    }
    global_of_type(false, word, words)
}

/// Parses the type of an import of this kind.
pub(crate) fn entity(kind: &str, words: Words<'_>) -> Result<EntityType, RecipeCause>
    ensures { Parses (entity_of words.entry.version kind.now (counted_words words.entry.version words.entry.rest.now)) result }
{
    match kind {
        "func" => imported_function(words),
        "table" => Ok(EntityType::Table(limits_in(words)?.table())),
        "memory" => Ok(EntityType::Memory(limits_in(words)?.memory())),
        "global" => imported_global(words),
        _ => Err(RecipeCause::UnknownCommand),
    }
}
