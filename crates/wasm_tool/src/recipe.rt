// Recipes: from lines to a module.
ghost use Rattle.std.specs.Prelude.{◌≡◌, ◌≢◌, ◌≤◌, ◌++◌, [], length, All, IfOk, IfErr, OnOk, MatchResult};
ghost use Rattle.wasm_base.specs.Calls.{Adds};
ghost use Rattle.wasm_base.specs.Formats.{wasm_module};
ghost use Rattle.wasm_base.specs.Decoding.{DecodesWhole};
ghost use Rattle.wasm_base.specs.Numbers.{unsigned_encoding};
ghost use Rattle.wasm_base.specs.Pieces.{IsEncodableSection, joined};
ghost use Rattle.wasm_base.specs.Encodings.{HasEncodableSize, longest, module_encoding};
ghost use Rattle.wasm_base.specs.declared.refused.Refused.TheVariants as refusals;
ghost use Rattle.wasm_sections.specs.DataSegments.{active_encoding};
ghost use Rattle.wasm_tool.specs.Lines.{lines_of, counted_words, without_spaces, version_with, lines_with, version_of, versioned_lines};
ghost use Rattle.wasm_tool.specs.Recipe.{
  entry_of,
  type_entry,
  function_entry,
  memory_entry,
  global_entry,
  export_entry,
  start_entry,
  body_entry,
  data_entry,
  name_entry,
  import_entry,
  table_entry,
  elem_entry,
  locals_entry,
  second_entry,
  export_kind_of,
  left_locals,
  IsGood,
  AreEncodableNames,
  entries_of,
  section_of,
  names_of,
  start_of,
  sections_of,
  recipe_module,
  IsEncodableRecipe,
};
ghost use Rattle.wasm_tool.specs.Steps.{Follows, Explains, ContainsLines, IsEmpty, IsModule, AreEncodableSections, Puts, listed, start_items};
ghost use Rattle.wasm_tool.specs.declared.version.Version.TheVariants.{First};

use crate::fault::{RecipeCause, RecipeFault};
use crate::numbers::{hex_bytes, index, indices, signed};
use crate::types::{entity, limits_in, val_type};
use crate::version::{Version, header, line_at};
use crate::words::Words;
use std::alloc::Allocator;
use wasm_base::{CowSlice, Encode, Module, Pieces, RawSection, Result, SectionId, ValType};
use wasm_code::{CodeSection, ConstExpr};
use wasm_custom::NameSection;
use wasm_sections::{
    CountedSection, DataSection, ElementSection, Elements, ExportKind, ExportSection,
    FunctionSection, GlobalSection, GlobalType, ImportSection, ItemKind, MemorySection,
    StartSection, TableSection,
};

/// The sections to which the lines so far have added items.
#[derive(Drop)]
pub(crate) struct Recipe<A: Allocator> {
    types: Pieces<A>,
    imports: ImportSection<A>,
    functions: FunctionSection<A>,
    tables: TableSection<A>,
    memories: MemorySection<A>,
    globals: GlobalSection<A>,
    exports: ExportSection<A>,
    start: Option<u32>,
    elements: ElementSection<A>,
    /// Encoded runs of locals, of the next body.
    locals: Pieces<A>,
    code: CodeSection<A>,
    segments: DataSection<A>,
    names: NameSection<A>,
}

/// Returns the kind of export that a word names.
fn export_kind(word: &str) -> Option<ExportKind>
    ensures { result ≡ export_kind_of word.now }
{
    match word {
        "func" => Some(ExportKind::Func),
        "table" => Some(ExportKind::Table),
        "memory" => Some(ExportKind::Memory),
        "global" => Some(ExportKind::Global),
        "tag" => Some(ExportKind::Tag),
        _ => None,
    }
}

/// Appends a section to the module, if it has an item.
fn put_counted<K: ItemKind, A: Allocator, B: Allocator>(
    section: &CountedSection<K, Pieces<A>>,
    target: &mut Module<B>,
) -> Result<()>
    ensures { Puts (section_of K.section_id section.now) (IsEncodableSection section.now) target.old target.new result }
{
    if section.is_empty() {
        return Ok(());
    }
    target.section(section)
}

/// Returns the number of the pieces, and the pieces.
fn counted<A: Allocator>(alloc: A, pieces: &Pieces<A>) -> Result<Vec<u8, A>>
    ensures ok { IfOk result (λ bytes. bytes.items ≡ unsigned_encoding (length pieces.now) ++ joined pieces.now) }
    ensures few { OnOk result (length pieces.now ≤ longest) }
    ensures memory { result ≢ Err refusals.TooLong }
{
    let mut bytes = Vec::new(alloc);
    pieces.len().encode(&mut bytes)?;
    bytes.extend_from_slice(pieces.bytes())?;
    Ok(bytes)
}

/// Returns a function's body: the runs of locals, and the instructions.
fn body_of<A: Allocator>(alloc: A, runs: &Pieces<A>, instructions: &[u8]) -> Result<Vec<u8, A>>
    ensures ok { IfOk result (λ body. body.items ≡ (unsigned_encoding (length runs.now) ++ joined runs.now) ++ instructions.now) }
    ensures memory { result ≢ Err refusals.TooLong }
{
    let mut body = counted(alloc, runs)?;
    body.extend_from_slice(instructions)?;
    Ok(body)
}

/// Adds bytes at this offset of memory 0.
fn add_data<A: Allocator>(
    segments: &mut DataSection<A>,
    offset: &ConstExpr<A>,
    bytes: Vec<u8, A>,
) -> Result<()>
    ensures { Adds (active_encoding 0 offset.now bytes.items) (HasEncodableSize bytes.items) segments.old segments.new result }
{
    segments.active(0, offset, bytes)
}

impl<A: Allocator + Copy> Recipe<A> {
    fn new(alloc: A) -> Self
        ensures { IsEmpty result }
    {
        Recipe {
            types: Pieces::new(alloc),
            imports: ImportSection::new(alloc),
            functions: FunctionSection::new(alloc),
            tables: TableSection::new(alloc),
            memories: MemorySection::new(alloc),
            globals: GlobalSection::new(alloc),
            exports: ExportSection::new(alloc),
            start: None,
            elements: ElementSection::new(alloc),
            locals: Pieces::new(alloc),
            code: CodeSection::new(alloc),
            segments: DataSection::new(alloc),
            names: NameSection::new(alloc),
        }
    }

    /// Parses a line, and adds its item.
    fn read_line(&mut self, alloc: A, version: Version, line: &str) -> Result<(), RecipeCause>
        ensures { Follows (entry_of version line.now) self.old self.new result }
    {
        let mut words = Words::new(version, line);
        let Some(command) = words.next() else {
            return Ok(());
        };
        match command {
            "type" => self.read_type(alloc, words),
            "func" => self.read_function(words),
            "memory" => self.read_memory(words),
            "global" => self.read_global(alloc, words),
            "export" => self.read_export(words),
            "start" => self.read_start(words),
            "body" => self.read_body(alloc, words),
            "data" => self.read_data(alloc, words),
            "name" => self.read_name(words),
            _ => self.read_second(alloc, version, command, words),
        }
    }

    /// Parses a line of a command that version 1 does not have.
    fn read_second(
        &mut self,
        alloc: A,
        version: Version,
        command: &str,
        words: Words<'_>,
    ) -> Result<(), RecipeCause>
        ensures { words.entry.version ≡ version → Follows (second_entry version command.now (counted_words version words.entry.rest.now)) self.old self.new result }
    {
        if version == Version::First {
            return Err(RecipeCause::UnknownCommand);
        }
        match command {
            "import" => self.read_import(words),
            "table" => self.read_table(words),
            "elem" => self.read_elem(alloc, words),
            "locals" => self.read_locals(words),
            _ => Err(RecipeCause::UnknownCommand),
        }
    }

    /// Parses the lines of a recipe into sections without items. The line of the index `header`
    /// adds no item.
    fn read_lines(
        &mut self,
        alloc: A,
        header: Option<usize>,
        lines: &str,
    ) -> Result<(), RecipeFault>
        ensures { IsEmpty self.old → MatchResult result (λ _. ContainsLines (version_with header) (lines_with header (lines_of lines.now)) self.new) (λ fault. Explains (version_with header) (lines_with header (lines_of lines.now)) fault.line fault.cause) }
    {
        let version = Version::with_header(header);
        let mut number = 0;
        for line in lines.split('\n') {
            let text = line_at(header, number, line);
            number += 1;
            if let Err(cause) = self.read_line(alloc, version, text) {
                return Err(RecipeFault {
                    line: number,
                    cause,
                });
            }
        }
        Ok(())
    }

    fn read_type(&mut self, alloc: A, mut words: Words<'_>) -> Result<(), RecipeCause>
        ensures { Follows (type_entry words.entry.version (counted_words words.entry.version words.entry.rest.now)) self.old self.new result }
    {
        let word = words.needed()?;
        words.end()?;
        let item = hex_bytes(alloc, word)?;
        self.types.add(&item)?;
        Ok(())
    }

    fn read_function(&mut self, mut words: Words<'_>) -> Result<(), RecipeCause>
        ensures { Follows (function_entry words.entry.version (counted_words words.entry.version words.entry.rest.now)) self.old self.new result }
    {
        let word = words.needed()?;
        words.end()?;
        let type_index = index(word)?;
        self.functions.function(type_index)?;
        Ok(())
    }

    fn read_memory(&mut self, words: Words<'_>) -> Result<(), RecipeCause>
        ensures { Follows (memory_entry words.entry.version (counted_words words.entry.version words.entry.rest.now)) self.old self.new result }
    {
        self.memories.memory(limits_in(words)?.memory())?;
        Ok(())
    }

    fn read_global(&mut self, alloc: A, mut words: Words<'_>) -> Result<(), RecipeCause>
        ensures { Follows (global_entry words.entry.version (counted_words words.entry.version words.entry.rest.now)) self.old self.new result }
    {
        let word = words.needed()?;
        words.end()?;
        let init = ConstExpr::i32_const(alloc, signed(word)?)?;
        let global_type = GlobalType {
            val_type: ValType::I32,
            mutable: false,
            shared: false,
        };
        self.globals.global(global_type, &init)?;
        Ok(())
    }

    fn read_export(&mut self, mut words: Words<'_>) -> Result<(), RecipeCause>
        ensures { Follows (export_entry words.entry.version (counted_words words.entry.version words.entry.rest.now)) self.old self.new result }
    {
        let name = words.needed()?;
        let kind = words.needed()?;
        let word = words.needed()?;
        words.end()?;
        let kind = export_kind(kind).ok_or(RecipeCause::UnknownCommand)?;
        let exported = index(word)?;
        self.exports.export(name, kind, exported)?;
        Ok(())
    }

    /// Parses the start index, which replaces an earlier one.
    fn read_start(&mut self, mut words: Words<'_>) -> Result<(), RecipeCause>
        ensures { Follows (start_entry words.entry.version (counted_words words.entry.version words.entry.rest.now)) self.old self.new result }
    {
        let word = words.needed()?;
        words.end()?;
        self.start = Some(index(word)?);
        Ok(())
    }

    /// Parses the instructions of a function, which gets the locals since the last one.
    fn read_body(&mut self, alloc: A, mut words: Words<'_>) -> Result<(), RecipeCause>
        ensures { Follows (body_entry words.entry.version (counted_words words.entry.version words.entry.rest.now)) self.old self.new result }
    {
        let word = words.needed()?;
        words.end()?;
        let instructions = hex_bytes(alloc, word)?;
        let body = body_of(alloc, &self.locals, &instructions)?;
        self.code.raw(&body)?;
        self.locals = Pieces::new(alloc);
        Ok(())
    }

    fn read_data(&mut self, alloc: A, mut words: Words<'_>) -> Result<(), RecipeCause>
        ensures { Follows (data_entry words.entry.version (counted_words words.entry.version words.entry.rest.now)) self.old self.new result }
    {
        let place = words.needed()?;
        let word = words.needed()?;
        words.end()?;
        let offset = ConstExpr::i32_const(alloc, signed(place)?)?;
        let bytes = hex_bytes(alloc, word)?;
        add_data(&mut self.segments, &offset, bytes)?;
        Ok(())
    }

    /// Parses the name of the module: the remaining words of the line.
    fn read_name(&mut self, words: Words<'_>) -> Result<(), RecipeCause>
        ensures { Follows (name_entry (without_spaces words.entry.rest.now)) self.old self.new result }
    {
        let name = words.rest();
        if name.is_empty() {
            return Err(RecipeCause::MissingWord);
        }
        self.names.module(name)?;
        Ok(())
    }

    fn read_import(&mut self, mut words: Words<'_>) -> Result<(), RecipeCause>
        ensures { Follows (import_entry words.entry.version (counted_words words.entry.version words.entry.rest.now)) self.old self.new result }
    {
        let from = words.needed()?;
        let name = words.needed()?;
        let kind = words.needed()?;
        let ty = entity(kind, words)?;
        self.imports.import(from, name, ty)?;
        Ok(())
    }

    fn read_table(&mut self, words: Words<'_>) -> Result<(), RecipeCause>
        ensures { Follows (table_entry words.entry.version (counted_words words.entry.version words.entry.rest.now)) self.old self.new result }
    {
        self.tables.table(limits_in(words)?.table())?;
        Ok(())
    }

    /// Parses references to functions, at an offset of table 0.
    fn read_elem(&mut self, alloc: A, mut words: Words<'_>) -> Result<(), RecipeCause>
        ensures { Follows (elem_entry (counted_words words.entry.version words.entry.rest.now)) self.old self.new result }
    {
        let place = words.needed()?;
        let first = words.needed()?;
        let offset = ConstExpr::i32_const(alloc, signed(place)?)?;
        let functions = indices(alloc, first, words)?;
        let elements = Elements::Functions(CowSlice::Owned(functions));
        self.elements.active(None, &offset, elements)?;
        Ok(())
    }

    /// Parses a run of locals, which the next body gets.
    fn read_locals(&mut self, mut words: Words<'_>) -> Result<(), RecipeCause>
        ensures { Follows (locals_entry words.entry.version (counted_words words.entry.version words.entry.rest.now)) self.old self.new result }
    {
        let count = words.needed()?;
        let ty = words.needed()?;
        words.end()?;
        let run = (index(count)?, val_type(ty).ok_or(RecipeCause::UnknownType)?);
        self.locals.add_encoded(&run)?;
        Ok(())
    }

    /// Appends the type section to the module: the number of types, and the types.
    fn put_types(&self, alloc: A, target: &mut Module<A>) -> Result<()>
        ensures { Puts (section_of 1 self.now.types) (IsEncodableSection self.now.types) target.old target.new result }
    {
        if self.types.is_empty() {
            return Ok(());
        }
        target.section(&RawSection {
            id: SectionId::Types.into(),
            bytes: &counted(alloc, &self.types)?,
        })
    }

    fn put_start(&self, target: &mut Module<A>) -> Result<()>
        ensures { Puts (start_of (start_items self.now.start)) (All HasEncodableSize (start_items self.now.start)) target.old target.new result }
    {
        match self.start {
            Some(function_index) => target.section(&StartSection { function_index }),
            None => Ok(()),
        }
    }

    fn put_code(&self, target: &mut Module<A>) -> Result<()>
        ensures { Puts (section_of 10 self.now.code) (IsEncodableSection self.now.code) target.old target.new result }
    {
        if self.code.is_empty() {
            return Ok(());
        }
        target.section(&self.code)
    }

    fn put_names(&self, target: &mut Module<A>) -> Result<()>
        ensures { Puts (names_of self.now.names) (AreEncodableNames self.now.names) target.old target.new result }
    {
        match self.names.len() {
            0 => Ok(()),
            _ => target.section(&self.names),
        }
    }

    /// Appends the sections to the module, in the order of the standard.
    fn put_sections(&self, alloc: A, target: &mut Module<A>) -> Result<()>
        ensures { Puts (listed self.now) (AreEncodableSections self.now) target.old target.new result }
    {
        self.put_types(alloc, target)?;
        put_counted(&self.imports, target)?;
        put_counted(&self.functions, target)?;
        put_counted(&self.tables, target)?;
        put_counted(&self.memories, target)?;
        put_counted(&self.globals, target)?;
        put_counted(&self.exports, target)?;
        self.put_start(target)?;
        put_counted(&self.elements, target)?;
        self.put_code(target)?;
        put_counted(&self.segments, target)?;
        self.put_names(target)
    }

    /// Returns the module of the sections.
    fn finish(&self, alloc: A) -> Result<Vec<u8, A>>
        ensures ok { IfOk result (λ bytes. bytes.items ≡ module_encoding (listed self.now)) }
        ensures was_encodable { OnOk result (AreEncodableSections self.now) }
        ensures too_long { AreEncodableSections self.now → result ≢ Err refusals.TooLong }
    {
        let mut module = Module::new(alloc)?;
        self.put_sections(alloc, &mut module)?;
        Ok(module.finish())
    }

    /// Returns the module of a recipe, whose lines are parsed into sections without items. The
    /// line of the index `header` adds no item.
    fn module_of(
        &mut self,
        alloc: A,
        header: Option<usize>,
        lines: &str,
    ) -> Result<Vec<u8, A>, RecipeFault>
        ensures { IsEmpty self.old → MatchResult result (λ bytes. IsModule (version_with header) (lines_with header (lines_of lines.now)) self.new bytes.items) (λ fault. Explains (version_with header) (lines_with header (lines_of lines.now)) fault.line fault.cause) }
    {
        self.read_lines(alloc, header, lines)?;
        if !self.locals.is_empty() {
            return Err(RecipeFault {
                line: 0,
                cause: RecipeCause::UnusedLocals,
            });
        }
        Ok(self.finish(alloc)?)
    }
}

/// Assembles the module of a recipe of version 1.
///
/// Each line is a command and its words:
///
/// - `type HEX` adds a type to the type section.
/// - `func N` adds a function of the type N.
/// - `memory MIN` adds a memory of at least MIN pages.
/// - `global I` adds an immutable global, a number of 32 bits.
/// - `export NAME KIND N` adds an export of a `func`, `table`, `memory`, `global` or `tag`.
/// - `body HEX` adds a function without locals and with these instructions to the code section.
/// - `data I HEX` adds bytes at the offset I of memory 0.
/// - `start N` sets the start function; a later line replaces it.
/// - `name TEXT` sets the name of the module, in the name section: the remainder of the line,
///   without the spaces before it.
///
/// Sections that received an item are written in the order of the standard, and the name section
/// after them. A line without words is skipped, and words after the needed ones are ignored.
///
/// # Errors
///
/// Returns the first line with an error, and its cause; 0 is an error after the last line.
///
/// ```rust
/// let module = assemble(alloc, "body 200020016a0b")?;
/// ```
pub fn assemble<A: Allocator + Copy>(alloc: A, lines: &str) -> Result<Vec<u8, A>, RecipeFault>
    ensures good { OnOk result (All (IsGood First) (lines_of lines.now)) }
    ensures was_encodable { OnOk result (IsEncodableRecipe (entries_of First (lines_of lines.now))) }
    ensures value { IfOk result (λ bytes. bytes.items ≡ recipe_module (entries_of First (lines_of lines.now))) }
    ensures read { IfOk result (λ bytes. DecodesWhole wasm_module bytes.items (sections_of (entries_of First (lines_of lines.now)))) }
    ensures fault { IfErr result (λ fault. Explains First (lines_of lines.now) fault.line fault.cause) }
{
    let mut recipe = Recipe::new(alloc);
    recipe.module_of(alloc, None, lines)
}

/// Assembles the module of a recipe of version 1 or 2.
///
/// The recipe is of version 2 if the first line that has a word is `version 2`. A line of a comment
/// alone has no word. A recipe of version 1 is that of [`assemble`]. In version 2, these commands
/// are added:
///
/// - `memory MIN MAX` adds a memory of at least MIN and at most MAX pages.
/// - `import MODULE NAME KIND ..` adds an import. After the kind `func` is the index of a type;
///   after `table` and `memory` are a minimum and, if there is one, a maximum; after `global` is a
///   type, and `mut` before it if the global is mutable.
/// - `table MIN` and `table MIN MAX` add a table of function references.
/// - `elem I N ..` adds references to functions at the offset I of table 0.
/// - `locals N TYPE` adds N locals to the next `body`, after those of earlier such lines.
///
/// Types are `i32`, `i64`, `f32`, `f64`, `v128`, `funcref` and `externref`. A word that begins with
/// `#` begins a comment, up to the end of the line, but not in the text of `name`. Words after
/// those of the command are an error.
///
/// # Errors
///
/// Returns the first line with an error, and its cause; 0 is an error after the last line, also
/// for `locals` without a body after them.
///
/// ```rust
/// let module = assemble_versioned(alloc, "version 2\nlocals 1 i32\nbody 20000b # local.get 0")?;
/// ```
pub fn assemble_versioned<A: Allocator + Copy>(
    alloc: A,
    lines: &str,
) -> Result<Vec<u8, A>, RecipeFault>
    ensures good { OnOk result (All (IsGood (version_of lines.now)) (versioned_lines lines.now)) }
    ensures used { OnOk result (left_locals [] (entries_of (version_of lines.now) (versioned_lines lines.now)) ≡ []) }
    ensures was_encodable { OnOk result (IsEncodableRecipe (entries_of (version_of lines.now) (versioned_lines lines.now))) }
    ensures value { IfOk result (λ bytes. bytes.items ≡ recipe_module (entries_of (version_of lines.now) (versioned_lines lines.now))) }
    ensures read { IfOk result (λ bytes. DecodesWhole wasm_module bytes.items (sections_of (entries_of (version_of lines.now) (versioned_lines lines.now)))) }
    ensures fault { IfErr result (λ fault. Explains (version_of lines.now) (versioned_lines lines.now) fault.line fault.cause) }
{
    let mut recipe = Recipe::new(alloc);
    recipe.module_of(alloc, header(lines), lines)
}
