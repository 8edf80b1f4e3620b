// The table section: its builder and its reader.
ghost use Rattle.std.specs.Prelude.{◌≡◌, ◌++◌, ⊤};
ghost use Rattle.wasm_base.specs.Calls.{AddsTo};
ghost use Rattle.wasm_code.specs.Expressions.{expression_encoding};
ghost use Rattle.wasm_sections.specs.Flags.{flags_code};
ghost use Rattle.wasm_sections.specs.Tables.{table_items, table_flags, table_encoding, GivenTable, TableItem as TableModel, before_init, table_item, index_type_of, Limits as LimitsModel, limits, table_type, limits_view, table_view};
ghost use Rattle.wasm_sections.specs.declared.table.TableType.{TableType as TypeModel};
ghost use Rattle.wasm_base.specs.Minimal.{builders_alone};

use crate::counted_section::{CountedSection, ItemKind, RecordOf};
use crate::flags::where_set;
use crate::memory::Flags;
use std::alloc::{Allocator, Global};
use wasm_base::{
    DecodeError, Encode, Grammar, Kind, Layout, Lent, Optional, Pieces, ReadFault, Readable,
    RefType, Result, SectionId, Shorten, Store, ValType, read_optional,
};
use wasm_code::{ConstExpr, Expression};

/// The table section: the tables that a module defines.
///
/// ```rust
/// let mut tables = TableSection::new(alloc);
/// let table_type = TableType {
///     element_type: RefType::FUNCREF,
///     table64: false,
///     minimum: 128,
///     maximum: None,
///     shared: false,
/// };
/// tables.table(table_type)?;
/// tables.table_with_init(table_type, &ConstExpr::ref_null(alloc, HeapType::FUNC)?)?;
/// module.section(&tables)?;
/// ```
pub type TableSection<A = Global> = CountedSection<TableItems, Pieces<A>>;

/// The kind of a table section's items: table types, some with an initializer expression.
#[derive(Clone, Copy, Debug)]
pub struct TableItems;

/// The type of a table. Sizes are in elements.
#[derive(Clone, Copy, PartialEq, Eq, Hash, Debug)]
pub struct TableType {
    pub element_type: RefType,
    /// Whether indices have 64 bits.
    pub table64: bool,
    pub minimum: u64,
    pub maximum: Option<u64>,
    /// Whether threads share the table.
    pub shared: bool,
}

impl TableType {
    /// Returns the type of an index into the table.
    pub fn index_type(&self) -> ValType
        ensures { result ≡ index_type_of self.now.table64 }
    {
        if self.table64 {
            ValType::I64
        } else {
            ValType::I32
        }
    }

    /// Returns the flags: a bit for each optional field that is present, and for each attribute
    /// that is set.
    #[inline]
    pub(crate) fn flags(&self) -> u8
        ensures { result ≡ flags_code (table_flags self.now) }
    {
        where_set(self.maximum.is_some(), 0x01)
            + where_set(self.shared, 0x02)
            + where_set(self.table64, 0x04)
    }
}

/// Encodes the type of the elements, the flags, the minimum, and the maximum if there is one.
impl Encode for TableType {
    ghost encoding = { table_encoding };

    ghost encodable = { λ _. ⊤ };

    #[inline]
    fn encode<A: Allocator>(&self, sink: &mut Vec<u8, A>) -> Result<()> {
        let limits = (self.flags(), self.minimum, Optional(self.maximum));
        (self.element_type, limits).encode(sink)
    }
}

impl Kind for TableItems {
    ghost Record = { GivenTable };

    ghost Item = { TableModel };

    ghost kind = { table_items };

    #[tactic(auto, using(crate::proofs::TableLaws::table_laws))]
    fn laws() {}
}

impl ItemKind for TableItems {
    ghost use Rattle.wasm_base.specs.SectionId.{number_of};
    ghost use Rattle.wasm_base.specs.declared.section_id.SectionId.TheVariants as ids;

    ghost section_id = { number_of ids.Table };

    fn id() -> u8 {
        SectionId::Table.into()
    }
}

impl RecordOf<TableItems> for TableType {}

impl<S: Store> CountedSection<TableItems, S> {
    /// Adds a table of this type, whose elements are initially null.
    pub fn table(&mut self, table_type: TableType) -> Result<()>
        ensures { AddsTo S.model (table_encoding table_type) ⊤ self.old self.new result }
    {
        self.add_record(&table_type)
    }

    /// Adds a table of this type, whose elements are initialized by the expression.
    pub fn table_with_init<B: Allocator>(
        &mut self,
        table_type: TableType,
        init: &ConstExpr<B>,
    ) -> Result<()>
        ensures { AddsTo S.model (before_init ++ (table_encoding table_type ++ expression_encoding init.now)) ⊤ self.old self.new result }
    {
        self.add_record(&([0x40u8, 0x00], table_type, Lent(init)))
    }
}

/// The limits of a table: its type without the type of its elements.
#[derive(Clone, Copy, Debug)]
struct Limits {
    table64: bool,
    shared: bool,
    minimum: u64,
    maximum: Option<u64>,
}

impl Layout for Limits {
    ghost Value = { LimitsModel };

    ghost format = { limits };

    ghost view = { limits_view };

    #[tactic(auto, using(crate::proofs::TableLaws::limits_unambiguous))]
    fn laws() {}
}

impl<'a, A: Allocator + Copy, G: Grammar> Readable<'a, A, G> for Limits {
    ghost may_allocate = { ⊥ };

    #[tactic(auto, using(crate::proofs::DecodeLimits::limits_steps))]
    fn read(bytes: &'a [u8], alloc: A) -> Result<(Limits, &'a [u8]), DecodeError> {
        let (flags, rest) = <Flags as Readable<'a, A, G>>::read(bytes, alloc)?;
        if flags.has_page_size {
            return Err(ReadFault::UnknownTag.just_before(rest));
        }
        let (minimum, rest) = <u64 as Readable<'a, A, G>>::read(rest, alloc)?;
        let (maximum, rest) = read_optional::<'a, u64, A, G>(flags.has_maximum, rest, alloc)?;
        let limits = Limits {
            table64: flags.is_64,
            shared: flags.shared,
            minimum,
            maximum,
        };
        Ok((limits, rest))
    }
}

impl Layout for TableType {
    ghost Value = { TypeModel };

    ghost format = { table_type };

    ghost view = { λ table. table };

    #[tactic(auto, using(crate::proofs::TableLaws::table_unambiguous))]
    fn laws() {}
}

impl<'a, A: Allocator + Copy, G: Grammar> Readable<'a, A, G> for TableType {
    ghost may_allocate = { ⊥ };

    #[tactic(auto, using(crate::proofs::DecodeLimits::table_steps))]
    fn read(bytes: &'a [u8], alloc: A) -> Result<(TableType, &'a [u8]), DecodeError> {
        let ((element_type, limits), rest) = <(RefType, Limits) as Readable<'a, A, G>>::read(
            bytes, alloc,
        )?;
        let table = TableType {
            element_type,
            table64: limits.table64,
            minimum: limits.minimum,
            maximum: limits.maximum,
            shared: limits.shared,
        };
        Ok((table, rest))
    }
}

/// The bytes before a table with an initializer.
pub(crate) const BEFORE_INIT: [u8; 2] = [0x40, 0x00];

/// A decoded table: its type, and its optional initializer expression.
#[derive(Debug, Drop)]
pub struct TableItem<A: Allocator = Global> {
    pub table_type: TableType,
    pub init: Option<Expression<A>>,
}

impl<A: Allocator> Layout for TableItem<A> {
    ghost Value = { TableModel };

    ghost format = { table_item };

    ghost view = { table_view };

    #[tactic(auto, using(crate::proofs::TableLaws::table_item_unambiguous))]
    fn laws() {}
}

impl<'a, A: Allocator + Copy, G: Grammar> Readable<'a, A, G> for TableItem<A> {
    #[tactic(auto, using(crate::proofs::TableLaws::table_steps))]
    fn read(bytes: &'a [u8], alloc: A) -> Result<(TableItem<A>, &'a [u8]), DecodeError> {
        let (first, rest) = <u8 as Readable<'a, A, G>>::read(bytes, alloc)?;
        if first != 0x40 {
            let (table_type, rest) = <TableType as Readable<'a, A, G>>::read(bytes, alloc)?;
            let init = None;
            return Ok((TableItem { table_type, init }, rest));
        }
        let (second, rest) = <u8 as Readable<'a, A, G>>::read(rest, alloc)?;
        if second != 0x00 {
            return Err(ReadFault::UnknownTag.just_before(rest));
        }
        let ((table_type, init), rest) = <(TableType, Expression<A>) as Readable<'a, A, G>>::read(
            rest, alloc,
        )?;
        let init = Some(init);
        Ok((TableItem { table_type, init }, rest))
    }
}

impl<A: Allocator> Shorten for TableItem<A> {
    ghost grammars = { builders_alone };

    #[tactic(auto, using(crate::proofs::TableLaws::table_appended, crate::proofs::TableLaws::table_init_appended, crate::proofs::TableLaws::table_init_encoded))]
    fn write_minimal<B: Allocator>(&self, sink: &mut Vec<u8, B>) -> Result<()> {
        let Some(init) = &self.init else {
            return self.table_type.encode(sink);
        };
        BEFORE_INIT.encode(sink)?;
        self.table_type.encode(sink)?;
        init.write_minimal(sink)
    }
}
