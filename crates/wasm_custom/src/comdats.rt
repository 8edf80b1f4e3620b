// The COMDAT groups of a linking section: their builders, their reader and their minimizer.
ghost use Rattle.std.specs.Prelude.{None, Some, ◌∷◌, ◌++◌, ⊤};
ghost use Rattle.wasm_base.specs.Calls.{AddsTo};
ghost use Rattle.wasm_base.specs.Decoding.{Unambiguous};
ghost use Rattle.wasm_base.specs.Encodings.{size_prefixed_encoding, HasEncodableSize};
ghost use Rattle.wasm_base.specs.Numbers.{unsigned_encoding};
ghost use Rattle.wasm_custom.specs.Comdats.{comdat_symbol_encoding, IsComdatSymbol, comdat_symbol, Comdat as ComdatModel, comdat_encoding, IsComdat, comdat, comdat_view};
ghost use Rattle.wasm_custom.specs.Lists.{list_encoding};
ghost use Rattle.wasm_custom.specs.declared.comdats.ComdatSymbol.{ComdatSymbol as ComdatSymbolModel};
ghost use Rattle.wasm_base.specs.Minimal.{both_grammars};

use crate::lists::{CountedList, ListKind};
use std::alloc::{Allocator, Global};
use wasm_base::{
    DecodeError, Encode, Grammar, Layout, Lent, Pieces, Readable, Result, Shorten, Store,
};

/// The members of a COMDAT group, in the order in which they are added.
pub type ComdatSymbols<A = Global> = CountedList<ComdatSymbolMembers, Pieces<A>>;

/// The kind of the members of a list of a group's members.
#[derive(Clone, Copy, Debug)]
pub struct ComdatSymbolMembers;

impl ListKind for ComdatSymbolMembers {
    ghost Member = { ComdatSymbolModel };

    ghost member_encoding = { comdat_symbol_encoding };

    ghost is_member = { IsComdatSymbol };

    ghost subsection = { None };

    fn subsection() -> Option<u8> {
        None
    }
}

impl<S: Store> CountedList<ComdatSymbolMembers, S> {
    /// Adds a member of this kind, with its index among those of the kind. The kind is 0 for a data
    /// segment, 1 for a function, 2 for a global, 3 for a tag, 4 for a table, and 5 for a section.
    pub fn symbol(&mut self, kind: u8, index: u32) -> Result<()>
        ensures { AddsTo S.model (kind ∷ unsigned_encoding index) ⊤ self.old self.new result }
    {
        self.add_record(&(kind, index))
    }
}

/// The COMDAT groups of a module, in the order in which they are added. They are encoded as
/// subsection 7 of a linking section.
///
/// ```rust
/// let mut members = ComdatSymbols::new(alloc);
/// members.symbol(1, 0)?;
/// let mut comdats = Comdats::new(alloc);
/// comdats.comdat("_Z1fIiET_S0_", 0, &members)?;
/// ```
pub type Comdats<A = Global> = CountedList<ComdatMembers, Pieces<A>>;

/// The kind of the members of a list of groups.
#[derive(Clone, Copy, Debug)]
pub struct ComdatMembers;

impl ListKind for ComdatMembers {
    ghost Member = { ComdatModel };

    ghost member_encoding = { comdat_encoding };

    ghost is_member = { IsComdat };

    ghost subsection = { Some 7 };

    fn subsection() -> Option<u8> {
        Some(7)
    }
}

impl<S: Store> CountedList<ComdatMembers, S> {
    /// Adds a group. In the tool conventions, `flags` are 0.
    pub fn comdat<T: Store>(
        &mut self,
        name: &str,
        flags: u32,
        symbols: &CountedList<ComdatSymbolMembers, T>,
    ) -> Result<()>
        ensures { AddsTo S.model (size_prefixed_encoding name.now ++ (unsigned_encoding flags ++ list_encoding (T.model.joins symbols.now))) (HasEncodableSize name.now) self.old self.new result }
    {
        symbols.members_law();
        self.add_record(&(name, flags, Lent(symbols)))
    }
}

/// A member of a COMDAT group.
#[derive(Clone, Copy, Debug)]
pub struct ComdatSymbol {
    /// The kind of the member: 0 is a data segment, 1 a function, 2 a global, 3 a tag, 4 a table,
    /// 5 a section.
    pub kind: u8,
    /// The index of the member among those of its kind.
    pub index: u32,
}

impl Layout for ComdatSymbol {
    ghost Value = { ComdatSymbolModel };

    ghost format = { comdat_symbol };

    ghost view = { λ symbol. symbol };

    #[tactic(auto, using(crate::proofs::ComdatLaws::comdat_symbol_unambiguous))]
    fn laws() {}
}

impl<'a, A: Allocator + Copy, G: Grammar> Readable<'a, A, G> for ComdatSymbol {
    ghost may_allocate = { ⊥ };

    #[tactic(auto, using(crate::proofs::ComdatLaws::comdat_symbol_steps))]
    fn read(bytes: &'a [u8], alloc: A) -> Result<(ComdatSymbol, &'a [u8]), DecodeError> {
        let ((kind, index), rest) = <(u8, u32) as Readable<'a, A, G>>::read(bytes, alloc)?;
        Ok((ComdatSymbol { kind, index }, rest))
    }
}

impl Shorten for ComdatSymbol {
    ghost grammars = { both_grammars };

    #[tactic(auto, using(crate::proofs::ComdatLaws::comdat_symbol_appended))]
    fn write_minimal<B: Allocator>(&self, sink: &mut Vec<u8, B>) -> Result<()> {
        self.kind.encode(sink)?;
        self.index.write_minimal(sink)
    }
}

/// A decoded COMDAT group: a linker keeps the members of one group of this name, and discards those
/// of the others.
#[derive(Debug, Drop)]
pub struct Comdat<'a, A: Allocator = Global> {
    pub name: &'a str,
    /// 0 in the tool conventions.
    pub flags: u32,
    pub symbols: Vec<ComdatSymbol, A>,
}

impl<'a, A: Allocator> Layout for Comdat<'a, A> {
    ghost Value = { ComdatModel };

    ghost format = { comdat };

    ghost view = { comdat_view };

    #[tactic(auto, using(crate::proofs::ComdatLaws::comdat_unambiguous))]
    fn laws()
        ensures { Unambiguous comdat }
    {}
}

impl<'a, A: Allocator + Copy + 'a, G: Grammar> Readable<'a, A, G> for Comdat<'a, A> {
    #[tactic(auto, using(crate::proofs::ComdatLaws::comdat_steps))]
    fn read(bytes: &'a [u8], alloc: A) -> Result<(Comdat<'a, A>, &'a [u8]), DecodeError> {
        let ((name, (flags, symbols)), rest) = <(&'a str, (u32, Vec<ComdatSymbol, A>)) as Readable<
            'a,
            A,
            G,
        >>::read(bytes, alloc)?;
        let comdat = Comdat {
            name,
            flags,
            symbols,
        };
        Ok((comdat, rest))
    }
}

impl<'a, A: Allocator> Shorten for Comdat<'a, A> {
    ghost grammars = { both_grammars };

    #[tactic(auto, using(crate::proofs::ComdatLaws::comdat_appended, crate::proofs::ComdatLaws::comdat_name_encoded, crate::proofs::ComdatLaws::comdat_symbols_encoded))]
    fn write_minimal<B: Allocator>(&self, sink: &mut Vec<u8, B>) -> Result<()> {
        self.name.write_minimal(sink)?;
        self.flags.write_minimal(sink)?;
        self.symbols.write_minimal(sink)
    }
}
