// The init functions of a linking section: their builder, their reader and their minimizer.
ghost use Rattle.std.specs.Prelude.{Some, ◌++◌, ⊤};
ghost use Rattle.wasm_base.specs.Calls.{AddsTo};
ghost use Rattle.wasm_base.specs.Numbers.{unsigned_encoding};
ghost use Rattle.wasm_custom.specs.InitFunctions.{init_encoding, IsInit, init_function};
ghost use Rattle.wasm_custom.specs.declared.init_functions.InitFunction.{InitFunction as InitModel};
ghost use Rattle.wasm_base.specs.Minimal.{both_grammars};

use crate::lists::{CountedList, ListKind};
use std::alloc::{Allocator, Global};
use wasm_base::{DecodeError, Grammar, Layout, Pieces, Readable, Result, Shorten, Store};

/// The init functions of a module, in the order in which they are added. They are encoded as
/// subsection 6 of a linking section.
///
/// ```rust
/// let mut functions = InitFunctions::new(alloc);
/// functions.function(65535, 0)?;
/// ```
pub type InitFunctions<A = Global> = CountedList<InitMembers, Pieces<A>>;

/// The kind of the members of a list of init functions.
#[derive(Clone, Copy, Debug)]
pub struct InitMembers;

impl ListKind for InitMembers {
    ghost Member = { InitModel };

    ghost member_encoding = { init_encoding };

    ghost is_member = { IsInit };

    ghost subsection = { Some 6 };

    fn subsection() -> Option<u8> {
        Some(6)
    }
}

impl<S: Store> CountedList<InitMembers, S> {
    /// Adds the function of this symbol. Functions of a lower priority are called first.
    pub fn function(&mut self, priority: u32, symbol: u32) -> Result<()>
        ensures { AddsTo S.model (unsigned_encoding priority ++ unsigned_encoding symbol) ⊤ self.old self.new result }
    {
        self.add_record(&(priority, symbol))
    }
}

/// A function that the linked module calls when it starts.
#[derive(Clone, Copy, Debug)]
pub struct InitFunction {
    /// Functions of a lower priority are called first.
    pub priority: u32,
    /// The index of the function's symbol in the symbol table.
    pub symbol: u32,
}

impl Layout for InitFunction {
    ghost Value = { InitModel };

    ghost format = { init_function };

    ghost view = { λ function. function };

    #[tactic(auto, using(crate::proofs::InitLaws::init_unambiguous))]
    fn laws() {}
}

impl<'a, A: Allocator + Copy, G: Grammar> Readable<'a, A, G> for InitFunction {
    ghost may_allocate = { ⊥ };

    #[tactic(auto, using(crate::proofs::InitLaws::init_steps))]
    fn read(bytes: &'a [u8], alloc: A) -> Result<(InitFunction, &'a [u8]), DecodeError> {
        let ((priority, symbol), rest) = <(u32, u32) as Readable<'a, A, G>>::read(bytes, alloc)?;
        Ok((InitFunction { priority, symbol }, rest))
    }
}

impl Shorten for InitFunction {
    ghost grammars = { both_grammars };

    #[tactic(auto, using(crate::proofs::InitLaws::init_appended))]
    fn write_minimal<B: Allocator>(&self, sink: &mut Vec<u8, B>) -> Result<()> {
        self.priority.write_minimal(sink)?;
        self.symbol.write_minimal(sink)
    }
}
