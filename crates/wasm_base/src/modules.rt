// Modules: the header, and sections one after another.
ghost use Rattle.std.specs.Prelude.{◌≡◌, ◌≢◌, ℕ, List, ◌∷◌, [], ◌++◌, OnOk, OnErr, IfOk};
ghost use Rattle.wasm_base.specs.Calls.{DecodesOneMore};
ghost use Rattle.wasm_base.specs.Formats.{header, wasm_module};
ghost use Rattle.wasm_base.specs.Decoding.{DecodesWhole};

use crate::refused::{Refused, Result};
use crate::sections::Section;
use std::alloc::{Allocator, Global};
use std::marker::Model;

/// A module: its header and the sections that were appended, as bytes.
///
/// ```rust
/// let mut module = Module::new(alloc)?;
/// module.section(&RawSection { id: 1, bytes: &[0] })?;
/// let bytes = module.finish();
/// ```
#[derive(Drop, Debug)]
pub struct Module<A: Allocator = Global> {
    bytes: Vec<u8, A>,
}

impl<A: Allocator> Model for Module<A> {
    ghost Value = { List ℕ };

    ghost view = { λ m. m.bytes.items };
}

impl<A: Allocator> Module<A> {
    /// Returns a module without sections.
    ///
    /// # Errors
    ///
    /// Returns [`Memory`](crate::Refused::Memory) if the allocation of the header fails.
    #[tactic(auto, using(crate::proofs::ModuleLaws::module_empty))]
    pub fn new(alloc: A) -> Result<Module<A>>
        ensures bytes { IfOk result (λ m. m ≡ header) }
        ensures read { IfOk result (λ m. DecodesWhole wasm_module m []) }
        ensures memory { result ≢ Err Refused.TooLong }
    {
        Ok(Module {
            bytes: Vec::from_slice(alloc, b"\0asm\x01\0\0\0")?,
        })
    }

    /// Appends a section.
    ///
    /// # Errors
    ///
    /// Returns [`Refused`](crate::Refused), and leaves the module unchanged, if the section is too
    /// long or an allocation fails.
    pub fn section<S: Section>(&mut self, section: &S) -> Result<()>
        ensures ok { OnOk result (self.new ≡ self.old ++ (S.id_of section.now ∷ S.encoding section.now)) }
        ensures read { OnOk result (DecodesOneMore (S.payload section.now) (S.id_of section.now) self.old self.new) }
        ensures section { OnOk result (S.decoding section.now) }
        ensures err { OnErr result (self.new ≡ self.old) }

        ensures was_encodable { OnOk result (S.encodable section.now) }
        ensures too_long { S.encodable section.now → result ≢ Err Refused.TooLong }
        ensures too_many { S.overlong section.now → result ≡ Err Refused.TooLong }
    {
        section.append_to(&mut self.bytes)
    }

    /// Returns a copy of the module in newly allocated memory.
    ///
    /// # Errors
    ///
    /// Returns [`Memory`](crate::Refused::Memory) if an allocation fails.
    pub fn clone(&self) -> Result<Module<A>>
    where
        A: Clone,
        ensures same { IfOk result (λ m. m ≡ self.now) }
        ensures memory { result ≢ Err Refused.TooLong }
    {
        let alloc = self.bytes.allocator().clone()?;
        Ok(Module {
            bytes: Vec::from_slice(alloc, self.bytes.as_slice())?,
        })
    }

    /// Returns the bytes of the module.
    pub fn finish(self) -> Vec<u8, A>
        ensures { result.items ≡ self }
    {
        self.bytes
    }
}
