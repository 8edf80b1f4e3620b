// The members of a vector, one after another.
ghost use Rattle.std.specs.Prelude.{◌≡◌, ◌≢◌, IfOk, IfErr};
ghost use Rattle.std.specs.Iterator.{at_most};
ghost use Rattle.wasm_base.specs.Formats.{u32};
ghost use Rattle.wasm_base.specs.Numbers.{padded_of};
ghost use Rattle.wasm_base.specs.Decoding.{Decodes, Rejects};
ghost use Rattle.wasm_base.specs.declared.fault.ReadFault.TheVariants.{Memory};
ghost use Rattle.wasm_code.specs.Members.{VisitingMembers, NextMember};

use std::alloc::{Allocator, Global};
use std::iter::FusedIterator;
use std::marker::{Model, PhantomData};
use wasm_base::{DecodeError, Grammar, Readable, Standard};

/// The members of a vector, one after another, decoded from its bytes. Memory is allocated only for
/// members that need it; labels, clauses and types do not.
///
/// ```text
/// // The bytes of the operands of `br_table`: the labels, and the default label.
/// let mut labels = Members::<u32, A>::new(bytes, alloc)?;
/// for label in &mut labels {
///     let label = label?;
/// }
/// let default = labels.rest();
/// ```
///
/// # Errors
///
/// Every error except `Memory` means that no such member is next. It is the last item.
#[derive(Debug, Drop)]
pub struct Members<'a, T, A: Allocator = Global, G: Grammar = Standard> {
    left: u32,
    rest: &'a [u8],
    alloc: A,
    of: PhantomData<T>,
    grammar: PhantomData<G>,
}

impl<'a, T, A: Allocator, G: Grammar> Model for Members<'a, T, A, G> {
    ghost Value = { VisitingMembers };

    ghost view = { λ m. record { left = m.left; rest = m.rest.now } };
}

impl<'a, T: Readable<'a, A, G>, A: Allocator + Copy, G: Grammar> Members<'a, T, A, G> {
    /// Decodes the number of members of the vector at the front, and returns an iterator over them.
    ///
    /// # Errors
    ///
    /// An error means that the bytes do not begin with a number.
    pub fn new(bytes: &'a [u8], alloc: A) -> Result<Self, DecodeError>
        ensures found { IfOk result (λ it. Decodes u32 (padded_of G.grammar) bytes.now it.left it.rest) }
        ensures none { IfErr result (λ e. e.cause ≢ Memory → Rejects u32 (padded_of G.grammar) bytes.now) }
        ensures no_memory { IfErr result (λ e. e.cause ≢ Memory) }
    {
        let (left, rest) = <u32 as Readable<'a, A, G>>::read(bytes, alloc)?;
        Ok(Members {
            left,
            rest,
            alloc,
            of: PhantomData,
            grammar: PhantomData,
        })
    }

    /// Returns the number of members that are left.
    pub fn left(&self) -> u32
        ensures { result ≡ self.now.left }
    {
        self.left
    }

    /// Returns the bytes that are not decoded yet. After the last member, they are those after the
    /// vector.
    pub fn rest(&self) -> &'a [u8]
        ensures { result.now ≡ self.now.rest }
    {
        self.rest
    }
}

impl<'a, T: Readable<'a, A, G>, A: Allocator + Copy, G: Grammar> Iterator for Members<'a, T, A, G> {
    type Item = Result<T, DecodeError>;

    ghost next_gives = { NextMember T.may_allocate T.format T.view (padded_of G.grammar) };

    ghost remaining = { λ it. at_most it.left };

    fn next(&mut self) -> Option<Result<T, DecodeError>> {
        if self.left == 0 {
            return None;
        }
        match T::read(self.rest, self.alloc) {
            Ok((member, rest)) => {
                self.left -= 1;
                self.rest = rest;
                Some(Ok(member))
            }
            Err(error) => {
                self.left = 0;
                Some(Err(error))
            }
        }
    }
}

impl<'a, T: Readable<'a, A, G>, A: Allocator + Copy, G: Grammar> FusedIterator
    for Members<'a, T, A, G> {}
