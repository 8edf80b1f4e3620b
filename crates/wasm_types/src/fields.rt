// Decoding of storage and field types.
ghost use Rattle.std.specs.Prelude.{Bool};
ghost use Rattle.wasm_base.specs.Formats.{coded};
ghost use Rattle.wasm_types.specs.RecTypes.{mutable_code, storage_type, field_type};
ghost use Rattle.wasm_types.specs.declared.types.FieldType.{FieldType as Field};
ghost use Rattle.wasm_types.specs.declared.types.StorageType.{StorageType as Storage};

use crate::types::{FieldType, StorageType};
use std::alloc::Allocator;
use wasm_base::{DecodeError, Grammar, Layout, ReadFault, Readable, ValType};

/// The mutability of a field.
#[derive(Clone, Copy)]
pub(crate) struct Mutable(pub(crate) bool);

impl Layout for Mutable {
    ghost Value = { Bool };

    ghost format = { coded mutable_code };

    ghost view = { λ m. m.0 };

    #[tactic(auto, using(crate::proofs::TypeLaws::mutable_unambiguous))]
    fn laws() {}
}

impl<'a, A: Allocator + Copy, G: Grammar> Readable<'a, A, G> for Mutable {
    ghost may_allocate = { ⊥ };

    #[tactic(auto, using(crate::proofs::DecodeFields::mutable_steps))]
    fn read(bytes: &'a [u8], alloc: A) -> Result<(Mutable, &'a [u8]), DecodeError> {
        let (code, rest) = <u8 as Readable<'a, A, G>>::read(bytes, alloc)?;
        match code {
            0x00 => Ok((Mutable(false), rest)),
            0x01 => Ok((Mutable(true), rest)),
            _ => Err(ReadFault::UnknownTag.at(bytes)),
        }
    }
}

impl Layout for StorageType {
    ghost Value = { Storage };

    ghost format = { storage_type };

    ghost view = { λ ty. ty };

    #[tactic(auto, using(crate::proofs::TypeLaws::storage_unambiguous))]
    fn laws() {}
}

impl<'a, A: Allocator + Copy, G: Grammar> Readable<'a, A, G> for StorageType {
    ghost may_allocate = { ⊥ };

    #[tactic(auto, using(crate::proofs::DecodeFields::storage_steps))]
    fn read(bytes: &'a [u8], alloc: A) -> Result<(StorageType, &'a [u8]), DecodeError> {
        let (tag, rest) = <u8 as Readable<'a, A, G>>::read(bytes, alloc)?;
        match tag {
            0x78 => Ok((StorageType::I8, rest)),
            0x77 => Ok((StorageType::I16, rest)),
            _ => {
                let (ty, rest) = <ValType as Readable<'a, A, G>>::read(bytes, alloc)?;
                Ok((StorageType::Val(ty), rest))
            }
        }
    }
}

impl Layout for FieldType {
    ghost Value = { Field };

    ghost format = { field_type };

    ghost view = { λ field. field };

    #[tactic(auto, using(crate::proofs::TypeLaws::field_unambiguous))]
    fn laws() {}
}

impl<'a, A: Allocator + Copy, G: Grammar> Readable<'a, A, G> for FieldType {
    ghost may_allocate = { ⊥ };

    #[tactic(auto, using(crate::proofs::DecodeFields::field_steps))]
    fn read(bytes: &'a [u8], alloc: A) -> Result<(FieldType, &'a [u8]), DecodeError> {
        let ((element_type, Mutable(mutable)), rest) = <(StorageType, Mutable) as Readable<
            'a,
            A,
            G,
        >>::read(bytes, alloc)?;
        let field = FieldType {
            element_type,
            mutable,
        };
        Ok((field, rest))
    }
}
