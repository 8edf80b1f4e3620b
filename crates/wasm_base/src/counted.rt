// Builders whose section is a count and that many entries.
ghost use Rattle.std.specs.Prelude.{◌≡◌, ℕ, List};
ghost use Rattle.wasm_base.specs.Calls.{Adds, AddsAll};
ghost use Rattle.wasm_base.specs.Pieces.{section_encoding};

use crate::refused::{Refused, Result};
use crate::sections::Section;

/// A builder of a counted section, to which items of type `T` are added one by one.
pub trait Counted<T>: Section {
    ghost use Rattle.wasm_base.specs.Pieces.{section_encoding};

    /// The encodings of its entries.
    ghost pieces: { Self → List (List ℕ) };

    /// `item_encoding`: the encoding of an item, which becomes one entry.
    ghost item_encoding: { T → List ℕ };

    /// `item_encodable`: every count and length in that encoding is representable.
    ghost item_encodable: { T → Type 0 };

    /// Adds an item as the last entry.
    ///
    /// # Errors
    ///
    /// Returns [`Refused`], and leaves the builder unchanged, if the item does not fit, the builder
    /// is full, or an allocation fails.
    fn add(&mut self, item: &T) -> Result<()>
        ensures { Adds (item_encoding item.now) (item_encodable item.now) (pieces self.old) (pieces self.new) result };

    /// Its encoding is the size prefix, the number of entries, and the entries.
    ghost counted: { (builder : Self) → Self.encoding builder ≡ section_encoding (pieces builder) };
}

/// Adds all items in order.
///
/// # Errors
///
/// Returns the cause and the number of items that were added before the first failing one. These
/// items stay in the builder.
pub fn add_all<T, B: Counted<T>>(builder: &mut B, items: &[T]) -> Result<(), (usize, Refused)>
    ensures { AddsAll B.item_encoding B.item_encodable items.now (B.pieces builder.old) (B.pieces builder.new) result }
{
    for (added, item) in items.iter().enumerate() {
        if let Err(refused) = builder.add(item) {
            return Err((added, refused));
        }
    }
    Ok(())
}
