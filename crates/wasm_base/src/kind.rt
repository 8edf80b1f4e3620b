// The trait `Kind`: how the items of a section are encoded, and to which values they decode.
ghost use Rattle.wasm_base.specs.Entries.{Kind as KindOf, ItemLaws};

/// A kind of items, such as those of a counted section.
pub trait Kind {
    /// The argument of an adding call.
    ghost Record: { Type 0 };

    /// The value to which an entry decodes.
    ghost Item: { Type 0 };

    /// The encoding of a record, when the record is well-formed, the item that it then encodes, and
    /// the format of items.
    ghost kind: { KindOf Record Item };

    /// Proves that the format of items is unambiguous, and that a well-formed record encodes its
    /// item. The function does nothing.
    fn laws()
        ensures { ItemLaws kind };
}
