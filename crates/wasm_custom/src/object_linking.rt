// The linking section of an object file, which has subsections of all kinds: its builder.
ghost use Rattle.std.specs.Prelude.{◌∷◌, [], false, ⊤};
ghost use Rattle.wasm_base.specs.Calls.{AddsTo};
ghost use Rattle.wasm_base.specs.Encodings.{size_prefixed_encoding, HasEncodableSize};
ghost use Rattle.wasm_base.specs.Formats.{u32 as u32_format, just};
ghost use Rattle.wasm_custom.specs.Customs.{subsection_encoding};
ghost use Rattle.wasm_custom.specs.Linking.{object_items, LinkItem as LinkModel, linking_name, version};
ghost use Rattle.wasm_custom.specs.Lists.{list_encoding};

use crate::comdats::ComdatMembers;
use crate::entries::{CustomEntries, CustomKind};
use crate::init_functions::InitMembers;
use crate::lists::CountedList;
use crate::object_symbols::ObjectSymbolMembers;
use crate::segments::SegmentMembers;
use crate::subsections::Subsection;
use std::alloc::Global;
use wasm_base::{Kind, Pieces, Result, Store};

/// The linking section of an object file, in version 2 of the format: symbols of all kinds,
/// segments, init functions, COMDAT groups and the target. Each call adds a subsection, and `new`
/// allocates nothing.
///
/// The bytes decode in the format of the tool conventions, which is that of linking sections in the
/// grammar `Standard`. Those of a `LinkingSection` decode in the builders' grammar too.
///
/// ```rust
/// let mut symbols = ObjectSymbols::new(alloc);
/// symbols.section(SymbolTable::WASM_SYM_BINDING_LOCAL, 8)?;
/// let mut segments = SegmentInfos::new(alloc);
/// segments.segment(".rodata.greeting", 0, 0)?;
/// let mut linking = ObjectLinking::new(alloc);
/// linking.symbol_table(&symbols)?;
/// linking.segments(&segments)?;
/// module.section(&linking)?;
/// ```
pub type ObjectLinking<A = Global> = CustomEntries<ObjectLinkingItems, Pieces<A>>;

/// The kind of the items of an object file's linking section: subsections.
#[derive(Clone, Copy, Debug)]
pub struct ObjectLinkingItems;

impl Kind for ObjectLinkingItems {
    ghost Record = { LinkModel };

    ghost Item = { LinkModel };

    ghost kind = { object_items };

    #[tactic(auto, using(crate::proofs::LinkLaws::object_laws))]
    fn laws() {}
}

impl CustomKind for ObjectLinkingItems {
    ghost name = { linking_name };

    ghost front = { version ∷ [] };

    ghost front_format = { just version u32_format };

    ghost counted = { false };

    fn name() -> &'static str {
        "linking"
    }

    fn front() -> &'static [u8] {
        &[2]
    }

    fn counted() -> bool {
        false
    }

    #[tactic(auto, using(crate::proofs::LinkLaws::object_layout))]
    fn layout_laws() {}
}

impl<S: Store> CustomEntries<ObjectLinkingItems, S> {
    /// Adds the segments.
    pub fn segments<T: Store>(&mut self, segments: &CountedList<SegmentMembers, T>) -> Result<()>
        ensures { AddsTo S.model (subsection_encoding 5 (list_encoding (T.model.joins segments.now))) (HasEncodableSize (list_encoding (T.model.joins segments.now)) × ⊤) self.old self.new result }
    {
        self.add_record(segments)
    }

    /// Adds the init functions.
    pub fn init_functions<T: Store>(
        &mut self,
        functions: &CountedList<InitMembers, T>,
    ) -> Result<()>
        ensures { AddsTo S.model (subsection_encoding 6 (list_encoding (T.model.joins functions.now))) (HasEncodableSize (list_encoding (T.model.joins functions.now)) × ⊤) self.old self.new result }
    {
        self.add_record(functions)
    }

    /// Adds the COMDAT groups.
    pub fn comdats<T: Store>(&mut self, comdats: &CountedList<ComdatMembers, T>) -> Result<()>
        ensures { AddsTo S.model (subsection_encoding 7 (list_encoding (T.model.joins comdats.now))) (HasEncodableSize (list_encoding (T.model.joins comdats.now)) × ⊤) self.old self.new result }
    {
        self.add_record(comdats)
    }

    /// Adds the symbols.
    pub fn symbol_table<T: Store>(
        &mut self,
        symbols: &CountedList<ObjectSymbolMembers, T>,
    ) -> Result<()>
        ensures { AddsTo S.model (subsection_encoding 8 (list_encoding (T.model.joins symbols.now))) (HasEncodableSize (list_encoding (T.model.joins symbols.now)) × ⊤) self.old self.new result }
    {
        self.add_record(symbols)
    }

    /// Adds the architecture of the target, which is not in the tool conventions.
    pub fn target_arch(&mut self, name: &str) -> Result<()>
        ensures { AddsTo S.model (subsection_encoding 9 (size_prefixed_encoding name.now)) (HasEncodableSize (size_prefixed_encoding name.now) × HasEncodableSize name.now) self.old self.new result }
    {
        self.add_record(&Subsection {
            id: 9,
            content: &name,
        })
    }
}
