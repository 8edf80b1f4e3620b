// The producers section: its builder, its reader and its minimizer.
ghost use Rattle.std.specs.Prelude.{None, ◌≡◌, ◌++◌, [], true, ⊤, ◌≢◌, IfOk, IfErr, Err, OnOk, OnErr, map};
ghost use Rattle.wasm_base.specs.Calls.{AddsTo};
ghost use Rattle.wasm_base.specs.Formats.{fixed};
ghost use Rattle.wasm_base.specs.Continuing.{RejectsWhole};
ghost use Rattle.wasm_base.specs.Numbers.{padded_of};
ghost use Rattle.wasm_base.specs.Decoding.{Unambiguous};
ghost use Rattle.wasm_base.specs.Encodings.{size_prefixed_encoding, HasEncodableSize};
ghost use Rattle.wasm_custom.specs.Lists.{list_encoding};
ghost use Rattle.wasm_custom.specs.Producers.{field_items, Producer, producer_encoding, IsProducer, Field, field, producers_name, field_view, producers_payload};
ghost use Rattle.wasm_base.specs.declared.refused.Refused.TheVariants.{TooLong};
ghost use Rattle.wasm_base.specs.Minimal.{AppendsMinimal, HasEncoding, both_grammars};
ghost use Rattle.wasm_base.specs.declared.fault.ReadFault.TheVariants.{Memory};

use crate::counted::{DecodesItems, ItemsAs, append_counted, read_counted};
use crate::entries::{CustomEntries, CustomKind};
use crate::lists::{CountedList, ListKind};
use std::alloc::{Allocator, Global};
use wasm_base::{DecodeError, Grammar, Kind, Lent, Pieces, Readable, Result, Shorten, Store};

/// The values of a producers field: the tools that produced the module, and their versions.
pub type ProducersField<A = Global> = CountedList<ValueMembers, Pieces<A>>;

/// The kind of a field's members: a name, and its version.
#[derive(Clone, Copy, Debug)]
pub struct ValueMembers;

impl ListKind for ValueMembers {
    ghost Member = { Producer };

    ghost member_encoding = { producer_encoding };

    ghost is_member = { IsProducer };

    ghost subsection = { None };

    fn subsection() -> Option<u8> {
        None
    }
}

impl<S: Store> CountedList<ValueMembers, S> {
    /// Adds a value.
    pub fn value(&mut self, name: &str, version: &str) -> Result<()>
        ensures { AddsTo S.model (size_prefixed_encoding name.now ++ size_prefixed_encoding version.now) (HasEncodableSize name.now × HasEncodableSize version.now) self.old self.new result }
    {
        self.add_record(&(name, version))
    }
}

/// The producers section: the languages and tools that produced the module.
///
/// ```rust
/// let mut field = ProducersField::new(alloc);
/// field.value("clang", "14.0.4")?;
/// let mut producers = ProducersSection::new(alloc);
/// producers.field("processed-by", &field)?;
/// module.section(&producers)?;
/// ```
pub type ProducersSection<A = Global> = CustomEntries<ProducerItems, Pieces<A>>;

/// The kind of a producers section's items: fields.
#[derive(Clone, Copy, Debug)]
pub struct ProducerItems;

impl Kind for ProducerItems {
    ghost Record = { Field };

    ghost Item = { Field };

    ghost kind = { field_items };

    #[tactic(auto, using(crate::proofs::ProducerLaws::producer_laws))]
    fn laws() {}
}

impl CustomKind for ProducerItems {
    ghost name = { producers_name };

    ghost front = { [] };

    ghost front_format = { fixed [] (tt {0}) };

    ghost counted = { true };

    fn name() -> &'static str {
        "producers"
    }

    fn front() -> &'static [u8] {
        &[]
    }

    fn counted() -> bool {
        true
    }

    #[tactic(auto, using(crate::proofs::ProducerLaws::producer_layout))]
    fn layout_laws() {}
}

impl<S: Store> CustomEntries<ProducerItems, S> {
    /// Adds a field, such as `language`, `processed-by` or `sdk`.
    pub fn field<T: Store>(
        &mut self,
        name: &str,
        values: &CountedList<ValueMembers, T>,
    ) -> Result<()>
        ensures { AddsTo S.model (size_prefixed_encoding name.now ++ list_encoding (T.model.joins values.now)) (HasEncodableSize name.now × ⊤) self.old self.new result }
    {
        self.add_record(&(name, Lent(values)))
    }
}

impl<'a, A: Allocator> ItemsAs<(&'a str, Vec<(&'a str, &'a str), A>)> for ProducerItems {
    ghost Said = { Field };

    ghost format = { field };

    ghost view = { field_view };

    #[tactic(auto, using(crate::proofs::ProducerLaws::field_unambiguous))]
    fn unique()
        ensures { Unambiguous field }
    {}

    fn append_item<B: Allocator>(
        item: &(&'a str, Vec<(&'a str, &'a str), A>),
        sink: &mut Vec<u8, B>,
    ) -> Result<()> {
        item.write_minimal(sink)
    }
}

impl<'a, A: Allocator + Copy + 'a, G: Grammar> DecodesItems<
    'a,
    (&'a str, Vec<(&'a str, &'a str), A>),
    A,
    G,
> for ProducerItems {
    fn read_item(
        bytes: &'a [u8],
        alloc: A,
    ) -> Result<((&'a str, Vec<(&'a str, &'a str), A>), &'a [u8]), DecodeError> {
        <(&'a str, Vec<(&'a str, &'a str), A>) as Readable<'a, A, G>>::read(bytes, alloc)
    }
}

/// Decodes the payload of a producers section, in the grammar `G`: its fields, each a name and its
/// values, which are a name and a version.
///
/// # Errors
///
/// Every error except `Memory` means that the bytes are not such a payload.
pub fn read_producers<'a, A: Allocator + Copy + 'a, G: Grammar>(
    bytes: &'a [u8],
    alloc: A,
) -> Result<Vec<(&'a str, Vec<(&'a str, &'a str), A>), A>, DecodeError>
    ensures found { IfOk result (λ x. producers_payload (padded_of G.grammar) bytes.now (map field_view x.items)) }
    ensures none { IfErr result (λ e. e.cause ≢ Memory → RejectsWhole producers_payload (padded_of G.grammar) bytes.now) }
{
    read_counted::<'a, ProducerItems, (&'a str, Vec<(&'a str, &'a str), A>), A, G>(bytes, alloc)
}

/// Appends the minimal encoding of the payload of a producers section of these fields. On an error,
/// the sink is unchanged.
pub fn append_producers<'a, A: Allocator, B: Allocator>(
    fields: &Vec<(&'a str, Vec<(&'a str, &'a str), A>), A>,
    sink: &mut Vec<u8, B>,
) -> Result<()>
    ensures ok { OnOk result (AppendsMinimal both_grammars producers_payload (map field_view fields.now.items) sink.old.items sink.new.items) }
    ensures err { OnErr result (sink.new.items ≡ sink.old.items) }
    ensures too_long { HasEncoding both_grammars producers_payload (map field_view fields.now.items) → result ≢ Err TooLong }
{
    append_counted::<ProducerItems, (&'a str, Vec<(&'a str, &'a str), A>), _>(fields, sink)
}
