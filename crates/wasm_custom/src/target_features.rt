// The target features section: its builder, its reader and its minimizer.
ghost use Rattle.std.specs.Prelude.{◌≡◌, [], ◌∷◌, ◌++◌, true, ⊤, ◌≢◌, IfOk, IfErr, Err, OnOk, OnErr, map};
ghost use Rattle.wasm_base.specs.Calls.{Adds, AddsTo};
ghost use Rattle.wasm_base.specs.Formats.{coded, fixed};
ghost use Rattle.wasm_base.specs.Continuing.{RejectsWhole};
ghost use Rattle.wasm_base.specs.Numbers.{padded_of};
ghost use Rattle.wasm_base.specs.Decoding.{Unambiguous};
ghost use Rattle.wasm_base.specs.Encodings.{size_prefixed_encoding, HasEncodableSize};
ghost use Rattle.wasm_custom.specs.TargetFeatures.{prefix_code, Feature, feature, feature_items, features_name, feature_view, features_payload};
ghost use Rattle.wasm_custom.specs.declared.target_features.FeaturePrefix.{FeaturePrefix as Prefix};
ghost use Rattle.wasm_base.specs.declared.refused.Refused.TheVariants.{TooLong};
ghost use Rattle.wasm_base.specs.Minimal.{AppendsMinimal, HasEncoding, both_grammars};
ghost use Rattle.wasm_base.specs.declared.fault.ReadFault.TheVariants.{Memory};

use crate::counted::{DecodesItems, ItemsAs, append_counted, read_counted};
use crate::entries::{CustomEntries, CustomKind};
use std::alloc::{Allocator, Global};
use wasm_base::{
    DecodeError, Encode, Grammar, Kind, Layout, Pieces, ReadFault, Readable, Result, Shorten, Store,
};

/// The target features section: the features that an object file uses, and those that it must not
/// be linked with.
///
/// ```rust
/// let mut features = TargetFeaturesSection::new(alloc);
/// features.feature(FeaturePrefix::Used, "bulk-memory")?;
/// module.section(&features)?;
/// ```
pub type TargetFeaturesSection<A = Global> = CustomEntries<FeatureItems, Pieces<A>>;

/// The kind of a target features section's items: features.
#[derive(Clone, Copy, Debug)]
pub struct FeatureItems;

/// The policy of an object file for a feature, which a linker enforces.
#[derive(Clone, Copy, PartialEq, Eq, Hash, Debug)]
pub enum FeaturePrefix {
    /// `+`: the object uses the feature, and the linked module must allow it.
    Used = 0x2B,
    /// `-`: the object does not use the feature, and the linked module must not use it.
    Disallowed = 0x2D,
    /// `=`: the object uses the feature, and all other objects must use it too. Older tools write
    /// it.
    Required = 0x3D,
}

/// Encodes the prefix as one byte.
impl Encode for FeaturePrefix {
    ghost encoding = { λ prefix. prefix_code prefix ∷ [] };

    ghost encodable = { λ _. ⊤ };

    fn encode<A: Allocator>(&self, sink: &mut Vec<u8, A>) -> Result<()> {
        (*self as u8).encode(sink)
    }
}

impl Kind for FeatureItems {
    ghost Record = { Feature };

    ghost Item = { Feature };

    ghost kind = { feature_items };

    #[tactic(auto, using(crate::proofs::FeatureLaws::feature_laws))]
    fn laws() {}
}

impl CustomKind for FeatureItems {
    ghost name = { features_name };

    ghost front = { [] };

    ghost front_format = { fixed [] (tt {0}) };

    ghost counted = { true };

    fn name() -> &'static str {
        "target_features"
    }

    fn front() -> &'static [u8] {
        &[]
    }

    fn counted() -> bool {
        true
    }

    #[tactic(auto, using(crate::proofs::FeatureLaws::feature_layout))]
    fn layout_laws() {}
}

impl<S: Store> CustomEntries<FeatureItems, S> {
    /// Adds a feature, such as `atomics` or `bulk-memory`.
    pub fn feature(&mut self, prefix: FeaturePrefix, name: &str) -> Result<()>
        ensures { AddsTo S.model (prefix_code prefix ∷ [] ++ size_prefixed_encoding name.now) (⊤ × HasEncodableSize name.now) self.old self.new result }
    {
        self.add_record(&(prefix, name))
    }
}

impl Layout for FeaturePrefix {
    ghost Value = { Prefix };

    ghost format = { coded prefix_code };

    ghost view = { λ prefix. prefix };

    #[tactic(auto, using(crate::proofs::FeatureLaws::prefix_unambiguous))]
    fn laws() {}
}

impl<'a, A: Allocator + Copy, G: Grammar> Readable<'a, A, G> for FeaturePrefix {
    ghost may_allocate = { ⊥ };

    #[tactic(auto, using(crate::proofs::FeatureLaws::prefix_steps))]
    fn read(bytes: &'a [u8], alloc: A) -> Result<(FeaturePrefix, &'a [u8]), DecodeError> {
        let (code, rest) = <u8 as Readable<'a, A, G>>::read(bytes, alloc)?;
        match code {
            0x2B => Ok((FeaturePrefix::Used, rest)),
            0x2D => Ok((FeaturePrefix::Disallowed, rest)),
            0x3D => Ok((FeaturePrefix::Required, rest)),
            _ => Err(ReadFault::UnknownTag.just_before(rest)),
        }
    }
}

impl Shorten for FeaturePrefix {
    ghost grammars = { both_grammars };

    #[tactic(auto, using(crate::proofs::FeatureLaws::prefix_appended))]
    fn write_minimal<B: Allocator>(&self, sink: &mut Vec<u8, B>) -> Result<()> {
        self.encode(sink)
    }
}

impl<'a> ItemsAs<(FeaturePrefix, &'a str)> for FeatureItems {
    ghost Said = { Feature };

    ghost format = { feature };

    ghost view = { feature_view };

    #[tactic(auto, using(crate::proofs::FeatureLaws::feature_unambiguous))]
    fn unique()
        ensures { Unambiguous feature }
    {}

    fn append_item<B: Allocator>(
        item: &(FeaturePrefix, &'a str),
        sink: &mut Vec<u8, B>,
    ) -> Result<()> {
        item.write_minimal(sink)
    }
}

impl<'a, A: Allocator + Copy, G: Grammar> DecodesItems<'a, (FeaturePrefix, &'a str), A, G>
    for FeatureItems {
    fn read_item(
        bytes: &'a [u8],
        alloc: A,
    ) -> Result<((FeaturePrefix, &'a str), &'a [u8]), DecodeError> {
        <(FeaturePrefix, &'a str) as Readable<'a, A, G>>::read(bytes, alloc)
    }
}

/// Decodes the payload of a target features section, in the grammar `G`: its features, each a
/// prefix and a name.
///
/// # Errors
///
/// Every error except `Memory` means that the bytes are not such a payload.
pub fn read_features<'a, A: Allocator + Copy, G: Grammar>(
    bytes: &'a [u8],
    alloc: A,
) -> Result<Vec<(FeaturePrefix, &'a str), A>, DecodeError>
    ensures found { IfOk result (λ x. features_payload (padded_of G.grammar) bytes.now (map feature_view x.items)) }
    ensures none { IfErr result (λ e. e.cause ≢ Memory → RejectsWhole features_payload (padded_of G.grammar) bytes.now) }
{
    read_counted::<'a, FeatureItems, (FeaturePrefix, &'a str), A, G>(bytes, alloc)
}

/// Appends the minimal encoding of the payload of a target features section of these features. On
/// an error, the sink is unchanged.
pub fn append_features<'a, B: Allocator>(
    features: &[(FeaturePrefix, &'a str)],
    sink: &mut Vec<u8, B>,
) -> Result<()>
    ensures ok { OnOk result (AppendsMinimal both_grammars features_payload (map feature_view features.now) sink.old.items sink.new.items) }
    ensures err { OnErr result (sink.new.items ≡ sink.old.items) }
    ensures too_long { HasEncoding both_grammars features_payload (map feature_view features.now) → result ≢ Err TooLong }
{
    append_counted::<FeatureItems, (FeaturePrefix, &'a str), _>(features, sink)
}
