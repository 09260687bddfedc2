// What a type gives that holds items of its own type.
ghost use Rattle.std.specs.Prelude.{◌≡◌, []};
ghost use Rattle.std.specs.Option.{option_copied};
ghost use Rattle.picky_der.specs.Form.{Writes};
ghost use Rattle.picky_levels.specs.Nests.{Nest, behind_at, other_at, items_in, FrontEncodes, FrontRefused, ReadsOn, WritesInto};
ghost use Rattle.picky_levels.specs.laws.Nests.{LawfulNest};

use picky_asn1_oid::ObjectIdentifier;
use picky_der::{DerError, DerReader};
use sqlite_items::Items;
use std::alloc::Global;

/// A record that holds either items of its own type, a SEQUENCE OF them in an explicit tag 0, or something else, as an OBJECT
/// IDENTIFIER in front tells, and fields behind. What `read_levels` and `write_levels` ask of it: nothing here calls itself.
pub trait DerNested: Sized {
    /// What the record is made of.
    ghost nest: { Nest Self };

    /// Whether this is the identifier of items.
    fn is_items(kind: &ObjectIdentifier) -> bool
        ensures { result ≡ nest.is_items kind.now };

    /// Reads what stands behind another identifier, to the last field, and stays wherever it is after a refusal.
    ///
    /// A refusal is the fault at the first bad place, or `OutOfMemory`.
    fn read_other(
        alloc: Global,
        kind: ObjectIdentifier,
        reader: &mut DerReader<'_>,
    ) -> Result<Self, DerError>
        ensures { ReadsOn (other_at nest kind) reader.old result reader.new };

    /// Reads what stands behind these items, to the last field, and stays wherever it is after a refusal.
    ///
    /// A refusal is the fault at the first bad place, or `OutOfMemory`.
    fn read_behind(
        alloc: Global,
        items: Items<Self>,
        reader: &mut DerReader<'_>,
    ) -> Result<Self, DerError>
        ensures { ReadsOn (behind_at nest items) reader.old result reader.new };

    /// The items, where it holds items.
    fn items(&self) -> Option<&[Self]>
        ensures { option_copied result ≡ items_in (nest.parts self.now).0 };

    /// Writes the identifier, and what stands behind it where this isn't items, into an empty vector, and leaves it anyhow after
    /// a refusal.
    ///
    /// `BadValue` where it has no encoding.
    fn write_front(&self, alloc: Global, out: &mut Vec<u8>) -> Result<(), DerError>
        requires { out.old.items ≡ [] }
        ensures { WritesInto (FrontEncodes nest (nest.parts self.now).0) (FrontRefused nest (nest.parts self.now).0) result out.new.items };

    /// Adds the fields behind at the end.
    ///
    /// `BadValue` where a field has no encoding; a refusal changes nothing.
    fn write_behind(&self, alloc: Global, out: &mut Vec<u8>) -> Result<(), DerError>
        ensures { Writes (λ s. nest.back.Encodes s (nest.parts self.now).1) (nest.back.Refused (nest.parts self.now).1) result out.old.items out.new.items };

    /// The laws of its parts.
    ghost lawful: { LawfulNest nest };
}
