// The bags of a part of a store.
ghost use Rattle.std.specs.Prelude.{◌≡◌};
ghost use Rattle.picky_x509_safe_bags.specs.Kind.{bag_list};
ghost use Rattle.picky_x509_safe_bags.specs.Bag.{bag_within};
ghost use Rattle.picky_x509_safe_bags.specs.Levels.{ReadsLevels};

use crate::reading::read_list;
use crate::safe_bag::SafeBag;
use picky_asn1_wrapper::Asn1SequenceOf;
use picky_der::{DerError, DerReader};
use picky_x509_bags::SafeContentsInfo;
use std::alloc::Global;

/// Bags in order, SafeContents (RFC 7292 section 4.2).
pub type SafeContents = Asn1SequenceOf<SafeBag>;

/// A part of a store: bags, encrypted bags, or anything else (RFC 7292 section 4.1).
pub type SafeContentsContentInfo = SafeContentsInfo<SafeContents>;

/// The bags of the SEQUENCE that stands next, where bags are nested at most so many levels. None exactly where a bag stands
/// deeper and no bad place comes before it; with 0 levels, where the SEQUENCE has a further byte at the first bag's place.
///
/// A refusal is the fault at the first bad place, or `OutOfMemory`; it leaves the reader where it stood, and so does None.
pub fn read_contents_levels(
    alloc: Global,
    reader: &mut DerReader<'_>,
    levels: u32,
) -> Result<Option<SafeContents>, DerError>
    ensures { ReadsLevels (λ b. b) (λ deep. (bag_list (bag_within deep levels)).reading) reader.old result reader.new }
{
    match read_list(alloc, reader, levels)? {
        Some(bags) => Ok(Some(Asn1SequenceOf(bags))),
        None => Ok(None),
    }
}
