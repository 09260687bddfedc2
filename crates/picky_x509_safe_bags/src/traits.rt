// Bags as DER.
ghost use Rattle.std.specs.Prelude.{◌≡◌};
ghost use Rattle.picky_der.specs.Reading.{Reads};
ghost use Rattle.picky_x509_safe_bags.specs.declared.safe_bag.SafeBag.{SafeBag as Bag};
ghost use Rattle.picky_x509_safe_bags.specs.Bag.{bag_within, safe_bag};
ghost use Rattle.picky_x509_safe_bags.specs.Levels.{ReadsLevels};
ghost use Rattle.picky_x509_safe_bags.specs.laws.Bag.{safe_bag_lawful};

use crate::reading::read_bag;
use crate::safe_bag::SafeBag;
use crate::writing::write_bag;
use picky_asn1_tag::{Asn1Value, CopyIn, Tag};
use picky_der::{DerError, DerForm, DerRead, DerReader, DerWrite};
use std::alloc::{AllocError, Global};

impl Asn1Value for SafeBag {
    ghost Meaning = { Bag };

    ghost meaning = { λ b. b };
}

impl CopyIn for SafeBag {
    fn copy_in(&self, alloc: Global) -> Result<SafeBag, AllocError> {
        self.clone(alloc)
    }
}

/// In form are bags, however deep, whose attributes are, and in which each `Unknown` has an identifier of no known kind.
impl DerForm for SafeBag {
    ghost Abstract = { Bag };

    ghost stands_for = { λ b. b };

    ghost form = { safe_bag };

    ghost same_value = { λ _ _ e. e };
}

// More levels than 256 nested readers reach: each nests three.
const ENOUGH_LEVELS: u32 = 86;

#[tactic(auto, unfolding(crate::specs::Bag::safe_bag))]
fn read_any(alloc: Global, reader: &mut DerReader<'_>) -> Result<SafeBag, DerError>
    ensures { Reads (λ b. b) safe_bag.reading reader.old result reader.new }
{
    read_bag(alloc, reader, ENOUGH_LEVELS)?.ok_or(DerError::TooDeep)
}

impl DerRead for SafeBag {
    #[tactic(auto, unfolding(crate::specs::Bag::safe_bag))]
    fn begins_with(tag: Tag) -> bool {
        tag == Tag::SEQUENCE
    }

    fn read_der(alloc: Global, reader: &mut DerReader<'_>) -> Result<SafeBag, DerError> {
        read_any(alloc, reader)
    }

    ghost readable = { safe_bag_lawful.readable };
}

impl DerWrite for SafeBag {
    fn write_der(&self, alloc: Global, out: &mut Vec<u8>) -> Result<(), DerError> {
        write_bag(alloc, self, out)
    }

    ghost writable = { safe_bag_lawful.writable };
}

impl SafeBag {
    /// The bag that stands next, where bags are nested at most so many levels: one that holds none has one. None exactly where a
    /// bag stands deeper and no bad place comes before it; a bag stands wherever a list of bags, or the reader, has a further
    /// byte at a bag's place, so that 0 levels admit none.
    ///
    /// A refusal is the fault at the first bad place, or `OutOfMemory`; it leaves the reader where it stood, and so does None.
    pub fn read_levels(
        alloc: Global,
        reader: &mut DerReader<'_>,
        levels: u32,
    ) -> Result<Option<SafeBag>, DerError>
        ensures { ReadsLevels (λ b. b) (λ deep. (bag_within deep levels).reading) reader.old result reader.new }
    {
        read_bag(alloc, reader, levels)
    }
}
