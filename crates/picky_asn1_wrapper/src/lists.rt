// SEQUENCE OF and SET OF.
ghost use Rattle.std.specs.Prelude.{◌≡◌, List, [], map, IfOk};
ghost use Rattle.std.specs.Cmp.Lexicographic.{pointwise, lists_per, lists_equiv};
ghost use Rattle.picky_asn1_wrapper.specs.Lists.{list_form, list_at};
ghost use Rattle.picky_asn1_wrapper.specs.laws.Equal.{one_default_list, lists_same_value};
ghost use Rattle.picky_asn1_wrapper.specs.laws.Lists.{list_readable, list_writable, list_tagged};
ghost use Rattle.std.proofs.Common.{arith};

use crate::items::{copy_items, read_items, write_items};
use picky_asn1_tag::{Asn1Type, Asn1Value, CopyIn, Empty, Tag};
use picky_der::{DerError, DerForm, DerRead, DerReader, DerTagged, DerWrite, write_value};
use std::alloc::{AllocError, Global};
use std::marker::Model;
use std::ops::{Deref, DerefMut};

/// A SEQUENCE OF: values of one type in order (X.690 section 8.10). Contracts see it as their list.
#[derive(Debug, Drop)]
pub struct Asn1SequenceOf<T>(pub Vec<T>);

impl<T> Model for Asn1SequenceOf<T> {
    ghost use Rattle.std.specs.Prelude.{List};
    ghost use Rattle.std.specs.Coded.{coded_list};

    ghost Value = { List T };

    ghost coded = { coded_list T.code };

    ghost view = { λ s. s.0.items };
}

impl<T> Asn1Type for Asn1SequenceOf<T> {
    ghost TAG = { record { 0 = 48 } };

    const TAG: Tag = Tag::SEQUENCE;

    const NAME: &'static str = "Asn1SequenceOf";

    ghost one_byte = { λ h. absurd (Prim.omega arith) };
}

impl<T> From<Vec<T>> for Asn1SequenceOf<T> {
    ghost from_gives = { λ items list. list ≡ items.items };

    fn from(items: Vec<T>) -> Asn1SequenceOf<T> {
        Asn1SequenceOf(items)
    }
}

impl<T> From<Asn1SequenceOf<T>> for Vec<T> {
    ghost from_gives = { λ list items. items.items ≡ list };

    fn from(list: Asn1SequenceOf<T>) -> Vec<T> {
        let Asn1SequenceOf(items) = list;
        items
    }
}

impl<T> Deref for Asn1SequenceOf<T> {
    type Target = Vec<T>;

    ghost deref_gives = { λ list items. items.items ≡ list };

    fn deref(&self) -> &Vec<T> {
        &self.0
    }
}

impl<T> DerefMut for Asn1SequenceOf<T> {
    ghost use Rattle.std.specs.Prelude.{◌≡◌};
    ghost use Rattle.std.specs.Borrow.{Lends, sem};
    ghost use Rattle.picky_asn1_wrapper.specs.Rows.{items_row};
    ghost use Rattle.picky_asn1_wrapper.specs.contracts.lists.Asn1SequenceOf.{the_row};

    ghost deref_mut_gives = { λ list items. items.items ≡ list };

    /// The vector, to be changed in place.
    fn deref_mut(&mut self) -> &mut Vec<T>
        ensures* writes_back { sem 𝓛 (Lends (the_row T.row) (items_row T.row) self.entry result (λ items. items.items)) }
        ensures shows { result.now.items ≡ self.old }
    {
        &mut self.0
    }
}

/// Lists are equal where they are as long, and each item equals that at its place.
impl<T: PartialEq> PartialEq for Asn1SequenceOf<T> {
    ghost eq = { pointwise T.eq };

    ghost laws = { lists_per T.laws };

    fn eq(&self, other: &Asn1SequenceOf<T>) -> bool {
        self.0 == other.0
    }
}

impl<T: Eq> Eq for Asn1SequenceOf<T> {
    ghost laws = { lists_equiv T.Eq.laws };
}

impl<T: Asn1Value> Asn1Value for Asn1SequenceOf<T> {
    ghost Meaning = { List T.Meaning };

    ghost meaning = { λ list. map T.meaning list };
}

/// No items.
impl<T: Asn1Value> Empty for Asn1SequenceOf<T> {
    ghost IsDefault = { λ list. list ≡ [] };

    fn empty(alloc: Global) -> Result<Asn1SequenceOf<T>, AllocError> {
        Ok(Asn1SequenceOf(Vec::new(alloc)))
    }

    ghost one_default = { one_default_list T.meaning };
}

impl<T: CopyIn + Drop> Asn1SequenceOf<T> {
    /// A copy, in memory of its own: its items mean the same, one after another.
    pub fn clone(&self, alloc: Global) -> Result<Asn1SequenceOf<T>, AllocError>
        ensures { IfOk result (λ copy. map T.meaning copy ≡ map T.meaning self.now) }
    {
        Ok(Asn1SequenceOf(copy_items(alloc, &self.0)?))
    }
}

impl<T: CopyIn + Drop> CopyIn for Asn1SequenceOf<T> {
    fn copy_in(&self, alloc: Global) -> Result<Asn1SequenceOf<T>, AllocError> {
        self.clone(alloc)
    }
}

impl<T: DerForm> DerForm for Asn1SequenceOf<T> {
    ghost Abstract = { List T.Abstract };

    ghost stands_for = { λ s. map T.stands_for s };

    ghost form = { list_form (record { 0 = 48 }) T.form };

    ghost same_value = { lists_same_value T.meaning T.stands_for T.same_value };
}

impl<T: DerRead + Drop> DerRead for Asn1SequenceOf<T> {
    fn begins_with(tag: Tag) -> bool {
        tag == Tag::SEQUENCE
    }

    #[tactic(auto, unfolding(crate::specs::Lists::list_at))]
    fn read_der(alloc: Global, reader: &mut DerReader<'_>) -> Result<Asn1SequenceOf<T>, DerError> {
        let mut ahead = reader.fork();
        let mut inner = ahead.nested(Tag::SEQUENCE)?;
        let items = read_items(alloc, &mut inner)?;
        *reader = ahead;
        Ok(Asn1SequenceOf(items))
    }

    ghost readable = { list_readable T.form T.readable (record { 0 = 48 }) };
}

impl<T: DerWrite> DerWrite for Asn1SequenceOf<T> {
    fn write_der(&self, alloc: Global, out: &mut Vec<u8>) -> Result<(), DerError> {
        let mut contents = Vec::new(alloc);
        write_items(alloc, &self.0, &mut contents)?;
        write_value(out, Tag::SEQUENCE, &contents)
    }

    ghost writable = { list_writable T.form T.writable (record { 0 = 48 }) (λ h. absurd (Prim.omega arith)) };
}

impl<T: DerRead + DerWrite + Drop> DerTagged for Asn1SequenceOf<T> {
    ghost tagged = { list_tagged T.form (record { 0 = 48 }) };
}

/// A SET OF: values of one type, in the order in which they stand (X.690 section 8.12). Contracts see it as their list.
#[derive(Debug, Drop)]
pub struct Asn1SetOf<T>(pub Vec<T>);

impl<T> Model for Asn1SetOf<T> {
    ghost use Rattle.std.specs.Prelude.{List};
    ghost use Rattle.std.specs.Coded.{coded_list};

    ghost Value = { List T };

    ghost coded = { coded_list T.code };

    ghost view = { λ s. s.0.items };
}

impl<T> Asn1Type for Asn1SetOf<T> {
    ghost TAG = { record { 0 = 49 } };

    const TAG: Tag = Tag::SET;

    const NAME: &'static str = "Asn1SetOf";

    ghost one_byte = { λ h. absurd (Prim.omega arith) };
}

impl<T> From<Vec<T>> for Asn1SetOf<T> {
    ghost from_gives = { λ items list. list ≡ items.items };

    fn from(items: Vec<T>) -> Asn1SetOf<T> {
        Asn1SetOf(items)
    }
}

impl<T> From<Asn1SetOf<T>> for Vec<T> {
    ghost from_gives = { λ list items. items.items ≡ list };

    fn from(list: Asn1SetOf<T>) -> Vec<T> {
        let Asn1SetOf(items) = list;
        items
    }
}

impl<T> Deref for Asn1SetOf<T> {
    type Target = Vec<T>;

    ghost deref_gives = { λ list items. items.items ≡ list };

    fn deref(&self) -> &Vec<T> {
        &self.0
    }
}

impl<T> DerefMut for Asn1SetOf<T> {
    ghost use Rattle.std.specs.Prelude.{◌≡◌};
    ghost use Rattle.std.specs.Borrow.{Lends, sem};
    ghost use Rattle.picky_asn1_wrapper.specs.Rows.{items_row};
    ghost use Rattle.picky_asn1_wrapper.specs.contracts.lists.Asn1SetOf.{the_row};

    ghost deref_mut_gives = { λ list items. items.items ≡ list };

    /// The vector, to be changed in place.
    fn deref_mut(&mut self) -> &mut Vec<T>
        ensures* writes_back { sem 𝓛 (Lends (the_row T.row) (items_row T.row) self.entry result (λ items. items.items)) }
        ensures shows { result.now.items ≡ self.old }
    {
        &mut self.0
    }
}

/// Lists are equal where they are as long, and each item equals that at its place.
impl<T: PartialEq> PartialEq for Asn1SetOf<T> {
    ghost eq = { pointwise T.eq };

    ghost laws = { lists_per T.laws };

    fn eq(&self, other: &Asn1SetOf<T>) -> bool {
        self.0 == other.0
    }
}

impl<T: Eq> Eq for Asn1SetOf<T> {
    ghost laws = { lists_equiv T.Eq.laws };
}

impl<T: Asn1Value> Asn1Value for Asn1SetOf<T> {
    ghost Meaning = { List T.Meaning };

    ghost meaning = { λ list. map T.meaning list };
}

/// No items.
impl<T: Asn1Value> Empty for Asn1SetOf<T> {
    ghost IsDefault = { λ list. list ≡ [] };

    fn empty(alloc: Global) -> Result<Asn1SetOf<T>, AllocError> {
        Ok(Asn1SetOf(Vec::new(alloc)))
    }

    ghost one_default = { one_default_list T.meaning };
}

impl<T: CopyIn + Drop> Asn1SetOf<T> {
    /// A copy, in memory of its own: its items mean the same, one after another.
    pub fn clone(&self, alloc: Global) -> Result<Asn1SetOf<T>, AllocError>
        ensures { IfOk result (λ copy. map T.meaning copy ≡ map T.meaning self.now) }
    {
        Ok(Asn1SetOf(copy_items(alloc, &self.0)?))
    }
}

impl<T: CopyIn + Drop> CopyIn for Asn1SetOf<T> {
    fn copy_in(&self, alloc: Global) -> Result<Asn1SetOf<T>, AllocError> {
        self.clone(alloc)
    }
}

impl<T: DerForm> DerForm for Asn1SetOf<T> {
    ghost Abstract = { List T.Abstract };

    ghost stands_for = { λ s. map T.stands_for s };

    ghost form = { list_form (record { 0 = 49 }) T.form };

    ghost same_value = { lists_same_value T.meaning T.stands_for T.same_value };
}

impl<T: DerRead + Drop> DerRead for Asn1SetOf<T> {
    fn begins_with(tag: Tag) -> bool {
        tag == Tag::SET
    }

    #[tactic(auto, unfolding(crate::specs::Lists::list_at))]
    fn read_der(alloc: Global, reader: &mut DerReader<'_>) -> Result<Asn1SetOf<T>, DerError> {
        let mut ahead = reader.fork();
        let mut inner = ahead.nested(Tag::SET)?;
        let items = read_items(alloc, &mut inner)?;
        *reader = ahead;
        Ok(Asn1SetOf(items))
    }

    ghost readable = { list_readable T.form T.readable (record { 0 = 49 }) };
}

impl<T: DerWrite> DerWrite for Asn1SetOf<T> {
    fn write_der(&self, alloc: Global, out: &mut Vec<u8>) -> Result<(), DerError> {
        let mut contents = Vec::new(alloc);
        write_items(alloc, &self.0, &mut contents)?;
        write_value(out, Tag::SET, &contents)
    }

    ghost writable = { list_writable T.form T.writable (record { 0 = 49 }) (λ h. absurd (Prim.omega arith)) };
}

impl<T: DerRead + DerWrite + Drop> DerTagged for Asn1SetOf<T> {
    ghost tagged = { list_tagged T.form (record { 0 = 49 }) };
}
