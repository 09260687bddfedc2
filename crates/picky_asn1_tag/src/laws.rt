//! What is proved of tags beside their calls.
ghost use Rattle.std.specs.Prelude.{◌≡◌, ◌↔◌, IsTrue};
ghost use Rattle.std.specs.declared.cmp.Ordering.TheVariants.{Equal};
ghost use Rattle.picky_asn1_tag.specs.Tag.{byte_of, class_of, encoding_of, number_of, components_of};

use crate::tag::{Encoding, Tag, TagClass};
use std::hash::Hash;

/// Class, encoding and number determine the byte: it is the byte of its parts, and two tags with the same parts are one.
pub fn components_determine_tag(tag: Tag, other: Tag)
    ensures byte { tag.0 ≡ byte_of (class_of tag.0) (encoding_of tag.0) (number_of tag.0) }
    ensures one { components_of tag.0 ≡ components_of other.0 → tag ≡ other }
{}

/// Tags are equal where they are the same. Equal ones hash equally, and order and equality agree.
pub fn tags_compare(tag: Tag, other: Tag)
    ensures same { IsTrue (⟦<Tag as PartialEq>⟧.eq tag other) ↔ (tag ≡ other) }
    ensures hash { IsTrue (⟦<Tag as PartialEq>⟧.eq tag other) → ⟦<Tag as Hash>⟧.hash_input tag ≡ ⟦<Tag as Hash>⟧.hash_input other }
    ensures order { IsTrue (⟦<Tag as PartialEq>⟧.eq tag other) ↔ (⟦<Tag as Ord>⟧.cmp tag other ≡ Equal) }
{}

/// Classes are equal where they are the same.
pub fn classes_compare(class: TagClass, other: TagClass)
    ensures { IsTrue (⟦<TagClass as PartialEq>⟧.eq class other) ↔ (class ≡ other) }
{}

/// Encodings are equal where they are the same.
pub fn encodings_compare(encoding: Encoding, other: Encoding)
    ensures { IsTrue (⟦<Encoding as PartialEq>⟧.eq encoding other) ↔ (encoding ≡ other) }
{}
