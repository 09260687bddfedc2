//! What is proved of identifiers beside their calls.
ghost use Rattle.std.specs.Prelude.{◌≡◌, ◌↔◌, ℕ, List, IsTrue};
ghost use Rattle.picky_asn1_oid.specs.Arcs.{IsArcs, contents_of, text_of};

use crate::oid::ObjectIdentifier;

/// Identifiers are equal where their arcs are the same.
pub fn identifiers_compare(identifier: &ObjectIdentifier, other: &ObjectIdentifier)
    ensures { IsTrue (⟦<ObjectIdentifier as PartialEq>⟧.eq identifier.now other.now) ↔ (identifier.now ≡ other.now) }
{}

/// Contents octets are those of one identifier, and so is a text.
pub fn identifiers_are_determined()
    ensures contents { (arcs others : List ℕ) → IsArcs arcs → IsArcs others
        → contents_of arcs ≡ contents_of others → arcs ≡ others }
    ensures text { (arcs others : List ℕ) → IsArcs arcs → IsArcs others
        → text_of arcs ≡ text_of others → arcs ≡ others }
{}
