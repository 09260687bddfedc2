//! What is proved of attributes beside their calls.
ghost use Rattle.std.specs.Prelude.{ℕ, List, ◌<◌, ◌^◌, length};
ghost use Rattle.picky_asn1_text.specs.Bmp.{IsBmp};
ghost use Rattle.picky_x509_bags.specs.declared.attribute.Pkcs12Attribute.TheVariants.{FriendlyName, LocalKeyId};
ghost use Rattle.picky_x509_bags.specs.Attribute.{attribute};

/// Each friendly name that fits a value is in form, so that it is read back as itself.
#[tactic(auto, using(crate::specs::laws::Attribute::name_formed))]
pub fn friendly_names_are_in_form()
    ensures { (name : List ℕ) → IsBmp name → length name < 2 ^ 64 → attribute.in_form (FriendlyName name) }
{}

/// Each local key id that fits a value is in form.
#[tactic(auto, using(crate::specs::laws::Attribute::id_formed))]
pub fn local_key_ids_are_in_form()
    ensures { (id : List ℕ) → length id < 2 ^ 64 → attribute.in_form (LocalKeyId id) }
{}
