// Tags.
ghost use Rattle.std.specs.Prelude.{◌≡◌, ◌↔◌, IsTrue, Some};
ghost use Rattle.std.specs.Option.{option_map};
ghost use Rattle.picky_asn1_tag.specs.Tag.{byte_of, class_of, encoding_of, number_of, components_of, class_text, encoding_text, name_of, tag_text, debug_text};
ghost use Rattle.picky_asn1_tag.specs.declared.tag.TagClass.TheVariants.{Universal, Application, ContextSpecific, Private};
ghost use Rattle.picky_asn1_tag.specs.declared.tag.Encoding.TheVariants.{Primitive, Constructed};

use crate::hex::HexByte;
use std::fmt;

/// Whether a value's contents are bytes or further values (X.690 section 8.1.2.5).
#[derive(Clone, Copy, Debug, PartialEq, Eq)]
pub enum Encoding {
    /// The contents are bytes.
    Primitive,
    /// The contents are values.
    Constructed,
}

impl fmt::Display for Encoding {
    ghost output = { λ e. Some (encoding_text e) };

    fn fmt<W: fmt::Write>(&self, f: &mut fmt::Formatter<W>) -> fmt::Result {
        f.write_str(match *self {
            Encoding::Primitive => "PRIMITIVE",
            Encoding::Constructed => "CONSTRUCTED",
        })
    }
}

/// The class of a tag (X.690 section 8.1.2.2, table 1).
#[derive(Clone, Copy, Debug, PartialEq, Eq)]
pub enum TagClass {
    /// Types of X.680 itself.
    Universal,
    /// Types of one application.
    Application,
    /// Types within one other type.
    ContextSpecific,
    /// Types of one enterprise.
    Private,
}

impl fmt::Display for TagClass {
    ghost output = { λ c. Some (class_text c) };

    fn fmt<W: fmt::Write>(&self, f: &mut fmt::Formatter<W>) -> fmt::Result {
        f.write_str(match *self {
            TagClass::Universal => "UNIVERSAL",
            TagClass::Application => "APPLICATION",
            TagClass::ContextSpecific => "CONTEXT_SPECIFIC",
            TagClass::Private => "PRIVATE",
        })
    }
}

/// One identifier octet: the class in the top two bits, then whether it is constructed, then the number.
#[derive(Clone, Copy, PartialEq, Eq, PartialOrd, Ord, Hash)]
pub struct Tag(pub u8);

impl Tag {
    /// BOOLEAN.
    pub const BOOLEAN: Tag = Tag(0x01);
    /// INTEGER.
    pub const INTEGER: Tag = Tag(0x02);
    /// BIT STRING.
    pub const BIT_STRING: Tag = Tag(0x03);
    /// OCTET STRING.
    pub const OCTET_STRING: Tag = Tag(0x04);
    /// NULL.
    pub const NULL: Tag = Tag(0x05);
    /// OBJECT IDENTIFIER.
    pub const OID: Tag = Tag(0x06);
    /// REAL.
    pub const REAL: Tag = Tag(0x09);
    /// UTF8String.
    pub const UTF8_STRING: Tag = Tag(0x0C);
    /// RELATIVE-OID.
    pub const RELATIVE_OID: Tag = Tag(0x0D);
    /// NumericString.
    pub const NUMERIC_STRING: Tag = Tag(0x12);
    /// PrintableString.
    pub const PRINTABLE_STRING: Tag = Tag(0x13);
    /// TeletexString.
    pub const TELETEX_STRING: Tag = Tag(0x14);
    /// VideotexString.
    pub const VIDEOTEX_STRING: Tag = Tag(0x15);
    /// IA5String.
    pub const IA5_STRING: Tag = Tag(0x16);
    /// UTCTime.
    pub const UTC_TIME: Tag = Tag(0x17);
    /// GeneralizedTime.
    pub const GENERALIZED_TIME: Tag = Tag(0x18);
    /// GeneralString.
    pub const GENERAL_STRING: Tag = Tag(0x1B);
    /// BMPString.
    pub const BMP_STRING: Tag = Tag(0x1E);
    /// SEQUENCE, constructed.
    pub const SEQUENCE: Tag = Tag(0x30);
    /// SET, constructed.
    pub const SET: Tag = Tag(0x31);

    /// The primitive tag of an application type with the low five bits of this number.
    pub fn application_primitive(number: u8) -> Tag
        ensures { result.0 ≡ byte_of Application Primitive number }
    {
        Tag(0x40 + number % 32)
    }

    /// The constructed tag of an application type with the low five bits of this number.
    pub fn application_constructed(number: u8) -> Tag
        ensures { result.0 ≡ byte_of Application Constructed number }
    {
        Tag(0x60 + number % 32)
    }

    /// The primitive tag within a type with the low five bits of this number.
    pub fn context_specific_primitive(number: u8) -> Tag
        ensures { result.0 ≡ byte_of ContextSpecific Primitive number }
    {
        Tag(0x80 + number % 32)
    }

    /// The constructed tag within a type with the low five bits of this number.
    pub fn context_specific_constructed(number: u8) -> Tag
        ensures { result.0 ≡ byte_of ContextSpecific Constructed number }
    {
        Tag(0xA0 + number % 32)
    }

    /// The byte.
    pub fn inner(self) -> u8
        ensures { result ≡ self.0 }
    {
        self.0
    }

    /// The number, 0 to 31; 31 stands for a number in further bytes, which no type here has.
    pub fn number(self) -> u8
        ensures { result ≡ number_of self.0 }
    {
        self.0 % 32
    }

    /// The class.
    pub fn class(self) -> TagClass
        ensures { result ≡ class_of self.0 }
    {
        match self.0 / 64 {
            0 => TagClass::Universal,
            1 => TagClass::Application,
            2 => TagClass::ContextSpecific,
            _ => TagClass::Private,
        }
    }

    /// Primitive or constructed.
    pub fn encoding(self) -> Encoding
        ensures { result ≡ encoding_of self.0 }
    {
        if self.0 / 32 % 2 == 1 {
            Encoding::Constructed
        } else {
            Encoding::Primitive
        }
    }

    /// Class and number.
    pub fn class_and_number(self) -> (TagClass, u8)
        ensures { result ≡ (class_of self.0, number_of self.0) }
    {
        (self.class(), self.number())
    }

    /// Class, encoding and number. They determine the byte (`laws::components_determine_tag`).
    pub fn components(self) -> (TagClass, Encoding, u8)
        ensures { result ≡ components_of self.0 }
    {
        (self.class(), self.encoding(), self.number())
    }

    /// Whether the class is application.
    pub fn is_application(self) -> bool
        ensures { IsTrue result ↔ (class_of self.0 ≡ Application) }
    {
        self.class() == TagClass::Application
    }

    /// Whether the class is context-specific.
    pub fn is_context_specific(self) -> bool
        ensures { IsTrue result ↔ (class_of self.0 ≡ ContextSpecific) }
    {
        self.class() == TagClass::ContextSpecific
    }

    /// Whether the class is universal.
    pub fn is_universal(self) -> bool
        ensures { IsTrue result ↔ (class_of self.0 ≡ Universal) }
    {
        self.class() == TagClass::Universal
    }

    /// Whether the class is private.
    pub fn is_private(self) -> bool
        ensures { IsTrue result ↔ (class_of self.0 ≡ Private) }
    {
        self.class() == TagClass::Private
    }

    /// Whether the contents are values.
    pub fn is_constructed(self) -> bool
        ensures { IsTrue result ↔ (encoding_of self.0 ≡ Constructed) }
    {
        self.encoding() == Encoding::Constructed
    }

    /// Whether the contents are bytes.
    pub fn is_primitive(self) -> bool
        ensures { IsTrue result ↔ (encoding_of self.0 ≡ Primitive) }
    {
        self.encoding() == Encoding::Primitive
    }

    /// The name of the universal type with this tag, if it is one of the constants.
    #[tactic(auto, unfolding(crate::specs::Tag::name_of))]
    fn name(self) -> Option<&'static str>
        ensures { option_map (λ s. s.now) result ≡ name_of self.0 }
    {
        match self.0 {
            0x01 => Some("BOOLEAN"),
            0x02 => Some("INTEGER"),
            0x03 => Some("BIT STRING"),
            0x04 => Some("OCTET STRING"),
            0x05 => Some("NULL"),
            0x06 => Some("OBJECT IDENTIFIER"),
            0x09 => Some("REAL"),
            0x0C => Some("UTF8String"),
            0x0D => Some("RELATIVE-OID"),
            0x12 => Some("NumericString"),
            0x13 => Some("PrintableString"),
            0x14 => Some("TeletexString"),
            0x15 => Some("VideotexString"),
            0x16 => Some("IA5String"),
            0x17 => Some("UTCTime"),
            0x18 => Some("GeneralizedTime"),
            0x1B => Some("GeneralString"),
            0x1E => Some("BMPString"),
            0x30 => Some("SEQUENCE"),
            0x31 => Some("SET"),
            _ => None,
        }
    }
}

impl From<u8> for Tag {
    ghost from_gives = { λ byte tag. tag.0 ≡ byte };

    fn from(byte: u8) -> Tag {
        Tag(byte)
    }
}

impl fmt::Display for Tag {
    ghost output = { λ t. Some (tag_text t.0) };

    #[tactic(auto, unfolding(crate::specs::Tag::tag_text))]
    fn fmt<W: fmt::Write>(&self, f: &mut fmt::Formatter<W>) -> fmt::Result {
        match self.name() {
            Some(name) => f.write_str(name),
            None => write!(
                f,
                "{}({}) {}",
                self.class(),
                HexByte(self.number()),
                self.encoding()
            ),
        }
    }
}

impl fmt::Debug for Tag {
    ghost debug_output = { λ t. Some (debug_text t.0) };

    fn fmt<W: fmt::Write>(&self, f: &mut fmt::Formatter<W>) -> fmt::Result {
        write!(f, "Tag({self}[{}])", HexByte(self.0))
    }
}
