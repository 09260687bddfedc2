// Pairs of bytes as characters of the Basic Multilingual Plane.
ghost use Rattle.std.specs.Prelude.{◌≡◌, ◌↔◌, ◌/◌, ◌%◌, ◌<◌, ◌∷◌, length, IsTrue, IfSome, IfNone};
ghost use Rattle.picky_asn1_text.specs.Bmp.{IsBmp, IsBmpCharacter};

/// Whether the bytes are pairs of bytes of characters of the plane, the higher byte first.
pub fn is_bmp(bytes: &[u8]) -> bool
    ensures { IsTrue result ↔ IsBmp bytes.now }
{
    let mut left = bytes;
    while let Some((unit, rest)) = first_unit(left) {
        if !is_bmp_character(unit) {
            return false;
        }
        left = rest;
    }
    left.is_empty()
}

/// The number of the first two bytes, and the bytes after them.
pub fn first_unit(bytes: &[u8]) -> Option<(u16, &[u8])>
    ensures found { IfSome result (λ x. bytes.now ≡ x.0 / 0x100 ∷ x.0 % 0x100 ∷ x.1.now) }
    ensures none { IfNone result (length bytes.now < 2) }
{
    match bytes {
        [high, low, rest @ ..] => Some((u16::from_be_bytes([*high, *low]), rest)),
        _ => None,
    }
}

fn is_bmp_character(unit: u16) -> bool
    ensures { IsTrue result ↔ IsBmpCharacter unit }
{
    !matches!(unit, 0xD800..=0xDFFF)
}

/// The character of this number, which is in the plane.
pub fn character_of(unit: u16) -> char
    requires { IsBmpCharacter unit }
    ensures { result ≡ unit }
{
    char::from_u32(u32::from(unit)).unwrap()
}
