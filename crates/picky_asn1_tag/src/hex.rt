// Bytes in hexadecimal.
ghost use Rattle.std.specs.Prelude.{◌≡◌, ◌<◌, ◌∷◌, [], Some};
ghost use Rattle.std.specs.Fmt.{WritesOnOk};
ghost use Rattle.picky_asn1_tag.specs.Hex.{digit_of, hex_byte, hex_bytes, hex_text};

use std::fmt;

// A byte that prints as two hexadecimal digits in upper case.
#[derive(Clone, Copy)]
pub(crate) struct HexByte(pub(crate) u8);

impl fmt::Display for HexByte {
    ghost output = { λ h. Some (hex_byte h.0) };

    fn fmt<W: fmt::Write>(&self, f: &mut fmt::Formatter<W>) -> fmt::Result {
        f.write_str(digit(self.0 / 16))?;
        f.write_str(digit(self.0 % 16))
    }
}

/// Bytes that print as `0x` and two hexadecimal digits a byte, in upper case.
#[derive(Clone, Copy, Debug)]
pub struct HexBytes<'a>(pub &'a [u8]);

impl fmt::Display for HexBytes<'_> {
    ghost output = { λ h. Some (hex_text h.0.now) };

    fn fmt<W: fmt::Write>(&self, f: &mut fmt::Formatter<W>) -> fmt::Result {
        f.write_str("0x")?;
        write_digits(self.0, f)
    }
}

fn write_digits<W: fmt::Write>(bytes: &[u8], f: &mut fmt::Formatter<W>) -> fmt::Result
    ensures { WritesOnOk W.write_str_gives f.old result (hex_bytes bytes.now) f.new }
{
    for byte in bytes {
        write!(f, "{}", HexByte(*byte))?;
    }
    Ok(())
}

fn digit(number: u8) -> &'static str
    requires { number < 16 }
    ensures { result.now ≡ digit_of number ∷ [] }
{
    match number {
        0 => "0",
        1 => "1",
        2 => "2",
        3 => "3",
        4 => "4",
        5 => "5",
        6 => "6",
        7 => "7",
        8 => "8",
        9 => "9",
        10 => "A",
        11 => "B",
        12 => "C",
        13 => "D",
        14 => "E",
        _ => "F",
    }
}
