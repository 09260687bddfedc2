// A comparison that looks at every byte.
ghost use Rattle.std.specs.Prelude.{◌≡◌, ◌↔◌, IsTrue};

/// Whether two slices hold the same bytes, for tags and other values that must not be told byte by byte.
///
/// Where the slices have one length, all bytes are looked at wherever they first differ; a length is no secret. No
/// clause says so: the loop shows it, which has no exit.
pub fn equal_bytes(a: &[u8], b: &[u8]) -> bool
    ensures { IsTrue result ↔ (a.now ≡ b.now) }
{
    if a.len() != b.len() {
        return false;
    }
    let mut differing = 0;
    for i in 0..a.len() {
        differing |= a[i] ^ b[i];
    }
    differing == 0
}
