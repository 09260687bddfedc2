// Maps with texts as their keys, seen as finite maps.
ghost use Rattle.std.specs.Prelude.{◌≡◌, OnOk, OnErr, string_bytes};
ghost use Rattle.std.specs.Option.{option_copied};
ghost use Rattle.std.specs.FinMap as finite;
ghost use Rattle.picky_ring.specs.TextMap.{by_text};

use std::alloc::AllocError;
use std::collections::BTreeMap;

/// What stands under the text.
pub fn look_up<'a, X>(map: &'a BTreeMap<String, X>, name: &str) -> Option<&'a X>
    ensures { option_copied result ≡ finite.get (by_text map.now) name.now }
{
    map.get(name)
}

/// Puts the value under the text, in the place of what was there. After an Err all is as before.
pub fn put<X: Drop>(map: &mut BTreeMap<String, X>, name: String, value: X) -> Result<(), AllocError>
    ensures ok { OnOk result (by_text map.new ≡ finite.insert (by_text map.old) (string_bytes name) value) }
    ensures err { OnErr result (by_text map.new ≡ by_text map.old) }
{
    match map.insert(name, value) {
        Ok(_) => Ok(()),
        Err(_) => Err(AllocError),
    }
}
