// Rows over DER.
//
//     der              any type by its name: read, written, compared          (values.rt, which names the types)
//     der_default      a type with a default, left out as such                (defaults.rt)
//     der_type         a type's tag and name                                  (types.rt)
//     der_fault        the texts of faults                                    (faults.rt)
//     der_number, der_fields, der_text
//                      numbers and texts as they are, fields of a SEQUENCE    (fields.rt)
//     der_string, der_bits, der_oid, der_time
//                      simple wrappers made of their inner values             (simple.rt, times.rt)
//     der_integer, der_raw, der_algorithm
//                      values made of bytes                                   (made.rt)
//     der_list, der_tagged
//                      wrappers made of their inner values and changed        (wrapped.rt)
//     der_ten          a field of a type with a default of its own            (ten.rt)
//     der_record       records of fields                                      (records.rt)
//     der_long         inputs that are made here, of a count                  (long.rt)
mod defaults;
mod faults;
mod fields;
mod long;
mod made;
mod plain;
mod records;
mod simple;
mod ten;
mod times;
mod types;
mod values;
mod wrapped;

use anyhow::Result;
use rows::{Answer, Calls, Words};
use std::alloc::Global;

/// The calls of these notions.
pub struct DerCalls;

impl Calls for DerCalls {
    fn answer(alloc: Global, notion: &str, call: &str, words: &mut Words<'_>) -> Result<Answer> {
        match notion {
            "der" | "der_default" | "der_type" => values::answer(alloc, call, words),
            "der_number" | "der_text" => fields::plain(alloc, call, words),
            "der_fault" => faults::answer(alloc, call, words),
            "der_long" => long::answer(alloc, call, words),
            "der_record" => records::answer(alloc, call, words),
            "der_ten" => ten::answer(alloc, call, words),
            "der_fields" => fields::three(alloc, call, words),
            "der_string" => simple::string(alloc, call, words),
            "der_bits" => simple::bits(alloc, call, words),
            "der_oid" => simple::identifier(alloc, call, words),
            "der_time" => times::answer(alloc, call, words),
            "der_list" => wrapped::list(alloc, call, words),
            "der_tagged" => wrapped::tagged(alloc, call, words),
            _ => made::answer(alloc, notion, call, words),
        }
    }
}
