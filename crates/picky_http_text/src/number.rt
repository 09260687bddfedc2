// Numbers of a header text.
ghost use Rattle.picky_contract.specs.Refusals.{Finds};
ghost use Rattle.picky_http_text.specs.Numbers.{IsNumber};

/// The number that a text writes: an optional `+` and one or more decimal digits, with a value in `u64`;
/// `None` exactly where it writes none.
pub fn number_of(text: &str) -> Option<u64>
    ensures { Finds (λ n. n) (IsNumber text.now) result }
{
    match text.parse::<u64>() {
        Ok(n) => Some(n),
        Err(_) => None,
    }
}
