// Policies.
use picky_jose::JwtValidator;

/// When a text is in time: the validator of a token's claims, and the moment and the leeway in seconds
/// for a header text. A token is judged by the validator alone.
#[derive(Clone, Copy, Debug)]
pub struct Policy {
    pub validator: JwtValidator,
    pub now: Option<u64>,
    pub leeway: u64,
}
