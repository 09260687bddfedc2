// Signed tokens that are made: the token, or the refusal as it is. PKCS8 is the private key in hex, HEADER, VALUE and CLAIMS are JSON
// without spaces, PAYLOAD is in hex, RECORDS are the provider's, with `\n` for LF.
//
//     token.jws PKCS8 HEADER NAME VALUE PAYLOAD RECORDS      `Jws::encode` of a `Jws` of this header, which has an additional member of NAME
//                                                            and VALUE more; NAME `-` is none
//     token.jwt PKCS8 HEADER NAME VALUE PAYLOAD RECORDS      the same by `JwtSig::encode`
//     claims.new PKCS8 HEADER CLAIMS RECORDS                 `CheckedJwtSig::encode` of what `CheckedJwtSig::new` makes of the header's algorithm,
//                                                            with its `kid`
//     claims.with_cty PKCS8 HEADER CLAIMS RECORDS            the same of `new_with_cty`, with its `cty`
//     claims.with_header PKCS8 HEADER CLAIMS RECORDS         the same of `Jwt::new_with_header`, with the header as it is
//     claims.deeper PKCS8 HEADER CLAIMS RECORDS              the same of claims that are a list of CLAIMS
use crate::keys::{private_of, records_of};
use crate::shown::{Text, both, found, kept, told};
use anyhow::{Result, bail};
use picky_jose::{CheckedJwtSig, Jws, JwsHeader, Jwt, JwtSig};
use picky_json::parse;
use picky_key::PrivateKey;
use picky_records::Recorded;
use rows::{Answer, Words};
use serde_json::Value;
use std::alloc::Global;
use std::mem::swap;

// What a provider signs, as a token.
trait Encodes {
    fn encoded(self, alloc: Global, records: &Recorded, key: &PrivateKey) -> Result<Answer>;
}

impl Encodes for Jws {
    fn encoded(self, alloc: Global, records: &Recorded, key: &PrivateKey) -> Result<Answer> {
        let text = self.encode(alloc, records, key);
        drop(self);
        told::<Text, _, _>(alloc, text)
    }
}

impl Encodes for JwtSig {
    fn encoded(self, alloc: Global, records: &Recorded, key: &PrivateKey) -> Result<Answer> {
        told::<Text, _, _>(alloc, self.encode(alloc, records, key))
    }
}

impl Encodes for CheckedJwtSig<Value> {
    fn encoded(self, alloc: Global, records: &Recorded, key: &PrivateKey) -> Result<Answer> {
        told::<Text, _, _>(alloc, self.encode(alloc, records, key))
    }
}

pub(crate) fn answer(alloc: Global, call: &str, words: &mut Words<'_>) -> Result<Answer> {
    let key = private_of(alloc, words)?;
    let answer = under(alloc, call, &key, words);
    drop(key);
    answer
}

fn under(alloc: Global, call: &str, key: &PrivateKey, words: &mut Words<'_>) -> Result<Answer> {
    match call {
        "jws" => signed(alloc, token_of(alloc, words), key, words),
        "jwt" => signed(alloc, jwt_of(alloc, words), key, words),
        "new" => signed(alloc, plain(alloc, words), key, words),
        "with_cty" => signed(alloc, typed(alloc, words), key, words),
        "with_header" => signed(alloc, with_header(alloc, words), key, words),
        "deeper" => signed(alloc, deeper(alloc, words), key, words),
        _ => bail!("no such call"),
    }
}

// The token, signed by the provider of the rest of the words.
fn signed<T: Encodes + Drop>(
    alloc: Global,
    token: Result<T>,
    key: &PrivateKey,
    words: &mut Words<'_>,
) -> Result<Answer> {
    let token = token?;
    let records = records_of(alloc, words)?;
    let answer = token.encoded(alloc, &records, key);
    drop(records);
    answer
}

fn tree_of(alloc: Global, words: &mut Words<'_>) -> Result<Value> {
    let tree = parse(alloc, words.next().as_bytes());
    found(tree.unwrap_or(None), "no JSON")
}

fn header_of(alloc: Global, words: &mut Words<'_>) -> Result<JwsHeader> {
    let tree = tree_of(alloc, words)?;
    let header = JwsHeader::from_tree(alloc, &tree).ok();
    drop(tree);
    found(header, "no header")
}

// The header of the next three words.
fn wider_header_of(alloc: Global, words: &mut Words<'_>) -> Result<JwsHeader> {
    let mut header = header_of(alloc, words)?;
    let outcome = widen(alloc, &mut header, words);
    kept(outcome, header)
}

fn widen(alloc: Global, header: &mut JwsHeader, words: &mut Words<'_>) -> Result<()> {
    match words.next() {
        "-" => none_of(alloc, words),
        name => add(alloc, header, name, words),
    }
}

fn none_of(alloc: Global, words: &mut Words<'_>) -> Result<()> {
    drop(tree_of(alloc, words)?);
    Ok(())
}

fn add(alloc: Global, header: &mut JwsHeader, name: &str, words: &mut Words<'_>) -> Result<()> {
    let value = tree_of(alloc, words)?;
    let name = String::from_str(alloc, name)?;
    drop(header.additional.insert(name, value)?);
    Ok(())
}

fn token_of(alloc: Global, words: &mut Words<'_>) -> Result<Jws> {
    let header = wider_header_of(alloc, words);
    let (header, payload) = both(header, words.bytes(alloc))?;
    Ok(token_with(alloc, header, payload))
}

fn token_with(alloc: Global, mut header: JwsHeader, payload: Vec<u8>) -> Jws {
    let mut token = Jws::new(alloc, header.alg, payload);
    swap(&mut token.header, &mut header);
    drop(header);
    token
}

fn jwt_of(alloc: Global, words: &mut Words<'_>) -> Result<JwtSig> {
    Ok(JwtSig::from(token_of(alloc, words)?))
}

// The header and the claims of the next two words.
fn header_and_claims(alloc: Global, words: &mut Words<'_>) -> Result<(JwsHeader, Value)> {
    let header = header_of(alloc, words);
    both(header, tree_of(alloc, words))
}

fn plain(alloc: Global, words: &mut Words<'_>) -> Result<CheckedJwtSig<Value>> {
    let (header, claims) = header_and_claims(alloc, words)?;
    let token = CheckedJwtSig::new(alloc, header.alg, claims).ok();
    named(token, header)
}

fn typed(alloc: Global, words: &mut Words<'_>) -> Result<CheckedJwtSig<Value>> {
    let (header, claims) = header_and_claims(alloc, words)?;
    let cty = header.cty.as_deref().unwrap_or("");
    let token = CheckedJwtSig::new_with_cty(alloc, header.alg, cty, claims).ok();
    named(token, header)
}

// The token with the key's name that a header has.
fn named(
    mut token: Option<CheckedJwtSig<Value>>,
    mut header: JwsHeader,
) -> Result<CheckedJwtSig<Value>> {
    exchange_names(token.as_mut(), &mut header);
    drop(header);
    found(token, "no memory")
}

fn exchange_names(token: Option<&mut CheckedJwtSig<Value>>, header: &mut JwsHeader) {
    if let Some(token) = token {
        swap(&mut token.header.kid, &mut header.kid);
    }
}

fn with_header(alloc: Global, words: &mut Words<'_>) -> Result<CheckedJwtSig<Value>> {
    let (header, claims) = header_and_claims(alloc, words)?;
    Ok(Jwt::new_with_header(header, claims))
}

fn deeper(alloc: Global, words: &mut Words<'_>) -> Result<CheckedJwtSig<Value>> {
    let header = header_of(alloc, words);
    let (header, claims) = both(header, list_of(alloc, words))?;
    Ok(Jwt::new_with_header(header, claims))
}

// The list of the next word's tree alone.
fn list_of(alloc: Global, words: &mut Words<'_>) -> Result<Value> {
    let tree = tree_of(alloc, words)?;
    let mut list = Vec::new(alloc);
    list.push(tree)?;
    Ok(Value::Array(list))
}
