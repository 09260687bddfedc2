// The parts that a signature covers.
ghost use Rattle.std.specs.Prelude.{◌≡◌, IfOk, Some, map, string_bytes};
ghost use Rattle.std.specs.Str.{str_to_ascii_lowercase};
ghost use Rattle.picky_http.specs.Signing.{Named, part_text};
ghost use Rattle.picky_http.specs.Parts.{part_of, part_named, NamesParts};

use std::alloc::{AllocError, Global};
use std::fmt;

/// A part that a signature covers (section 2.1.6): a header of the request by its name, in ASCII lower case,
/// or one of three special parts.
#[derive(Debug, Drop, PartialEq, Eq, Hash)]
pub enum Header {
    Name(String),
    RequestTarget,
    Created,
    Expires,
}

impl Header {
    /// The name of the request's method and target among what a signature covers.
    pub const REQUEST_TARGET_STR: &'static str = "(request-target)";

    /// The name of the moment at which the signature was made.
    pub const CREATED_STR: &'static str = "(created)";

    /// The name of the moment after which the signature isn't accepted.
    pub const EXPIRES_STR: &'static str = "(expires)";

    /// The part of the header with this name, in ASCII lower case, for a special text too. No memory is
    /// taken.
    pub fn new_name(mut name: String) -> Header
        ensures { part_of result ≡ Named (str_to_ascii_lowercase (string_bytes name)) }
    {
        name.make_ascii_lowercase();
        Header::Name(name)
    }

    /// The name, or the special text.
    pub fn as_str(&self) -> &str
        ensures { result.now ≡ part_text (part_of self.now) }
    {
        match self {
            Header::Name(name) => name.as_str(),
            Header::RequestTarget => Header::REQUEST_TARGET_STR,
            Header::Created => Header::CREATED_STR,
            Header::Expires => Header::EXPIRES_STR,
        }
    }

    /// The part that a text names: a special one in this very spelling, else the header of that name in ASCII
    /// lower case.
    pub fn from_text(alloc: Global, s: &str) -> Result<Header, AllocError>
        ensures { IfOk result (λ h. part_of h ≡ part_named s.now) }
    {
        if s == Header::REQUEST_TARGET_STR {
            Ok(Header::RequestTarget)
        } else if s == Header::CREATED_STR {
            Ok(Header::Created)
        } else if s == Header::EXPIRES_STR {
            Ok(Header::Expires)
        } else {
            let name = String::from_str(alloc, s)?;
            Ok(Header::new_name(name))
        }
    }

    /// A copy, in memory of its own.
    pub fn clone(&self, alloc: Global) -> Result<Header, AllocError>
        ensures { IfOk result (λ copy. part_of copy ≡ part_of self.now) }
    {
        match self {
            Header::Name(name) => {
                let name = String::from_str(alloc, name)?;
                Ok(Header::Name(name))
            }
            Header::RequestTarget => Ok(Header::RequestTarget),
            Header::Created => Ok(Header::Created),
            Header::Expires => Ok(Header::Expires),
        }
    }
}

impl fmt::Display for Header {
    ghost output = { λ h. Some (part_text (part_of h)) };

    fn fmt<W: fmt::Write>(&self, f: &mut fmt::Formatter<W>) -> fmt::Result {
        f.write_str(self.as_str())
    }
}

// The parts that a value names, at each single space.
pub(crate) fn parts_from(alloc: Global, value: &str) -> Result<Vec<Header>, AllocError>
    ensures { IfOk result (λ v. NamesParts value.now (map part_of v.items)) }
{
    let mut headers = Vec::new(alloc);
    for piece in value.split(' ') {
        headers.push(Header::from_text(alloc, piece)?)?;
    }
    Ok(headers)
}

// A copy of parts, in memory of its own.
pub(crate) fn copy_of(alloc: Global, headers: &[Header]) -> Result<Vec<Header>, AllocError>
    ensures { IfOk result (λ v. map part_of v.items ≡ map part_of headers.now) }
{
    let mut copies = Vec::new(alloc);
    for header in headers {
        copies.push(header.clone(alloc)?)?;
    }
    Ok(copies)
}
