// The lines of a records document, and what each answers.
ghost use Rattle.std.specs.Prelude.{◌≡◌, ◌↔◌, IsTrue, Some, option_copied};
ghost use Rattle.picky_key_der.specs.Kinds.{kind_of, same_kind};
ghost use Rattle.picky_key_private.specs.Parts.{same_part};
ghost use Rattle.picky_records.specs.declared.line.Line.TheVariants.{Sig};
ghost use Rattle.picky_records.specs.Lines.{agreeable, signature_in, pair_in, unwrapped_in, secret_in, wrapped_in, ephemeral_in, in_family, own_conflict, conflicts_with, pair_of_bors};
ghost use Rattle.picky_records.specs.Questions.{is_answered_by};
ghost use Rattle.picky_records.specs.Same as same;

use picky_contract::Bytes;
use picky_key::{
    EdAlgorithm, NamedEcCurve, PrivateKey, PrivateKeyKind, PublicKey, PublicKeyKind,
    SignatureAlgorithm, WrapScheme,
};

/// A line of a records document.
#[derive(Debug, Drop)]
pub enum Line {
    /// The message is signed by the signature, under the key and with the algorithm.
    Sig {
        key: PublicKey,
        algorithm: SignatureAlgorithm,
        message: Bytes,
        signature: Bytes,
    },
    /// The two keys are a pair.
    Pair {
        private: PrivateKey,
        public: PublicKey,
    },
    /// The wrapped key is the content key under the private key, by the scheme.
    Unwrap {
        scheme: WrapScheme,
        private: PrivateKey,
        wrapped: Bytes,
        content_key: Bytes,
    },
    /// The two keys agree on the secret.
    Agree {
        first: PublicKey,
        second: PublicKey,
        secret: Bytes,
    },
}

// Whether both are one scheme.
fn same_scheme(a: WrapScheme, b: WrapScheme) -> bool
    ensures { result ≡ same.same_scheme a b }
{
    a == b
}

// Whether both are one algorithm.
fn same_algorithm(a: SignatureAlgorithm, b: SignatureAlgorithm) -> bool
    ensures { result ≡ same.same_algorithm a b }
{
    a == b
}

// Whether the private key's public part is this key.
fn has_part(private: &PrivateKey, key: &PublicKey) -> bool
    ensures { result ≡ same_part private.now.public_part (Some key.now) }
{
    match private.public_part() {
        Some(part) => part.same(key),
        None => false,
    }
}

// Whether two keys of the kind of this one agree on a secret.
fn is_agreeable(key: &PublicKey) -> bool
    ensures { result ≡ agreeable (kind_of key.now) }
{
    matches!(
        key.kind(),
        PublicKeyKind::Ec {
            curve: NamedEcCurve::Known(_),
            ..
        } | PublicKeyKind::Ed {
            algorithm: EdAlgorithm::X25519,
            ..
        }
    )
}

// Whether both keys are of one kind.
fn is_one_kind(a: &PublicKey, b: &PublicKey) -> bool
    ensures { result ≡ same_kind (kind_of a.now) (kind_of b.now) }
{
    match (a.kind(), b.kind()) {
        (PublicKeyKind::Rsa { .. }, PublicKeyKind::Rsa { .. }) => true,
        (PublicKeyKind::Ec { curve, .. }, PublicKeyKind::Ec { curve: other, .. }) => {
            curve.same(other)
        }
        (
            PublicKeyKind::Ed { algorithm, .. },
            PublicKeyKind::Ed {
                algorithm: other,
                ..
            },
        ) => algorithm.same(*other),
        _ => false,
    }
}

impl Line {
    /// Whether this is the `sig` line of that key, algorithm, message and signature.
    pub(crate) fn signs(
        &self,
        key: &PublicKey,
        algorithm: SignatureAlgorithm,
        message: &[u8],
        signature: &[u8],
    ) -> bool
        ensures { IsTrue result ↔ (self.now ≡ Sig key.now algorithm message.now signature.now) }
    {
        match self {
            Line::Sig {
                key: own_key,
                algorithm: own_algorithm,
                message: own_message,
                signature: own_signature,
            } => {
                own_key.same(key)
                    && *own_algorithm == algorithm
                    && own_message.same_as(message)
                    && own_signature.same_as(signature)
            }
            _ => false,
        }
    }

    /// The signature of a `sig` line with that key, algorithm and message.
    pub(crate) fn signature(
        &self,
        key: &PublicKey,
        algorithm: SignatureAlgorithm,
        message: &[u8],
    ) -> Option<&Bytes>
        ensures { option_copied result ≡ signature_in key.now algorithm message.now self.now }
    {
        match self {
            Line::Sig {
                key: own_key,
                algorithm: own_algorithm,
                message: own_message,
                signature,
            } => {
                if own_key.same(key)
                    && same_algorithm(*own_algorithm, algorithm)
                    && own_message.same_as(message)
                {
                    Some(signature)
                } else {
                    None
                }
            }
            _ => None,
        }
    }

    /// The public key of a `pair` line with that private key.
    pub(crate) fn pair(&self, key: &PrivateKey) -> Option<&PublicKey>
        ensures { option_copied result ≡ pair_in key.now self.now }
    {
        match self {
            Line::Pair { private, public } => {
                if private.same(key) {
                    Some(public)
                } else {
                    None
                }
            }
            _ => None,
        }
    }

    /// The content key of an `unwrap` line with that scheme, public part and wrapped key.
    pub(crate) fn unwrapped(
        &self,
        scheme: WrapScheme,
        part: &PublicKey,
        bytes: &[u8],
    ) -> Option<&Bytes>
        ensures { option_copied result ≡ unwrapped_in scheme part.now bytes.now self.now }
    {
        match self {
            Line::Unwrap {
                scheme: own_scheme,
                private,
                wrapped,
                content_key,
            } => {
                if same_scheme(*own_scheme, scheme)
                    && has_part(private, part)
                    && wrapped.same_as(bytes)
                {
                    Some(content_key)
                } else {
                    None
                }
            }
            _ => None,
        }
    }

    /// The secret of an `agree` line with those keys, in either order.
    pub(crate) fn secret(&self, one: &PublicKey, other: &PublicKey) -> Option<&Bytes>
        ensures { option_copied result ≡ secret_in one.now other.now self.now }
    {
        match self {
            Line::Agree {
                first,
                second,
                secret,
            } => {
                if first.same(one) && second.same(other) || first.same(other) && second.same(one) {
                    Some(secret)
                } else {
                    None
                }
            }
            _ => None,
        }
    }

    /// The wrapped key of an `unwrap` line with that scheme, public part and content key.
    pub(crate) fn wrapped(
        &self,
        scheme: WrapScheme,
        part: &PublicKey,
        bytes: &[u8],
    ) -> Option<&Bytes>
        ensures { option_copied result ≡ wrapped_in scheme part.now bytes.now self.now }
    {
        match self {
            Line::Unwrap {
                scheme: own_scheme,
                private,
                wrapped,
                content_key,
            } => {
                if same_scheme(*own_scheme, scheme)
                    && has_part(private, part)
                    && content_key.same_as(bytes)
                {
                    Some(wrapped)
                } else {
                    None
                }
            }
            _ => None,
        }
    }

    /// The other key and the secret of an `agree` line with the receiver on either side.
    pub(crate) fn ephemeral(&self, receiver: &PublicKey) -> Option<(&PublicKey, &Bytes)>
        ensures { pair_of_bors result ≡ ephemeral_in receiver.now self.now }
    {
        match self {
            Line::Agree {
                first,
                second,
                secret,
            } => {
                if first.same(receiver) {
                    Some((second, secret))
                } else if second.same(receiver) {
                    Some((first, secret))
                } else {
                    None
                }
            }
            _ => None,
        }
    }

    /// Whether the keys and the algorithm of the line belong to one family.
    pub(crate) fn in_family(&self) -> bool
        ensures { result ≡ in_family self.now }
    {
        match self {
            Line::Sig { key, algorithm, .. } => algorithm.is_of_family(key),
            Line::Pair { private, public } => private.kind().is_of(public),
            Line::Unwrap { private, .. } => private.kind().same(&PrivateKeyKind::Rsa),
            Line::Agree { first, second, .. } => {
                is_agreeable(first) && is_one_kind(second, first)
            }
        }
    }

    /// Whether the private key of a `pair` line has another public part.
    pub(crate) fn own_conflict(&self) -> bool
        ensures { result ≡ own_conflict self.now }
    {
        match self {
            Line::Pair { private, public } => match private.public_part() {
                Some(part) => !part.same(public),
                None => false,
            },
            _ => false,
        }
    }

    /// Whether this line, which stands later, answers a question of the earlier one otherwise.
    pub(crate) fn conflicts_with(&self, earlier: &Line) -> bool
        ensures { result ≡ conflicts_with earlier.now self.now }
    {
        match self {
            Line::Sig { .. } => false,
            Line::Pair { private, public } => match earlier.pair(private) {
                Some(other) => !other.same(public),
                None => false,
            },
            Line::Unwrap {
                scheme,
                private,
                wrapped,
                content_key,
            } => match private.public_part() {
                Some(part) => match earlier.unwrapped(*scheme, part, wrapped.as_slice()) {
                    Some(other) => !other.same(content_key),
                    None => false,
                },
                None => false,
            },
            Line::Agree {
                first,
                second,
                secret,
            } => match earlier.secret(first, second) {
                Some(other) => !other.same(secret),
                None => false,
            },
        }
    }

    /// Whether the earlier line answers the question of this one.
    pub(crate) fn is_answered_by(&self, earlier: &Line) -> bool
        ensures { result ≡ is_answered_by earlier.now self.now }
    {
        match self {
            Line::Sig { .. } => false,
            Line::Pair { private, .. } => earlier.pair(private).is_some(),
            Line::Unwrap {
                scheme,
                private,
                wrapped,
                ..
            } => match private.public_part() {
                Some(part) => earlier
                    .unwrapped(*scheme, part, wrapped.as_slice())
                    .is_some(),
                None => false,
            },
            Line::Agree { first, second, .. } => earlier.secret(first, second).is_some(),
        }
    }
}
