// The nonce of a SCRAM exchange.
use base64::engine::general_purpose::STANDARD;
use std::marker::Model;

/// A text that a client sends in one SCRAM exchange alone: 15 bytes that the caller draws for it, as 20 characters of
/// Base64. Contracts see the characters.
#[derive(Clone, Copy)]
pub struct ScramNonce {
    text: [u8; 20],
}

impl Model for ScramNonce {
    ghost use Rattle.std.specs.Prelude.{List, ℕ};

    ghost Value = { List ℕ };

    ghost view = { λ nonce. nonce.text };

    ghost inverse = { λ text. record { text = text } };
}

impl ScramNonce {
    ghost use Rattle.std.specs.Prelude.{◌≡◌, length};
    ghost use Rattle.registration.specs.Messages.{base64};

    /// Creates the nonce of these random `bytes`.
    pub fn of(bytes: &[u8; 15]) -> ScramNonce
        ensures { result ≡ base64 bytes.now }
    {
        let mut text = [0; 20];
        let _whole = STANDARD.encode_slice(bytes, &mut text);
        ScramNonce { text }
    }

    /// Returns the characters.
    pub fn as_bytes(&self) -> &[u8]
        ensures text { result.now ≡ self.now }
        ensures len { length result.now ≡ 20 }
    {
        &self.text
    }
}
