// Bytes that a line of a script writes, or that an answer contains.
use std::marker::Model;

/// Bytes that a line of a script writes, or that an answer contains. In contracts the value is the list of bytes.
#[derive(Debug, Drop)]
pub struct Bytes(Vec<u8>);

impl Model for Bytes {
    ghost use Rattle.std.specs.Prelude.{ℕ, List};

    ghost Value = { List ℕ };

    ghost view = { λ bytes. bytes.0.items };
}

impl From<Vec<u8>> for Bytes {
    ghost use Rattle.std.specs.Prelude.{◌≡◌};

    ghost from_gives = { λ vec bytes. bytes ≡ vec.items };

    fn from(bytes: Vec<u8>) -> Bytes {
        Bytes(bytes)
    }
}

impl Bytes {
    ghost use Rattle.std.specs.Prelude.{◌≡◌};

    /// Returns the bytes as a slice.
    pub fn as_slice(&self) -> &[u8]
        ensures { result.now ≡ self.now }
    {
        &self.0
    }

    /// Returns the vector that the bytes were made from.
    pub fn into_vec(self) -> Vec<u8>
        ensures { result.items ≡ self }
    {
        let Bytes(bytes) = self;
        bytes
    }
}
