//! A text: a list of bytes, in no encoding.
ghost use Rattle.std.specs.Prelude.{◌≡◌, ◌≤◌, length, IfOk};
ghost use Rattle.pj_value.specs.NumberBytes.{AreBytes};
ghost use Rattle.pj_value.specs.TextLayout.{bytes_in, IsWithin};

use crate::memory::NoMemory;
use std::alloc::Global;
use std::marker::Model;

/// The most bytes that lie in a text's value itself.
const FEW: usize = 23;

/// A text, which contracts see as the list of its bytes. Texts are ordered by their bytes.
///
/// One of at most 23 bytes lies in the value itself.
#[derive(Debug, Drop)]
pub struct Text {
    bytes: Bytes,
}

/// Where the bytes of a text lie.
#[derive(Debug, Drop)]
enum Bytes {
    /// Here: so many of them, from the first on.
    Few { len: u8, bytes: [u8; 23] },
    /// In a heap block.
    Many(Vec<u8>),
}

impl Model for Text {
    ghost use Rattle.std.specs.Prelude.{List, ℕ};
    ghost use Rattle.pj_value.specs.TextLayout.{bytes_in, IsWithin};

    ghost Value = { List ℕ };

    ghost view = { λ t. bytes_in t.bytes };

    ghost invariant = { λ t. IsWithin t.bytes };
}

impl Text {
    /// The text of these bytes. It copies them, and takes no memory for 23 bytes or fewer.
    pub fn new(alloc: Global, bytes: &[u8]) -> Result<Text, NoMemory>
        ensures { IfOk result (λ t. t ≡ bytes.now) }
    {
        if bytes.len() <= FEW {
            return Ok(Text { bytes: few(bytes) });
        }
        let bytes = Vec::from_slice(alloc, bytes)?;
        Ok(Text {
            bytes: Bytes::Many(bytes),
        })
    }

    /// The text of these bytes, which are taken over. Takes no memory: the vector is kept, or let go where
    /// they are few.
    pub fn from_vec(bytes: Vec<u8>) -> Text
        ensures { result ≡ bytes.items }
    {
        if bytes.len() <= FEW {
            return Text {
                bytes: few(bytes.as_slice()),
            };
        }
        Text {
            bytes: Bytes::Many(bytes),
        }
    }

    /// The same text, which shares nothing with this one. Takes no memory for 23 bytes or fewer.
    pub fn duplicate(&self, alloc: Global) -> Result<Text, NoMemory>
        ensures { IfOk result (λ t. t ≡ self.now) }
    {
        match &self.bytes {
            Bytes::Few { len, bytes } => Ok(Text {
                bytes: Bytes::Few {
                    len: *len,
                    bytes: *bytes,
                },
            }),
            Bytes::Many(bytes) => Text::new(alloc, bytes.as_slice()),
        }
    }

    /// The bytes, lent. Takes no memory. A caller learns here that each of them is below 256.
    pub fn as_slice(&self) -> &[u8]
        ensures value { result.now ≡ self.now }
        ensures bytes { AreBytes self.now }
    {
        let bytes = match &self.bytes {
            Bytes::Few { len, bytes } => &bytes[..*len as usize],
            Bytes::Many(bytes) => bytes.as_slice(),
        };
        bytes_fit(bytes);
        bytes
    }
}

/// Does nothing. A caller learns that each byte is below 256, which the prover knows of a slice
/// that is passed.
fn bytes_fit(bytes: &[u8])
    ensures { AreBytes bytes.now }
{}

/// A few bytes, copied.
fn few(bytes: &[u8]) -> Bytes
    requires { length bytes.now ≤ FEW }
    ensures view { bytes_in result ≡ bytes.now }
    ensures within { IsWithin result }
{
    let mut held = [0; 23];
    let (front, _) = held.split_at_mut(bytes.len());
    front.copy_from_slice(bytes);
    Bytes::Few {
        len: bytes.len() as u8,
        bytes: held,
    }
}
