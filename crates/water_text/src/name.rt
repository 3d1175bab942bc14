//! Names of nodes, links, reservoirs and rights.
ghost use Rattle.std.specs.Prelude.{◌≡◌, ◌≤◌, Some, None, length, codes, if◌then◌else◌};
ghost use Rattle.std.specs.List.{list_all};
ghost use Rattle.water_text.specs.Names.{is_name, is_name_byte};

use std::marker::Model;

/// At most 32 bytes, held in the value itself. Contracts see them as a list.
#[derive(Drop)]
pub struct Name {
    bytes: [u8; 32],
    len: u8,
}

impl Model for Name {
    ghost use Rattle.std.specs.Prelude.{List, ℕ, take, ◌≤◌};

    ghost Value = { List ℕ };

    ghost view = { λ n. take n.len n.bytes };

    ghost invariant = { λ n. n.len ≤ 32 };
}

fn is_name_byte(byte: u8) -> bool
    ensures { result ≡ is_name_byte byte }
{
    byte.is_ascii_alphanumeric() || byte == b'_' || byte == b'-'
}

fn are_name_bytes(bytes: &[u8]) -> bool
    ensures { result ≡ list_all is_name_byte bytes.now }
{
    bytes.iter().all(|byte| is_name_byte(*byte))
}

/// Whether the bytes are a name: 1 to 32 of letters, digits, `_` and `-`.
#[tactic(auto, unfolding(crate::specs::Names::is_name))]
pub fn is_name(bytes: &[u8]) -> bool
    ensures { result ≡ is_name bytes.now }
{
    1 <= bytes.len() && bytes.len() <= 32 && are_name_bytes(bytes)
}

impl Name {
    fn copy_of(text: &[u8]) -> Name
        requires { length text.now ≤ 32 }
        ensures { result ≡ text.now }
    {
        let mut bytes = [0; 32];
        bytes[..text.len()].copy_from_slice(text);
        Name {
            bytes,
            len: text.len() as u8,
        }
    }

    /// The name that the text is, or `None` where the text is no name.
    #[tactic(auto, unfolding(crate::specs::Names::is_name))]
    pub fn read(text: &[u8]) -> Option<Name>
        ensures { result ≡ (if is_name text.now then Some text.now else None) }
    {
        if is_name(text) {
            Some(Name::copy_of(text))
        } else {
            None
        }
    }

    /// The name `-`, which stands in where a text is no name.
    pub fn dash() -> Name
        ensures { result ≡ codes "-" }
    {
        Name::copy_of(b"-")
    }

    /// The bytes of the name, at most 32.
    pub fn bytes(&self) -> &[u8]
        ensures value { result.now ≡ self.now }
        ensures short { length result.now ≤ 32 }
    {
        &self.bytes[..self.len as usize]
    }
}
