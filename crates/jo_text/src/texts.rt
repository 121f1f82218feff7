//! Texts as lists of bytes.
ghost use Rattle.std.specs.Prelude.{◌≡◌, ◌++◌, [], OnErr, OnOk};

pub use std::alloc::AllocError as Memory;
use std::alloc::Global;
use std::marker::Model;

/// A list of bytes: a name or a descriptor as a class file spells it, or another text.
#[derive(Drop)]
pub struct Name {
    bytes: Vec<u8>,
}

impl Model for Name {
    ghost use Rattle.std.specs.Prelude.{List as Items, ℕ};

    ghost Value = { Items ℕ };

    ghost view = { λ n. n.bytes.items };
}

impl Name {
    /// The empty name. It takes no memory.
    pub fn new(alloc: Global) -> Name
        ensures { result ≡ [] }
    {
        Name {
            bytes: Vec::new(alloc),
        }
    }

    /// Adds the bytes at the end. A refusal leaves the name as it was.
    pub fn append(&mut self, bytes: &[u8]) -> Result<(), Memory>
        ensures ok { OnOk result (self.new ≡ self.old ++ bytes.now) }
        ensures err { OnErr result (self.new ≡ self.old) }
    {
        self.bytes.extend_from_slice(bytes)
    }

    /// The bytes.
    pub fn as_slice(&self) -> &[u8]
        ensures { result.now ≡ self.now }
    {
        self.bytes.as_slice()
    }
}

impl From<Vec<u8>> for Name {
    ghost from_gives = { λ bytes name. name ≡ bytes.items };

    fn from(bytes: Vec<u8>) -> Name {
        Name { bytes }
    }
}

/// Why a text wasn't read.
#[derive(Debug, Drop)]
pub enum DescFault {
    /// It isn't in the grammar.
    Bad,
    Memory,
}

#[cfg(test)]
mod tests {
    use super::*;
    use std::test::Fail;

    #[test]
    fn a_name_grows_at_its_end(rt: HostRuntime) -> Result<(), Fail> {
        let mut name = Name::new(rt.alloc());
        assert!(rt; name.as_slice().is_empty());
        name.append(b"java/")?;
        name.append(b"")?;
        name.append(b"lang")?;
        assert_eq!(rt; name.as_slice(), b"java/lang".as_slice());
        let same = Name::from(b"java/lang".to_vec(rt.alloc())?);
        assert_eq!(rt; same.as_slice(), name.as_slice());
        Ok(())
    }
}
