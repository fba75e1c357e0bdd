//! Files in memory.
ghost use Rattle.std.specs.Prelude.{◌≡◌, string_bytes};
ghost use Rattle.std.specs.Str.{bytes_eq};

use std::marker::Model;

/// A name and the bytes of the file with this name.
#[derive(Debug, Drop)]
pub struct Named {
    name: String,
    bytes: Vec<u8>,
}

impl Model for Named {
    ghost use Rattle.std.specs.Prelude.{string_bytes};
    ghost use Rattle.qz_io.specs.Files.{File};

    ghost Value = { File };

    ghost view = { λ f. record { name = string_bytes f.name; bytes = f.bytes.items } };
}

impl Named {
    /// Every text may be a name, also an empty one.
    pub fn new(name: String, bytes: Vec<u8>) -> Named
        ensures { result ≡ record { name = string_bytes name; bytes = bytes.items } }
    {
        Named { name, bytes }
    }

    // The bytes.
    pub(crate) fn bytes(&self) -> &[u8]
        ensures { result.now ≡ self.now.bytes }
    {
        self.bytes.as_slice()
    }

    // Whether this is the name.
    pub(crate) fn has_name(&self, name: &str) -> bool
        ensures { result ≡ bytes_eq self.now.name name.now }
    {
        self.name.as_str() == name
    }
}
