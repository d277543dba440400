//! Bytes that own their memory.
ghost use Rattle.std.specs.Prelude.{◌≡◌, ℕ, List, [], IfOk, replicate};

use crate::failed::Memory;
use std::alloc::Global;
use std::marker::Model;

/// Some bytes, which contracts see as a list.
#[derive(Drop)]
pub struct Blob {
    items: Vec<u8>,
}

impl Model for Blob {
    ghost Value = { List ℕ };

    ghost view = { λ blob. blob.items.items };
}

impl Blob {
    ghost use Rattle.std.specs.Borrow.{sem};
    ghost use Rattle.outside_traits.specs.Lending.{LendsBytes};

    /// No bytes. Takes no memory.
    pub fn none(alloc: Global) -> Blob
        ensures { result ≡ [] }
    {
        Blob {
            items: Vec::new(alloc),
        }
    }

    /// A copy of `bytes`.
    pub fn from_slice(alloc: Global, bytes: &[u8]) -> Result<Blob, Memory>
        ensures { IfOk result (λ blob. blob ≡ bytes.now) }
    {
        match Vec::from_slice(alloc, bytes) {
            Ok(items) => Ok(Blob { items }),
            Err(_) => Err(Memory),
        }
    }

    /// So many bytes of 0.
    pub fn zeros(alloc: Global, len: usize) -> Result<Blob, Memory>
        ensures { IfOk result (λ blob. blob ≡ replicate len 0) }
    {
        match vec![in alloc; 0; len] {
            Ok(items) => Ok(Blob { items }),
            Err(_) => Err(Memory),
        }
    }

    pub fn bytes(&self) -> &[u8]
        ensures { result.now ≡ self.now }
    {
        self.items.as_slice()
    }

    /// The bytes, to be written over. Their number stays.
    pub fn bytes_mut(&mut self) -> &mut [u8]
        ensures* writes_back { sem 𝓛 (LendsBytes self.entry result) }
        ensures value { result.now ≡ self.old }
    {
        self.items.as_mut_slice()
    }
}
