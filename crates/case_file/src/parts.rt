// A table as it stands in the file.
ghost use Rattle.std.specs.Prelude.{◌≡◌, ℕ, ◌+◌, ◌^◌, ◌<◌, ◌≤◌, List, length, drop, IfOk};
ghost use Rattle.std.specs.List.{between};
ghost use Rattle.case_file.specs.Elements.{element_at, elements};

use crate::filed::Filed;
use std::alloc::{AllocError, Global};

// Where a table begins in the file, and its bytes.
#[derive(Clone, Copy)]
pub struct Part<'a> {
    pub offset: usize,
    pub bytes: &'a [u8],
}

impl<'a> Part<'a> {
    // The first `count` bytes, and the rest.
    pub(crate) fn split(self, count: usize) -> (Part<'a>, Part<'a>)
        requires within { count ≤ length self.bytes.now }
        requires fits { self.offset + count < 2 ^ 64 }
        ensures offsets { (result.0.offset ≡ self.entry.offset) × (result.1.offset ≡ self.entry.offset + count) }
        ensures lengths { (length result.0.bytes.now ≡ count) × (length result.1.bytes.now + count ≡ length self.entry.bytes.now) }
        ensures parts { (file : List ℕ) → self.entry.bytes.now ≡ drop self.entry.offset file → (result.0.bytes.now ≡ between result.0.offset result.1.offset file) × (result.1.bytes.now ≡ drop result.1.offset file) }
    {
        let (first, rest) = self.bytes.split_at(count);
        (
            Part {
                offset: self.offset,
                bytes: first,
            },
            Part {
                offset: self.offset + count,
                bytes: rest,
            },
        )
    }
}

impl Part<'_> {
    // Element i, or none where i is past the last whole element.
    // Kept: the library's `nth` walks past every element before i.
    pub fn element<K: Filed>(&self, i: usize) -> Option<K>
        ensures { result ≡ element_at K.Filed.width K.Filed.filed self.now.bytes.now i }
    {
        let width = K::width();
        if i < self.bytes.len() / width {
            let from = i * width;
            K::read(&self.bytes[from..from + width])
        } else {
            None
        }
    }

    // All whole elements.
    pub fn elements<K: Filed + Drop>(&self, heap: Global) -> Result<Vec<K>, AllocError>
        ensures { IfOk result (λ v. v.items ≡ elements K.Filed.width K.Filed.filed self.now.bytes.now) }
    {
        self.bytes
            .chunks_exact(K::width())
            .filter_map(|bytes| K::read(bytes))
            .collect(heap)
    }
}
