// A sink in memory.
use sg_changes::Sink;
use std::marker::Model;

/// Takes up to 4,096 bytes.
#[derive(Drop)]
pub struct Buffer {
    bytes: [u8; 4096],
    used: usize,
}

impl Model for Buffer {
    ghost use Rattle.std.specs.Prelude.{◌≡◌, ◌≤◌, ℕ, List, length, take};

    ghost Value = { List ℕ };

    ghost view = { λ b. take b.used b.bytes };

    ghost invariant = { λ b. (b.used ≤ 4096) × (length b.bytes ≡ 4096) };
}

ghost use Rattle.std.specs.Prelude.{◌≡◌, [], length};

impl Buffer {
    pub fn new() -> Buffer
        ensures { result ≡ [] }
    {
        Buffer {
            bytes: [0; 4096],
            used: 0,
        }
    }

    /// The bytes that it has taken.
    pub fn as_slice(&self) -> &[u8]
        ensures { result.now ≡ self.now }
    {
        &self.bytes[..self.used]
    }
}

impl Sink for Buffer {
    ghost use Rattle.std.specs.Prelude.{◌-◌, length};

    ghost contents = { λ b. b };

    ghost room = { λ b. 4096 - length b };

    fn push(&mut self, bytes: &[u8]) {
        let end = self.used + bytes.len();
        self.bytes[self.used..end].copy_from_slice(bytes);
        self.used = end;
    }
}
