// Where records are written.

/// Takes bytes at its end, as many as it has room for.
pub trait Sink {
    ghost use Rattle.std.specs.Prelude.{◌≡◌, ◌+◌, ◌++◌, ◌≤◌, ℕ, List, length};

    /// The bytes that it has taken.
    ghost contents: { Self → List ℕ };

    /// The number of bytes that it has room for.
    ghost room: { Self → ℕ };

    /// Takes bytes.
    fn push(&mut self, bytes: &[u8])
        requires { length bytes.now ≤ room self.old }
        ensures contents { contents self.new ≡ contents self.old ++ bytes.now }
        ensures room { room self.new + length bytes.now ≡ room self.old };
}
