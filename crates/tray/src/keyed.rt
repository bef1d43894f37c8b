// Records with a key to find them by.
ghost use Rattle.std.specs.Prelude.{◌≡◌, ℕ};

// A record with a whole number that it is found by.
pub trait Keyed {
    // What the key is.
    ghost key: { Self → ℕ };

    // The key of this record.
    fn key(&self) -> u64
        ensures { result ≡ key self.now };
}
