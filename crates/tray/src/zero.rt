// Records of zeros, for memory that is to hold nothing.
ghost use Rattle.std.specs.Prelude.{◌≡◌, length, replicate};

// A record that has a zero: the record whose every number is 0.
// Not std's `Default`: the project wants a failing edit for each zero, so the zeros are code of its own.
pub trait Zero: Sized {
    // What the zero is.
    ghost zero: { Self };

    // The zero itself.
    fn zero() -> Self
        ensures { result ≡ zero };
}

// Makes every record zero.
pub fn fill<T: Copy + Zero>(memory: &mut [T])
    ensures { memory.new ≡ replicate (length memory.old) T.zero }
{
    // Not by std's `fill`: that asks more of T, namely that a clone is the record itself.
    let zero = T::zero();
    memory.fill_with(|| zero);
}

// A byte is zero as the number 0.
impl Zero for u8 {
    ghost zero = { 0 };

    fn zero() -> u8 {
        0
    }
}

// A number of 32 bits is zero as the number 0.
impl Zero for u32 {
    ghost zero = { 0 };

    fn zero() -> u32 {
        0
    }
}
