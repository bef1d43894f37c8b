// Where an object of a PDF file begins.
use crate::keyed::Keyed;
use crate::zero::Zero;

// An object's number, and how many bytes of the file stand before the object.
#[derive(Clone, Copy, PartialEq, Eq, Debug)]
pub struct Offset {
    pub object: u32,
    pub offset: u32,
}

// An offset is found by its object's number.
impl Keyed for Offset {
    ghost key = { λ o. o.object };

    fn key(&self) -> u64 {
        u64::from(self.object)
    }
}

// The zero has object number 0 and no bytes before it.
impl Zero for Offset {
    ghost zero = { record { object = 0; offset = 0 } };

    fn zero() -> Offset {
        Offset {
            object: 0,
            offset: 0,
        }
    }
}
