//! Reading fields of bytes from left to right.

ghost use Rattle.std.specs.Prelude.{◌≡◌, ◌+◌, ◌==◌, ◌≤◌, ◌<◌, ◌^◌, length, IfOk};
ghost use Rattle.std.specs.Int.{w8, w32, w64};
ghost use Rattle.wsrep_base.specs.Place.{place_in};
ghost use Rattle.wsrep_base.specs.Reading.{Reads, bytes_at, number_at};

use std::marker::{Model, PhantomData};

/// Faults of reading, among them that a field is cut short.
pub trait ReadFault {
    ghost use Rattle.std.specs.Prelude.{◌≡◌, ℕ};

    ghost short: { ℕ → Self };

    /// Fewer bytes are left than the field at this place needs.
    fn short(at: usize) -> Self
        ensures { result ≡ short at };
}

/// A place in the bytes: what is left of them, and how many went before.
#[derive(Drop)]
pub struct Cursor<'a, F> {
    left: &'a [u8],
    at: usize,
    faults: PhantomData<F>,
}

impl<'a, F> Model for Cursor<'a, F> {
    ghost use Rattle.std.specs.Prelude.{◌+◌, ◌<◌, ◌^◌, length};
    ghost use Rattle.wsrep_base.specs.Place.{Place};

    ghost Value = { Place };

    ghost view = { λ cursor. record { left = cursor.left.now; at = cursor.at } };

    ghost invariant = { λ cursor. cursor.at + length cursor.left.now < 2 ^ 63 };
}

impl<'a, F: ReadFault> Cursor<'a, F> {
    /// The place behind so many bytes.
    pub fn new(bytes: &'a [u8], at: usize) -> Cursor<'a, F>
        requires { at ≤ length bytes.now }
        ensures { result ≡ place_in bytes.now at }
    {
        Cursor {
            left: &bytes[at..],
            at,
            faults: PhantomData,
        }
    }

    /// How many bytes went before.
    pub fn at(&self) -> usize
        ensures value { result ≡ self.now.at }
        ensures small { result + length self.now.left < 2 ^ 63 }
    {
        self.at
    }

    /// Whether no byte is left.
    pub fn is_at_end(&self) -> bool
        ensures { result ≡ (length self.now.left == 0) }
    {
        self.left.is_empty()
    }

    /// The next `count` bytes, and the place behind them. Cut short where fewer are left.
    #[tactic(auto, unfolding(crate::specs::Reading::bytes_at))]
    pub fn bytes(self, count: usize) -> Result<(&'a [u8], Cursor<'a, F>), F>
        ensures read { Reads (λ x. (x.0.now, x.1)) result (bytes_at F.short count self.entry) }
        ensures all { IfOk result (λ x. length x.0.now ≡ count) }
    {
        if self.left.len() < count {
            return Err(F::short(self.at));
        }
        let (front, left) = self.left.split_at(count);
        Ok((
            front,
            Cursor {
                left,
                at: self.at + count,
                faults: PhantomData,
            },
        ))
    }

    /// A number of one byte, and the place behind it.
    #[tactic(auto, unfolding(crate::specs::Reading::number_at))]
    pub fn number8(self) -> Result<(u8, Cursor<'a, F>), F>
        ensures { Reads (λ x. (x.0, x.1)) result (number_at F.short w8 self.entry) }
    {
        let (field, after) = self.bytes(1)?;
        Ok((field[0], after))
    }

    /// A number of four bytes, the highest first, and the place behind it.
    #[tactic(auto, unfolding(crate::specs::Reading::number_at))]
    pub fn number32(self) -> Result<(u32, Cursor<'a, F>), F>
        ensures { Reads (λ x. (x.0, x.1)) result (number_at F.short w32 self.entry) }
    {
        let (field, after) = self.bytes(4)?;
        let number = u32::from_be_bytes([field[0], field[1], field[2], field[3]]);
        Ok((number, after))
    }

    /// A number of eight bytes, the highest first, and the place behind it.
    #[tactic(auto, unfolding(crate::specs::Reading::number_at))]
    pub fn number64(self) -> Result<(u64, Cursor<'a, F>), F>
        ensures { Reads (λ x. (x.0, x.1)) result (number_at F.short w64 self.entry) }
    {
        let (field, after) = self.bytes(8)?;
        let number = u64::from_be_bytes([
            field[0], field[1], field[2], field[3], field[4], field[5], field[6], field[7],
        ]);
        Ok((number, after))
    }
}
