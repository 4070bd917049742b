// Records put into a buffer, one after the other.
ghost use Rattle.std.specs.Prelude.{refl, ◌≡◌, ℕ, ◌*◌, ◌≤◌, List, ◌++◌, length, drop};
ghost use Rattle.records.specs.Bytes.{bytes_of};
ghost use Rattle.layout.specs.CaseBytes.{demand_bytes, border_bytes, bid_bytes, each};
ghost use Rattle.layout.specs.ProposalBytes.{level_bytes};

use market::{Bid, Border};

// `Record` of the crate `records` reads. This trait stays apart: header words are written from a `usize`, and prices from an `i64`, which it does not read.
pub trait Written {
    // how many bytes write one, and which
    ghost SIZE: { ℕ };

    ghost writes: { Self → List ℕ };

    const SIZE: usize;

    // Puts it at the start of the buffer, and leaves the rest as it is.
    fn put(&self, out: &mut [u8])
        requires { SIZE ≤ length out.old }
        ensures { out.new ≡ writes self.now ++ drop SIZE out.old };

    ghost long: { (x : Self) → length (writes x) ≡ SIZE };
}

// Puts a table at the start of the buffer, and leaves the rest as it is.
pub fn put_table<T: Written>(table: &[T], out: &mut [u8])
    requires { T.Written.SIZE * length table.now ≤ length out.old }
    ensures { out.new ≡ each T.Written.writes table.now ++ drop (T.Written.SIZE * length table.now) out.old }
{
    // By place: after `chunks_exact_mut` and `zip` nothing is known of the buffer.
    for (place, record) in table.iter().enumerate() {
        record.put(&mut out[T::SIZE * place..]);
    }
}

// The numbers stay five impls: std has no trait that writes any of them as its bytes.
impl Written for u16 {
    ghost SIZE = { 2 };

    ghost writes = { bytes_of 2 };

    ghost long = { λ _. refl };

    const SIZE: usize = 2;

    fn put(&self, out: &mut [u8]) {
        out[..2].copy_from_slice(&self.to_le_bytes());
    }
}

impl Written for u32 {
    ghost SIZE = { 4 };

    ghost writes = { bytes_of 4 };

    ghost long = { λ _. refl };

    const SIZE: usize = 4;

    fn put(&self, out: &mut [u8]) {
        out[..4].copy_from_slice(&self.to_le_bytes());
    }
}

impl Written for i32 {
    ghost SIZE = { 4 };

    ghost writes = { demand_bytes };

    ghost long = { λ _. refl };

    const SIZE: usize = 4;

    fn put(&self, out: &mut [u8]) {
        out[..4].copy_from_slice(&self.to_le_bytes());
    }
}

impl Written for i64 {
    ghost SIZE = { 8 };

    ghost writes = { level_bytes };

    ghost long = { λ _. refl };

    const SIZE: usize = 8;

    fn put(&self, out: &mut [u8]) {
        out[..8].copy_from_slice(&self.to_le_bytes());
    }
}

// A header word: the lowest four bytes of a number.
impl Written for usize {
    ghost SIZE = { 4 };

    ghost writes = { bytes_of 4 };

    ghost long = { λ _. refl };

    const SIZE: usize = 4;

    fn put(&self, out: &mut [u8]) {
        out[..4].copy_from_slice(&self.to_le_bytes()[..4]);
    }
}

impl Written for Border {
    ghost SIZE = { 12 };

    ghost writes = { border_bytes };

    ghost long = { λ _. refl };

    const SIZE: usize = 12;

    fn put(&self, out: &mut [u8]) {
        self.from.put(out);
        self.to.put(&mut out[2..]);
        self.forward.put(&mut out[4..]);
        self.backward.put(&mut out[8..]);
    }
}

impl Written for Bid {
    ghost SIZE = { 12 };

    ghost writes = { bid_bytes };

    ghost long = { λ _. refl };

    const SIZE: usize = 12;

    fn put(&self, out: &mut [u8]) {
        self.area.put(out);
        u16::from(self.direction).put(&mut out[2..]);
        self.volume.put(&mut out[4..]);
        self.price.put(&mut out[8..]);
    }
}
