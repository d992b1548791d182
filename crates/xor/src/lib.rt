// Pixels exclusive-or the pixels a row back: long runs by blocks of 48 bytes, which hold whole pixels of one, two and three bytes.
// Callers have the depth and the places as numbers, and every number is allowed; where the row above is there, `Xored` holds them.
#![tactic(auto)]

ghost use Rattle.std.specs.Prelude.{◌≡◌, ℕ, ◌+◌, ◌*◌, ◌%◌, ◌≤◌, ◌<◌, leb, length, get_or};
ghost use Rattle.byte_runs.specs.Runs.{Depth, run, run_where, both, pixels_there, xored, mixed, turn, each};

use byte_runs::{pattern, pixels_fit};

// One block, read whole before it is written: by an index, since a proof knows nothing of an array's elements once `iter_mut().zip` has lent
// them, and by `array::from_fn` it did not close: that the closure stays the same from call to call is not known there. Inlined, so that
// the compiler keeps the pattern in registers.
#[inline(always)]
fn xor_block(dst: &mut [u8], to: usize, from: usize, w: &[u8; 48])
    requires { (to + 48 ≤ length dst.old) × (from + 48 ≤ length dst.old) }
    ensures { dst.new ≡ run (mixed dst.old from (each w.now)) to 48 dst.old }
{
    let mut t = [0; 48];
    for i in 0..48 {
        t[i] = dst[from + i] ^ w[i];
    }
    dst[to..to + 48].copy_from_slice(&t);
}

// Pixels of D bytes in a target: from `at` on, each the one `row` bytes back exclusive-or `pixel`. The target is none of its fields:
// methods lend it on with the pixels behind. `mask` has a struct of its own, since pixels of the first row have no row above.
#[derive(Clone, Copy)]
struct Xored<const D: usize> {
    at: usize,
    row: usize,
    pixel: [u8; 3],
    ghost depth: { Depth D },
    ghost there: { row ≤ at },
}

impl<const D: usize> Xored<D> {
    // Those from n bytes on.
    #[inline(always)]
    fn behind(self, n: usize) -> Self
        requires { self.at + n ≤ 18446744073709551615 }
        ensures { (result.at ≡ self.entry.at + n) × (result.row ≡ self.entry.row) × (result.pixel ≡ self.entry.pixel) }
    {
        let pixel = self.pixel;
        Xored {
            at: self.at + n,
            row: self.row,
            pixel,
        }
    }

    // By blocks, the last one overlapping: by an index, since each reads the row above in the slice that it writes.
    fn xor_blocks(self, dst: &mut [u8], len: usize)
        requires in_bounds { (self.at + len ≤ length dst.old) × (48 ≤ self.row) × (48 ≤ len) }
        requires whole_pixels { len % D ≡ 0 }
        ensures { dst.new ≡ run (xored self.entry.at self.entry.row (turn self.entry.pixel D)) self.entry.at len dst.old }
    {
        let t = pattern::<D, 48>(self.pixel);
        let last = len - 48;
        for i in (0..len).step_by(48) {
            let at = self.at + i.min(last);
            xor_block(dst, at, at - self.row, &t);
        }
    }

    // One pixel, by an index, since a byte may be read that was just written: the row may be shorter than a pixel. `mask` has one of its own
    // (`put_bit`): a public function has no `requires`, so that one for both would test its places at each pixel.
    fn xor_pixel(self, dst: &mut [u8])
        requires { self.at + D ≤ length dst.old }
        ensures { dst.new ≡ run (xored self.entry.at self.entry.row (each self.entry.pixel)) self.entry.at D dst.old }
    {
        for j in 0..D {
            dst[self.at + j] = dst[self.at - self.row + j] ^ self.pixel[j];
        }
    }

    // Pixels one by one, by an index, as the blocks.
    fn xor_few(self, dst: &mut [u8], n: usize)
        requires { self.at + n * D ≤ length dst.old }
        ensures { dst.new ≡ run (xored self.entry.at self.entry.row (turn self.entry.pixel D)) self.entry.at (n * D) dst.old }
    {
        for i in 0..n {
            self.behind(i * D).xor_pixel(dst);
        }
    }

    // By blocks where the run and the row hold one; pixels of one byte the compiler takes many at a time by itself.
    fn xor_run(self, dst: &mut [u8], n: usize)
        requires { self.at + n * D ≤ length dst.old }
        ensures { dst.new ≡ run (xored self.entry.at self.entry.row (turn self.entry.pixel D)) self.entry.at (n * D) dst.old }
    {
        let len = n * D;
        if D == 1 || len < 48 || self.row < 48 {
            self.xor_few(dst, n);
            return;
        }
        self.xor_blocks(dst, len);
    }
}

// n pixels of d bytes from dst[at] on, each the one `row` bytes back exclusive-or the pixel (its first d bytes); nothing where d is no
// depth or they have no place.
pub fn xor_back(dst: &mut [u8], d: usize, at: usize, n: usize, row: usize, pixel: [u8; 3])
    ensures { dst.new ≡ run_where (both (leb row at) (pixels_there d at n dst.old)) (xored at row (turn pixel d)) at (n * d) dst.old }
{
    if at < row || dst.len() < at || !pixels_fit(d, n, dst.len() - at) {
        return;
    }
    match d {
        1 => Xored::<1> { at, row, pixel }.xor_run(dst, n),
        2 => Xored::<2> { at, row, pixel }.xor_run(dst, n),
        _ => Xored::<3> { at, row, pixel }.xor_run(dst, n),
    }
}
