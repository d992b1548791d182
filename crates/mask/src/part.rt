// The pixels of a part of a mask, one by one, its lowest bit first.
ghost use Rattle.std.specs.Prelude.{◌≡◌, ◌+◌, ◌*◌, ◌%◌, ◌≤◌, length, get_or};
ghost use Rattle.byte_runs.specs.Runs.{run, row_bytes, mask_by, masked_by};

use crate::Masked;
use crate::whole::ink;

impl<const D: usize> Masked<D> {
    // The pixel of the mask's lowest bit, by an index, since a byte may be read that was just written: the row may be shorter than a pixel.
    // By a function that stores the color or zeros, four pixels in the first row take 7 to 25 % more instructions at 16 and 24 bpp. `xor`
    // has one of its own (`xor_pixel`): a public function has no `requires`, so that one for both would test its places at each pixel.
    fn put_bit(self, m: u8, dst: &mut [u8])
        requires { self.at + D ≤ length dst.old }
        ensures { dst.new ≡ run (row_bytes self.entry.back self.entry.at (λ j. m % 2 * get_or self.entry.pixel j 0)) self.entry.at D dst.old }
    {
        for j in 0..D {
            dst[self.at + j] = self.byte_back(dst, j) ^ ink(u16::from(m), 1, self.pixel[j]);
        }
    }

    // The first n pixels of a mask, by an index: each reads the row above in the slice that it writes, and parts of that lent one by one
    // would hold it.
    pub(crate) fn part(self, mask: u8, dst: &mut [u8], n: usize)
        requires { (self.at + n * D ≤ length dst.old) × (n ≤ 8) }
        ensures { dst.new ≡ run (row_bytes self.entry.back self.entry.at (mask_by mask D self.entry.pixel)) self.entry.at (n * D) dst.old }
    {
        let mut m = mask;
        for i in 0..n {
            self.behind(i * D).put_bit(m, dst);
            m /= 2;
        }
    }

    // Whole masks in rows of fewer than eight pixels, where a mask reads pixels that it writes itself. It stays a call: inlined, the loop of
    // other rows has a place in memory that it counts in.
    #[inline(never)]
    pub(crate) fn narrow(self, masks: &[u8], dst: &mut [u8])
        requires { self.at + length masks.now * 8 * D ≤ length dst.old }
        ensures { dst.new ≡ run (row_bytes self.entry.back self.entry.at (masked_by masks.now 0 D self.entry.pixel)) self.entry.at (length masks.now * 8 * D) dst.old }
    {
        for (i, m) in masks.iter().enumerate() {
            self.behind(i * 8 * D).part(*m, dst, 8);
        }
    }
}
