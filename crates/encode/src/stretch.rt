// Stretches of pixels.
ghost use Rattle.std.specs.Prelude.{◌≡◌, ◌-◌};
ghost use Rattle.encode.specs.Pixels.{pixels_in};

use crate::bytes::Compared;
use crate::order::{Kind, MAX_RUN};
use crate::pixels::{Pixels, Place};

impl Pixels<'_> {
    ghost use Rattle.std.specs.Prelude.{◌+◌, ◌/◌, ◌≤◌};
    ghost use Rattle.encoding.specs.Encode.{stretch};
    ghost use Rattle.encode.specs.Pixels.{same_as_back};

    // Whole pixels in n bytes. The compiler makes a product or a shift of a division by a literal.
    fn whole_pixels(&self, n: usize) -> usize
        ensures { result ≡ n / self.now.bytes }
    {
        match self.bytes {
            1 => n,
            2 => n / 2,
            _ => n / 3,
        }
    }

    // How many of n pixels from pixel k on are the ones `row` places back.
    fn stretch_at(&self, k: usize, row: usize, n: usize) -> usize
        requires { (row ≤ k) × (k + n ≤ self.now.total) }
        ensures { result ≡ stretch (same_as_back (pixels_in self.now) row) k n }
    {
        let compared = Compared {
            here: self.bytes_of(k, n),
            back: self.bytes_of(k - row, n),
        };
        self.whole_pixels(compared.same_start())
    }
}

impl Place<'_> {
    ghost use Rattle.std.specs.Prelude.{min};
    ghost use Rattle.base.specs.Picks.{pick};
    ghost use Rattle.encoding.specs.Encode.{equal_at, above_at};
    ghost use Rattle.encode.specs.Orders.{is_background};

    // The most pixels that an order from here on may have.
    pub(crate) fn most(self) -> usize
        ensures { result ≡ min 65535 (self.entry.pixels.now.total - self.entry.k) }
    {
        (self.pixels.total - self.k).min(MAX_RUN)
    }

    // The pixels from here on that equal this one: after it, each equals the one before.
    pub(crate) fn equal(self) -> usize
        ensures { result ≡ equal_at (pixels_in self.entry.pixels.now) self.entry.k }
    {
        1 + self.pixels.stretch_at(self.k + 1, 1, self.most() - 1)
    }

    // The pixels from here on that equal those above, after an order of this kind; none directly after a background run.
    pub(crate) fn above(self, before: Kind) -> usize
        ensures { result ≡ pick (is_background before) 0 (above_at self.entry.pixels.now.width (pixels_in self.entry.pixels.now) self.entry.k) }
    {
        if before == Kind::BgRun || self.k < self.pixels.width {
            return 0;
        }
        self.pixels
            .stretch_at(self.k, self.pixels.width, self.most())
    }
}
