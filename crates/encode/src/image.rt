// Images, which end where a run starts.
ghost use Rattle.std.specs.Prelude.{◌≡◌, ◌<◌};
ghost use Rattle.encoding.specs.Encode.{image_at};
ghost use Rattle.encode.specs.Pixels.{pixels_in};

use crate::bytes::Compared;
use crate::pixels::{Pixels, Place};

// Pixels of D bytes. By the constant a pixel of noise takes 13, 14 and 16 instructions at 8, 16 and 24 bpp; by `bytes`, and an index over
// the bytes, 23, 24 and 25.
#[derive(Clone, Copy)]
struct PixelsOf<'a, const D: usize> {
    pixels: Pixels<'a>,
    ghost bytes: { pixels.bytes ≡ D },
}

impl<const D: usize> PixelsOf<'_, D> {
    ghost use Rattle.std.specs.Prelude.{false, not, ◌+◌, ◌-◌, ◌≤◌, eqb, min};
    ghost use Rattle.encoding.specs.Encode.{stretch, start_at, is_none};
    ghost use Rattle.encode.specs.Pixels.{same_as_back};

    // Whether n pixels from pixel k on are the ones `row` places back.
    fn is_stretch(self, k: usize, row: usize, n: usize) -> bool
        requires { (row ≤ k) × (k + n ≤ self.pixels.total) }
        ensures { result ≡ eqb (stretch (same_as_back (pixels_in self.entry.pixels) row) k n) n }
    {
        let src = self.pixels.src;
        let back = k - row;
        Compared {
            here: &src[k * D..(k + n) * D],
            back: &src[back * D..(back + n) * D],
        }
        .same_bytes()
    }

    // Whether a run starts at pixel k, which does not directly follow a background run, and has two pixels behind it: with fewer there
    // is none.
    fn run_at(self, k: usize) -> bool
        requires { k + 3 ≤ self.pixels.total }
        ensures { result ≡ not (is_none (start_at self.entry.pixels.width (pixels_in self.entry.pixels) k false)) }
    {
        self.is_stretch(k + 1, 1, 2)
            || (self.pixels.width <= k && self.is_stretch(k, self.pixels.width, 3))
    }

    // The pixels of an image from pixel k on, which has `last` at the most.
    fn image_at(self, k: usize, last: usize) -> usize
        requires inside { k < self.pixels.total }
        requires most { last ≡ min 65535 (self.pixels.total - k) }
        ensures { result ≡ image_at self.entry.pixels.width (pixels_in self.entry.pixels) k }
    {
        let end = last.min((self.pixels.total - k).saturating_sub(2));
        (1..end)
            .find(
                |n|
                    requires { k + n.now + 3 ≤ self.pixels.total }
                    ensures { result ≡ not (is_none (start_at self.entry.pixels.width (pixels_in self.entry.pixels) (k + n.now) false)) }
                { self.run_at(k + *n) },
            )
            .unwrap_or(last)
    }
}

impl Place<'_> {
    // The pixels of an image from here on.
    pub(crate) fn image(self) -> usize
        ensures { result ≡ image_at self.entry.pixels.now.width (pixels_in self.entry.pixels.now) self.entry.k }
    {
        let pixels = *self.pixels;
        let last = self.most();
        match pixels.bytes {
            1 => PixelsOf::<1> { pixels }.image_at(self.k, last),
            2 => PixelsOf::<2> { pixels }.image_at(self.k, last),
            _ => PixelsOf::<3> { pixels }.image_at(self.k, last),
        }
    }
}
