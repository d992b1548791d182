// Pixels that are painted together.
ghost use Rattle.std.specs.Prelude.{◌+◌, ◌≤◌};

// So many pixels of a picture, one behind the other from number `start` on, each of so many bytes, in rows of `width` pixels. Pixel k
// stands in a target's bytes from k * bytes on, and the pixel above it `width` pixels before. The target is none of its fields: a painter
// lends it on with parts of the span, and each two painters are held beside each other with one span on two targets.
#[derive(Clone, Copy)]
pub(crate) struct Span {
    pub(crate) bytes: usize,
    pub(crate) width: usize,
    pub(crate) start: usize,
    pub(crate) pixels: usize,
    pub(crate) ghost low: { 1 ≤ bytes },
    pub(crate) ghost high: { bytes ≤ 3 },
    pub(crate) ghost wide: { 1 ≤ width },
    pub(crate) ghost end: { start + pixels ≤ 18446744073709551615 },
}

impl Span {
    ghost use Rattle.rle.specs.Painting.{IsPart};

    // n of its pixels, from number i of them on.
    #[inline(always)]
    pub(crate) fn part(self, i: usize, n: usize) -> Self
        requires { i + n ≤ self.pixels }
        ensures { IsPart self i n result }
    {
        Span {
            bytes: self.bytes,
            width: self.width,
            start: self.start + i,
            pixels: n,
        }
    }
}
