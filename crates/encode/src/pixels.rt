// A picture's pixels, in the buffer that starts with them.
ghost use Rattle.std.specs.Prelude.{◌*◌, ◌<◌, ◌≤◌, length};

// Bytes of a pixel, pixels of a row, and pixels of the picture.
#[derive(Clone, Copy)]
pub(crate) struct Pixels<'a> {
    pub(crate) src: &'a [u8],
    pub(crate) bytes: usize,
    pub(crate) width: usize,
    pub(crate) total: usize,
    pub(crate) ghost low: { 1 ≤ bytes },
    pub(crate) ghost high: { bytes ≤ 3 },
    pub(crate) ghost few: { total ≤ 67108864 },
    pub(crate) ghost there: { total * bytes ≤ length src.now },
}

// A pixel of the picture, by its number.
#[derive(Clone, Copy)]
pub(crate) struct Place<'a> {
    pub(crate) pixels: &'a Pixels<'a>,
    pub(crate) k: usize,
    pub(crate) ghost inside: { k < pixels.now.total },
}

impl<'a> Pixels<'a> {
    ghost use Rattle.std.specs.Prelude.{◌≡◌, ◌+◌};
    ghost use Rattle.encode.specs.Pixels.{bytes_in};

    // The bytes of n pixels from pixel k on. Two numbers, and not a struct with its bound: each caller would make one for one call.
    pub(crate) fn bytes_of(&self, k: usize, n: usize) -> &'a [u8]
        requires { k + n ≤ self.now.total }
        ensures { result.now ≡ bytes_in self.now k n }
    {
        &self.src[k * self.bytes..(k + n) * self.bytes]
    }
}
