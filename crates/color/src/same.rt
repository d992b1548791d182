// Whether two pictures are the same.
ghost use Rattle.std.specs.Prelude.{◌≡◌};
ghost use Rattle.color.specs.Colors.{both};
ghost use Rattle.color.specs.SamePicture.{same_picture, valid, picture_of};

use crate::palette::PALETTE_BYTES;
use picture::{bytes_per_pixel, picture_size};

// A picture's numbers: `pixels` of its pixels are painted. Its bytes stand in a slice beside it. Depth and sizes stand one by one, as
// `picture_size` takes them.
#[derive(Clone, Copy, Debug, PartialEq, Eq)]
pub struct Shape {
    pub pixels: usize,
    pub width: usize,
    pub height: usize,
    pub bpp: usize,
}

impl Shape {
    // Depth and sizes, space for the whole picture, the pixel count, and the palette where the depth needs one. That is at 8 bits, by the
    // number: a shape has no format, and one would be looked up for this test alone.
    #[tactic(auto, unfolding(crate::specs::SamePicture::valid, crate::specs::Colors::palette_fits, picture::specs::Sizes::has_space))]
    fn is_valid(self, bytes: &[u8], palette: &[u8]) -> bool
        ensures { result ≡ valid palette.now (picture_of bytes.now self) }
    {
        // In a closure, as for `is_ok_and`, the product's bound is not known.
        let Ok(size) = picture_size(self.width, self.height, self.bpp) else {
            return false;
        };
        size <= bytes.len()
            && self.pixels <= self.width * self.height
            && (self.bpp != 8 || PALETTE_BYTES <= palette.len())
    }

    // Whether two slices hold valid pictures of this shape. Where the first does, so does a second that is not shorter.
    fn are_valid(self, a: &[u8], b: &[u8], palette: &[u8]) -> bool
        ensures { result ≡ both (valid palette.now (picture_of a.now self)) (valid palette.now (picture_of b.now self)) }
    {
        self.is_valid(a, palette) && (a.len() <= b.len() || self.is_valid(b, palette))
    }
}

// Whether two pictures, a with the numbers p and b with q, are valid and the same. Pixels of one depth that are stored in the same bytes
// have the same colors: no color is worked out.
pub fn same_picture(a: &[u8], p: Shape, b: &[u8], q: Shape, palette: &[u8]) -> bool
    ensures { result ≡ same_picture palette.now (picture_of a.now p) (picture_of b.now q) }
{
    if p != q {
        return false;
    }
    if !p.are_valid(a, b, palette) {
        return false;
    }
    let painted = p.pixels * bytes_per_pixel(p.bpp);
    a[..painted] == b[..painted]
}
