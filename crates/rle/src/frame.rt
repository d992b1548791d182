// What a picture's orders go by.
ghost use Rattle.std.specs.Prelude.{◌≡◌, [], ◌∷◌, ◌≤◌};
ghost use Rattle.picture.specs.Pixels.{OfDepth};
ghost use Rattle.rle.specs.declared.kind.Kind.TheVariants.{White};

use crate::kind::Kind;
use crate::plan::Room;
use picture::{Depth, RleError, RlePixelFormat, depth_of, picture_size};

// A picture's depth, its width, and its pixels: of a known depth, and no more than a picture may have.
#[derive(Clone, Copy)]
pub(crate) struct Frame {
    pub(crate) depth: Depth,
    pub(crate) width: usize,
    pub(crate) total: usize,
    pub(crate) ghost low: { 1 ≤ depth.bytes },
    pub(crate) ghost high: { depth.bytes ≤ 3 },
    pub(crate) ghost white: { OfDepth depth.bytes depth.white },
    pub(crate) ghost black: { depth.black ≡ 0 ∷ 0 ∷ 0 ∷ [] },
    pub(crate) ghost wide: { 1 ≤ width },
    pub(crate) ghost few: { total ≤ 67108864 },
}

impl Frame {
    ghost use Rattle.std.specs.Prelude.{◌-◌};
    ghost use Rattle.picture.specs.Sizes.{checked, with_space};
    ghost use Rattle.rle.specs.States.{checked_in};

    // The frame of a picture and its format, or the refusal of its depth or its sizes, which come one by one, as to `decompress`. The format is
    // no field: orders, each of which has the frame, would take 2.5 % more instructions (geometric mean).
    pub(crate) fn new(
        width: usize,
        height: usize,
        bpp: usize,
    ) -> Result<(Self, RlePixelFormat), RleError>
        ensures { checked_in result ≡ checked bpp width height }
    {
        let depth = depth_of(bpp);
        let format = depth.format.ok_or(RleError::InvalidBpp { bpp })?;
        picture_size(width, height, bpp)?;
        let frame = Frame {
            depth,
            width,
            total: width * height,
        };
        Ok((frame, format))
    }

    // The same, and the refusal of a target of `given` bytes that is too short.
    pub(crate) fn with_space(
        given: usize,
        width: usize,
        height: usize,
        bpp: usize,
    ) -> Result<(Self, RlePixelFormat), RleError>
        ensures { checked_in result ≡ with_space given (checked bpp width height) }
    {
        let (frame, format) = Frame::new(width, height, bpp)?;
        let needed = frame.total * frame.depth.bytes;
        if given < needed {
            return Err(RleError::BufferTooShort { needed, given });
        }
        Ok((frame, format))
    }

    // What the picture has left behind so many pixels.
    pub(crate) fn room(self, pixels: usize) -> Room
        requires { pixels ≤ self.total }
        ensures { (result.bytes ≡ self.depth.bytes) × (result.pixels ≡ self.total - pixels) }
    {
        Room {
            bytes: self.depth.bytes,
            pixels: self.total - pixels,
        }
    }

    // The color of a white or black order.
    pub(crate) fn white_or_black(self, kind: Kind) -> [u8; 3]
        ensures white { kind ≡ White → result ≡ self.depth.white }
        ensures black { (kind ≡ White → ⊥) → result ≡ self.depth.black }
    {
        match kind {
            Kind::White => self.depth.white,
            _ => self.depth.black,
        }
    }
}
