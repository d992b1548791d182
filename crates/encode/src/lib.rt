// Encoder of interleaved RLE bitmaps: pixels to stream, by the rule of the crate `encoding`.
#![tactic(auto)]

ghost use Rattle.std.specs.Prelude.{◌≡◌};
ghost use Rattle.encoding.specs.Bound.{bound};
ghost use Rattle.encode.specs.Promises.{Compresses};

pub(crate) mod bytes;
pub mod error;
pub(crate) mod head;
pub(crate) mod image;
pub(crate) mod order;
pub(crate) mod orders;
pub(crate) mod pixels;
pub(crate) mod stream;
pub(crate) mod stretch;

pub use error::CompressError;
use head::overhead;
use picture::{RleError, bytes_per_pixel, picture_size};
use pixels::Pixels;

// Encodes the picture that `src` starts with into the first bytes of `dst`, and tells how many. The bytes after the stream stay; where
// there is none, all of them. Width, height and depth come one by one, as to `decompress` and from C.
pub fn compress(
    src: &[u8],
    dst: &mut [u8],
    width: usize,
    height: usize,
    bpp: usize,
) -> Result<usize, CompressError>
    ensures { Compresses src.now bpp width height dst.old dst.new result }
{
    let needed = picture_size(width, height, bpp)?;
    let given = src.len();
    if given < needed {
        return Err(RleError::BufferTooShort { needed, given }.into());
    }
    let pixels = Pixels {
        src,
        bytes: bytes_per_pixel(bpp),
        width,
        total: width * height,
    };
    if !pixels.stream_fits(dst.len()) {
        return Err(CompressError::OutputTooShort);
    }
    Ok(pixels.write_stream(dst))
}

// The most bytes that the stream of a picture of this depth and these sizes has: with so many, `compress` never finds the output too
// short. 0 where there are no such pictures, in place of None: the call never fails, as the one for C which hands the number on. By
// `match`: a closure, as for `map_or`, would need a contract of its own that says that the sum fits. Depth and sizes as for `compress`.
pub fn compress_bound(width: usize, height: usize, bpp: usize) -> usize
    ensures { result ≡ bound bpp width height }
{
    match picture_size(width, height, bpp) {
        Ok(n) => n + overhead(bytes_per_pixel(bpp), width * height),
        Err(_) => 0,
    }
}
