// A decoder that works out depth and row distance at each pixel. It meets the contract of `rle::decompress`, so both give the same;
// the crate two_decoders has that as the contract of two calls.
//
// It shares no function that takes a state with the other decoder, and no painter but that of one pixel: its loop, its orders and its
// painters of many pixels are its own. What both have is what an order reads and plans, the state that a stream begins in, and the report.
ghost use Rattle.rle.specs.Report.{Decompresses};

pub(crate) mod beside;
pub(crate) mod decode;
pub(crate) mod order;
pub(crate) mod paint;

use crate::decode::decompress_by;
use crate::plain::decode::Plain;
use crate::report::Report;

// Decodes the stream `src` of a picture into the first bytes of `dst`, of which the bytes after the painted pixels stay. Depth and sizes
// come one by one, as to the other decoder.
pub fn decompress(src: &[u8], dst: &mut [u8], width: usize, height: usize, bpp: usize) -> Report
    ensures { Decompresses src.now bpp width height dst.old dst.new result }
{
    decompress_by::<Plain>(src, dst, width, height, bpp).unwrap_or_else(Report::from)
}
