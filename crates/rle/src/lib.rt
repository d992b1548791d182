// Decoder of interleaved RLE bitmaps (MS-RDPBCGR 2.2.9.1.1.3.1.2.4 and 3.1.9), a port of IronRDP's rle.rs.
//
// What a stream means is defined in the crate `definition`; what `decompress` promises of it, in specs/Report.antt, and what
// `decompress_some` promises, in specs/Pauses.antt.
#![tactic(auto)]

ghost use Rattle.std.specs.Prelude.{◌≡◌};
ghost use Rattle.definition.specs.Decode as decode_of;
ghost use Rattle.definition.specs.Decode.{summary_of};
ghost use Rattle.rle.specs.Report.{summary_in, Decompresses};
ghost use Rattle.rle.specs.Walks.{FindsOrder};

pub(crate) mod decode;
pub(crate) mod frame;
pub(crate) mod head;
pub(crate) mod header;
pub(crate) mod image;
pub mod kind;
pub(crate) mod length;
pub(crate) mod order;
pub(crate) mod paint;
pub mod pauses;
pub(crate) mod pixel;
pub mod plain;
pub(crate) mod plan;
pub(crate) mod reader;
pub mod record;
pub mod report;
pub(crate) mod run;
pub(crate) mod span;
pub(crate) mod state;
pub mod walk;

use decode::{Fast, decompress_by};
pub use decoder_state::State;
use frame::Frame;
pub use kind::Kind;
pub use pauses::{Progress, ResumeError, SomeReport, decompress_some};
pub use record::{OrderRecord, Place};
pub use report::Report;
pub use walk::{Found, Walk};
use walk::{count_in, walk_orders};

// Decodes the stream `src` of a picture into the first bytes of `dst`, of which the bytes after the painted pixels stay. Width,
// height and bits of a pixel are three numbers, as in rle.rs's `decompress`.
pub fn decompress(src: &[u8], dst: &mut [u8], width: usize, height: usize, bpp: usize) -> Report
    ensures { Decompresses src.now bpp width height dst.old dst.new result }
{
    decompress_by::<Fast>(src, dst, width, height, bpp).unwrap_or_else(Report::from)
}

// What `decompress` reports of the stream in every target that has space, without one.
pub fn count_orders(src: &[u8], width: usize, height: usize, bpp: usize) -> Report
    ensures { summary_in result ≡ summary_of (decode_of.result src.now bpp width height) }
{
    count_in(src, width, height, bpp).unwrap_or_else(Report::from)
}

// The order number n, from 0, of those that the stream completes from `from` on: its record, and the walk behind it. From the start of
// a stream on they are those that `decompress` completes. Every walk may be gone on from, also one that no stream leads to.
pub fn nth_order(
    src: &[u8],
    width: usize,
    height: usize,
    bpp: usize,
    from: Walk,
    n: usize,
) -> Option<Found>
    ensures { FindsOrder src.now bpp width height from n result }
{
    let (f, _) = Frame::new(width, height, bpp).ok()?;
    if f.total < from.pixels {
        return None;
    }
    walk_orders(src, f, from, n).found()
}
