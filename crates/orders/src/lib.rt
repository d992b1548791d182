// The records of a stream's completed orders: how each of them was written, without a target.
//
// Width, height and depth come one by one, as to `decompress` and from C.
#![tactic(auto)]

ghost use Rattle.std.specs.Prelude.{◌≡◌};
ghost use Rattle.definition.specs.Records.{records, nth};
ghost use Rattle.rle.specs.Report.{Decompresses};
ghost use Rattle.rle.specs.Guarantees.{HasSpace};
ghost use Rattle.orders.specs.Promises.{recorded_in, CountsOrders};

use rle::{OrderRecord, Walk};

#[derive(Clone, Copy, Debug, PartialEq, Eq)]
pub struct Decoded {
    pub report: rle::Report,
    pub recorded: Option<OrderRecord>,
}

// The record of order n, counted from 0, of those that `decompress` completes; none where fewer are completed.
pub fn order_record(
    src: &[u8],
    width: usize,
    height: usize,
    bpp: usize,
    n: usize,
) -> Option<OrderRecord>
    ensures { recorded_in result ≡ nth (records src.now bpp width height) n }
{
    rle::nth_order(src, width, height, bpp, Walk::start(), n).map(|found| found.order)
}

// Decodes the stream, and looks at its order n: there is one exactly if more than n are completed.
pub fn decode_and_look(
    src: &[u8],
    dst: &mut [u8],
    width: usize,
    height: usize,
    bpp: usize,
    n: usize,
) -> Decoded
    ensures decompresses { Decompresses src.now bpp width height dst.old dst.new result.report }
    ensures recorded { recorded_in result.recorded ≡ nth (records src.now bpp width height) n }
    ensures counts_orders { HasSpace dst.old bpp width height → CountsOrders src.now bpp width height n result.report result.recorded }
{
    let report = rle::decompress(src, dst, width, height, bpp);
    let recorded = order_record(src, width, height, bpp, n);
    Decoded { report, recorded }
}
