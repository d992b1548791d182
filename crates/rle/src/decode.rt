// Orders of a stream: the loop over them, and a call of a decoder.
ghost use Rattle.std.specs.Prelude.{◌-◌, ◌*◌, ◌≤◌, ◌<◌, length};
ghost use Rattle.definition.specs.Decode as decode;
ghost use Rattle.rle.specs.States.{frame_of, state_of, state_from, Invariant};
ghost use Rattle.rle.specs.Orders.{Decodes, DecodesOn};
ghost use Rattle.rle.specs.Report.{Decompresses};
ghost use Rattle.rle.specs.Reporting.{report_in};

use crate::frame::Frame;
use crate::head::read_head;
use crate::order::Order;
use crate::report::Report;
use crate::state::{State, Stepped};
use picture::RleError;

// A way to carry out all orders of a stream.
pub(crate) trait Decoder {
    fn decode(src: &[u8], dst: &mut [u8], f: Frame) -> Stepped
        requires { f.total * f.depth.bytes ≤ length dst.old }
        ensures { Decodes (frame_of f) src.now dst.old dst.new (decode.decode (frame_of f) src.now) result };
}

// Decodes the stream of a picture by D into the first bytes of `dst`, or refuses depth, sizes or target. Depth and sizes come one by one, as
// to `decompress`.
pub(crate) fn decompress_by<D: Decoder>(
    src: &[u8],
    dst: &mut [u8],
    width: usize,
    height: usize,
    bpp: usize,
) -> Result<Report, RleError>
    ensures { Decompresses src.now bpp width height dst.old dst.new (report_in result) }
{
    let (f, format) = Frame::with_space(dst.len(), width, height, bpp)?;
    let r = D::decode(src, dst, f);
    Ok(Report::new(r.ending, r.state.walk.pixels, r.state.orders, format))
}

// Orders from the state s on, n at most: to the stream's end or its refusal, or until the first row ends, or n pixels are painted, of which
// each order paints one at least. So no order has to count, or to look for the first row's end. A loop, and no iterator over the orders as
// the encoder has: it changes a target that is lent, and its answer is the state in which it ends.
pub(crate) fn next_orders(src: &[u8], dst: &mut [u8], f: Frame, s: State, n: usize) -> Stepped
    requires fits { f.total * f.depth.bytes ≤ length dst.old }
    requires invariant { Invariant (frame_of f) s }
    requires more { (s.walk.pos < length src.now) × (0 < n) }
    ensures { DecodesOn (frame_of f) src.now dst.old dst.new n s result }
{
    let mut t = s.end_first_row(f);
    let limit = t.limit(f, n);
    while t.walk.pixels < limit {
        match read_head(src, t.walk.pos) {
            Ok(None) => return t.completed(),
            Err(r) => return t.moved(r.next).refused(r.error),
            Ok(Some(o)) => {
                let next = Order {
                    src,
                    frame: f,
                    state: t.moved(o.next),
                    kind: o.kind,
                    run_length: o.run_length,
                };
                let r = next.carry_out(dst);
                if r.ending.is_err() {
                    return r;
                }
                t = r.state;
            }
        }
    }
    t.completed()
}

// Orders from the state `from` on, until `stop` are completed since the stream's start, or to the stream's end or its refusal. The state
// comes as a caller keeps it, and is put together anew: taken over whole, its fields would stand packed in registers, and be taken apart at
// every order.
pub(crate) fn some_orders(
    src: &[u8],
    dst: &mut [u8],
    f: Frame,
    from: decoder_state::State,
    stop: usize,
) -> Stepped
    requires fits { f.total * f.depth.bytes ≤ length dst.old }
    requires invariant { Invariant (frame_of f) (state_from from) }
    requires place { from.pos ≤ length src.now }
    ensures { Decodes (frame_of f) src.now dst.old dst.new (decode.run (frame_of f) (stop - from.orders) (state_of (frame_of f) src.now dst.old (state_from from))) result }
{
    let mut t = State::from(from);
    // All orders of a stream take two turns at most, the first row and the rest: one call, so that the compiler makes one loop of both.
    while t.orders < stop && t.walk.pos < src.len() {
        let r = next_orders(src, dst, f, t, stop - t.orders);
        if r.ending.is_err() {
            return r;
        }
        t = r.state;
    }
    t.completed()
}

// The decoder whose orders are painted by blocks.
pub(crate) struct Fast;

impl Decoder for Fast {
    // No stream has so many orders. With as many as it has bytes, the limit would be below the picture's pixels.
    fn decode(src: &[u8], dst: &mut [u8], f: Frame) -> Stepped {
        some_orders(src, dst, f, State::start(f).into(), usize::MAX)
    }
}
