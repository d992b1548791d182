// A walk over a stream's orders by their plans, without a target: the same plans as the decoder's, by `Room::order`, which the plain
// decoder calls too. The other decoder does not: its orders are each planned and painted by a function of their kind.
ghost use Rattle.std.specs.Prelude.{◌≡◌, ◌≤◌};
ghost use Rattle.definition.specs.Decode as decode;
ghost use Rattle.definition.specs.Decode.{summary_of};
ghost use Rattle.rle.specs.Report.{summary_in};
ghost use Rattle.rle.specs.Reporting.{report_in};
ghost use Rattle.rle.specs.States.{frame_of};
ghost use Rattle.rle.specs.Walks.{start_walk};
ghost use Rattle.rle.specs.Walking.{WalksOrders, row_ended, stopped_at, found_by};

use crate::frame::Frame;
use crate::head::read_head;
use crate::record::OrderRecord;
use crate::report::Report;
use picture::RleError;

// Where a walk stands between two orders: the place in the stream, whether an insert is pending, the pixels painted, the first-row
// mark. The decoder's state has it too, and for its sake no two fields of one byte stand side by side: the compiler would pack them
// into one register and take them apart at every order.
#[derive(Clone, Copy, Debug, PartialEq, Eq)]
pub struct Walk {
    pub pos: usize,
    pub insert: bool,
    pub pixels: usize,
    pub first_row: bool,
}

impl Walk {
    // The walk at a stream's start.
    pub fn start() -> Self
        ensures { result ≡ start_walk }
    {
        Walk {
            pos: 0,
            insert: false,
            pixels: 0,
            first_row: true,
        }
    }

    // The first row ends for good at an order's start with at least one row painted, and a pending insert is dropped. Both by what the row
    // still is: with an `if` around both, a walk takes three instructions more at each order.
    pub(crate) fn end_first_row(mut self, width: usize) -> Self
        ensures { result ≡ row_ended width self }
    {
        let still = self.first_row && self.pixels < width;
        self.insert = self.insert && self.first_row == still;
        self.first_row = still;
        self
    }

    // The answer of a walk that stops here.
    pub(crate) fn stopped(
        self,
        stop: Result<Option<OrderRecord>, RleError>,
        orders: usize,
    ) -> Walked
        ensures { result ≡ stopped_at stop self orders }
    {
        Walked {
            stop,
            walk: self,
            orders,
        }
    }
}

// The order that was looked for, with the walk behind it.
#[derive(Clone, Copy, Debug, PartialEq, Eq)]
pub struct Found {
    pub order: OrderRecord,
    pub walk: Walk,
}

// How a walk stopped, and where, with the orders that were completed on the way: behind the order that was looked for, at the
// stream's end, or at a refusal. This leaves it at the refused order, with the pixels that were painted by then.
#[derive(Clone, Copy)]
pub(crate) struct Walked {
    pub(crate) stop: Result<Option<OrderRecord>, RleError>,
    pub(crate) walk: Walk,
    pub(crate) orders: usize,
}

impl Walked {
    // What a walk that stopped so has found.
    pub(crate) fn found(self) -> Option<Found>
        ensures { result ≡ found_by self.stop self.walk }
    {
        let order = self.stop.ok()??;
        Some(Found {
            order,
            walk: self.walk,
        })
    }
}

// Orders from `from` on until number n of them, counted from 0, is completed, or to the stream's end or its refusal.
// A loop, and no iterator: the answer is where the walk stands as it stops, at a refusal too, and `nth` and `count` of an iterator give an
// item or a number.
pub(crate) fn walk_orders(src: &[u8], f: Frame, from: Walk, n: usize) -> Walked
    requires { from.pixels ≤ f.total }
    ensures { WalksOrders (frame_of f) src.now from n result }
{
    // Put together anew: taken over whole, the bytes between its fields would go along, and keep a register of the loop.
    let mut walk = Walk {
        pos: from.pos,
        insert: from.insert,
        pixels: from.pixels,
        first_row: from.first_row,
    };
    let mut orders = 0;
    loop {
        let o = match read_head(src, walk.pos) {
            Ok(Some(o)) => o,
            Ok(None) => return walk.stopped(Ok(None), orders),
            Err(r) => return walk.stopped(Err(r.error), orders),
        };
        let p = f
            .room(walk.pixels)
            .order(o.kind, o.run_length, src.len(), o.next);
        if let Err(e) = p.ending {
            walk.pixels += p.pixels;
            return walk.stopped(Err(e), orders);
        }
        let begun = walk.end_first_row(f.width);
        walk = Walk {
            pos: o.next + p.read,
            pixels: begun.pixels + p.pixels,
            insert: o.kind.leaves_insert(),
            first_row: begun.first_row,
        };
        orders += 1;
        if n < orders {
            let r = OrderRecord::new(o, begun, p.pixels);
            return walk.stopped(Ok(Some(r)), orders);
        }
    }
}

// The report of the stream of a picture, without a target, or the refusal of its depth or its sizes. These come one by one, as to
// `decompress`.
pub(crate) fn count_in(
    src: &[u8],
    width: usize,
    height: usize,
    bpp: usize,
) -> Result<Report, RleError>
    ensures { summary_in (report_in result) ≡ summary_of (decode.result src.now bpp width height) }
{
    let (f, format) = Frame::new(width, height, bpp)?;
    // No picture completes more orders than it has pixels.
    let r = walk_orders(src, f, Walk::start(), f.total);
    let ending = r.stop.map(|_| ());
    Ok(Report::new(ending, r.walk.pixels, r.orders, format))
}
