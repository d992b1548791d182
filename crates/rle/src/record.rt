// What a completed order was.
ghost use Rattle.std.specs.Prelude.{◌≡◌};
ghost use Rattle.rle.specs.Walking.{record_at};

use crate::head::OrderHead;
use crate::kind::Kind;
use crate::walk::Walk;

// Where an order's run length stands: nowhere (its kind has just one), in the header, in the byte after it, or in two. Nowhere is a case, as
// its number is one of four that C is told.
#[derive(Clone, Copy, Debug, PartialEq, Eq)]
pub enum Place {
    Nowhere,
    InHeader,
    InByte,
    InTwoBytes,
}

// The header byte; where the run length stands; the kind; the run length; the pixels painted; whether the order began in the first
// row; whether its first pixel is an inserted foreground pixel.
#[derive(Clone, Copy, Debug, PartialEq, Eq)]
pub struct OrderRecord {
    pub header: usize,
    pub place: Place,
    pub kind: Kind,
    pub run_length: usize,
    pub pixels: usize,
    pub first_row: bool,
    pub inserted: bool,
}

impl OrderRecord {
    // The record of an order with this head, which begins where the walk stands, and paints so many pixels. A background run paints a
    // pending insert.
    pub(crate) fn new(o: OrderHead, begun: Walk, pixels: usize) -> Self
        ensures { result ≡ record_at o begun pixels }
    {
        OrderRecord {
            header: usize::from(o.header),
            place: o.place,
            kind: o.kind,
            run_length: o.run_length.pixels,
            pixels,
            first_row: begun.first_row,
            inserted: o.kind.leaves_insert() && begun.insert,
        }
    }
}
