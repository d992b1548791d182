// The order at a pixel, by the rule.
ghost use Rattle.std.specs.Prelude.{◌≡◌, ◌≤◌};
ghost use Rattle.encode.specs.Orders.{kind_number};

use crate::pixels::Place;

// Every order stops here.
pub(crate) const MAX_RUN: usize = 65535;

// The kinds of orders that are written.
#[derive(Clone, Copy, PartialEq, Eq)]
pub(crate) enum Kind {
    BgRun = 0,
    ColorRun = 3,
    ColorImage = 4,
}

impl Kind {
    // Its place in the table of orders, which stands in headers. A function: of a cast amid `put_head` the proof has the numbers by cases,
    // and no name for which kind it is in each.
    pub(crate) fn number(self) -> u8
        ensures { result ≡ kind_number self }
    {
        self as u8
    }
}

// A kind, and how many pixels it paints.
#[derive(Clone, Copy)]
pub(crate) struct Order {
    pub(crate) kind: Kind,
    pub(crate) pixels: usize,
    pub(crate) ghost one: { 1 ≤ pixels },
    pub(crate) ghost few: { pixels ≤ 65535 },
}

impl Place<'_> {
    ghost use Rattle.encode.specs.Pixels.{pixels_in};
    ghost use Rattle.encode.specs.Orders.{is_background, OrderAt};

    // The order here, with the kind of the order before: directly after a background run there is no other. Out of line, so that `next` of
    // `Orders` is small and loops take it in.
    #[inline(never)]
    pub(crate) fn order(self, before: Kind) -> Order
        ensures { OrderAt self.entry.pixels.now.width (pixels_in self.entry.pixels.now) self.entry.k (is_background before) result.kind result.pixels }
    {
        let equal = self.equal();
        let above = self.above(before);
        if 3 <= above && equal <= above {
            return Order {
                kind: Kind::BgRun,
                pixels: above,
            };
        }
        if 3 <= equal {
            return Order {
                kind: Kind::ColorRun,
                pixels: equal,
            };
        }
        Order {
            kind: Kind::ColorImage,
            pixels: self.image(),
        }
    }
}
