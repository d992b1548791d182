// The orders of a picture's stream, one after the other.
use crate::order::{Kind, Order};
use crate::pixels::{Pixels, Place};

// Each comes with the pixel that it starts at.
#[derive(Drop)]
pub(crate) struct Orders<'a> {
    pixels: &'a Pixels<'a>,
    k: usize,
    // The kind of the order before. At the start that of an image, after which every order may stand too: None would be one more value
    // that means just that.
    before: Kind,
}

impl<'a> Pixels<'a> {
    ghost use Rattle.encode.specs.declared.order.Kind.TheVariants.{ColorImage};
    ghost use Rattle.encode.specs.Stream.{OrdersFrom};

    pub(crate) fn orders(&self) -> Orders<'_>
        ensures { OrdersFrom self.now 0 ColorImage result }
    {
        Orders {
            pixels: self,
            k: 0,
            before: Kind::ColorImage,
        }
    }
}

impl Iterator for Orders<'_> {
    ghost use Rattle.std.specs.Prelude.{◌-◌, MatchOption, ◌≤◌};
    ghost use Rattle.std.specs.Iterator.{at_most};
    ghost use Rattle.encode.specs.Stream.{OrderTaken};

    type Item = (usize, Order);

    ghost next_gives = { λ s r t. MatchOption r (s.pixels.now.total ≤ s.k) (λ o. OrderTaken s o.0 o.1 t) };

    ghost remaining = { λ s. at_most (s.pixels.now.total - s.k) };

    fn next(&mut self) -> Option<(usize, Order)> {
        if self.pixels.total <= self.k {
            return None;
        }
        let place = Place {
            pixels: self.pixels,
            k: self.k,
        };
        let order = place.order(self.before);
        self.k += order.pixels;
        self.before = order.kind;
        Some((place.k, order))
    }
}
