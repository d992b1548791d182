// Planning an order: what it reads and paints and how it ends, from counts alone. Whoever has a target paints the pixels that a plan
// says, and refuses nothing more.
//
// n: the run length, left: bytes of the stream behind it, read: bytes of operands in front of pixels or masks. n and left stay two numbers:
// a dithered run hands on another n, an image behind its foreground another left. The functions ask for bounds of n and read: n is up to twice
// what a `Length` holds, and a type of its own for either would be taken apart at each sum, product and test, and nothing else is done with
// them.
//
// The decoder tells the kinds apart itself, and plans each by its own function: if it planned by `order`, as the walk does, that would be a
// call in both, its plan would go through memory at every order, and the walk would take half as many instructions again.
ghost use Rattle.std.specs.Prelude.{◌≡◌, ◌⊎◌, false, ◌+◌, ◌-◌, ◌*◌, ◌≤◌, ◌<◌, min, leb, Ok};
ghost use Rattle.picture.specs.Sizes.{refusal};
ghost use Rattle.definition.specs.Plan as plan;
ghost use Rattle.rle.specs.Kinds.{kind_in};
ghost use Rattle.rle.specs.Planning.{counts_in};
ghost use Rattle.rle.specs.declared.kind.Kind.TheVariants.{FgRun, FgBgImage, SetFgRun, SetFgBgImage, White, Black, NoOrder};

use crate::kind::Kind;
use crate::length::Length;
use picture::RleError;

// Bytes to read behind the run length, pixels to paint, and how the order ends then. The ending stands beside them, since an order that
// is refused may read and paint too.
#[derive(Clone, Copy)]
pub(crate) struct Plan {
    pub(crate) read: usize,
    pub(crate) pixels: usize,
    pub(crate) ending: Result<(), RleError>,
}

impl Plan {
    pub(crate) fn complete(read: usize, pixels: usize) -> Self
        ensures { counts_in result ≡ plan.counts read pixels plan.Ending.complete }
    {
        Plan {
            read,
            pixels,
            ending: Ok(()),
        }
    }

    pub(crate) fn no_order() -> Self
        ensures { counts_in result ≡ plan.counts 0 0 (plan.Ending.refused (refusal 5 0 0)) }
    {
        Plan {
            read: 0,
            pixels: 0,
            ending: Err(RleError::BadOrderCode),
        }
    }

    pub(crate) fn too_short(read: usize, pixels: usize, expected: usize, actual: usize) -> Self
        ensures { counts_in result ≡ plan.counts read pixels (plan.Ending.refused (refusal 6 expected actual)) }
    {
        Plan {
            read,
            pixels,
            ending: Err(RleError::NotEnoughBytes { expected, actual }),
        }
    }
}

// What the picture has left: so many pixels, of so many bytes each.
#[derive(Clone, Copy)]
pub(crate) struct Room {
    pub(crate) bytes: usize,
    pub(crate) pixels: usize,
    ghost depth: { bytes ≤ 3 },
    ghost few: { pixels ≤ 67108864 },
}

impl Room {
    // n pixels of which the picture has no room for all.
    pub(crate) fn too_large(self, read: usize, pixels: usize, n: usize) -> Plan
        requires { n ≤ 131072 }
        ensures { counts_in result ≡ plan.counts read pixels (plan.Ending.refused (refusal 7 (self.pixels * self.bytes) (n * self.bytes))) }
    {
        Plan {
            read,
            pixels,
            ending: Err(RleError::InvalidImageSize {
                maximum_additional: self.pixels * self.bytes,
                required_additional: n * self.bytes,
            }),
        }
    }

    // n pixels behind so many bytes of operands.
    pub(crate) fn pixels_behind(self, n: usize, read: usize) -> Plan
        requires { n ≤ 131072 }
        ensures { counts_in result ≡ plan.behind read (plan.run_counts self.bytes n self.pixels) }
    {
        if self.pixels < n {
            return self.too_large(read, 0, n);
        }
        Plan::complete(read, n)
    }

    // n pixels with operands of `size` bytes.
    pub(crate) fn with_operands(self, n: usize, left: usize, size: usize) -> Plan
        requires { n ≤ 131072 }
        ensures { counts_in result ≡ plan.with_operands size left (plan.run_counts self.bytes n self.pixels) }
    {
        if left < size {
            return Plan::too_short(0, 0, size, left);
        }
        self.pixels_behind(n, size)
    }

    // A background or foreground run, a special fg/bg image, or a white or black pixel: no operands.
    pub(crate) fn run(self, n: Length) -> Plan
        ensures { counts_in result ≡ plan.run_counts self.bytes n.pixels self.pixels }
    {
        self.pixels_behind(n.pixels, 0)
    }

    // A foreground run, with or without a foreground of its own.
    #[inline(always)]
    pub(crate) fn fg_run(self, kind: Kind, n: Length, left: usize) -> Plan
        requires { (kind ≡ FgRun) ⊎ (kind ≡ SetFgRun) }
        ensures { counts_in result ≡ plan.counts_of self.bytes (kind_in kind) n.pixels left self.pixels }
    {
        self.with_operands(n.pixels, left, kind.foreground_size(self.bytes))
    }

    // A color or set-foreground run: one pixel is its operand.
    pub(crate) fn pixel_run(self, n: Length, left: usize) -> Plan
        ensures { counts_in result ≡ plan.with_operands self.bytes left (plan.run_counts self.bytes n.pixels self.pixels) }
    {
        self.with_operands(n.pixels, left, self.bytes)
    }

    pub(crate) fn color_image(self, n: Length, left: usize) -> Plan
        ensures { counts_in result ≡ plan.with_operands (n.pixels * self.bytes) left (plan.run_counts self.bytes n.pixels self.pixels) }
    {
        self.with_operands(n.pixels, left, n.pixels * self.bytes)
    }

    // n pairs of the two pixels that it reads.
    pub(crate) fn dithered_run(self, n: Length, left: usize) -> Plan
        ensures { counts_in result ≡ plan.with_operands (2 * self.bytes) left (plan.run_counts self.bytes (n.pixels * 2) self.pixels) }
    {
        self.with_operands(n.pixels * 2, left, 2 * self.bytes)
    }

    // The first mask of an fg/bg image that the picture has no room for: pixels / 8 masks have theirs.
    pub(crate) fn no_room(self, n: Length, read: usize) -> Plan
        requires { (self.pixels < n.pixels) × (read ≤ 3) }
        ensures { counts_in result ≡ plan.behind read (plan.no_room self.bytes n.pixels self.pixels) }
    {
        let whole = self.pixels / 8;
        let rest = (n.pixels - whole * 8).min(8);
        let last = Room {
            bytes: self.bytes,
            pixels: self.pixels % 8,
        };
        last.too_large(read + whole + 1, whole * 8, rest)
    }

    // An fg/bg image that does not go through: a mask is missing, or room for its pixels.
    pub(crate) fn cut_image(self, n: Length, left: usize, read: usize) -> Plan
        requires operands { read ≤ 3 }
        requires masks { n.pixels ≤ self.pixels → left < plan.masks_for n.pixels }
        ensures { counts_in result ≡ plan.behind read (plan.image_counts self.bytes n.pixels left self.pixels) }
    {
        if n.pixels <= self.pixels || left <= self.pixels / 8 {
            return no_mask(left, read);
        }
        self.no_room(n, read)
    }

    // n pixels by masks, behind so many bytes of operands; `left` counts the bytes behind those.
    pub(crate) fn image_behind(self, n: Length, left: usize, read: usize) -> Plan
        requires { read ≤ 3 }
        ensures { counts_in result ≡ plan.behind read (plan.image_counts self.bytes n.pixels left self.pixels) }
    {
        // As in `masks_for`; `div_ceil` is defined by a remainder, which the proofs would have to take away again.
        let masks = (n.pixels + 7) / 8;
        if n.pixels <= self.pixels && masks <= left {
            return Plan::complete(read + masks, n.pixels);
        }
        self.cut_image(n, left, read)
    }

    // An fg/bg image, with or without a foreground of its own.
    pub(crate) fn fgbg_image(self, kind: Kind, n: Length, left: usize) -> Plan
        requires { (kind ≡ FgBgImage) ⊎ (kind ≡ SetFgBgImage) }
        ensures { counts_in result ≡ plan.counts_of self.bytes (kind_in kind) n.pixels left self.pixels }
    {
        let size = kind.foreground_size(self.bytes);
        if left < size {
            return Plan::too_short(0, 0, size, left);
        }
        self.image_behind(n, left - size, size)
    }

    // A white or black pixel, or no order.
    pub(crate) fn pixel(self, kind: Kind) -> Plan
        requires { (kind ≡ White) ⊎ ((kind ≡ Black) ⊎ (kind ≡ NoOrder)) }
        ensures { counts_in result ≡ plan.counts_of self.bytes (kind_in kind) 1 0 self.pixels }
    {
        match kind {
            Kind::NoOrder => Plan::no_order(),
            _ => self.run(Length { pixels: 1 }),
        }
    }

    // Plans an order of this kind and run length, whose operands begin at `next` in a stream of `size` bytes. What is left is worked out for
    // each kind that has operands: worked out before, it would be so for the others too.
    pub(crate) fn order(self, kind: Kind, n: Length, size: usize, next: usize) -> Plan
        requires { next ≤ size }
        ensures { counts_in result ≡ plan.counts_of self.bytes (kind_in kind) n.pixels (size - next) self.pixels }
    {
        match kind {
            Kind::BgRun
            | Kind::FgRun
            | Kind::SpecialFgBg1
            | Kind::SpecialFgBg2
            | Kind::White
            | Kind::Black => self.run(n),
            Kind::FgBgImage | Kind::SetFgBgImage => self.fgbg_image(kind, n, size - next),
            Kind::ColorRun | Kind::SetFgRun => self.pixel_run(n, size - next),
            Kind::ColorImage => self.color_image(n, size - next),
            Kind::DitheredRun => self.dithered_run(n, size - next),
            Kind::NoOrder => Plan::no_order(),
        }
    }
}

// An fg/bg image that ends behind all of its masks that are left.
pub(crate) fn no_mask(left: usize, read: usize) -> Plan
    requires { (left ≤ 67108864) × (read ≤ 3) }
    ensures { counts_in result ≡ plan.behind read (plan.no_mask left) }
{
    Plan::too_short(read + left, left * 8, 1, 0)
}
