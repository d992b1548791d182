// Painting pixels into a target.
//
// Background and foreground runs and fg/bg images, but for the special ones, are painted also where they are of no pixels, since a plan
// that refuses its order asks for none. The other orders end before they paint then.
//
// The run writers promise what they do at each place of a target. They are lent the part that they read and write here, so the place is
// 0, or the row's distance.
//
// Painters that take a span are put where they are called: as calls, which hand the span over in memory, a foreground run of one pixel
// takes some 50 instructions more.
ghost use Rattle.std.specs.Prelude.{◌≡◌, ◌+◌, ◌-◌, ◌*◌, ◌/◌, ◌%◌, ◌≤◌, ◌<◌, IfSome, true, length, drop};
ghost use Rattle.picture.specs.Pixels.{pixel_at, OfDepth};
ghost use Rattle.definition.specs.Decode as decode;
ghost use Rattle.definition.specs.Plan.{image_ink};
ghost use Rattle.rle.specs.Painting.{HasPlace, HasAbove, Paintable, HasColor, PaintedOne, Paints, ink_of, zero_ink, insert_inks, back_and_color};
ghost use Rattle.byte_runs.specs.Runs.{Depth, run, xored, turn, row_there, row_bytes, masked_by};

use crate::pixel::{read_pixel, write_pixel, xor};
use crate::span::Span;
use copy::{copy_back, copy_in};
use fill::{fill, fill_pairs};
use mask::{mask_part, masks};
use xor::xor_back;

// What a pixel is painted with: a color, the pixel above, or the pixel above exclusive-or a color.
//
// Span and ink stay two values, and painters ask that they fit (`Paintable`): a background run has two inks for one span, and so has an
// image of the plain painters. So it is with a color alone (`OfDepth`): a dithered run has two. Masks choose between an ink and the same
// without its color, so they ask for one (`HasColor`).
#[derive(Clone, Copy)]
pub(crate) enum Ink {
    Solid([u8; 3]),
    Above,
    AboveXor([u8; 3]),
}

// n pixels of d bytes from dst[at] on, those `row` bytes back exclusive-or a color. It stays a call: inlined, 1000 pixels of three bytes
// take 1968 instructions, and so 1019. It takes numbers, as a call that hands the span over takes 4 to 10 more.
#[inline(never)]
pub(crate) fn xor_rows(dst: &mut [u8], d: usize, at: usize, n: usize, row: usize, p: [u8; 3])
    requires { Depth d × (row ≤ at) × (at + n * d ≤ length dst.old) }
    ensures { dst.new ≡ run (xored at row (turn p d)) at (n * d) dst.old }
{
    let from = at - row;
    let end = at + n * d;
    xor_back(&mut dst[from..end], d, row, n, row, p);
}

// 8 * m pixels of d bytes from dst[at] on, by the masks from src[from] on, in the first row where `back` is none. It stays a call, since its
// caller is put in two places, and takes numbers: as a call that hands span and ink over, 16 pixels of one byte take 23 instructions more.
// The place of the masks goes with src: where a slice is handed on, the registers that it takes cost color images of few pixels 2.
#[inline(never)]
pub(crate) fn mask_rows(
    src: &[u8],
    from: usize,
    dst: &mut [u8],
    d: usize,
    at: usize,
    m: usize,
    back: Option<usize>,
    p: [u8; 3],
)
    requires depth { Depth d }
    requires fits { (from + m ≤ length src.now) × (at + m * 8 * d ≤ length dst.old) }
    requires back { row_there back at ≡ true }
    ensures { dst.new ≡ run (row_bytes back at (masked_by src.now from d p)) at (m * 8 * d) dst.old }
{
    let row = back.unwrap_or(0);
    let start = at - row;
    let end = at + m * 8 * d;
    let last = from + m;
    masks(
        &src[from..last],
        0,
        &mut dst[start..end],
        d,
        row,
        back,
        m,
        p,
    );
}

impl Span {
    // Its pixel number i.
    #[inline(always)]
    pub(crate) fn paint_pixel(self, dst: &mut [u8], i: usize, ink: Ink)
        requires place { HasPlace self dst.old }
        requires paintable { Paintable self ink }
        requires inside { i < self.pixels }
        ensures { PaintedOne self.bytes self.width (ink_of ink) (self.start + i) dst.old dst.new }
    {
        let d = self.bytes;
        let k = self.start + i;
        match ink {
            Ink::Solid(p) => write_pixel(dst, d, k * d, p),
            Ink::Above => {
                let q = read_pixel(dst, d, (k - self.width) * d);
                write_pixel(dst, d, k * d, q)
            }
            Ink::AboveXor(p) => {
                let q = read_pixel(dst, d, (k - self.width) * d);
                write_pixel(dst, d, k * d, xor(q, p))
            }
        }
    }

    // In a color. The part that is lent is as long as the pixels, so that the compiler finds the tests of `fill` to hold; and so in the
    // others.
    #[inline(always)]
    pub(crate) fn paint_color(self, dst: &mut [u8], p: [u8; 3])
        requires place { HasPlace self dst.old }
        requires of_depth { OfDepth self.bytes p }
        ensures { Paints self (λ _. decode.Ink.solid p) dst.old dst.new }
    {
        let d = self.bytes;
        let at = self.start * d;
        let end = at + self.pixels * d;
        fill(&mut dst[at..end], d, 0, self.pixels, p);
    }

    // With the pixels above.
    #[inline(always)]
    pub(crate) fn paint_above(self, dst: &mut [u8])
        requires place { HasPlace self dst.old }
        requires above { HasAbove self }
        ensures { Paints self (λ _. decode.Ink.above) dst.old dst.new }
    {
        let d = self.bytes;
        let row = self.width * d;
        let len = self.pixels * d;
        let at = self.start * d;
        let from = at - row;
        let end = at + len;
        copy_back(&mut dst[from..end], row, len, row);
    }

    // With the pixels above exclusive-or a color.
    #[inline(always)]
    pub(crate) fn paint_xor(self, dst: &mut [u8], p: [u8; 3])
        requires place { HasPlace self dst.old }
        requires above { HasAbove self }
        requires of_depth { OfDepth self.bytes p }
        ensures { Paints self (λ _. decode.Ink.above_xor p) dst.old dst.new }
    {
        let d = self.bytes;
        xor_rows(dst, d, self.start * d, self.pixels, self.width * d, p);
    }

    // All with one ink, whatever their number.
    #[inline(always)]
    pub(crate) fn paint_many(self, dst: &mut [u8], ink: Ink)
        requires place { HasPlace self dst.old }
        requires paintable { Paintable self ink }
        ensures { Paints self (λ _. ink_of ink) dst.old dst.new }
    {
        match ink {
            Ink::Solid(p) => self.paint_color(dst, p),
            Ink::Above => self.paint_above(dst),
            Ink::AboveXor(p) => self.paint_xor(dst, p),
        }
    }

    // All with one ink: for a single pixel in fewer instructions.
    #[inline(always)]
    pub(crate) fn paint_run(self, dst: &mut [u8], ink: Ink)
        requires place { HasPlace self dst.old }
        requires paintable { Paintable self ink }
        ensures { Paints self (λ _. ink_of ink) dst.old dst.new }
    {
        if self.pixels == 1 {
            return self.paint_pixel(dst, 0, ink);
        }
        self.paint_many(dst, ink)
    }

    // A foreground run. Without the test for no pixels, a first row's run of few pixels of one byte takes 95 instructions, and so 83.
    #[inline(always)]
    pub(crate) fn paint_fg_run(self, dst: &mut [u8], ink: Ink)
        requires place { HasPlace self dst.old }
        requires paintable { Paintable self ink }
        ensures { Paints self (λ _. ink_of ink) dst.old dst.new }
    {
        if self.pixels == 0 {
            return;
        }
        self.paint_run(dst, ink)
    }

    // A background run, the first pixel with the inserted ink, if there is one. Its other pixels take the way for many: a test for a single
    // one takes more instructions than it saves.
    #[inline(always)]
    pub(crate) fn paint_bg_run(self, dst: &mut [u8], insert: Option<Ink>, bg: Ink)
        requires place { HasPlace self dst.old }
        requires insert { IfSome insert (λ ink. Paintable self ink) }
        requires bg { Paintable self bg }
        ensures { Paints self (insert_inks insert bg) dst.old dst.new }
    {
        if self.pixels == 0 {
            return;
        }
        let Some(fg) = insert else {
            return self.paint_many(dst, bg);
        };
        self.paint_pixel(dst, 0, fg);
        if self.pixels == 1 {
            return;
        }
        self.part(1, self.pixels - 1).paint_many(dst, bg)
    }

    // How many bytes back masks look, nowhere in the first row, and the color of their bits that are 1, by the ink of those.
    #[inline(always)]
    pub(crate) fn back_and_color(self, ink: Ink) -> (Option<usize>, [u8; 3])
        requires paintable { Paintable self ink }
        requires place { self.start * self.bytes ≤ 18446744073709551615 }
        ensures { result ≡ back_and_color self ink }
    {
        match ink {
            Ink::Solid(p) => (None, p),
            Ink::Above => (Some(self.width * self.bytes), [0; 3]),
            Ink::AboveXor(p) => (Some(self.width * self.bytes), p),
        }
    }

    // By whole masks, those from src[from] on: where a bit is 1 with the ink, where it is 0 with what the ink is without its color.
    #[inline(always)]
    pub(crate) fn paint_whole_masks(self, src: &[u8], from: usize, dst: &mut [u8], ink: Ink)
        requires place { HasPlace self dst.old }
        requires paintable { Paintable self ink × HasColor ink }
        requires masks { (self.pixels % 8 ≡ 0) × (from + self.pixels / 8 ≤ length src.now) }
        ensures { Paints self (image_ink (ink_of ink) (zero_ink ink) (drop from src.now)) dst.old dst.new }
    {
        let d = self.bytes;
        let (back, p) = self.back_and_color(ink);
        mask_rows(src, from, dst, d, self.start * d, self.pixels / 8, back, p);
    }

    // By one mask, src[from], of which it has eight pixels at most. Here the whole target is lent: for so few pixels a part would take
    // longer than its tests.
    pub(crate) fn paint_mask_part(self, src: &[u8], from: usize, dst: &mut [u8], ink: Ink)
        requires place { HasPlace self dst.old }
        requires paintable { Paintable self ink × HasColor ink }
        requires mask { (self.pixels ≤ 8) × (from < length src.now) }
        ensures { Paints self (image_ink (ink_of ink) (zero_ink ink) (drop from src.now)) dst.old dst.new }
    {
        let d = self.bytes;
        let (back, p) = self.back_and_color(ink);
        let last = from + 1;
        mask_part(
            &src[from..last],
            0,
            dst,
            d,
            self.start * d,
            back,
            self.pixels,
            p,
        );
    }

    // Eight pixels to a mask, by the masks from src[from] on. That place may lie behind the stream where there are no pixels to paint: with
    // a test for it, as a slice from there needs, an image of few pixels takes 204 instructions, and so 182.
    pub(crate) fn paint_masks(self, src: &[u8], from: usize, dst: &mut [u8], ink: Ink)
        requires place { HasPlace self dst.old }
        requires paintable { Paintable self ink × HasColor ink }
        requires masks { self.pixels ≤ (length src.now - from) * 8 }
        ensures { Paints self (image_ink (ink_of ink) (zero_ink ink) (drop from src.now)) dst.old dst.new }
    {
        let m = self.pixels / 8;
        if 0 < m {
            self.part(0, m * 8).paint_whole_masks(src, from, dst, ink);
        }
        let rest = self.pixels % 8;
        if rest == 0 {
            return;
        }
        self.part(m * 8, rest)
            .paint_mask_part(src, from + m, dst, ink);
    }

    // An even number of pixels, a and b by turns.
    pub(crate) fn paint_dithered(self, dst: &mut [u8], a: [u8; 3], b: [u8; 3])
        requires place { HasPlace self dst.old }
        requires even { self.pixels % 2 ≡ 0 }
        requires of_depth { OfDepth self.bytes a × OfDepth self.bytes b }
        ensures { Paints self (decode.dither_ink a b) dst.old dst.new }
    {
        let d = self.bytes;
        let at = self.start * d;
        let end = at + self.pixels * d;
        fill_pairs(&mut dst[at..end], d, 0, self.pixels / 2, a, b);
    }

    // With the pixels that src begins with.
    pub(crate) fn paint_image(self, src: &[u8], dst: &mut [u8])
        requires place { HasPlace self dst.old }
        requires operands { self.pixels * self.bytes ≤ length src.now }
        ensures { Paints self (λ j. decode.Ink.solid (pixel_at self.bytes src.now j)) dst.old dst.new }
    {
        let len = self.pixels * self.bytes;
        let at = self.start * self.bytes;
        let end = at + len;
        copy_in(&src[..len], 0, &mut dst[at..end], 0, len);
    }
}
