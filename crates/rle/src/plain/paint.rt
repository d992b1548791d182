// The plain painters: each pixel works out its place, and its place in the row above, from the depth.
ghost use Rattle.std.specs.Prelude.{◌≡◌, ◌+◌, ◌-◌, ◌*◌, ◌%◌, ◌≤◌, eqb, IfSome, length, drop};
ghost use Rattle.base.specs.Picks.{pick};
ghost use Rattle.picture.specs.Pixels.{pixel_at, OfDepth};
ghost use Rattle.definition.specs.Decode as decode;
ghost use Rattle.definition.specs.Plan.{image_ink};
ghost use Rattle.rle.specs.Painting.{HasPlace, Paintable, Paints, ink_of, insert_inks};

use crate::paint::Ink;
use crate::pixel::{read_pixel, write_pixel};
use crate::span::Span;

// The span's pixels, all with one ink.
pub(crate) fn paint_run(dst: &mut [u8], span: Span, ink: Ink)
    requires place { HasPlace span dst.old }
    requires paintable { Paintable span ink }
    ensures { Paints span (λ _. ink_of ink) dst.old dst.new }
{
    for i in 0..span.pixels {
        span.paint_pixel(dst, i, ink);
    }
}

// A background run, the first pixel with the inserted ink, if there is one.
pub(crate) fn paint_bg_run(dst: &mut [u8], span: Span, insert: Option<Ink>, bg: Ink)
    requires place { HasPlace span dst.old }
    requires insert { IfSome insert (λ ink. Paintable span ink) }
    requires bg { Paintable span bg }
    ensures { Paints span (insert_inks insert bg) dst.old dst.new }
{
    if span.pixels == 0 {
        return;
    }
    let Some(fg) = insert else {
        return paint_run(dst, span, bg);
    };
    span.paint_pixel(dst, 0, fg);
    paint_run(dst, span.part(1, span.pixels - 1), bg)
}

// By the bits of a mask.
pub(crate) fn paint_mask(dst: &mut [u8], span: Span, mask: u8, fg: Ink, bg: Ink)
    requires place { HasPlace span dst.old }
    requires fg { Paintable span fg }
    requires bg { Paintable span bg }
    ensures { Paints span (decode.mask_ink (ink_of fg) (ink_of bg) mask) dst.old dst.new }
{
    let mut m = mask;
    for i in 0..span.pixels {
        let ink = if m % 2 == 1 { fg } else { bg };
        span.paint_pixel(dst, i, ink);
        m /= 2;
    }
}

// Eight pixels to a mask, by the masks from src[from] on.
pub(crate) fn paint_masks(src: &[u8], from: usize, dst: &mut [u8], span: Span, fg: Ink, bg: Ink)
    requires place { HasPlace span dst.old }
    requires fg { Paintable span fg }
    requires bg { Paintable span bg }
    requires masks { span.pixels ≤ (length src.now - from) * 8 }
    ensures { Paints span (image_ink (ink_of fg) (ink_of bg) (drop from src.now)) dst.old dst.new }
{
    for i in (0..span.pixels).step_by(8) {
        let eight = span.part(i, (span.pixels - i).min(8));
        paint_mask(dst, eight, src[from + i / 8], fg, bg);
    }
}

// Pixel i of a dithered run: a where i is even, else b.
pub(crate) fn dither_pixel(a: [u8; 3], b: [u8; 3], i: usize) -> [u8; 3]
    ensures { result ≡ pick (eqb (i % 2) 0) a b }
{
    if i % 2 == 0 { a } else { b }
}

// a and b by turns.
pub(crate) fn paint_dithered(dst: &mut [u8], span: Span, a: [u8; 3], b: [u8; 3])
    requires place { HasPlace span dst.old }
    requires of_depth { OfDepth span.bytes a × OfDepth span.bytes b }
    ensures { Paints span (decode.dither_ink a b) dst.old dst.new }
{
    let d = span.bytes;
    for i in 0..span.pixels {
        write_pixel(dst, d, (span.start + i) * d, dither_pixel(a, b, i));
    }
}

// With the pixels that src begins with.
pub(crate) fn paint_image(src: &[u8], dst: &mut [u8], span: Span)
    requires place { HasPlace span dst.old }
    requires operands { span.pixels * span.bytes ≤ length src.now }
    ensures { Paints span (λ j. decode.Ink.solid (pixel_at span.bytes src.now j)) dst.old dst.new }
{
    let d = span.bytes;
    for i in 0..span.pixels {
        let p = read_pixel(src, d, i * d);
        write_pixel(dst, d, (span.start + i) * d, p);
    }
}
