// Each run writer beside its plain loop, on two targets: that they leave the same bytes, as the contract of two calls. Nothing calls
// these functions; the prover holds them. What they ask is what both painters ask.
ghost use Rattle.std.specs.Prelude.{◌≡◌, ◌+◌, ◌-◌, ◌*◌, ◌%◌, ◌≤◌, IfSome, length};
ghost use Rattle.picture.specs.Pixels.{OfDepth};
ghost use Rattle.rle.specs.Painting.{HasPlace, Paintable, HasColor, ink_of, zero_ink};

use crate::paint::Ink;
use crate::plain::paint as plain;
use crate::span::Span;

// A color, the pixel above, or the pixel above exclusive-or a color.
pub(crate) fn run_beside(a: &mut [u8], b: &mut [u8], span: Span, ink: Ink)
    requires place { HasPlace span a.old }
    requires paintable { Paintable span ink }
    requires same { a.old ≡ b.old }
    ensures { a.new ≡ b.new }
{
    span.paint_run(a, ink);
    plain::paint_run(b, span, ink);
}

// A background run, with an insert pending or without.
pub(crate) fn bg_run_beside(a: &mut [u8], b: &mut [u8], span: Span, insert: Option<Ink>, bg: Ink)
    requires place { HasPlace span a.old }
    requires insert { IfSome insert (λ ink. Paintable span ink) }
    requires bg { Paintable span bg }
    requires same { a.old ≡ b.old }
    ensures { a.new ≡ b.new }
{
    span.paint_bg_run(a, insert, bg);
    plain::paint_bg_run(b, span, insert, bg);
}

// The masks from src[from] on.
pub(crate) fn masks_beside(
    src: &[u8],
    from: usize,
    a: &mut [u8],
    b: &mut [u8],
    span: Span,
    fg: Ink,
    bg: Ink,
)
    requires place { HasPlace span a.old }
    requires fg { Paintable span fg × HasColor fg }
    requires bg { Paintable span bg × (ink_of bg ≡ zero_ink fg) }
    requires masks { span.pixels ≤ (length src.now - from) * 8 }
    requires same { a.old ≡ b.old }
    ensures { a.new ≡ b.new }
{
    span.paint_masks(src, from, a, fg);
    plain::paint_masks(src, from, b, span, fg, bg);
}

// Two colors by turns.
pub(crate) fn dithered_beside(a: &mut [u8], b: &mut [u8], span: Span, p: [u8; 3], q: [u8; 3])
    requires place { HasPlace span a.old }
    requires even { span.pixels % 2 ≡ 0 }
    requires of_depth { OfDepth span.bytes p × OfDepth span.bytes q }
    requires same { a.old ≡ b.old }
    ensures { a.new ≡ b.new }
{
    span.paint_dithered(a, p, q);
    plain::paint_dithered(b, span, p, q);
}

// The pixels that src begins with.
pub(crate) fn image_beside(src: &[u8], a: &mut [u8], b: &mut [u8], span: Span)
    requires place { HasPlace span a.old }
    requires operands { span.pixels * span.bytes ≤ length src.now }
    requires same { a.old ≡ b.old }
    ensures { a.new ≡ b.new }
{
    span.paint_image(src, a);
    plain::paint_image(src, b, span);
}
