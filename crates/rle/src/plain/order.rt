// One order of the plain decoder: its plan, its foreground, its pixels, and its end, each by its kind.
ghost use Rattle.std.specs.Prelude.{◌≡◌, ◌+◌, ◌-◌, ◌≤◌, length, drop};
ghost use Rattle.definition.specs.Plan as plan;
ghost use Rattle.rle.specs.Kinds.{kind_in};
ghost use Rattle.rle.specs.Painting.{Painted, ink_of};
ghost use Rattle.rle.specs.States.{frame_of, fg_of, bg_of};
ghost use Rattle.rle.specs.Carrying.{HasPicture, CarriesOut};
ghost use Rattle.rle.specs.Operands.{HasOperands};

use crate::frame::Frame;
use crate::kind::Kind;
use crate::order::Order;
use crate::paint::Ink;
use crate::pixel::read_pixel;
use crate::plain::paint::{
    paint_bg_run, paint_dithered, paint_image, paint_mask, paint_masks, paint_run,
};
use crate::span::Span;
use crate::state::{State, Stepped};

// The foreground that the order leaves: the one that stands first in its operands, if it reads one and its bytes are there, else the
// state's.
pub(crate) fn order_foreground(o: Order<'_>) -> [u8; 3]
    ensures { result ≡ plan.foreground_by o.entry.frame.depth.bytes (kind_in o.entry.kind) o.entry.state.foreground (drop o.entry.state.walk.pos o.entry.src.now) }
{
    let d = o.frame.depth.bytes;
    let pos = o.state.walk.pos;
    if o.kind.sets_foreground() && d <= o.src.len() - pos {
        read_pixel(o.src, d, pos)
    } else {
        o.state.foreground
    }
}

// The inks of the foreground and the background: in the first row colors, later by the pixel above.
pub(crate) fn row_inks(f: Frame, s: State) -> (Ink, Ink)
    ensures { (result.0 ≡ fg_of s) × (result.1 ≡ bg_of f s) }
{
    let foreground = s.foreground;
    let black = f.depth.black;
    if s.walk.first_row {
        (Ink::Solid(foreground), Ink::Solid(black))
    } else {
        (Ink::AboveXor(foreground), Ink::Above)
    }
}

// The order's n pixels, in the state with its foreground.
pub(crate) fn paint_order(dst: &mut [u8], o: Order<'_>, n: usize)
    requires place { HasPicture o dst.old }
    requires room { o.state.walk.pixels + n ≤ o.frame.total }
    requires operands { HasOperands o.kind o.frame.depth.bytes n (length o.src.now - o.state.walk.pos) }
    ensures { Painted o.entry.frame.depth.bytes o.entry.frame.width (plan.kind_ink (frame_of o.entry.frame) (kind_in o.entry.kind) o.entry.state.walk.insert (ink_of (fg_of o.entry.state)) (ink_of (bg_of o.entry.frame o.entry.state)) (drop o.entry.state.walk.pos o.entry.src.now)) o.entry.state.walk.pixels n dst.old dst.new }
{
    if n == 0 {
        return;
    }
    let src = o.src;
    let pos = o.state.walk.pos;
    let d = o.frame.depth.bytes;
    let w = o.frame.width;
    let span = Span {
        bytes: d,
        width: w,
        start: o.state.walk.pixels,
        pixels: n,
    };
    let (fg, bg) = row_inks(o.frame, o.state);
    match o.kind {
        Kind::BgRun => paint_bg_run(dst, span, o.state.walk.insert.then_some(fg), bg),
        Kind::FgRun | Kind::SetFgRun => paint_run(dst, span, fg),
        Kind::FgBgImage | Kind::SetFgBgImage => {
            paint_masks(src, pos + o.kind.foreground_size(d), dst, span, fg, bg)
        }
        Kind::SpecialFgBg1 | Kind::SpecialFgBg2 => {
            paint_mask(dst, span, o.kind.special_mask(), fg, bg)
        }
        Kind::ColorRun => paint_run(dst, span, Ink::Solid(read_pixel(src, d, pos))),
        Kind::ColorImage => paint_image(&src[pos..], dst, span),
        Kind::DitheredRun => {
            let a = read_pixel(src, d, pos);
            let b = read_pixel(src, d, pos + d);
            paint_dithered(dst, span, a, b)
        }
        Kind::White | Kind::Black => {
            paint_run(dst, span, Ink::Solid(o.frame.white_or_black(o.kind)))
        }
        Kind::NoOrder => {}
    }
}

// Carries an order out.
pub(crate) fn order(dst: &mut [u8], o: Order<'_>) -> Stepped
    requires { HasPicture o dst.old }
    ensures { CarriesOut o.entry (kind_in o.entry.kind) dst.old dst.new result }
{
    let s = o.state;
    let p = o
        .frame
        .room(s.walk.pixels)
        .order(o.kind, o.run_length, o.src.len(), s.walk.pos);
    let mut t = s;
    let foreground = order_foreground(o);
    t.foreground = foreground;
    let with_foreground = Order {
        src: o.src,
        frame: o.frame,
        state: t,
        kind: o.kind,
        run_length: o.run_length,
    };
    paint_order(dst, with_foreground, p.pixels);
    t.walk.pos = s.walk.pos + p.read;
    t.walk.pixels = s.walk.pixels + p.pixels;
    // A refused order leaves the insert as it was, and is not counted.
    if p.ending.is_ok() {
        t.walk.insert = o.kind.leaves_insert();
        t.orders = s.orders + 1;
    }
    Stepped {
        ending: p.ending,
        state: t,
    }
}
