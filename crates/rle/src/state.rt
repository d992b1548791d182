// The decoder's state, and what its orders paint with.
ghost use Rattle.std.specs.Prelude.{◌≡◌, true, ◌+◌, ◌≤◌, ◌<◌};
ghost use Rattle.definition.specs.Plan.{leaves_insert};
ghost use Rattle.rle.specs.Kinds.{kind_in};
ghost use Rattle.rle.specs.States.{fg_of, bg_of, insert_of, IsSpan, start_of, state_from, kept_state, at_pos, completed_in, refused_in, first_row_ended, Fits, finished_of};

use crate::frame::Frame;
use crate::kind::Kind;
use crate::paint::Ink;
use crate::plan::Plan;
use crate::span::Span;
use crate::walk::Walk;
use picture::RleError;

// Where decoding stands between orders: the foreground, the walk, which a walk without a target has too, and the orders completed.
#[derive(Clone, Copy)]
pub(crate) struct State {
    pub(crate) foreground: [u8; 3],
    pub(crate) walk: Walk,
    pub(crate) orders: usize,
}

// The state that a caller keeps, and back.
impl From<decoder_state::State> for State {
    ghost from_gives = { λ s r. r ≡ state_from s };

    fn from(s: decoder_state::State) -> State {
        let [low, middle, high] = s.foreground;
        State {
            foreground: [low, middle, high],
            walk: Walk {
                pos: s.pos,
                insert: s.insert,
                pixels: s.pixels,
                first_row: s.first_row,
            },
            orders: s.orders,
        }
    }
}

impl From<State> for decoder_state::State {
    ghost from_gives = { λ s r. r ≡ kept_state s };

    fn from(s: State) -> decoder_state::State {
        let foreground = s.foreground;
        decoder_state::State {
            foreground,
            pos: s.walk.pos,
            insert: s.walk.insert,
            pixels: s.walk.pixels,
            first_row: s.walk.first_row,
            orders: s.orders,
        }
    }
}

// How an order, or a whole stream, ends, and in which state: a refusal has one too, with the pixels that were painted by then. As a Result
// of states, it would be taken apart for the report, and put together anew where a plan's ending is handed on.
#[derive(Clone, Copy)]
pub(crate) struct Stepped {
    pub(crate) ending: Result<(), RleError>,
    pub(crate) state: State,
}

impl State {
    // The state before the first order.
    pub(crate) fn start(f: Frame) -> Self
        ensures { result ≡ start_of f }
    {
        let foreground = f.depth.white;
        State {
            foreground,
            walk: Walk::start(),
            orders: 0,
        }
    }

    // The state at another place of the stream.
    pub(crate) fn moved(mut self, pos: usize) -> Self
        ensures { result ≡ at_pos self pos }
    {
        self.walk.pos = pos;
        self
    }

    // The stream ends in this state.
    pub(crate) fn completed(self) -> Stepped
        ensures { result ≡ completed_in self }
    {
        Stepped {
            ending: Ok(()),
            state: self,
        }
    }

    // The stream is refused in this state.
    pub(crate) fn refused(self, e: RleError) -> Stepped
        ensures { result ≡ refused_in e self }
    {
        Stepped {
            ending: Err(e),
            state: self,
        }
    }

    // The first row ends for good at an order's start with at least one row painted, and a pending insert is dropped.
    pub(crate) fn end_first_row(mut self, f: Frame) -> Self
        ensures { result ≡ first_row_ended f self }
    {
        let walk = self.walk.end_first_row(f.width);
        self.walk = walk;
        self
    }

    // The pixels to stop at so that no more than n orders are completed, each of which paints one at least; in the first row, its end at most.
    // No state has more than the picture's, so one more is never reached.
    pub(crate) fn limit(self, f: Frame, n: usize) -> usize
        requires { self.walk.pixels ≤ f.total }
        ensures few { result ≤ self.walk.pixels + n }
        ensures row { self.walk.first_row ≡ true → result ≤ f.width }
        ensures further { 0 < n → (self.walk.first_row ≡ true → self.walk.pixels < f.width) → self.walk.pixels < result }
    {
        let limit = self.walk.pixels + n.min(f.total + 1 - self.walk.pixels);
        if self.walk.first_row {
            limit.min(f.width)
        } else {
            limit
        }
    }

    // The state behind an order of this kind that is carried out as planned.
    pub(crate) fn finished(self, p: Plan, kind: Kind) -> Stepped
        requires { Fits self p }
        ensures { result ≡ finished_of self p (leaves_insert (kind_in kind)) }
    {
        let mut t = self;
        t.walk.pos = self.walk.pos + p.read;
        t.walk.pixels = self.walk.pixels + p.pixels;
        if p.ending.is_ok() {
            t.walk.insert = kind.leaves_insert();
            t.orders = self.orders + 1;
        }
        Stepped {
            ending: p.ending,
            state: t,
        }
    }

    // The foreground's ink.
    pub(crate) fn fg_ink(self) -> Ink
        ensures { result ≡ fg_of self }
    {
        let foreground = self.foreground;
        if self.walk.first_row {
            Ink::Solid(foreground)
        } else {
            Ink::AboveXor(foreground)
        }
    }

    // The background's ink.
    pub(crate) fn bg_ink(self, f: Frame) -> Ink
        ensures { result ≡ bg_of f self }
    {
        let black = f.depth.black;
        if self.walk.first_row {
            Ink::Solid(black)
        } else {
            Ink::Above
        }
    }

    // The ink of the pixel that a background run begins with where an insert is pending.
    pub(crate) fn insert_ink(self) -> Option<Ink>
        ensures { result ≡ insert_of self }
    {
        self.walk.insert.then_some(self.fg_ink())
    }

    // The n pixels that come next.
    pub(crate) fn span(self, f: Frame, n: usize) -> Span
        requires { self.walk.pixels + n ≤ 67108864 }
        ensures { IsSpan f self n result }
    {
        Span {
            bytes: f.depth.bytes,
            width: f.width,
            start: self.walk.pixels,
            pixels: n,
        }
    }
}
