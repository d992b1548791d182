// The state between orders, by value: where decoding stands in a stream and in its target.
//
// What it stands for, and which states are refused, is defined in the crate `definition`, specs/Pauses.antt.
#![tactic(auto)]

ghost use Rattle.std.specs.Prelude.{◌≡◌};
ghost use Rattle.definition.specs.Pauses.{start_at, unused_byte, bad_state};
ghost use Rattle.decoder_state.specs.States.{saved_in};

use picture::depth_of;

// The foreground, the place in the stream, whether an insert is pending, the pixels painted, the first-row mark, the orders completed, one by
// one: the value that a caller keeps between two calls. The decoder's own state (`rle`, src/state.rt) holds four of them as a walk, which a
// walk without a target has too. As one type, all its methods, which take frames, plans and spans, would need a trait in `rle`.
#[derive(Clone, Copy, Debug, PartialEq, Eq)]
pub struct State {
    pub foreground: [u8; 3],
    pub pos: usize,
    pub insert: bool,
    pub pixels: usize,
    pub first_row: bool,
    pub orders: usize,
}

impl State {
    // The state before the first order, at so many bits per pixel; with a foreground of zeros where the depth table has none.
    pub fn start(bpp: usize) -> State
        ensures { saved_in result ≡ start_at bpp }
    {
        let white = depth_of(bpp).white;
        State {
            foreground: white,
            pos: 0,
            insert: false,
            pixels: 0,
            first_row: true,
            orders: 0,
        }
    }

    // Whether the state is none to go on from, in a stream of `size` bytes, for a picture of `total` pixels of d bytes in rows of `width`.
    #[tactic(auto, unfolding(definition::specs::Pauses::bad_state))]
    pub fn is_bad(self, size: usize, total: usize, width: usize, d: usize) -> bool
        ensures { result ≡ bad_state size total width d (saved_in self) }
    {
        size < self.pos
            || total < self.pixels
            || self.pixels < self.orders
            || (!self.first_row && self.pixels < width)
            || unused_byte(self.foreground, d)
    }
}

// Whether one of the bytes that pixels of d bytes do not use is not zero.
#[tactic(auto, unfolding(definition::specs::Pauses::unused_byte))]
fn unused_byte(p: [u8; 3], d: usize) -> bool
    ensures { result ≡ unused_byte d p }
{
    let [_, second, third] = p;
    (d < 2 && second != 0) || (d < 3 && third != 0)
}
