// Decoding that stops after some orders and goes on, for C. include/nulambiro.h says what a caller needs to know.
ghost use Rattle.std.specs.Prelude.{◌≡◌, ◌<◌, length};
ghost use Rattle.definition.specs.Decode.{summary_of};
ghost use Rattle.definition.specs.Pauses.{start_at, decode_some};
ghost use Rattle.decoder_state.specs.States.{saved_in};
ghost use Rattle.rle.specs.Pauses.{summary_some};
ghost use Rattle.nulambiro.specs.Numbers.{numbers, target};
ghost use Rattle.nulambiro.specs.StateNumbers.{state_numbers, state_of, numbers_after, IsBack, IsBackWhere};

use crate::counted_numbers;
use picture::Numbers;
use rle::{Progress, SomeReport, State};

// A state in numbers.
pub(crate) fn state_numbers(s: State) -> [u64; 8]
    ensures numbers { result ≡ state_numbers (saved_in s) }
    ensures back { IsBack (saved_in s) result }
{
    let [low, middle, high] = s.foreground;
    let foreground = u64::from(low) + 256 * u64::from(middle) + 65536 * u64::from(high);
    [
        s.pos as u64,
        s.pixels as u64,
        foreground,
        u64::from(s.insert),
        u64::from(s.first_row),
        s.orders as u64,
        0,
        0,
    ]
}

// A state from its numbers, for a stream of `size` bytes. Numbers that no state has are told as a place past the stream, so that they are
// refused where such a place is: after depth, sizes and target.
#[tactic(auto, unfolding(crate::specs::StateNumbers::no_state, crate::specs::StateNumbers::state_of))]
pub(crate) fn state_of(state: &[u64; 8], size: usize) -> State
    requires { size < 18446744073709551615 }
    ensures { saved_in result ≡ state_of size state.now }
{
    let [
        bytes,
        pixels,
        foreground,
        insert,
        first_row,
        orders,
        place_6,
        place_7,
    ] = *state;
    if foreground > 0xFF_FFFF || insert > 1 || first_row > 1 || place_6 > 0 || place_7 > 0 {
        return State {
            foreground: [0; 3],
            pos: size + 1,
            insert: false,
            pixels: 0,
            first_row: false,
            orders: 0,
        };
    }
    let [low, middle, high, ..] = foreground.to_le_bytes();
    State {
        foreground: [low, middle, high],
        pos: bytes as usize,
        insert: insert == 1,
        pixels: pixels as usize,
        first_row: first_row == 1,
        orders: orders as usize,
    }
}

// A report in numbers. Where orders are paused there is neither a format nor a refusal.
#[tactic(auto, unfolding(crate::specs::Numbers::numbers))]
pub(crate) fn some_numbers(report: SomeReport) -> [u64; 8]
    ensures { result ≡ numbers (summary_some report) }
{
    let n = match report.outcome {
        Ok(Progress::Ended(format)) => Numbers {
            format: format.bits_per_pixel(),
            ..Numbers::default()
        },
        Ok(Progress::Paused(_)) => Numbers::default(),
        Err(e) => Numbers::from(e),
    };
    counted_numbers(n, report.pixels, report.orders)
}

#[unsafe(no_mangle)]
pub extern "C" fn nulambiro_start(bpp: usize, state: &mut [u64; 8])
    ensures state_after { state.new ≡ state_numbers (start_at bpp) }
    ensures back { IsBack (start_at bpp) state.new }
{
    *state = state_numbers(State::start(bpp));
}

#[tactic(auto, unfolding(crate::specs::Numbers::target))]
#[unsafe(no_mangle)]
pub extern "C" fn nulambiro_decompress_some(
    src: &[u8],
    dst: &mut [u8],
    width: usize,
    height: usize,
    bpp: usize,
    limit: usize,
    state: &mut [u64; 8],
    report: &mut [u64; 8],
)
    ensures dst_after { dst.new ≡ target (decode_some src.now bpp width height dst.old (state_of (length src.now) state.old) limit).result dst.old }
    ensures state_after { state.new ≡ numbers_after (decode_some src.now bpp width height dst.old (state_of (length src.now) state.old) limit).state state.old }
    ensures report_after { report.new ≡ numbers (summary_of (decode_some src.now bpp width height dst.old (state_of (length src.now) state.old) limit).result) }
    ensures back { IsBackWhere (decode_some src.now bpp width height dst.old (state_of (length src.now) state.old) limit).state state.new }
{
    let from = state_of(state, src.len());
    let r = rle::decompress_some(src, dst, width, height, bpp, from, limit);
    if let Ok(Progress::Paused(next)) = r.outcome {
        *state = state_numbers(next);
    }
    *report = some_numbers(r);
}
