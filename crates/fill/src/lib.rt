// Pixels of one color, or of two by turns, in a target: units of some bytes over and over. Callers have the depth as a number, and every
// number is allowed.
#![tactic(auto)]

ghost use Rattle.std.specs.Prelude.{◌≡◌, ◌+◌, ◌*◌, ◌≤◌, ◌<◌, leb, length};
ghost use Rattle.byte_runs.specs.Runs.{run, run_where, both, there, above, pixels_there, bytes, turn, pair_of};

use byte_runs::pixels_fit;
use copy::copy_back;

// n units from dst[at] on, stored one by one: by an index, since a proof knows nothing of a slice's elements once `chunks_exact_mut` has lent
// its parts. By `fill` runs of 4 to 64 pixels of one byte take 14 to 17 instructions more.
fn store_units<const N: usize>(dst: &mut [u8], at: usize, n: usize, unit: [u8; N])
    requires { (0 < N) × (at + n * N ≤ length dst.old) }
    ensures { dst.new ≡ run (bytes (turn unit.entry N)) at (n * N) dst.old }
{
    for i in 0..n {
        let to = at + i * N;
        dst[to..to + N].copy_from_slice(&unit);
    }
}

// len bytes from dst[at] on, each the one `period` places back. It stays a call: inlined, every order takes 1 to 5 instructions more, for
// registers.
#[inline(never)]
fn repeat(dst: &mut [u8], at: usize, len: usize, period: usize)
    ensures { dst.new ≡ run_where (both (leb period at) (there at len dst.old)) (above at period) at len dst.old }
{
    copy_back(dst, at, len, period);
}

// n units from dst[at] on: of more than `most` the first are stored, and the others copied from them.
fn fill_units<const N: usize>(dst: &mut [u8], at: usize, n: usize, unit: [u8; N], most: usize)
    requires { (0 < N) × (N ≤ 6) × (0 < most) × (at + n * N ≤ length dst.old) }
    ensures { dst.new ≡ run (bytes (turn unit.entry N)) at (n * N) dst.old }
{
    if n <= most {
        store_units(dst, at, n, unit);
        return;
    }
    store_units(dst, at, most, unit);
    let stored = most * N;
    repeat(dst, at + stored, (n - most) * N, stored);
}

// n pixels of d bytes from dst[at] on, each the first d bytes of `pixel`; nothing where d is no depth or they have no place.
pub fn fill(dst: &mut [u8], d: usize, at: usize, n: usize, pixel: [u8; 3])
    ensures { dst.new ≡ run_where (pixels_there d at n dst.old) (bytes (turn pixel d)) at (n * d) dst.old }
{
    if dst.len() < at || !pixels_fit(d, n, dst.len() - at) {
        return;
    }
    let [a, b, _] = pixel;
    match d {
        1 => store_units(dst, at, n, [a]),
        2 => store_units(dst, at, n, [a, b]),
        _ => fill_units(dst, at, n, pixel, 16),
    }
}

// n pairs of pixels of d bytes from dst[at] on, p and q by turns; nothing where d is no depth or they have no place.
pub fn fill_pairs(dst: &mut [u8], d: usize, at: usize, n: usize, p: [u8; 3], q: [u8; 3])
    ensures { dst.new ≡ run_where (pixels_there d at (n * 2) dst.old) (bytes (turn (pair_of d p q) (2 * d))) at (n * 2 * d) dst.old }
{
    if dst.len() < at || !pixels_fit(d, n, (dst.len() - at) / 2) {
        return;
    }
    match d {
        1 => store_units(dst, at, n, [p[0], q[0]]),
        2 => fill_units(dst, at, n, [p[0], p[1], q[0], q[1]], 24),
        _ => fill_units(dst, at, n, [p[0], p[1], p[2], q[0], q[1], q[2]], 8),
    }
}
