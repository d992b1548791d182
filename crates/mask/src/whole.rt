// Whole masks: eight pixels of D bytes at a time, N bytes.
ghost use Rattle.std.specs.Prelude.{◌≡◌, true, ℕ, ◌+◌, ◌*◌, ◌/◌, ◌≤◌, ◌<◌, ◌==◌, if◌then◌else◌, bit_and, length, get_or};
ghost use Rattle.byte_runs.specs.Runs.{Eight, run, listed, byte_back, row_holds, row_bytes, inked_by, masked_by};

use crate::Masked;
use byte_runs::pattern;

// What a mask that stands twice in 16 bits is tested against for each of its bits: bits 0 to 3 in the upper copy and bits 4 to 7 in the
// lower, so that none is a sign bit, which the compiler would test in a way of its own and not by vector code.
const BITS: [u16; 8] = [256, 512, 1024, 2048, 16, 32, 64, 128];

// For each byte the test of its pixel's bit. By an index: for `from_fn` the closure has to say by clauses of its own what i and D are,
// and is longer.
fn tests<const D: usize, const N: usize>() -> [u16; N]
    requires { Eight D N }
    ensures { (i : ℕ) → i < N → get_or result i 0 ≡ get_or BITS (i / D) 0 }
{
    let mut t = [0; N];
    for i in 0..N {
        t[i] = BITS[i / D];
    }
    t
}

// The color's byte where the test finds its bit, zero where not.
pub(crate) fn ink(bits: u16, test: u16, a: u8) -> u8
    ensures { result ≡ (if bit_and bits test == test then a else 0) }
{
    if bits & test == test { a } else { 0 }
}

// The bytes of t, a store for each (`put_mask` says why), by an index: a proof knows nothing of a slice's elements once `iter_mut().zip` has
// lent them. `put_pixel` of `byte_runs` stores the bytes of a pixel, by a copy; a public function has no `requires`, so that one for both would test its
// places at each mask.
fn store<const N: usize>(dst: &mut [u8], to: usize, t: &[u8; N])
    requires { to + N ≤ length dst.old }
    ensures { dst.new ≡ run (listed t.now) to N dst.old }
{
    for i in 0..N {
        dst[to + i] = t[i];
    }
}

impl<const D: usize> Masked<D> {
    // The byte above byte j of them, zero in the first row.
    pub(crate) fn byte_back(self, dst: &[u8], j: usize) -> u8
        requires { self.at + j < length dst.now }
        ensures { result ≡ byte_back self.entry.back (self.entry.at + j) dst.now }
    {
        let at = self.at;
        self.back.map_or(0, |row| dst[at - row + j])
    }

    // One mask, read whole before it is written; the color is given over and over. Inlined, so that the compiler keeps both arrays in
    // registers. In the first row a store for each byte: of a copy the compiler makes at 8 bpp a number of 64 bits that it puts together
    // byte by byte, which takes 29 instructions a mask in place of 13. In later rows a copy: of stores it makes at 8 bpp tests of places for
    // many masks at once, 1000 instructions more for an order of 64 pixels. By `from_fn` orders of 1000 pixels take up to 2.8 times the
    // instructions.
    #[inline(always)]
    fn put_mask<const N: usize>(self, m: u8, dst: &mut [u8], tests: &[u16; N], color: &[u8; 48])
        requires in_bounds { (N ≡ 8 * D) × (self.at + N ≤ length dst.old) × (row_holds self.back N ≡ true) }
        requires by_bit { (i : ℕ) → i < N → get_or tests.now i 0 ≡ get_or BITS (i / D) 0 }
        ensures { dst.new ≡ run (row_bytes self.entry.back self.entry.at (inked_by m D color.now)) self.entry.at N dst.old }
    {
        let twice = u16::from(m) * 257;
        let mut t = [0; N];
        for i in 0..N {
            t[i] = self.byte_back(dst, i) ^ ink(twice, tests[i], color[i]);
        }
        let to = self.at;
        match self.back {
            None => store(dst, to, &t),
            Some(_) => dst[to..to + N].copy_from_slice(&t),
        }
    }

    // Whole masks, in rows of eight pixels at least. Inlined in both of its places, so that the compiler knows whether there is a row
    // above.
    #[inline(always)]
    pub(crate) fn whole<const N: usize>(self, masks: &[u8], dst: &mut [u8])
        requires { (N ≡ 8 * D) × (self.at + length masks.now * 8 * D ≤ length dst.old) × (row_holds self.back N ≡ true) }
        ensures { dst.new ≡ run (row_bytes self.entry.back self.entry.at (masked_by masks.now 0 D self.entry.pixel)) self.entry.at (length masks.now * 8 * D) dst.old }
    {
        let tests = tests::<D, N>();
        let color = pattern::<D, 48>(self.pixel);
        for (i, m) in masks.iter().enumerate() {
            self.behind(i * 8 * D)
                .put_mask::<N>(*m, dst, &tests, &color);
        }
    }
}
