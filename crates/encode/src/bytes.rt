// How far two slices of bytes are the same.
ghost use Rattle.std.specs.Prelude.{◌≡◌, length};

// The two, of one length.
#[derive(Clone, Copy)]
pub(crate) struct Compared<'a> {
    pub(crate) here: &'a [u8],
    pub(crate) back: &'a [u8],
    pub(crate) ghost lengths: { length here.now ≡ length back.now },
}

impl Compared<'_> {
    ghost use Rattle.std.specs.Prelude.{◌+◌, ◌≤◌, ◌<◌};
    ghost use Rattle.encoding.specs.Encode.{stretch};
    ghost use Rattle.encode.specs.Bytes.{difference, same_at, same_bytes, same_start};

    // The differences of all bytes, gathered: 0 where there are none. It does not stop at the first one, and so is compiled to vector
    // instructions. By two slices, as `count_same`: they are parts of both, and need not have one length.
    fn difference(here: &[u8], back: &[u8]) -> u8
        ensures { result ≡ difference here.now back.now }
    {
        here.iter().zip(back).fold(0, |all, (a, b)| all | (*a ^ *b))
    }

    // Whether both are the same. By `==` a pixel of noise takes 25 instructions at 16 bpp, and 14 so: of most pixels the first bytes
    // differ.
    pub(crate) fn same_bytes(self) -> bool
        ensures { result ≡ same_bytes self.entry.here.now self.entry.back.now }
    {
        self.here.iter().zip(self.back).all(|(a, b)| *a == *b)
    }

    // How many bytes are the same at the start, counted one by one, of what is left of both.
    fn count_same(here: &[u8], back: &[u8]) -> usize
        ensures { result ≡ same_start here.now back.now }
    {
        here.iter().zip(back).take_while(|(a, b)| *a == *b).count()
    }

    // Goes on with the count from byte `from` on, as long as a whole block of N bytes is the same; one that is left over differs. By
    // `while`: a short count takes 5 ns, and 7 ns by `chunks_exact`, `zip` and `take_while`.
    fn count_blocks<const N: usize>(self, from: usize) -> usize
        requires some { 1 ≤ N }
        requires begun { from ≤ same_start self.here.now self.back.now }
        ensures same { result ≤ same_start self.entry.here.now self.entry.back.now }
        ensures inside { result ≤ length self.entry.here.now }
        ensures ended { result + N ≤ length self.entry.here.now → same_start self.entry.here.now self.entry.back.now < result + N }
    {
        let mut i = from;
        while N <= self.here.len() - i
            && Compared::difference(&self.here[i..i + N], &self.back[i..i + N]) == 0
        {
            i += N;
        }
        i
    }

    // The count. Most of a long one is passed in blocks.
    pub(crate) fn same_start(self) -> usize
        ensures counted { result ≡ same_start self.entry.here.now self.entry.back.now }
        ensures stretch { result ≡ stretch (same_at self.entry.here.now self.entry.back.now) 0 (length self.entry.here.now) }
    {
        let i = self.count_blocks::<32>(0);
        let j = self.count_blocks::<8>(i);
        j + Compared::count_same(&self.here[j..], &self.back[j..])
    }
}
