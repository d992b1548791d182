// Palettes: 256 triples of blue, green and red, in the first 768 bytes.
ghost use Rattle.std.specs.Prelude.{◌≡◌};
ghost use Rattle.color.specs.Look.{lowest_index};

// The bytes that a palette has at least.
pub(crate) const PALETTE_BYTES: usize = 768;

// The lowest index whose entry is the triple.
#[tactic(auto, unfolding(crate::specs::Look::lowest_index))]
pub fn palette_look(palette: &[u8], triple: [u8; 3]) -> Option<usize>
    ensures { result ≡ lowest_index palette.now triple }
{
    let (entries, _) = palette.get(..PALETTE_BYTES)?.as_chunks::<3>();
    entries.iter().position(|entry| *entry == triple)
}
