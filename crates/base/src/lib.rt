// What every other crate may use: the choice by a test (specs/Picks.antt), the laws of tests (proofs/Tests.antt), and a byte as a number.
#![tactic(auto)]

ghost use Rattle.std.specs.Prelude.{◌≡◌, ◌<◌};

// A byte as a number, with its range, which `usize::from` does not promise.
pub fn widen(byte: u8) -> usize
    ensures { (result ≡ byte) × (result < 256) }
{
    usize::from(byte)
}
