//! The numbers that the generator draws.
ghost use Rattle.std.specs.Prelude.{◌≡◌};
ghost use Rattle.load_run.specs.Draws as spec;

/// The factor and the summand of the source, Knuth's for 64 bits, and how many numbers it goes
/// round.
const FACTOR: u128 = 6_364_136_223_846_793_005;

const SUMMAND: u128 = 1_442_695_040_888_963_407;

const ROUND: u128 = 0x1_0000_0000_0000_0000;

/// A draw gives the source without its last 33 bits.
const LAST_BITS: u64 = 0x2_0000_0000;

/// The source after a draw.
#[tactic(auto, unfolding(crate::specs::Draws::next_source))]
pub(crate) fn next_source(source: u64) -> u64
    ensures value { result ≡ spec.next_source source }
{
    ((u128::from(source) * FACTOR + SUMMAND) % ROUND) as u64
}

/// What the draw that left the source so gives.
pub(crate) fn number_drawn(source: u64) -> u32
    ensures value { result ≡ spec.number_drawn source }
{
    (source / LAST_BITS) as u32
}

/// The source before the first draw.
pub(crate) fn first_source(machines: u32, events: u32) -> u64
    ensures value { result ≡ spec.first_source machines events }
{
    (u128::from(machines) + u128::from(events) * 0x1_0000_0000) as u64
}
