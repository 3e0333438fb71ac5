// Where a hash goes.
ghost use Rattle.std.specs.Prelude.{◌≡◌, ◌+◌, ◌<◌, ◌≤◌};
ghost use Rattle.rules.specs.Geometry as G;

use super::shape::Geometry;
use integers::product::{mul_hi, mul_lo};
use rules::Settings;

// o = h * B modulo 2^64, from which each layout takes its offset.
#[tactic(auto, unfolding(rules::specs::Geometry::offset_of))]
pub fn offset_of(settings: Settings, h: u64) -> u64
    ensures { result ≡ G.offset_of settings h }
{
    mul_lo(h, settings.buckets)
}

impl Geometry {
    // The bucket of h.
    #[tactic(auto, unfolding(rules::specs::Geometry::bucket_of))]
    pub fn bucket_of(self, h: u64) -> u64
        ensures { (result ≡ G.bucket_of self.settings h) × (result < self.settings.buckets) }
    {
        mul_hi(h, self.settings.buckets)
    }

    // The slice of h.
    pub fn slice_of(self, h: u64) -> u64
        ensures { (result ≡ G.slice_of self.settings h) × (result < self.slices) }
    {
        mul_hi(h, self.slices)
    }

    // `offset_of` with its settings.
    pub fn offset_of(self, h: u64) -> u64
        ensures { result ≡ G.offset_of self.settings h }
    {
        offset_of(self.settings, h)
    }

    // The first slice of bucket b.
    pub fn first(self, b: u64) -> u64
        requires { b ≤ self.settings.buckets }
        ensures { (result ≡ G.first self.settings b) × (result ≤ self.slices) }
    {
        b * self.q_hi + mul_hi(b, self.q_lo)
    }

    // The position of h under a seed.
    pub fn position(self, h: u64, seed: u16) -> u64
        ensures { (result ≡ G.position self.settings seed h) × (result < self.settings.m) }
    {
        let mask = self.l - 1;
        let v = seed as u64;
        let r = v & (self.layouts - 1);
        let x = (self.offset_of(h) >> (r * self.layout_bits)) & mask;
        self.slice_of(h) + ((x + (v << self.scale)) & mask)
    }
}
