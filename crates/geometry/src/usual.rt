// PHastR's default shape, told by a few tests, and its numbers as literals for the compiler to fold.
ghost use Rattle.std.specs.Prelude.{◌≡◌, IsTrue};
ghost use Rattle.geometry.specs.Usual.{Usual, usual_numbers, usual_shape, usual_settings};

use super::shape::Geometry;
use rules::Settings;

// Whether settings are the default ones: then 1 to 5 do not apply, and their geometry has the default shape.
#[tactic(auto, unfolding(crate::specs::Usual::usual_settings))]
pub fn usual_settings(s: Settings) -> bool
    ensures { result ≡ usual_settings s }
{
    s.log2_slice_len == 10 && s.ll == 2 && s.sb == 8 && 1024 <= s.m && s.m <= 134_217_728
}

// Whether slices of l slots and settings have the default shape: three tests, and all other numbers follow.
#[tactic(auto, unfolding(crate::specs::Usual::usual_numbers))]
pub fn usual(l: u64, settings: Settings) -> bool
    ensures { result ≡ usual_numbers l settings }
{
    l == 1024 && settings.ll == 2 && settings.sb == 8
}

impl Geometry {
    // Whether it has the default shape.
    #[tactic(auto, unfolding(crate::specs::Usual::usual_shape, crate::specs::Usual::usual_numbers))]
    pub fn is_usual(self) -> bool
        ensures shape { result ≡ usual_shape self }
        ensures told { IsTrue result → Usual self }
    {
        usual(self.l, self.settings)
    }

    // The same geometry, in which the numbers of the default shape are literals.
    pub fn literal(self) -> Geometry
        requires { Usual self }
        ensures { result ≡ self }
    {
        Geometry {
            settings: self.settings,
            l: 1024,
            slices: self.settings.m - 1023,
            scale: 2,
            layouts: 4,
            layout_bits: 16,
            stride: 4,
            ring: 64,
            rotations: 64,
            q_hi: self.q_hi,
            q_lo: self.q_lo,
            per_bucket: self.per_bucket,
            slots: self.slots,
            entries: self.entries,
        }
    }
}
