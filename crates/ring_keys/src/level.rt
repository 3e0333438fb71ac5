// The ring of a level.
ghost use Rattle.std.specs.Prelude.{◌≡◌};
ghost use Rattle.rings.specs.Level.{level_ring};

use geometry::shape::Geometry;
use rings::Ring;

// The numbers of the used ring, from a level's geometry.
pub fn ring_of(g: Geometry) -> Ring
    ensures { result ≡ level_ring g.settings }
{
    Ring {
        t: g.stride as usize,
        words: (g.slots / 64) as usize,
        n: g.ring as usize,
        rotations: g.rotations as usize,
    }
}
