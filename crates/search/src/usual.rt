// The default shape's ring as literals. A function that is called from one place, with literals for these fields, is inlined there and has its constants folded.
ghost use Rattle.std.specs.Prelude.{◌≡◌, true};
ghost use Rattle.search.specs.Usual.{UsualRing};

use rings::Ring;

// Whether the ring is that of the default shape.
pub fn usual_ring(ring: Ring) -> bool
    ensures { result ≡ true → UsualRing ring }
{
    ring.n == 64 && ring.t == 4 && ring.rotations == 64
}

// The same ring, in which the numbers of the default shape are literals.
pub fn literal_ring(ring: Ring) -> Ring
    requires { UsualRing ring }
    ensures { result ≡ ring }
{
    Ring {
        t: 4,
        n: 64,
        rotations: 64,
        ..ring
    }
}
