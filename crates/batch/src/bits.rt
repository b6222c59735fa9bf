// Bits of a number, a bit for each query: the last one that was pushed stands lowest.
ghost use Rattle.std.specs.Prelude.{◌≡◌, ◌+◌, ◌*◌, ◌^◌, ◌<◌};
ghost use Rattle.rules.specs.Matching.{bit};
ghost use Rattle.batch.specs.Bits.{bit_at};

// The bit that j others were pushed after.
pub fn bit_at(m: u64, j: usize) -> bool
    requires { j < 64 }
    ensures { result ≡ bit_at m j }
{
    (m >> j) % 2 == 1
}

pub fn pushed(m: u64, b: bool) -> u64
    requires { m < 2 ^ 63 }
    ensures { result ≡ m * 2 + bit b }
{
    m * 2 + u64::from(b)
}
