// Bytes moved within one room. A room cannot be lent as two, so what is read and what is written are places in the same slice.
ghost use Rattle.std.specs.Prelude.{◌+◌, ◌≤◌, length, take, drop};
ghost use Rattle.numbers.specs.Laid.{Put};

// Lays the n bytes that stand at `from` at `to`, and gives the place behind what was laid. The two may overlap; what stands there already is
// not moved.
pub fn shift(room: &mut [u8], to: usize, from: usize, n: usize) -> usize
    requires { (from + n ≤ length room.old) × (to + n ≤ length room.old) }
    ensures { Put room.old to (take n (drop from room.old)) result room.new }
{
    if to != from {
        room.copy_within(from..from + n, to);
    }
    to + n
}
