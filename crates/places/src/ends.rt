// Parts of a query as they stand in a room, at a place and with more behind them.
ghost use Rattle.std.specs.Prelude.{◌≡◌, true, ◌+◌, ◌≤◌, length, drop};
ghost use Rattle.rules.specs.Bytes.{whole_of, size_of};

use parts::part::size_of;

// Where the part that begins at a place ends.
pub fn end_of(room: &[u8], at: usize) -> usize
    requires { (at ≤ length room.now) × (whole_of (drop at room.now) ≡ true) }
    ensures { (result ≡ at + 3 + size_of (drop at room.now)) × (result ≤ length room.now) }
{
    at + 3 + size_of(&room[at..])
}
