// Signatures, so that a clause that equals no other is not searched for: equal bytes have equal signatures, and a table says of each how many
// clauses have it, none, one or more. Four signatures share a byte of the table: it lies in a frame, and a scheduler's thread has little stack.
ghost use Rattle.std.specs.Prelude.{◌≡◌, true, ◌<◌, ◌≤◌, ◌*◌, ◌/◌, ◌%◌, ◌^◌, length};
ghost use Rattle.merging.specs.Signatures.{table_bytes, signatures, word_of, mix_of, signature_of, cell_of, OneMore};

use numbers::big4;

pub const TABLE: usize = 1408;

const SIGNATURES: usize = 4 * TABLE;

// The four bytes from k before the end on, or the first four.
fn word(s: &[u8], k: usize) -> u64
    requires { (4 ≤ length s.now) × (4 ≤ k) }
    ensures { (result ≡ word_of s.now k) × (result < 2 ^ 32) }
{
    u64::from(big4(&s[s.len().saturating_sub(k)..]))
}

// Sixteen bytes from k before the end backwards, each four of them by a factor of 28 bits: so the sum has no more than 62.
fn mix(s: &[u8], k: usize) -> u64
    requires { (4 ≤ length s.now) × (4 ≤ k) × (k < 65536) }
    ensures { (result ≡ mix_of s.now k) × (result < 2 ^ 62) }
{
    word(s, k) * 0x9e3_779b
        + word(s, k + 4) * 0xc2b_2ae3
        + word(s, k + 8) * 0x85e_bca7
        + word(s, k + 12) * 0xd35_a2d9
}

// Of a stretch's last 32 bytes and its length: texts mostly differ there.
pub fn signature(s: &[u8]) -> usize
    ensures { (result ≡ signature_of s.now) × (result < signatures) }
{
    if s.len() < 4 {
        return 0;
    }
    ((mix(s, 4) / 0x800_0000 + mix(s, 20) / 0x2000_0000) as usize + s.len() % 65536) % SIGNATURES
}

// Where the two bits of a signature begin in their byte.
fn turn(g: usize) -> usize
    ensures { (result ≡ g % 4 * 2) × (result < 8) }
{
    g % 4 * 2
}

// What the table has of a signature: 0, 1, or 2 where more than one clause has it.
// Stays: two bits of a byte hold none, one or several, and the table has no room for more.
fn cell(table: &[u8; TABLE], g: usize) -> u8
    requires { g < signatures }
    ensures { result ≡ cell_of table.now g }
{
    (table[g / 4] >> turn(g)) % 4
}

// One clause more has the signature g.
pub fn note(table: &mut [u8; TABLE], g: usize)
    requires { g < signatures }
    ensures { OneMore g table.old table.new }
{
    if cell(table, g) < 2 {
        let i = g / 4;
        table[i] += 1u8 << turn(g);
    }
}

// Does the table say that one clause alone has this stretch's signature?
pub fn is_alone(table: &[u8; TABLE], s: &[u8]) -> bool
    ensures { result ≡ true → cell_of table.now (signature_of s.now) ≡ 1 }
{
    cell(table, signature(s)) == 1
}
