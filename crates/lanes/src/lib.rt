// Eight bytes of a slice at a time, as one number.
#![tactic(auto)]

pub mod plain;

ghost use Rattle.std.specs.Prelude.{◌≡◌, ◌+◌, ◌≤◌, length, take, drop};
ghost use Rattle.lanes.specs.Words.{little_endian, digits};

// The eight bytes from i on as a number: two such numbers are the same exactly when the bytes are.
pub fn word_at(s: &[u8], i: usize) -> u64
    requires { i + 8 ≤ length s.now }
    ensures number { result ≡ little_endian (take 8 (drop i s.now)) }
    ensures bytes { digits 8 result ≡ take 8 (drop i s.now) }
{
    u64::from_le_bytes([
        s[i],
        s[i + 1],
        s[i + 2],
        s[i + 3],
        s[i + 4],
        s[i + 5],
        s[i + 6],
        s[i + 7],
    ])
}
