// A record's seven fields, taken from its bytes.
ghost use Rattle.std.specs.Prelude.{◌≡◌, ◌≤◌};
ghost use Rattle.printing.specs.Fields.{three_at, row_in};

use records::Row;
use table::words::byte_at;

// The three bytes from the i-th on as a number, the first the most significant.
fn three_at(bytes: &[u8], i: usize) -> u32
    requires { i ≤ 13 }
    ensures { result ≡ three_at bytes.now i }
{
    u32::from_be_bytes([
        0,
        byte_at(bytes, i),
        byte_at(bytes, i + 1),
        byte_at(bytes, i + 2),
    ])
}

// The fields of the record that the bytes begin with.
pub fn row_in(bytes: &[u8]) -> Row
    ensures { result ≡ row_in bytes.now }
{
    Row {
        unit: u32::from_be_bytes([0, 0, byte_at(bytes, 0), byte_at(bytes, 1)]),
        kind: byte_at(bytes, 2),
        class: byte_at(bytes, 3),
        at: three_at(bytes, 4),
        len: three_at(bytes, 7),
        uri_at: three_at(bytes, 10),
        uri_len: three_at(bytes, 13),
    }
}
