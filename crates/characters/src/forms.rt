// What the first bytes of a character say.
ghost use Rattle.std.specs.Prelude.{◌≡◌};
ghost use Rattle.utf8.specs.Sets.{ranges_of};
ghost use Rattle.utf8.specs.Forms.{fresh, first_form, next_form, size, form_begins, Bounded};

use crate::sets::has;
use utf8::{Form, Set};

// Before the first byte: 4 to come, which no form has, as the definitions in utf8 say it.
pub fn fresh_form() -> Form
    ensures { (result ≡ fresh) × Bounded result }
{
    Form {
        left: 4,
        value: 0,
        floor: 0,
    }
}

// Where no character has the bytes.
const NO_FORM: Form = Form {
    left: 0,
    value: 0,
    floor: 1,
};

// After the first byte.
fn first_form(b: u8) -> Form
    ensures { (result ≡ first_form b) × Bounded result }
{
    let c = u32::from(b);
    match c {
        0..=0x7F => Form {
            left: 0,
            value: c,
            floor: 0,
        },
        0x80..=0xBF => NO_FORM,
        0xC0..=0xDF => Form {
            left: 1,
            value: c - 0xC0,
            floor: 0x80,
        },
        0xE0..=0xEF => Form {
            left: 2,
            value: c - 0xE0,
            floor: 0x800,
        },
        _ => Form {
            left: 3,
            value: c - 0xF0,
            floor: 0x10000,
        },
    }
}

// After a byte more.
pub fn next_form(f: Form, b: u8) -> Form
    requires { Bounded f }
    ensures { (result ≡ next_form f b) × Bounded result }
{
    if f.left == 4 {
        return first_form(b);
    }
    if (f.left == 0) | (b < 0x80) | (0xBF < b) {
        return NO_FORM;
    }
    Form {
        left: f.left - 1,
        value: f.value * 0x40 + u32::from(b - 0x80),
        floor: f.floor,
    }
}

// How many code points share the bytes so far.
fn size_of(left: u32) -> u32
    ensures { result ≡ size left }
{
    match left {
        0 => 1,
        1 => 0x40,
        2 => 0x1000,
        _ => 0x40000,
    }
}

// Has the set a character with these bytes?
pub fn can_begin(set: Set, f: Form) -> bool
    requires { Bounded f }
    ensures { result ≡ form_begins (ranges_of set) f }
{
    let size = size_of(f.left);
    let base = f.value * size;
    let least = base.max(f.floor);
    let most = base + size - 1;
    least <= most && has(set, least, most)
}
