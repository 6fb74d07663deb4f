// The sets of characters, as one table.
ghost use Rattle.std.specs.Prelude.{◌≡◌};
ghost use Rattle.laws.specs.Lists.{any};
ghost use Rattle.utf8.specs.Sets.{ranges_of};
ghost use Rattle.utf8.specs.Forms.{meets};

use utf8::{Range, Set};

// Productions 4, 4a and 2 of XML 1.0, fifth edition: their alternatives in their order, without the colon, as one constant table.
const RANGES: [Range; 27] = [
    Range {
        first: 0x41,
        last: 0x5A,
    },
    Range {
        first: 0x5F,
        last: 0x5F,
    },
    Range {
        first: 0x61,
        last: 0x7A,
    },
    Range {
        first: 0xC0,
        last: 0xD6,
    },
    Range {
        first: 0xD8,
        last: 0xF6,
    },
    Range {
        first: 0xF8,
        last: 0x2FF,
    },
    Range {
        first: 0x370,
        last: 0x37D,
    },
    Range {
        first: 0x37F,
        last: 0x1FFF,
    },
    Range {
        first: 0x200C,
        last: 0x200D,
    },
    Range {
        first: 0x2070,
        last: 0x218F,
    },
    Range {
        first: 0x2C00,
        last: 0x2FEF,
    },
    Range {
        first: 0x3001,
        last: 0xD7FF,
    },
    Range {
        first: 0xF900,
        last: 0xFDCF,
    },
    Range {
        first: 0xFDF0,
        last: 0xFFFD,
    },
    Range {
        first: 0x10000,
        last: 0xEFFFF,
    },
    Range {
        first: 0x2D,
        last: 0x2D,
    },
    Range {
        first: 0x2E,
        last: 0x2E,
    },
    Range {
        first: 0x30,
        last: 0x39,
    },
    Range {
        first: 0xB7,
        last: 0xB7,
    },
    Range {
        first: 0x300,
        last: 0x36F,
    },
    Range {
        first: 0x203F,
        last: 0x2040,
    },
    Range {
        first: 0x9,
        last: 0x9,
    },
    Range {
        first: 0xA,
        last: 0xA,
    },
    Range {
        first: 0xD,
        last: 0xD,
    },
    Range {
        first: 0x20,
        last: 0xD7FF, // up to the surrogates
    },
    Range {
        first: 0xE000,
        last: 0xFFFD, // FFFE and FFFF are no characters
    },
    Range {
        first: 0x10000,
        last: 0x10FFFF,
    },
];

// A set's rows: NameChar's are those of NameStartChar and then its own.
fn rows_of(set: Set) -> &'static [Range]
    ensures { result.now ≡ ranges_of set }
{
    match set {
        Set::Start => &RANGES[..15],
        Set::Name => &RANGES[..21],
        Set::Char => &RANGES[21..],
    }
}

// Has the set a character from least to most?
pub fn has(set: Set, least: u32, most: u32) -> bool
    ensures { result ≡ any (meets least most) (ranges_of set) }
{
    for r in rows_of(set) {
        if r.first <= most && least <= r.last {
            return true;
        }
    }
    false
}
