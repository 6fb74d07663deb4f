// The header and the rules of a table.
ghost use Rattle.std.specs.Prelude.{◌≡◌, get_or};
ghost use Rattle.table.specs.Table.{header_of, word_of, word_at, fields_of, action_of, rule_of, all_rules};
ghost use Rattle.table.specs.Index.{key_of};

use crate::{Action, Fields, Header, Rule};

// The i-th byte; 0 past the end, as the definitions read a table.
pub fn byte_at(table: &[u8], i: usize) -> u8
    ensures { result ≡ get_or table.now i 0 }
{
    table.get(i).copied().unwrap_or(0)
}

pub fn header_of(table: &[u8]) -> Header
    ensures { result ≡ header_of table.now }
{
    Header {
        namespaces: byte_at(table, 0),
        modes: byte_at(table, 1),
        schemas: byte_at(table, 2),
        rules: byte_at(table, 3),
    }
}

// Four bytes as a number, the first the most significant.
pub fn word(a: u8, b: u8, c: u8, d: u8) -> u32
    ensures { result ≡ word_of a b c d }
{
    u32::from_be_bytes([a, b, c, d])
}

// The 32 bits of the i-th rule.
pub fn word_at(table: &[u8], i: u8) -> u32
    ensures { result ≡ word_at table.now i }
{
    let at = 4 * usize::from(i);
    word(
        byte_at(table, 4 + at),
        byte_at(table, 5 + at),
        byte_at(table, 6 + at),
        byte_at(table, 7 + at),
    )
}

// Mode, kind and class of a rule.
pub fn key_of(w: u32) -> u32
    ensures { result ≡ key_of w }
{
    w >> 18
}

// The fields of a rule, by shifts and masks as document 01 packs them.
pub fn unpack(w: u32) -> Fields
    ensures { result ≡ fields_of w }
{
    Fields {
        mode: (w >> 27) as u8,
        kind: (w >> 26 & 1) as u8,
        class: (w >> 18 & 255) as u8,
        action: (w >> 16 & 3) as u8,
        schema: (w >> 8 & 255) as u8,
        next: (w >> 3 & 31) as u8,
        zeros: (w & 7) as u8,
    }
}

pub fn action_of(n: u8) -> Action
    ensures { result ≡ action_of n }
{
    match n {
        0 => Action::Attach,
        1 => Action::Unwrap,
        _ => Action::Validate,
    }
}

pub fn rule_of(w: u32) -> Rule
    ensures { result ≡ rule_of w }
{
    let f = unpack(w);
    Rule {
        mode: f.mode,
        kind: f.kind,
        class: f.class,
        action: action_of(f.action),
        schema: f.schema,
        next: f.next,
    }
}

// The i-th rule; past the last that of a word of zeros, as the definitions read them.
pub fn rule_at(table: &[u8], header: Header, i: u8) -> Rule
    ensures { result ≡ get_or (all_rules table.now header) i (rule_of 0) }
{
    if i < header.rules {
        rule_of(word_at(table, i))
    } else {
        rule_of(0)
    }
}
