// The sections of a tag's attributes: one per namespace, ordered by first attribute.
ghost use Rattle.std.specs.Prelude.{◌≡◌, [], cond, ◌+◌, ◌≤◌, ◌<◌, length, get_or, set};
ghost use Rattle.laws.specs.Lists.{tabulate};
ghost use Rattle.laws.specs.Over.{overwrite};
ghost use Rattle.reader.specs.Stored.{found_in, stored_space};
ghost use Rattle.attributes.specs.Attributes.{namespace_of, is_nothing, given_in, attributes_in, sections_in, stays_with, in_section, numbered_in, number_among, code_namespaces, numbers_from, sections_after};

use crate::HELD;
use namespaces::clashes::same_space;
use namespaces::spaces::found_in;
use reader::Found;

// The number of the section of the k-th attribute, as the array has it: 0 where it stays with the element.
pub fn section_at(attributes: &[u32; HELD], k: usize) -> u32
    requires { k < 16 }
    ensures { result ≡ get_or (sections_in attributes.now) k 0 }
{
    attributes[128 + k]
}

// What was found for the k-th attribute of the array.
fn found_at(attributes: &[u32; HELD], k: usize) -> Found
    requires { k < 16 }
    ensures { result ≡ found_in (given_in (attributes_in attributes.now) k).code }
{
    found_in(attributes[8 * k + 7] as usize)
}

fn is_nothing(f: Found) -> bool
    ensures { result ≡ is_nothing f }
{
    matches!(f, Found::Nothing | Found::Unbound)
}

// Is the k-th attribute in a section, and is that the section of this namespace?
fn in_section(
    s: &[u8],
    own: &[u32; 64],
    outer: &[u32; 256],
    f: Found,
    attributes: &[u32; HELD],
    k: usize,
) -> bool
    requires { k < 16 }
    ensures { result ≡ in_section s.now (stored_space own.now outer.now f) (numbered_in own.now outer.now (attributes_in attributes.now) (sections_in attributes.now) k) }
{
    section_at(attributes, k) != 0 && same_space(s, own, outer, found_at(attributes, k), f)
}

// The number of the section of the i-th attribute, that of an attribute before it or the next after m; none where it stays with the element.
fn section_of(
    s: &[u8],
    own: &[u32; 64],
    outer: &[u32; 256],
    element: Found,
    attributes: &[u32; HELD],
    i: usize,
    m: usize,
) -> Option<usize>
    requires { (i < 16) × (m ≤ i) }
    ensures { let e = stored_space own.now outer.now element in
        let n = namespace_of own.now outer.now (given_in (attributes_in attributes.now) i).code in
        let before = tabulate (numbered_in own.now outer.now (attributes_in attributes.now) (sections_in attributes.now)) 0 i in
        result ≡ cond (stays_with s.now e n) None (Some (number_among s.now n (m + 1) before)) }
{
    let f = found_at(attributes, i);
    if is_nothing(f) || same_space(s, own, outer, element, f) {
        return None;
    }
    for k in 0..i {
        if in_section(s, own, outer, f, attributes, k) {
            return Some(section_at(attributes, k) as usize);
        }
    }
    Some(m + 1)
}

// The number of a section, behind the attributes.
fn put_section(attributes: &mut [u32; HELD], i: usize, section: usize)
    requires { (i < 16) × (section ≤ 16) }
    ensures { (attributes.new ≡ set attributes.old (128 + i) section) × (length attributes.old ≡ 144) }
{
    attributes[128 + i] = section as u32;
}

// The section of each of the n attributes, from the first on; how many sections.
pub fn number_sections(
    s: &[u8],
    own: &[u32; 64],
    outer: &[u32; 256],
    element: Found,
    attributes: &mut [u32; HELD],
    n: usize,
) -> usize
    requires { n ≤ 16 }
    ensures { let e = stored_space own.now outer.now element in
        let ns = code_namespaces own.now outer.now (tabulate (given_in (attributes_in attributes.old)) 0 n) in
        (result ≡ length (sections_after s.now e [] ns))
        × (attributes_in attributes.new ≡ attributes_in attributes.old)
        × (sections_in attributes.new ≡ overwrite (sections_in attributes.old) 0 (numbers_from s.now e [] ns)) }
{
    let mut m = 0;
    for i in 0..n {
        let section = section_of(s, own, outer, element, attributes, i, m).unwrap_or(0);
        put_section(attributes, i, section);
        m = m.max(section);
    }
    m
}
