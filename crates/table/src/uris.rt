// The URIs that a table lists.
ghost use Rattle.std.specs.Prelude.{◌≡◌, ◌+◌, ◌*◌, drop, slice_get};
ghost use Rattle.table.specs.Table.{table_of, uris_from, listed_from, class_of};
ghost use Rattle.table.specs.Places.{places_from, place_of};

use crate::{Header, Listed};
use compare::{is_xml_uri, part_of, same};

// Where the URIs begin.
pub fn behind_rules(header: Header) -> usize
    ensures { result ≡ 4 + 4 * header.rules }
{
    4 + 4 * usize::from(header.rules)
}

// The place of the URI whose length stands at p; none where the table ends before it does.
pub fn uri_at(table: &[u8], p: usize) -> Option<Listed>
    ensures { result ≡ slice_get (places_from 1 p (drop p table.now)) 0 }
{
    let len = usize::from(*table.get(p)?);
    if len < table.len() - p {
        Some(Listed { at: p + 1, len })
    } else {
        None
    }
}

// The place of a class's URI; none for a class that is not listed.
pub fn place_of(table: &[u8], header: Header, class: u8) -> Option<Listed>
    ensures { result ≡ place_of table.now header class }
{
    let mut p = behind_rules(header);
    for i in 0..header.namespaces {
        let u = uri_at(table, p)?;
        if i + 1 == class {
            return Some(u);
        }
        p = u.at + u.len;
    }
    None
}

// Which of the n URIs from `from` on is this one, counted from 1? 255, the class of an unlisted URI, where none is.
pub fn listed_from(table: &[u8], from: usize, n: u8, uri: &[u8]) -> u8
    ensures { result ≡ listed_from (uris_from n (drop from table.now)) 1 uri.now }
{
    let mut p = from;
    for i in 0..n {
        let Some(u) = uri_at(table, p) else {
            return 255;
        };
        if same(part_of(table, u.at, u.len), uri) {
            return i + 1;
        }
        p = u.at + u.len;
    }
    255
}

// The class of a URI.
pub fn class_of(table: &[u8], header: Header, uri: &[u8]) -> u8
    ensures { result ≡ class_of (table_of table.now header) uri.now }
{
    if uri.is_empty() {
        0
    } else if is_xml_uri(uri) {
        254
    } else {
        listed_from(table, behind_rules(header), header.namespaces, uri)
    }
}
