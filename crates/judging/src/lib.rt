// The judge: whether bytes are a rule table.
#![tactic(auto)]

ghost use Rattle.std.specs.Prelude.{◌≡◌, ℕ, ◌≤◌, ◌<◌, List, drop, get_or, length, MatchResult};
ghost use Rattle.laws.specs.Lists.{same_list, any, all, any_pair};
ghost use Rattle.table.specs.Table.{word_at, words_of, fields_of, uris_from, uris_of};
ghost use Rattle.table.specs.Judge.{header_fits, length_fits, fields_fit, word_fits, is_empty, keeps, rules_clash, uris_clash, said, judged};
ghost use Rattle.judging.specs.Faults.{number_of};

use compare::{is_xml_uri, part_of};
use table::uris::{behind_rules, listed_from, uri_at};
use table::words::{header_of, key_of, unpack, word_at};
use table::{Answer, Fields, Header};

// Why bytes are no table, by the numbers of document 01.
#[derive(Clone, Copy)]
enum Fault {
    Length = 10,
    Field = 11,
    Clash = 12,
}

fn header_fits(h: Header) -> bool
    ensures { result ≡ header_fits h }
{
    (h.namespaces <= 30)
        & ((1 <= h.modes) & ((h.modes <= 32) & ((h.schemas <= 64) & (h.rules <= 128))))
}

// Is the table as long as its header and the lengths of its URIs say?
fn length_fits(table: &[u8], header: Header) -> bool
    ensures { result ≡ length_fits table.now header }
{
    let mut p = behind_rules(header);
    if table.len() < p {
        return false;
    }
    for _i in 0..header.namespaces {
        let Some(u) = uri_at(table, p) else {
            return false;
        };
        p = u.at + u.len;
    }
    p == table.len()
}

fn fields_fit(h: Header, f: Fields) -> bool
    ensures { result ≡ fields_fit h f }
{
    let class = (f.class <= h.namespaces) | (254 <= f.class);
    let schema = (f.action == 2) & (f.schema < h.schemas) | (f.action < 2) & (f.schema == 0);
    (f.mode < h.modes) & (class & (schema & ((f.next < h.modes) & (f.zeros == 0))))
}

// Is every field of every rule in its range?
fn words_fit(table: &[u8], header: Header) -> bool
    ensures { result ≡ all (word_fits header) (words_of table.now header) }
{
    for i in 0..header.rules {
        if !fields_fit(header, unpack(word_at(table, i))) {
            return false;
        }
    }
    true
}

// Attach or unwrap?
fn keeps(w: u32) -> bool
    ensures { result ≡ keeps (fields_of w) }
{
    (w >> 16 & 3) < 2
}

// Are two rules the same, or both attach or unwrap for one mode, kind and class?
fn two_clash(v: u32, w: u32) -> bool
    ensures { result ≡ rules_clash v w }
{
    (v == w) | (key_of(v) == key_of(w)) & (keeps(v) & keeps(w))
}

// The words of the rules, from the array's first place on.
fn words_of(table: &[u8], header: Header) -> [u32; 256]
    ensures { (k : ℕ) → k < header.rules → get_or result k 0 ≡ word_at table.now k }
{
    let mut words: [u32; 256] = [0; 256];
    for k in 0..header.rules {
        words[usize::from(k)] = word_at(table, k);
    }
    words
}

// Does one of these rules clash with w? With no early way out, it becomes vector code.
fn clash_in(words: &[u32], w: u32) -> bool
    ensures { result ≡ any (rules_clash w) words.now }
{
    let mut found = false;
    for v in words {
        found |= two_clash(w, *v);
    }
    found
}

fn rules_clash(table: &[u8], header: Header) -> bool
    ensures { result ≡ any_pair rules_clash (words_of table.now header) }
{
    let all = words_of(table, header);
    let words = &all[..usize::from(header.rules)];
    for (i, w) in words.iter().enumerate() {
        if clash_in(&words[i + 1..], *w) {
            return true;
        }
    }
    false
}

// Is this one of the n URIs from p on?
fn lists(table: &[u8], p: usize, n: u8, uri: &[u8]) -> bool
    requires { n ≤ 30 }
    ensures { result ≡ any (λ (u : List ℕ). same_list u uri.now) (uris_from n (drop p table.now)) }
{
    listed_from(table, p, n, uri) != 255
}

// Is a URI of length 0 listed?
fn lists_empty(table: &[u8], header: Header) -> bool
    requires { header.namespaces ≤ 30 }
    ensures { result ≡ any is_empty (uris_of table.now header) }
{
    lists(table, behind_rules(header), header.namespaces, b"")
}

// Is a URI listed twice, or that of xml?
fn uris_clash(table: &[u8], header: Header) -> bool
    requires { header.namespaces ≤ 30 }
    ensures { result ≡ uris_clash (uris_of table.now header) }
{
    let mut p = behind_rules(header);
    for i in 0..header.namespaces {
        let Some(u) = uri_at(table, p) else {
            return false;
        };
        p = u.at + u.len;
        let uri = part_of(table, u.at, u.len);
        if is_xml_uri(uri) || lists(table, p, header.namespaces - (i + 1), uri) {
            return true;
        }
    }
    false
}

fn said(number: u8, place: usize) -> Answer
    ensures { result ≡ said number place }
{
    Answer {
        number,
        place,
        events: 0,
        records: 0,
    }
}

// The first fault, in the order that document 01 says.
fn check(table: &[u8]) -> Result<(), Fault>
    ensures { MatchResult result (λ _. said 0 (length table.now) ≡ judged table.now) (λ fault. said (number_of fault) 0 ≡ judged table.now) }
{
    if table.len() < 4 {
        return Err(Fault::Length);
    }
    let header = header_of(table);
    if !header_fits(header) {
        return Err(Fault::Field);
    }
    if !length_fits(table, header) {
        return Err(Fault::Length);
    }
    if !words_fit(table, header) || lists_empty(table, header) {
        return Err(Fault::Field);
    }
    if rules_clash(table, header) || uris_clash(table, header) {
        return Err(Fault::Clash);
    }
    Ok(())
}

// Is this a table? Its length, or the first fault's number.
pub fn judge(table: &[u8]) -> Answer
    ensures { result ≡ judged table.now }
{
    match check(table) {
        Ok(()) => said(0, table.len()),
        Err(fault) => said(fault as u8, 0),
    }
}
