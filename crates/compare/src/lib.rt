// Bytes compared with bytes, and with the fixed byte strings that document 01 names.
#![tactic(auto)]

ghost use Rattle.std.specs.Prelude.{◌≡◌};
ghost use Rattle.laws.specs.Lists.{same_list};
ghost use Rattle.compare.specs.Compare.{span_of, span_start, place_in, xml_uri, xmlns_uri};

// The part of s from at on, of n bytes; where s has fewer, what it has. Past the end of s it is the empty part at the start of s.
pub fn part_of(s: &[u8], at: usize, n: usize) -> &[u8]
    ensures bytes { result.now ≡ span_of s.now at n }
    ensures place { result.ref_ptr ≡ place_in s.entry (span_start s.now at) }
{
    let len = s.len();
    if len < at {
        return &s[..0];
    }
    let end = at + n.min(len - at);
    &s[at..end]
}

// Are a and b the same bytes?
pub fn same(a: &[u8], b: &[u8]) -> bool
    ensures { result ≡ same_list a.now b.now }
{
    a == b
}

// Is it the URI of xml?
pub fn is_xml_uri(uri: &[u8]) -> bool
    ensures { result ≡ same_list uri.now xml_uri }
{
    same(uri, b"http://www.w3.org/XML/1998/namespace")
}

// Is it the URI of xmlns?
pub fn is_xmlns_uri(uri: &[u8]) -> bool
    ensures { result ≡ same_list uri.now xmlns_uri }
{
    same(uri, b"http://www.w3.org/2000/xmlns/")
}
