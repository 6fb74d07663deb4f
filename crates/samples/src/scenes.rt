// Scenes made of parts, laid into a lent buffer one behind the other.
ghost use Rattle.std.specs.Prelude.{◌≤◌, length};
ghost use Rattle.std.specs.Counts.{IsPrefixLen};

// A part from a place on, and the place behind it; what the buffer has no room for is left out.
fn put(scene: &mut [u8], at: usize, part: &[u8]) -> usize
    requires { at ≤ length scene.old }
    ensures { IsPrefixLen result scene.new }
{
    let n = part.len().min(scene.len() - at);
    scene[at..at + n].copy_from_slice(&part[..n]);
    at + n
}

// The same part so many times.
fn repeat(scene: &mut [u8], at: usize, part: &[u8], times: usize) -> usize
    requires { at ≤ length scene.old }
    ensures { IsPrefixLen result scene.new }
{
    let mut to = at;
    for _ in 0..times {
        to = put(scene, to, part);
    }
    to
}

// A root of u round the tags that open and close so many elements, each inside the one before, with a part innermost.
pub fn nested<'a>(
    scene: &'a mut [u8],
    times: usize,
    open: &[u8],
    innermost: &[u8],
    close: &[u8],
) -> &'a [u8] {
    let mut n = put(scene, 0, b"<r xmlns=\"u\">");
    n = repeat(scene, n, open, times);
    n = put(scene, n, innermost);
    n = repeat(scene, n, close, times);
    n = put(scene, n, b"</r>");
    &scene[..n]
}
