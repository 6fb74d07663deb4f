// Spans of a scene, and the names that they are to hold.
ghost use Rattle.std.specs.Prelude.{◌≡◌, ◌<◌, [], ◌∷◌, ◌++◌, length, Err};
ghost use Rattle.lexer.specs.Names.{part_end};
ghost use Rattle.lexer.specs.Whole.{part_to, is_part, is_whole_name};
ghost use Rattle.lexer.specs.declared.Stop.TheVariants.{Cut};
ghost use Rattle.coherence.specs.Fitting.{span_inside};
ghost use Rattle.coherence.specs.Checks.{name_fits};

use characters::forms::{fresh_form, next_form};
use compare::part_of;
use lexer::Stop;
use lexer::names::part_end;
use reader::Span;

// Does the span lie inside the scene?
pub fn inside(scene: &[u8], w: Span) -> bool
    ensures { result ≡ span_inside scene.now w }
{
    w.len <= scene.len() && w.at <= scene.len() - w.len
}

// Does a character end where the bytes do, of which a part from a place on is cut by their end?
fn ends_whole(name: &[u8], at: usize) -> bool
    requires { (at < length name.now) × (part_end name.now at ≡ Err Cut) }
    ensures { result ≡ part_to (length name.now) (part_end (name.now ++ (0 ∷ [])) at) }
{
    if name[name.len() - 1] < 0x80 {
        return true;
    }
    let mut f = fresh_form();
    for b in &name[at..] {
        f = next_form(f, *b);
        if f.left == 0 {
            f = fresh_form();
        }
    }
    f.left == 4
}

// Is what stands from a place on a name part, up to the last byte?
fn ends_as_part(name: &[u8], at: usize) -> bool
    ensures { result ≡ part_to (length name.now) (part_end (name.now ++ (0 ∷ [])) at) }
{
    if name.len() <= at {
        return false;
    }
    match part_end(name, at) {
        Ok(_) => false,
        Err(Stop::Bad(_)) => false,
        Err(Stop::Long(_)) => false,
        Err(Stop::Cut) => ends_whole(name, at),
    }
}

// Are these bytes a name part?
pub fn is_part(name: &[u8]) -> bool
    ensures { result ≡ is_part name.now }
{
    ends_as_part(name, 0)
}

// Are these bytes a name?
fn is_whole_name(name: &[u8]) -> bool
    ensures { result ≡ is_whole_name name.now }
{
    match part_end(name, 0) {
        Ok(j) => name[j] == b':' && ends_as_part(name, j + 1),
        Err(_) => is_part(name),
    }
}

pub fn name_fits(scene: &[u8], w: Span) -> bool
    ensures { result ≡ name_fits scene.now w }
{
    inside(scene, w) && w.at != 0 && is_whole_name(part_of(scene, w.at, w.len))
}
