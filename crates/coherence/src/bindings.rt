// Open bindings.
ghost use Rattle.std.specs.Prelude.{◌≡◌};
ghost use Rattle.laws.specs.Lists.{all, tabulate};
ghost use Rattle.reader.specs.Stored.{binding_in};
ghost use Rattle.coherence.specs.Fitting.{prefix_fits};
ghost use Rattle.coherence.specs.Checks.{binding_fits};

use crate::names::{inside, is_part};
use compare::part_of;
use reader::bindings::binding_in;
use reader::kinds::refused_binding;
use reader::{Binding, Scope, Span};

// Is a binding's prefix zero or a name part?
fn prefix_fits(scene: &[u8], w: Span) -> bool
    ensures { result ≡ prefix_fits scene.now w }
{
    w.at == 0 && w.len == 0 || is_part(part_of(scene, w.at, w.len))
}

fn binding_fits(scene: &[u8], b: Binding) -> bool
    ensures { result ≡ binding_fits scene.now b }
{
    inside(scene, b.prefix)
        && inside(scene, b.uri)
        && !refused_binding(scene, b)
        && prefix_fits(scene, b.prefix)
}

// Do the first so many bindings fit?
pub fn bindings_fit(scene: &[u8], bindings: &[u32; 4 * Scope::BINDINGS], bound: usize) -> bool
    ensures { result ≡ all (binding_fits scene.now) (tabulate (binding_in bindings.now) 0 bound) }
{
    (0..bound).all(|k| binding_fits(scene, binding_in(bindings, k)))
}
