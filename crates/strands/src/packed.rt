// A strand packed in a number: mode 5 bits, action 2, opened here 1, has a target 1, target 16, from the lowest on.
ghost use Rattle.std.specs.Prelude.{◌≡◌, ℕ, ◌<◌};
ghost use Rattle.std.proofs.Math.Option.{none};
ghost use Rattle.model.specs.Stream.{HeldStrand, stay};
ghost use Rattle.strands.specs.Packed.{strand_in, packed, target_number, receives, is_unit, target_in};
ghost use Rattle.strands.specs.Entries.{made_by, aimed_at};

use table::words::action_of;
use table::{Action, Rule};

// Its mode.
pub fn mode_of(w: u32) -> u8
    ensures { (result ≡ (strand_in w).mode) × (result < 32) }
{
    (w % 32) as u8
}

// Whether its unit opened at this element.
pub fn is_here(w: u32) -> bool
    ensures { result ≡ (strand_in w).here }
{
    w / 128 % 2 == 1
}

// Whether a unit gets what it delivers.
pub fn delivers(w: u32) -> bool
    ensures { result ≡ is_unit (receives (strand_in w)) }
{
    (w / 256 % 2 == 1) & (w / 32 % 4 != 1)
}

// The bits of its target.
pub fn target_of(w: u32) -> u32
    ensures { result ≡ target_in w }
{
    w / 512 % 65536
}

// Its target with the bit that says there is one; 0 where there is none: the bits of a packed strand.
fn aim_of(w: u32) -> u32
    ensures { result ≡ target_number (strand_in w).target }
{
    if w / 256 % 2 == 1 {
        256 + target_of(w) * 512
    } else {
        0
    }
}

// Inside a section strands stay.
pub fn stay_of(w: u32) -> u32
    ensures { result ≡ packed (stay (strand_in w)) }
{
    let action = action_of((w / 32 % 4) as u8);
    (w % 32) + (action as u32) * 32 + aim_of(w)
}

// The strand that a rule makes of one. A new unit has no number yet.
pub fn made_by(w: u32, rule: Rule) -> u32
    requires { rule.next < 32 }
    ensures { result ≡ packed (made_by (strand_in w) rule).strand }
{
    let next = u32::from(rule.next);
    match rule.action {
        Action::Attach => next + aim_of(w),
        Action::Unwrap => next + 32 + aim_of(w),
        Action::Validate => next + 64 + 128,
    }
}

// A strand whose unit opens here, with the unit's number.
pub fn aimed(w: u32, unit: usize) -> u32
    requires { unit < 65536 }
    ensures { (r' : HeldStrand ℕ) → w ≡ packed r' → r'.target ≡ none → r'.mode < 32 → result ≡ packed (aimed_at r' unit) }
{
    w % 256 + 256 + (unit as u32) * 512
}
