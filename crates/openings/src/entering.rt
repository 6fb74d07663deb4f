// The strands of an element that starts: those of the level round it, or what their rules make at a new section.
ghost use Rattle.std.specs.Prelude.{◌≡◌, map, cond, ◌+◌, ◌*◌, ◌-◌, ◌≤◌, ◌<◌, length, get_or, eqb};
ghost use Rattle.laws.specs.Lists.{same_list};
ghost use Rattle.laws.specs.Over.{overwrite};
ghost use Rattle.reader.specs.Spans.{span, bytes_of};
ghost use Rattle.reader.specs.Namespaces.{uri_of};
ghost use Rattle.reader.specs.Stored.{stored_space};
ghost use Rattle.strands.specs.Packed.{strand_in, words_at};
ghost use Rattle.strands.specs.Levels.{level_spaces, level_strands};
ghost use Rattle.strands.specs.Entries.{entries_by, entries_from, stay_entry, counted, strand_word, schema_word};

use crate::STRANDS;
use attributes::Placing;
use compare::part_of;
use entries::{stay_all, take_all, take_rules};
use namespaces::clashes::has_uri;
use reader::{Found, Scope};
use strands::LEVELS;
use strands::levels::{count_at, space_at};

// Is the element's namespace that of the level?
fn joins(
    scene: &[u8],
    own: &[u32; 64],
    outer: &[u32; 4 * Scope::BINDINGS],
    found: Found,
    placing: Placing,
    levels: &[u32; LEVELS],
    level: usize,
) -> bool
    requires { level < 64 }
    ensures { let l = level_spaces levels.now in
        result ≡ cond (eqb (get_or l (4 * level) 0) 255)
        (same_list (uri_of scene.now (stored_space own.now outer.now found)) (bytes_of scene.now (span (get_or l (4 * level + 1) 0) (get_or l (4 * level + 2) 0))))
        (eqb (get_or l (4 * level) 0) placing.class) }
{
    let class = space_at(levels, level, 0);
    if class != 255 {
        return class == (placing.class as u32);
    }
    let at = space_at(levels, level, 1) as usize;
    let len = space_at(levels, level, 2) as usize;
    has_uri(scene, own, outer, found, part_of(scene, at, len))
}

// The strands of an element that starts; how many, none for more than 16.
pub fn next_strands(
    index: &[u32; 256],
    scene: &[u8],
    own: &[u32; 64],
    outer: &[u32; 4 * Scope::BINDINGS],
    found: Found,
    placing: Placing,
    depth: usize,
    levels: &[u32; LEVELS],
    words: &mut [u32; STRANDS],
    schemas: &mut [u32; STRANDS],
) -> Option<usize>
    requires { (depth ≤ 64) × (1 ≤ depth → get_or (level_spaces levels.now) (4 * (depth - 1) + 3) 0 ≤ 16) }
    ensures { let l = level_spaces levels.now in
        let level = depth - 1 in
        let ws = words_at (level_strands levels.now) level (get_or l (4 * level + 3) 0) in
        let joined = cond (eqb (get_or l (4 * level) 0) 255)
        (same_list (uri_of scene.now (stored_space own.now outer.now found)) (bytes_of scene.now (span (get_or l (4 * level + 1) 0) (get_or l (4 * level + 2) 0))))
        (eqb (get_or l (4 * level) 0) placing.class) in
        let es = cond (eqb depth 0) (entries_by index.now placing.class (strand_in 32)) (cond joined (map stay_entry ws) (entries_from index.now placing.class ws)) in
        (result ≡ counted (length es))
        × (length es ≤ 16 → words.new ≡ overwrite words.old 0 (map strand_word es))
        × (length es ≤ 16 → schemas.new ≡ overwrite schemas.old 0 (map schema_word es)) }
{
    if depth == 0 {
        return take_rules(index, 32, placing.class, words, schemas, 0);
    }
    let level = depth - 1;
    let n = count_at(levels, level);
    if joins(scene, own, outer, found, placing, levels, level) {
        stay_all(levels, level, n, words, schemas);
        return Some(n);
    }
    take_all(index, levels, level, n, placing.class, words, schemas)
}
