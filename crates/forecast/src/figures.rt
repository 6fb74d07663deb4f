// The figures of an accepted table and a scene that is not too long, event by event.
ghost use Rattle.std.specs.Prelude.{◌≡◌, true, ◌≤◌, length};
ghost use Rattle.table.specs.Table.{decode, header_of};
ghost use Rattle.table.specs.Index.{index_of};
ghost use Rattle.table.specs.Judge.{Accepted};
ghost use Rattle.forecast.specs.Forecasts.{figures_of};

use reader::Scope;
use sessions::{BINDINGS, Head, Scratch};
use steps::weighed_step;
use strands::LEVELS;
use strands::levels::count_at;

// What a run with an output that suffices comes to: its number and place, how many records it writes, how many units it opens, the most strands of a level that was open, the most levels open at once.
#[derive(Clone, Copy)]
pub struct Forecast {
    pub number: u8,
    pub place: usize,
    pub records: usize,
    pub units: usize,
    pub strands: usize,
    pub depth: usize,
}

// Events are taken until a number is not 0.
pub fn figures_of(table: &[u8], index: &[u32; 256], scene: &[u8]) -> Forecast
    requires { (Accepted table.now ≡ true) × (index.now ≡ index_of table.now (header_of table.now)) × (length scene.now ≤ 16777215) }
    ensures { result ≡ figures_of (decode table.now) scene.now }
{
    let mut levels: [u32; LEVELS] = [0; LEVELS];
    let mut bindings: [u32; 4 * BINDINGS] = [0; 4 * BINDINGS];
    let mut known: [u64; 2 * Scope::KNOWN] = [0; 2 * Scope::KNOWN];
    let mut scratch = Scratch::new();
    let mut head = Head::fresh();
    let mut records = 0;
    let mut strands = 0;
    let mut depth = 0;
    loop {
        let turn = weighed_step(
            table,
            index,
            scene,
            head,
            &mut levels,
            &mut bindings,
            &mut known,
            &mut scratch,
        );
        let number = turn.number;
        if number != 0 {
            return Forecast {
                number,
                place: turn.place,
                records,
                units: head.units,
                strands,
                depth,
            };
        }
        let next = turn.head;
        if head.depth < next.depth {
            strands = strands.max(count_at(&levels, head.depth));
            depth = depth.max(next.depth);
        }
        records += turn.records;
        head = next;
    }
}
