// The forecast: how much a run writes and holds, worked out without an output. For hosts too: include/calcivorne.h is the manual.
#![tactic(auto)]

pub mod figures;

ghost use Rattle.std.specs.Prelude.{◌≡◌};
ghost use Rattle.table.specs.Table.{standard};
ghost use Rattle.forecast.specs.Forecasts.{no_figures, forecast_of, figure_numbers};

use crate::figures::{Forecast, figures_of};
use index::load;
use judging::judge;
use sessions::LONGEST;
use table::words::header_of;

// No event taken.
fn none_taken(number: u8, place: usize) -> Forecast
    ensures { result ≡ no_figures number place }
{
    Forecast {
        number,
        place,
        records: 0,
        units: 0,
        strands: 0,
        depth: 0,
    }
}

// The figures of a run over the whole scene.
pub fn forecast(table: &[u8], scene: &[u8]) -> Forecast
    ensures { result ≡ forecast_of standard table.now scene.now }
{
    let judged = judge(table);
    if judged.number != 0 {
        return none_taken(judged.number, judged.place);
    }
    if LONGEST < scene.len() {
        return none_taken(7, 0);
    }
    let index = load(table, header_of(table));
    figures_of(table, &index, scene)
}

// The same for hosts: six numbers.
#[unsafe(no_mangle)]
pub extern "C" fn calcivorne_forecast(table: &[u8], scene: &[u8], figures: &mut [u64; 6]) -> u8
    ensures value { result ≡ (forecast_of standard table.now scene.now).number }
    ensures figures_after { figures.new ≡ figure_numbers (forecast_of standard table.now scene.now) }
{
    let f = forecast(table, scene);
    *figures = [
        f.number as u64,
        f.place as u64,
        f.records as u64,
        f.units as u64,
        f.strands as u64,
        f.depth as u64,
    ];
    f.number
}
