// The forecast as a static library for hosts: the call of `forecast`. include/calcivorne.h is the manual. A crate is a library or a static library and not both, so that the C interface needs the calls here once more.
#![tactic(auto)]

ghost use Rattle.std.specs.Prelude.{◌≡◌};
ghost use Rattle.table.specs.Table.{standard};
ghost use Rattle.forecast.specs.Forecasts.{forecast_of, figure_numbers};

// The same for hosts: six numbers.
#[unsafe(no_mangle)]
pub extern "C" fn calcivorne_forecast(table: &[u8], scene: &[u8], figures: &mut [u64; 6]) -> u8
    ensures value { result ≡ (forecast_of standard table.now scene.now).number }
    ensures figures_after { figures.new ≡ figure_numbers (forecast_of standard table.now scene.now) }
{
    forecast::calcivorne_forecast(table, scene, figures)
}
