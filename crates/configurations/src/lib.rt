// Code 3's constant table of valid configurations: four syndromes each, end to end. The promise cites specs/Configurations.antt: it holds every valid one
// and no invalid one, ascending (`TableRight`), and so what the generator of the crate tails yields (`TableGenerated`).
#![tactic(auto)]

mod table;

ghost use Rattle.std.specs.Prelude.{◌≡◌};
ghost use Rattle.configurations.specs.Configurations.{listed};

use table::CONFIGURATIONS;

// The table.
pub fn of_code_3() -> [u16; 1024]
    ensures { result ≡ listed }
{
    CONFIGURATIONS
}
