//! Whether carriers migrate.
ghost use Rattle.std.specs.Prelude.{◌≡◌};
ghost use Rattle.ea_machine.specs.Setup.{migration, setup_of};

use ea_model::{Config, Trace};

/// Whether carriers migrate in the run of a trace: by the settings of its letter.
pub fn migrates(config: Config, trace: &Trace) -> bool
    ensures { result ≡ migration (setup_of config trace.now) }
{
    config.of(trace.letter).lets_migrate()
}
