//! Worked cases.
ghost use Rattle.std.specs.List.{AllByRecursion};
ghost use Rattle.card_laws.specs.Bench.{bench, holds};
ghost use Rattle.command.specs.Bench.{bench as command_bench, holds as command_holds};

/// Every worked case holds: those of a hopper, and those of commands.
pub fn worked_cases()
    ensures hopper { AllByRecursion holds bench }
    ensures commands { AllByRecursion command_holds command_bench }
{}
