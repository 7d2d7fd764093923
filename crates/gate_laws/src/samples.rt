//! Limits and numbers of samples and trials.

ghost use Rattle.std.specs.Prelude.{◌≡◌, ◌-◌, ◌^◌};
ghost use Rattle.instance_maker.specs.declared.limits.TheConstants.{MAX_NUMBER, MIN_NODES, MAX_NODES, MAX_DEMANDS};
ghost use Rattle.instance_maker.specs.declared.draws.TheConstants.{MULTIPLIER, INCREMENT, STATES, DROPPED};
ghost use Rattle.instance_maker.specs.declared.trials.TheConstants.{TRIAL_BUDGET};

/// The greatest number of a sample, how many nodes it has at least and at most, and demands at most.
pub fn sizes_of_samples()
    ensures number { MAX_NUMBER ≡ 2 ^ 31 - 1 }
    ensures few_nodes { MIN_NODES ≡ 4 }
    ensures nodes { MAX_NODES ≡ 64 }
    ensures demands { MAX_DEMANDS ≡ 4096 }
{}

/// What each state of the generator is multiplied by and what is added, how many states there are, and what a state is
/// divided by.
pub fn numbers_of_draws()
    ensures multiplier { MULTIPLIER ≡ 1103515245 }
    ensures increment { INCREMENT ≡ 12345 }
    ensures states { STATES ≡ 2 ^ 31 }
    ensures dropped { DROPPED ≡ 65536 }
{}

/// How many nodes a trial may examine.
pub fn nodes_of_trials()
    ensures { TRIAL_BUDGET ≡ 1000 }
{}
