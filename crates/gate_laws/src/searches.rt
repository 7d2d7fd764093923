//! Limits of searches.

ghost use Rattle.std.specs.Prelude.{◌≡◌, ◌^◌};
ghost use Rattle.plan_io.specs.declared.gate.TheConstants.{MAX_WORKERS};
ghost use Rattle.block_deques.specs.declared.limits.TheConstants.{MAX_DECKS};
ghost use Rattle.command_words.specs.declared.command.TheConstants.{DEFAULT_WORKERS, DEFAULT_BUDGET};
ghost use Rattle.ticket_turns.specs.declared.limits.TheConstants.{MAX_CALLERS, MAX_CALLS};
ghost use Rattle.least_path.specs.declared.limits.TheConstants.{MAX_WEIGHT};
ghost use Rattle.verifier_paths.specs.declared.limits.TheConstants.{MAX_WAY_ARCS};
ghost use Rattle.bound_assembly.specs.declared.limits.TheConstants.{MAX_PATH_LINKS};
ghost use Rattle.master_step.specs.declared.limits.TheConstants.{MAX_TRIALS, MAX_TURNS, MAX_CUT_TURNS};
ghost use Rattle.column_pool.specs.declared.limits.TheConstants.{MAX_COLUMNS};
ghost use Rattle.plan_merge.specs.declared.choosing.TheConstants.{MAX_PARTS};
ghost use Rattle.search_machine.specs.State.{State};
ghost use Rattle.search_machine.specs.Machine.{Event, Answer, Step};
ghost use Rattle.search_machine.specs.Soundness.{IsSound};
ghost use Rattle.search_machine.specs.declared.limits.TheConstants.{MAX_BUDGET, MAX_ROUNDS, MAX_VERSIONS, ENOUGH_VERSIONS};

/// How many nodes a search examines at most, how many rounds are active, versions of a node complete at most and enough
/// where a design is known, and columns of a demand kept.
pub fn sizes_of_searches()
    ensures budget { MAX_BUDGET ≡ 4096 }
    ensures rounds { MAX_ROUNDS ≡ 64 }
    ensures versions { MAX_VERSIONS ≡ 16 }
    ensures enough { ENOUGH_VERSIONS ≡ 2 }
    ensures columns { MAX_COLUMNS ≡ 64 }
{}

/// How many trials a master step makes, and turns an averaged ascent without cuts and with cuts.
pub fn trials_of_steps()
    ensures trials { MAX_TRIALS ≡ 24 }
    ensures turns { MAX_TURNS ≡ 100 }
    ensures cut_turns { MAX_CUT_TURNS ≡ 180 }
{}

/// How many arcs a simple path has at most, for whoever assembles a bound and for the verifier, and the greatest weight of an
/// arc that a search takes.
pub fn sizes_of_paths()
    ensures links { MAX_PATH_LINKS ≡ 511 }
    ensures arcs { MAX_WAY_ARCS ≡ 511 }
    ensures weight { MAX_WEIGHT ≡ 10 ^ 35 }
{}

/// How many workers a run and how many decks its blocks have at most, and how many workers and nodes where the words name
/// none.
pub fn counts_of_workers()
    ensures most { MAX_WORKERS ≡ 64 }
    ensures decks { MAX_DECKS ≡ 64 }
    ensures workers { DEFAULT_WORKERS ≡ 4 }
    ensures budget { DEFAULT_BUDGET ≡ 1000 }
{}

/// How many parts the open leaves of a plan are dealt out to at most.
pub fn counts_of_parts()
    ensures { MAX_PARTS ≡ 4096 }
{}

/// How many callers use a value in turn at most, and how many calls each of them makes at most.
pub fn counts_of_turns()
    ensures callers { MAX_CALLERS ≡ 64 }
    ensures calls { MAX_CALLS ≡ 2 ^ 56 }
{}

/// Each event leads from a sound state to a sound one, whatever led to the first.
pub fn each_step()
    ensures { (s t : State) (event : Event) (answer : Answer) → IsSound s → Step s event answer t → IsSound t }
{}
