//! Laws of sample networks. The contract of each function is its law; the functions do nothing.

ghost use Rattle.std.specs.Prelude.{ℕ, ◌<◌, ◌≤◌, length};
ghost use Rattle.plan_base.specs.Facts.{total_load, IsInstance};
ghost use Rattle.plan_base.specs.Arcs.{link_at};
ghost use Rattle.snd_network.specs.WellFormed.{IsWellFormed};
ghost use Rattle.model_check.specs.Reading.{ReadsAs};
ghost use Rattle.link_steps.specs.Costs.{HasMoreSteps};
ghost use Rattle.link_steps.specs.declared.limits.TheConstants.{MAX_STEPS};
ghost use Rattle.instance_maker.specs.Samples.{sample_network};
ghost use Rattle.instance_maker.specs.Trials.{trial_model, sample_parts};
ghost use Rattle.instance_maker.specs.declared.limits.TheConstants.{MIN_NODES, MAX_NODES, MAX_DEMANDS};

/// A text can hold each sample network.
pub fn samples_are_well_formed()
    ensures { (number nodes demands : ℕ) → MIN_NODES ≤ nodes → nodes ≤ MAX_NODES → demands ≤ MAX_DEMANDS
        → IsWellFormed (sample_network number nodes demands) }
{
    scaled_numbers::laws::written_is_read_back();
}

/// Each sample network stands, under the model of a trial, for an instance within its limits, none of whose
/// links takes too many steps. So no text of it and of that model is refused.
pub fn samples_are_instances()
    ensures reads { (number nodes demands : ℕ) → MIN_NODES ≤ nodes → nodes ≤ MAX_NODES → demands ≤ MAX_DEMANDS
        → ReadsAs (sample_network number nodes demands) trial_model (sample_parts number nodes demands) }
    ensures lawful { (number nodes demands : ℕ) → MIN_NODES ≤ nodes → nodes ≤ MAX_NODES → demands ≤ MAX_DEMANDS
        → IsInstance (sample_parts number nodes demands) }
    ensures few_steps { (number nodes demands e : ℕ) → MIN_NODES ≤ nodes → nodes ≤ MAX_NODES → demands ≤ MAX_DEMANDS
        → e < length (sample_parts number nodes demands).links
        → HasMoreSteps (sample_parts number nodes demands).law (total_load (sample_parts number nodes demands)) (link_at (sample_parts number nodes demands) e) MAX_STEPS → ⊥ }
{}
