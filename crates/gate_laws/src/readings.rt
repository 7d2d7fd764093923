//! Each text is read, or has a fault other than want of memory.
//!
//! Where memory is wanting, any text may be refused. These laws say that no text is left without an answer of its own: with
//! enough memory a reader whose contract tells its answers exactly has to read the text, or to tell its one fault.

ghost use Rattle.std.specs.Prelude.{◌≢◌, ◌⊎◌, ℕ, List};
ghost use Rattle.snd_reader.specs.declared.fault.TextFault.{TextFault};
ghost use Rattle.snd_reader.specs.declared.fault.TextFault.TheVariants as text_faults;
ghost use Rattle.snd_network.specs.declared.file.NetworkFile.{NetworkFile};
ghost use Rattle.snd_network.specs.Spelling.{SpellsNetwork};
ghost use Rattle.snd_network.specs.Spelling.{IsFault as IsNetworkFault};
ghost use Rattle.snd_model.specs.declared.file.ModelFile.{ModelFile};
ghost use Rattle.snd_model.specs.Spelling.{SpellsModel};
ghost use Rattle.snd_model.specs.Spelling.{IsFault as IsModelFault};
ghost use Rattle.proof_tree.specs.declared.plan.Plan.{Plan};
ghost use Rattle.cert_format.specs.declared.fault.PlanFault.{PlanFault};
ghost use Rattle.cert_format.specs.declared.fault.PlanFault.TheVariants as plan_faults;
ghost use Rattle.cert_format.specs.Grammar.{SpellsPlan};
ghost use Rattle.cert_format.specs.Faults.{IsFault as IsPlanFault};

/// A text spells a network, or has a fault other than want of memory.
pub fn network_or_fault()
    ensures { (text : List ℕ) → ((file : NetworkFile) × SpellsNetwork text file)
        ⊎ ((fault : TextFault) × (fault ≢ text_faults.OutOfMemory) × IsNetworkFault text fault) }
{}

/// A text spells a model, or has a fault other than want of memory.
pub fn model_or_fault()
    ensures { (text : List ℕ) → ((file : ModelFile) × SpellsModel text file)
        ⊎ ((fault : TextFault) × (fault ≢ text_faults.OutOfMemory) × IsModelFault text fault) }
{}

/// A text spells a plan, or has a fault other than want of memory.
pub fn plan_or_fault()
    ensures { (text : List ℕ) → ((plan : Plan) × SpellsPlan text plan)
        ⊎ ((fault : PlanFault) × (fault ≢ plan_faults.OutOfMemory) × IsPlanFault text fault) }
{}
