//! Laws of the definitions. Each is the contract of a function that does nothing.

ghost use Rattle.std.specs.Prelude.{◌≡◌, ◌⊎◌};
ghost use Rattle.plan_base.specs.declared.parts.Parts.{Parts as AnyParts};
ghost use Rattle.plan_base.specs.Facts.{IsInstance};
ghost use Rattle.snd_network.specs.declared.file.NetworkFile.{NetworkFile as AnyNetwork};
ghost use Rattle.snd_model.specs.declared.file.ModelFile.{ModelFile as AnyModel};
ghost use Rattle.model_check.specs.declared.fault.CheckFault.{CheckFault as AnyFault};
ghost use Rattle.model_check.specs.declared.fault.CheckFault.TheVariants.{OutOfMemory};
ghost use Rattle.model_check.specs.Reading.{ReadsAs};
ghost use Rattle.model_check.specs.Refusals.{IsCheckFault};

/// Two files stand for one instance at most.
pub fn one_instance()
    ensures { (net : AnyNetwork) (model : AnyModel) (a b : AnyParts) →
        ReadsAs net model a → ReadsAs net model b → a ≡ b }
{}

/// Two files that stand for an instance are not refused, unless memory runs out.
pub fn no_refusal_of_an_instance()
    ensures { (net : AnyNetwork) (model : AnyModel) (parts : AnyParts) (fault : AnyFault) →
        ReadsAs net model parts → IsInstance parts → IsCheckFault net model fault →
        fault ≡ OutOfMemory }
{}

/// Two files have one refusal at most, beside want of memory.
pub fn one_refusal()
    ensures { (net : AnyNetwork) (model : AnyModel) (a b : AnyFault) →
        IsCheckFault net model a → IsCheckFault net model b →
        (a ≡ OutOfMemory) ⊎ ((b ≡ OutOfMemory) ⊎ (a ≡ b)) }
{}
