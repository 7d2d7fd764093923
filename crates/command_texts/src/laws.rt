//! What follows for the texts of a command.

ghost use Rattle.std.specs.Prelude.{List, ℕ, ◌≡◌};
ghost use Rattle.plan_report.specs.declared.run_fault.RunFault.{RunFault as AnyFault};
ghost use Rattle.command_texts.specs.declared.status.Status.{Status as AnyStatus};
ghost use Rattle.command_texts.specs.Texts.{Texts, alone};
ghost use Rattle.command_texts.specs.Refusals.{AreGood, AreRefused};
ghost use Rattle.command_texts.specs.Answers.{IsChecked, IsVerified, IsReported, IsUpgraded, IsGoodWhereValid, HasOneAnswer};
ghost use Rattle.command_texts.specs.OneAnswer.{Below};

/// What the crates below say: a text, two files, a link and a plan have one answer each.
pub fn one_answer_below()
    ensures { Below }
{
    snd_network::laws::one_network_for_a_text();
    snd_network::laws::no_fault_where_spelt();
    snd_network::laws::one_fault_for_a_text();
    snd_model::laws::spells_one();
    snd_model::laws::no_fault_where_spelt();
    snd_model::laws::one_fault_for_a_text();
    model_check::laws::one_instance();
    model_check::laws::no_refusal_of_an_instance();
    model_check::laws::one_refusal();
    link_steps::laws::few_or_many();
    cert_format::laws::one_plan_for_a_text();
    cert_format::laws::no_fault_where_spelt();
    cert_format::laws::one_fault_for_a_text();
    cert_verifier::laws::one_fault();
}

/// The texts of a command are refused in one way at most.
pub fn one_refusal()
    ensures { (texts : Texts) (a b : AnyFault) → AreRefused texts a → AreRefused texts b → a ≡ b }
{
    one_answer_below();
}

/// Where texts are refused, they do not spell what a command works on: an instance within its limits, with a plan where
/// one is named, or a plan by itself.
pub fn refused_or_read()
    ensures { (texts : Texts) (fault : AnyFault) → AreRefused texts fault → AreGood texts → ⊥ }
{
    one_answer_below();
}

/// Where texts read as an instance and a plan, the plan is accepted, and it is told, exactly if it is a valid one of the
/// instance.
pub fn accepted_where_valid()
    ensures verdict { IsGoodWhereValid IsVerified }
    ensures report { IsGoodWhereValid IsReported }
{
    one_answer_below();
}

/// Two texts get one line of a check, with its status.
pub fn one_check()
    ensures { HasOneAnswer IsChecked }
{
    one_answer_below();
}

/// Three texts get one verdict: its status and its line.
pub fn one_verdict()
    ensures { HasOneAnswer IsVerified }
{
    one_answer_below();
}

/// Three texts get one report: its status and its text.
pub fn one_report()
    ensures { HasOneAnswer IsReported }
{
    one_answer_below();
}

/// A plan text is upgraded to one text, and that text to itself.
pub fn one_upgrade()
    ensures one { HasOneAnswer IsUpgraded }
    ensures again { (texts : Texts) (status other : AnyStatus) (bytes more : List ℕ) →
        IsUpgraded texts status bytes → IsUpgraded (alone bytes) other more → bytes ≡ more }
{
    one_answer_below();
}
