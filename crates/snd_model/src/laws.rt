//! Laws of model texts. The contract of each function is its law; the functions do nothing.

ghost use Rattle.std.specs.Prelude.{◌≡◌, ◌≤◌, ℕ, ◌⊎◌, List, length};
ghost use Rattle.snd_lexer.specs.declared.limits.TheConstants.{MAX_TEXT_BYTES};
ghost use Rattle.snd_reader.specs.declared.fault.TextFault.{TextFault};
ghost use Rattle.snd_reader.specs.declared.fault.TextFault.TheVariants.{OutOfMemory};
ghost use Rattle.snd_model.specs.declared.file.ModelFile.{ModelFile};
ghost use Rattle.snd_model.specs.Spelling.{SpellsModel, IsFault};
ghost use Rattle.snd_model.specs.Writing.{model_text};

/// No text spells two models.
pub fn spells_one()
    ensures { (text : List ℕ) (a b : ModelFile) → SpellsModel text a → SpellsModel text b → a ≡ b }
{}

/// A text that spells a model has no fault; want of memory may be told of any text.
pub fn no_fault_where_spelt()
    ensures { (text : List ℕ) (file : ModelFile) (fault : TextFault) → SpellsModel text file → IsFault text fault → fault ≡ OutOfMemory }
{}

/// No text has two faults; want of memory may be told of any text.
pub fn one_fault_for_a_text()
    ensures { (text : List ℕ) (one other : TextFault) → IsFault text one → IsFault text other → (one ≡ OutOfMemory) ⊎ ((other ≡ OutOfMemory) ⊎ (one ≡ other)) }
{}

/// The canonical text of a model spells it, and may be read.
pub fn written_spells()
    ensures spells { (file : ModelFile) → SpellsModel (model_text file) file }
    ensures short { (file : ModelFile) → length (model_text file) ≤ MAX_TEXT_BYTES }
{}
