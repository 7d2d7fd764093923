//! Laws of network texts. The contract of each function is its law; the functions do nothing.

ghost use Rattle.std.specs.Prelude.{◌≡◌, ℕ, ◌⊎◌, List, length};
ghost use Rattle.snd_reader.specs.declared.fault.TextFault.{TextFault};
ghost use Rattle.snd_reader.specs.declared.fault.TextFault.TheVariants.{Ended, OutOfMemory};
ghost use Rattle.snd_network.specs.declared.file.NetworkFile.{NetworkFile};
ghost use Rattle.snd_network.specs.WellFormed.{IsWellFormed};
ghost use Rattle.snd_network.specs.Writing.{network_text};
ghost use Rattle.snd_network.specs.Spelling.{SpellsNetwork, IsFault};

use scaled_numbers::laws;

/// No text spells two networks.
pub fn one_network_for_a_text()
    ensures { (text : List ℕ) (one other : NetworkFile) → SpellsNetwork text one → SpellsNetwork text other → one ≡ other }
{}

/// A text that spells a network has no fault; want of memory may be told of any text.
pub fn no_fault_where_spelt()
    ensures { (text : List ℕ) (file : NetworkFile) (fault : TextFault) → SpellsNetwork text file → IsFault text fault → fault ≡ OutOfMemory }
{}

/// No text has two faults; want of memory may be told of any text.
pub fn one_fault_for_a_text()
    ensures { (text : List ℕ) (one other : TextFault) → IsFault text one → IsFault text other → (one ≡ OutOfMemory) ⊎ ((other ≡ OutOfMemory) ⊎ (one ≡ other)) }
{}

/// A text that ends where more is needed is told at its length.
pub fn ended_at_the_length()
    ensures { (text : List ℕ) (at : ℕ) → IsFault text (Ended at) → at ≡ length text }
{}

/// The canonical text of a network that a text can hold spells it.
pub fn written_is_spelt()
    ensures { (file : NetworkFile) → IsWellFormed file → SpellsNetwork (network_text file) file }
{
    laws::written_is_read_back();
    laws::written_is_one_word();
}
