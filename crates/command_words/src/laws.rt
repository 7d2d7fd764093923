//! What the numbers of a command may be, and how many words it takes.

ghost use Rattle.std.specs.Prelude.{ℕ, ◌≡◌, ◌+◌, ◌≤◌, ◌↔◌, List, ◌∷◌, length, Some, None};
ghost use Rattle.command_words.specs.declared.command.Command.{Command as AnyCommand};
ghost use Rattle.command_words.specs.declared.command.SampleKey.{SampleKey as AnyKey};
ghost use Rattle.command_words.specs.Words.{Word, number_within, AreWorkers, IsBudget, IsSampleKey, workers_of, budget_of, command_in, name_count};

/// `plan` has 1 to 64 workers and a budget of 1 to 4,096 nodes; where the words name none, 4 and 1,000.
pub fn numbers_of_plan()
    ensures workers { (count : ℕ) → AreWorkers count ↔ ((1 ≤ count) × (count ≤ 64)) }
    ensures budget { (nodes : ℕ) → IsBudget nodes ↔ ((1 ≤ nodes) × (nodes ≤ 4096)) }
    ensures unsaid { (workers_of None ≡ Some 4) × (budget_of None ≡ Some 1000) }
{}

/// A sample has a number up to 2,147,483,647, 4 to 64 nodes, and up to 4,096 demands.
pub fn numbers_of_sample()
    ensures { (key : AnyKey) → IsSampleKey key ↔ ((key.number ≤ 2147483647) × (4 ≤ key.nodes) × (key.nodes ≤ 64) × (key.demands ≤ 4096)) }
{}

/// A value that begins with `-`, which is 45, is no number, whether it is a word of its own or not.
pub fn no_dashed_value()
    ensures { (least most : ℕ) (rest : Word) → number_within least most (45 ∷ rest) ≡ None }
{}

/// The words that are read are more than the texts that they name.
pub fn more_words_than_texts()
    ensures { (words : List Word) (command : AnyCommand Word) → command_in words ≡ Some command → name_count command + 1 ≤ length words }
{}
