//! A sum, and callers that add to it.

ghost use Rattle.std.specs.Prelude.{◌≡◌, ◌<◌, ◌+◌, ◌%◌, ◌^◌, ℕ};
ghost use Rattle.ticket_turns.specs.declared.limits.TheConstants.{MAX_CALLS};
ghost use Rattle.ticket_turns.specs.Passes.{view_of, IsAtRest, IsNewCaller, HasAdded};
ghost use Rattle.gate_histories.specs.Sums.{IsSumOf, added_of};

use std::marker::Brand;
use std::sync::Wait;
use ticket_turns::{Meaning, Pass, Said, Turns};

/// An amount that was added, and what the sum was then.
#[derive(Clone, Copy)]
pub struct Added {
    pub amount: u64,
    pub told: u64,
}

/// Where histories of additions lead.
pub struct Sums;

impl Meaning<u64, Added> for Sums {
    ghost use Rattle.gate_histories.specs.Sums.{IsSumOf};

    ghost leads = { IsSumOf };
}

impl Said<Added> for Brand {
    ghost use Rattle.gate_histories.specs.Sums.{added_of};

    ghost call = { added_of 0 0 };
}

/// A sum that callers use in turn.
pub type Sum = Turns<u64, Added, Sums>;

/// A caller: its pass, its number, and how many calls it made.
#[derive(Drop)]
pub struct Adder {
    pub pass: Pass<u64, Added>,
    pub number: u32,
    pub calls: u64,
    ghost resting: { IsAtRest number calls pass },
}

/// A caller that has added nothing.
pub fn new_adder(pass: Pass<u64, Added>, number: u32) -> Adder
    requires { IsNewCaller number pass }
    ensures pass { result.pass ≡ pass }
    ensures calls { result.calls ≡ 0 }
{
    Adder {
        pass,
        number,
        calls: 0,
    }
}

/// Adds an amount, and tells the sum, which begins anew behind 2^64.
pub fn add<R: Wait>(rt: &R, sum: &Sum, me: &mut Adder, amount: u64) -> u64
    requires table { me.old.pass.table_id ≡ sum.now.table.shared.table_id }
    requires calls { me.old.calls < MAX_CALLS }
    ensures table { me.new.pass.table_id ≡ me.old.pass.table_id }
    ensures calls { me.new.calls ≡ me.old.calls + 1 }
    ensures added { (found : ℕ) × (result ≡ (found + amount) % 2 ^ 64) × HasAdded IsSumOf found (view_of me.old.pass) (view_of me.new.pass) (added_of amount result) }
{
    let found = sum.enter(rt, &mut me.pass);
    let told = found.wrapping_add(amount);
    sum.leave::<Brand, u64, u64>(&mut me.pass, told, &amount, &told);
    me.calls += 1;
    told
}
