//! Callers in turn, and in two threads at once.

ghost use Rattle.std.specs.Prelude.{◌≡◌, ◌+◌, IfOk};
ghost use Rattle.ticket_turns.specs.declared.limits.TheConstants.{MAX_CALLS};

use crate::sum::{Adder, Sum, add, new_adder};
use std::alloc::{AllocError, Global};
use std::sync::Wait;
use std::thread::{Threads, join};
use ticket_turns::MAX_CALLS;

/// How often each of two threads adds.
const TIMES: u64 = 20_000;

/// A sum of 0 and two callers.
fn two_adders(alloc: Global) -> Result<(Sum, Adder, Adder), AllocError>
    ensures tables { IfOk result (λ r. (r.1.pass.table_id ≡ r.0.table.shared.table_id) × (r.2.pass.table_id ≡ r.0.table.shared.table_id)) }
    ensures callers { IfOk result (λ r. r.0.callers ≡ 2) }
    ensures calls { IfOk result (λ r. (r.1.calls ≡ 0) × (r.2.calls ≡ 0)) }
{
    let (sum, mut maker) = Sum::new(alloc, 0, 2)?;
    let one = new_adder(sum.caller(&mut maker, 0), 0);
    let two = new_adder(sum.caller(&mut maker, 1), 1);
    Ok((sum, one, two))
}

/// Adds 1 so often, and tells whether the sums that it was told rise.
fn add_often<R: Wait>(rt: &R, sum: &Sum, mut me: Adder) -> (Adder, bool)
    requires { me.pass.table_id ≡ sum.now.table.shared.table_id }
    ensures { result.0.pass.table_id ≡ me.pass.table_id }
{
    let mut last = 0;
    let mut rises = true;
    for _ in 0..TIMES {
        if me.calls >= MAX_CALLS {
            break;
        }
        let told = add(rt, sum, &mut me, 1);
        rises = rises && last < told;
        last = told;
    }
    (me, rises)
}

/// What is left in the sum when both callers have ended.
fn ended(sum: Sum, one: Adder, two: Adder) -> u64
    requires tables { (one.pass.table_id ≡ sum.table.shared.table_id) × (two.pass.table_id ≡ sum.table.shared.table_id) }
    requires callers { sum.callers ≡ 2 }
{
    let Adder {
        pass: mut root,
        number: _,
        calls: _,
    } = one;
    let Adder {
        pass: other,
        number: _,
        calls: _,
    } = two;
    sum.take_in(&mut root, other);
    sum.close(root)
}

/// Adds what two callers are told one after the other, that meet behind each call.
fn tell_turns<R: Wait>(rt: &R, alloc: Global, text: &mut String) -> Option<()> {
    let (sum, mut one, mut two) = two_adders(alloc).ok()?;
    let first = add(rt, &sum, &mut one, 3);
    sum.meet(&mut one.pass, &mut two.pass);
    let second = add(rt, &sum, &mut two, 4);
    sum.meet(&mut two.pass, &mut one.pass);
    let third = add(rt, &sum, &mut one, 5);
    let last = ended(sum, one, two);
    write!(text, "{first} {second} {third}, {last} left\n").ok()
}

/// Adds what is left when two threads have added at once, and whether the sums that each was told rise.
fn tell_threads<R: Threads + Wait + Sync>(rt: &R, alloc: Global, text: &mut String) -> Option<()> {
    let (sum, one, two) = two_adders(alloc).ok()?;
    let ((one, first_rises), (two, second_rises)) = join(
        rt,
        || -> (Adder, bool)
            requires { one.pass.table_id ≡ sum.table.shared.table_id }
            ensures { result.0.pass.table_id ≡ one.pass.table_id }
        { add_often(rt, &sum, one) },
        || -> (Adder, bool)
            requires { two.pass.table_id ≡ sum.table.shared.table_id }
            ensures { result.0.pass.table_id ≡ two.pass.table_id }
        { add_often(rt, &sum, two) },
    );
    let last = ended(sum, one, two);
    let how = if first_rises && second_rises {
        "each told rising sums"
    } else {
        "a sum was told that does not rise"
    };
    write!(text, "{last} left, {how}\n").ok()
}

/// Adds all lines. None where memory is wanting.
pub fn tell_all<R: Threads + Wait + Sync>(rt: &R, alloc: Global, text: &mut String) -> Option<()> {
    tell_turns(rt, alloc, text)?;
    tell_threads(rt, alloc, text)
}
