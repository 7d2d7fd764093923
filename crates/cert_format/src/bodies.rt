//! What a line is read as, without its line end.

ghost use Rattle.std.specs.Prelude.{◌≡◌, ◌<◌, Some, None, IfOk};
ghost use Rattle.std.specs.Option.{option_map};
ghost use Rattle.plan_tokens.specs.Words.{each, grains_of};
ghost use Rattle.cert_format.specs.Bodies.{fixed_of, one_in, number_row, sizes_in, count_row, with_both, both_row, size_row, form_of, status_of, none_or, cost_allowed, cost_of, positive, negative, signed_of, bound_of, arc_of, fitting_count, uncounted, path_of, modules_of, list_row};
ghost use Rattle.plan_tokens.specs.Cuts.{found_now, items_of};

use crate::form::Form;
use crate::lists::Lists;
use plan_base::limits::{MAX_DEMANDS, MAX_LINKS, MAX_MODULES, MAX_NODES};
use plan_base::{ArcId, Items, Path, Prices};
use plan_tokens::{are_same, before, behind, grains, row};
use proof_tree::PlanStatus;
use proof_tree::limits::MAX_PATH_ARCS;
use std::alloc::{AllocError, Global};

/// The counts of nodes, links and demands, and whether each direction of a link has a price of its own.
#[derive(Clone, Copy)]
pub(crate) struct Sizes {
    pub(crate) nodes: u32,
    pub(crate) links: u32,
    pub(crate) demands: u32,
    pub(crate) both: bool,
}

/// Nothing but these bytes.
#[tactic(auto, unfolding(crate::specs::Bodies::fixed_of))]
pub(crate) fn fixed(line: &[u8], body: &[u8]) -> Option<()>
    ensures { result ≡ fixed_of line.now body.now }
{
    if are_same(body, line) { Some(()) } else { None }
}

/// A list of one number from low to high.
#[tactic(auto, unfolding(crate::specs::Bodies::one_in))]
pub(crate) fn one_in(low: u32, high: u32, numbers: &[u128]) -> Option<u32>
    ensures { result ≡ one_in low high numbers.now }
{
    match numbers {
        [n] if u128::from(low) <= *n && *n <= u128::from(high) => Some(*n as u32),
        _ => None,
    }
}

/// A word and a number from low to high.
#[tactic(auto, unfolding(crate::specs::Bodies::number_row))]
pub(crate) fn number_row(
    alloc: Global,
    word: &[u8],
    low: u32,
    high: u32,
    body: &[u8],
) -> Result<Option<u32>, AllocError>
    ensures { IfOk result (λ found. found ≡ number_row word.now low high body.now) }
{
    match row(alloc, word, body)? {
        Some(numbers) => Ok(one_in(low, high, numbers.as_slice())),
        None => Ok(None),
    }
}

/// Three numbers that are sizes of an instance.
#[tactic(auto, unfolding(crate::specs::Bodies::sizes_in))]
fn sizes_in(numbers: &[u128]) -> Option<(u32, u32, u32)>
    ensures { result ≡ sizes_in numbers.now }
{
    match numbers {
        [nodes, links, demands] => {
            if *nodes <= u128::from(MAX_NODES)
                && *links <= MAX_LINKS as u128
                && *demands <= MAX_DEMANDS as u128
            {
                Some((*nodes as u32, *links as u32, *demands as u32))
            } else {
                None
            }
        }
        _ => None,
    }
}

/// The version.
#[tactic(auto, unfolding(crate::specs::Bodies::form_of))]
pub(crate) fn form(body: &[u8]) -> Option<Form>
    ensures { result ≡ form_of body.now }
{
    if are_same(body, b"SNDPLAN 1") {
        return Some(Form::First);
    }
    if are_same(body, b"SNDPLAN 2") {
        return Some(Form::Second);
    }
    if are_same(body, b"SNDPLAN 3") {
        return Some(Form::Third);
    }
    None
}

/// The counts of nodes, links and demands.
#[tactic(auto, unfolding(crate::specs::Bodies::count_row))]
fn size_counts(alloc: Global, body: &[u8]) -> Result<Option<(u32, u32, u32)>, AllocError>
    ensures { IfOk result (λ found. found ≡ count_row body.now) }
{
    match row(alloc, b"SIZE", body)? {
        Some(numbers) => Ok(sizes_in(numbers.as_slice())),
        None => Ok(None),
    }
}

/// The counts, and whether each direction of a link has a price of its own.
fn counts_with(alloc: Global, both: bool, bytes: &[u8]) -> Result<Option<Sizes>, AllocError>
    ensures { IfOk result (λ found. found ≡ option_map (with_both both) (count_row bytes.now)) }
{
    match size_counts(alloc, bytes)? {
        Some((nodes, links, demands)) => Ok(Some(Sizes {
            nodes,
            links,
            demands,
            both,
        })),
        None => Ok(None),
    }
}

/// The counts, and behind them whether each direction of a link has a price of its own.
#[tactic(auto, unfolding(crate::specs::Bodies::both_row))]
fn both_row(alloc: Global, body: &[u8]) -> Result<Option<Sizes>, AllocError>
    ensures { IfOk result (λ found. found ≡ both_row body.now) }
{
    if let Some(bytes) = before(b" ONE", body) {
        return counts_with(alloc, false, bytes);
    }
    match before(b" BOTH", body) {
        Some(bytes) => counts_with(alloc, true, bytes),
        None => Ok(None),
    }
}

/// The sizes.
#[tactic(auto, unfolding(crate::specs::Bodies::size_row))]
pub(crate) fn size_row(alloc: Global, form: Form, body: &[u8]) -> Result<Option<Sizes>, AllocError>
    ensures { IfOk result (λ found. found ≡ size_row form body.now) }
{
    match form {
        Form::First => counts_with(alloc, false, body),
        Form::Second | Form::Third => both_row(alloc, body),
    }
}

/// The status.
#[tactic(auto, unfolding(crate::specs::Bodies::status_of))]
pub(crate) fn status(body: &[u8]) -> Option<PlanStatus>
    ensures { result ≡ status_of body.now }
{
    if are_same(body, b"STATUS OPTIMAL") {
        return Some(PlanStatus::Optimal);
    }
    if are_same(body, b"STATUS INFEASIBLE") {
        return Some(PlanStatus::Infeasible);
    }
    if are_same(body, b"STATUS UNDECIDED") {
        return Some(PlanStatus::Undecided);
    }
    None
}

/// Whether an optimal plan has a cost, and an infeasible one has none.
fn is_allowed(status: PlanStatus, cost: Option<u128>) -> bool
    ensures { result ≡ cost_allowed status cost }
{
    match (status, cost) {
        (PlanStatus::Optimal, None) => false,
        (PlanStatus::Optimal, Some(_)) => true,
        (PlanStatus::Infeasible, None) => true,
        (PlanStatus::Infeasible, Some(_)) => false,
        (PlanStatus::Undecided, _) => true,
    }
}

/// The cost, or that there is none.
fn stated_cost(alloc: Global, bytes: &[u8]) -> Result<Option<Option<u128>>, AllocError>
    ensures { IfOk result (λ found. found ≡ none_or grains_of bytes.now) }
{
    if are_same(bytes, b"none") {
        return Ok(Some(None));
    }
    match grains(alloc, bytes)? {
        Some(cost) => Ok(Some(Some(cost))),
        None => Ok(None),
    }
}

/// The cost, as the status allows it.
#[tactic(auto, unfolding(crate::specs::Bodies::cost_of))]
pub(crate) fn cost(
    alloc: Global,
    status: PlanStatus,
    body: &[u8],
) -> Result<Option<Option<u128>>, AllocError>
    ensures { IfOk result (λ found. found ≡ cost_of status body.now) }
{
    let Some(bytes) = behind(b"COST ", body) else {
        return Ok(None);
    };
    match stated_cost(alloc, bytes)? {
        Some(cost) if is_allowed(status, cost) => Ok(Some(cost)),
        _ => Ok(None),
    }
}

/// A bound that is not negative.
fn positive(size: u128) -> Option<i128>
    ensures { result ≡ positive size }
{
    if size < 1 << 127 {
        Some(size as i128)
    } else {
        None
    }
}

/// A negative bound of this size.
fn negative(size: u128) -> Option<i128>
    ensures { result ≡ negative size }
{
    if 0 < size && size <= 1 << 127 {
        Some(-((size - 1) as i128) - 1)
    } else {
        None
    }
}

/// A canonical decimal, perhaps with a minus in front.
#[tactic(auto, unfolding(crate::specs::Bodies::signed_of))]
fn signed(alloc: Global, bytes: &[u8]) -> Result<Option<i128>, AllocError>
    ensures { IfOk result (λ found. found ≡ signed_of bytes.now) }
{
    match behind(b"-", bytes) {
        Some(rest) => match grains(alloc, rest)? {
            Some(size) => Ok(negative(size)),
            None => Ok(None),
        },
        None => match grains(alloc, bytes)? {
            Some(size) => Ok(positive(size)),
            None => Ok(None),
        },
    }
}

/// The bound, or that there is none.
fn stated_bound(alloc: Global, bytes: &[u8]) -> Result<Option<Option<i128>>, AllocError>
    ensures { IfOk result (λ found. found ≡ none_or signed_of bytes.now) }
{
    if are_same(bytes, b"none") {
        return Ok(Some(None));
    }
    match signed(alloc, bytes)? {
        Some(bound) => Ok(Some(Some(bound))),
        None => Ok(None),
    }
}

/// The bound of an undecided plan.
#[tactic(auto, unfolding(crate::specs::Bodies::bound_of))]
pub(crate) fn bound(alloc: Global, body: &[u8]) -> Result<Option<Option<i128>>, AllocError>
    ensures { IfOk result (λ found. found ≡ bound_of body.now) }
{
    match behind(b"BOUND ", body) {
        Some(bytes) => stated_bound(alloc, bytes),
        None => Ok(None),
    }
}

/// The numbers behind their count, at most so many.
pub(crate) fn uncounted(most: usize, numbers: &[u128]) -> Option<&[u128]>
    ensures { found_now result ≡ uncounted most numbers.now }
{
    match numbers {
        [count, rest @ ..] => {
            if *count == rest.len() as u128 && *count <= most as u128 {
                Some(rest)
            } else {
                None
            }
        }
        [] => None,
    }
}

/// Arcs of these numbers.
#[tactic(auto, using(plan_tokens::proofs::NumberWords::each_more, plan_tokens::proofs::NumberWords::each_stop, plan_tokens::proofs::NumberWords::each_end, plan_tokens::proofs::NumberWords::with_nothing))]
pub(crate) fn arcs(alloc: Global, numbers: &[u128]) -> Result<Option<Vec<ArcId>>, AllocError>
    ensures { IfOk result (λ found. items_of found ≡ each arc_of numbers.now) }
{
    let mut arcs = Vec::new(alloc);
    for n in numbers {
        if *n >= 1 << 32 {
            return Ok(None);
        }
        arcs.push(ArcId(*n as u32))?;
    }
    Ok(Some(arcs))
}

/// Counts of modules.
#[tactic(auto, using(plan_tokens::proofs::NumberWords::each_more, plan_tokens::proofs::NumberWords::each_stop, plan_tokens::proofs::NumberWords::each_end, plan_tokens::proofs::NumberWords::with_nothing))]
fn counts(alloc: Global, numbers: &[u128]) -> Result<Option<Vec<u64>>, AllocError>
    ensures { IfOk result (λ found. items_of found ≡ each fitting_count numbers.now) }
{
    let mut counts = Vec::new(alloc);
    for n in numbers {
        if *n >= 1 << 64 {
            return Ok(None);
        }
        counts.push(*n as u64)?;
    }
    Ok(Some(counts))
}

/// A path.
#[tactic(auto, unfolding(crate::specs::Bodies::path_of))]
pub(crate) fn path(alloc: Global, body: &[u8]) -> Result<Option<Path>, AllocError>
    ensures { IfOk result (λ found. found ≡ path_of body.now) }
{
    let Some(numbers) = row(alloc, b"PATH", body)? else {
        return Ok(None);
    };
    let Some(numbers) = uncounted(MAX_PATH_ARCS, numbers.as_slice()) else {
        return Ok(None);
    };
    match arcs(alloc, numbers)? {
        Some(arcs) => Ok(Some(Path::from_vec(arcs))),
        None => Ok(None),
    }
}

/// The counts of a link's modules.
#[tactic(auto, unfolding(crate::specs::Bodies::modules_of))]
pub(crate) fn modules(alloc: Global, body: &[u8]) -> Result<Option<Items<u64>>, AllocError>
    ensures { IfOk result (λ found. found ≡ modules_of body.now) }
{
    let Some(numbers) = row(alloc, b"MODULES", body)? else {
        return Ok(None);
    };
    let Some(numbers) = uncounted(MAX_MODULES, numbers.as_slice()) else {
        return Ok(None);
    };
    match counts(alloc, numbers)? {
        Some(counts) => Ok(Some(Items::from_vec(counts))),
        None => Ok(None),
    }
}

/// A price list that is none of those before it.
#[tactic(auto, unfolding(crate::specs::Bodies::list_row))]
pub(crate) fn list(
    alloc: Global,
    entries: usize,
    lists: &Lists,
    body: &[u8],
) -> Result<Option<Prices>, AllocError>
    ensures { IfOk result (λ found. found ≡ list_row entries lists.now body.now) }
{
    match row(alloc, b"P", body)? {
        Some(prices) if prices.len() == entries && !lists.has(prices.as_slice()) => {
            Ok(Some(Prices::from_vec(prices)))
        }
        _ => Ok(None),
    }
}
