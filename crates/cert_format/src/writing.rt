//! Writing the text of a plan.

ghost use Rattle.std.specs.Prelude.{◌≡◌, ◌<◌, ◌≤◌, ◌^◌, ◌++◌, ◌∷◌, [], map, decimal, codes, length, IfOk, OnOk, IfSome, Some};
ghost use Rattle.std.specs.List.{AllByRecursion};
ghost use Rattle.proof_tree.specs.Spellings.{IsSpellable, FitsStatus};
ghost use Rattle.cert_format.specs.declared.limits.TheConstants.{MAX_PLAN_BYTES};
ghost use Rattle.cert_format.specs.Versions.{TellsCuts, written_form};
ghost use Rattle.cert_format.specs.Lists.{number_in, leaf_with_number, with_number};
ghost use Rattle.plan_tokens.specs.Lines.{whole, line_text};
ghost use Rattle.plan_tokens.specs.Words.{numerals, row};
ghost use Rattle.cert_format.specs.Grammar.{arc_numbers, counted, header_line, both_text, size_line, status_line, cost_line, signed_text, bound_line, path_line, modules_line, members, leaf_line, record_line, design_lines, bound_lines, cut_line, cut_lines, head_lines, price_line, list_lines, AreWithin, AreArcs, HasCutFields, HasLeafFields, HasRecordFields, HasDesignFields, IsBoundField, HasFields, SpellsPlan, written_text};
ghost use Rattle.cert_format.specs.Written.{lines_text, numbered_lines, written_tree, HasShownFields, Appends};

use crate::form::{Form, written_form};
use crate::lists::Lists;
use crate::numbering::lists_of;
use itoa::Buffer;
use plan_base::{ArcId, Design, Items, Path};
use proof_tree::{Cut, Evidence, Plan, PlanStatus, TreeNode};
use scaled_numbers::write_grains;
use std::alloc::{AllocError, Global};

/// Appends a blank and a number.
fn push_number(n: u128, out: &mut Vec<u8>) -> Result<(), AllocError>
    ensures text { Appends result out.old.items out.new.items (32 ∷ decimal n) }
    ensures field { OnOk result (n < 2 ^ 128) }
{
    let mut buffer = Buffer::new();
    out.push(b' ')?;
    out.extend_from_slice(buffer.format(n).as_bytes())
}

/// Appends numbers, a blank in front of each.
fn push_numbers(numbers: &[u128], out: &mut Vec<u8>) -> Result<(), AllocError>
    ensures text { Appends result out.old.items out.new.items (numerals numbers.now) }
    ensures fields { OnOk result (AreWithin 128 numbers.now) }
{
    for n in numbers {
        push_number(*n, out)?;
    }
    Ok(())
}

/// Appends a line of these bytes.
fn push_fixed(line: &[u8], out: &mut Vec<u8>) -> Result<(), AllocError>
    ensures { Appends result out.old.items out.new.items (line_text (whole line.now)) }
{
    out.extend_from_slice(line)?;
    out.push(b'\n')?;
    Ok(())
}

/// Appends a line of a word and numbers.
#[tactic(auto, using(crate::proofs::WrittenPieces::row_pieces))]
fn push_row(word: &[u8], numbers: &[u128], out: &mut Vec<u8>) -> Result<(), AllocError>
    ensures text { Appends result out.old.items out.new.items (line_text (whole (row word.now numbers.now))) }
    ensures fields { OnOk result (AreWithin 128 numbers.now) }
{
    out.extend_from_slice(word)?;
    push_numbers(numbers, out)?;
    out.push(b'\n')?;
    Ok(())
}

/// Appends a line of a word and a number.
fn push_number_row(word: &[u8], n: u32, out: &mut Vec<u8>) -> Result<(), AllocError>
    ensures text { Appends result out.old.items out.new.items (line_text (whole (row word.now (n ∷ [])))) }
    ensures fields { OnOk result (n < 2 ^ 32) }
{
    push_row(word, &[u128::from(n)], out)
}

/// Appends how many arcs there are, and their numbers.
#[tactic(auto, using(crate::proofs::WrittenPieces::items_more, crate::proofs::FieldsSoFar::fields_more))]
fn push_arcs(arcs: &[ArcId], numbers: &mut Vec<u128>) -> Result<(), AllocError>
    ensures text { Appends result numbers.old.items numbers.new.items (counted (arc_numbers arcs.now)) }
    ensures fields { OnOk result (AreArcs arcs.now) }
{
    numbers.push(arcs.len() as u128)?;
    for arc in arcs {
        numbers.push(u128::from(arc.0))?;
    }
    Ok(())
}

/// Appends how many counts there are, and the counts.
#[tactic(auto, using(crate::proofs::WrittenPieces::items_more, crate::proofs::FieldsSoFar::fields_more))]
fn push_counts(counts: &[u64], numbers: &mut Vec<u128>) -> Result<(), AllocError>
    ensures text { Appends result numbers.old.items numbers.new.items (counted counts.now) }
    ensures fields { OnOk result (AreWithin 64 counts.now) }
{
    numbers.push(counts.len() as u128)?;
    for count in counts {
        numbers.push(u128::from(*count))?;
    }
    Ok(())
}

/// The nodes of a set.
#[tactic(auto, using(crate::proofs::WrittenPieces::members_in, crate::proofs::WrittenPieces::members_out, crate::proofs::WrittenPieces::members_end))]
fn members(alloc: Global, set: &[bool]) -> Result<Vec<u128>, AllocError>
    ensures { IfOk result (λ nodes. nodes.items ≡ members 0 set.now) }
{
    let mut nodes = Vec::new(alloc);
    for (node, is_member) in set.iter().enumerate() {
        if *is_member {
            nodes.push(node as u128)?;
        }
    }
    Ok(nodes)
}

/// Appends the line of the status.
fn push_status(status: PlanStatus, out: &mut Vec<u8>) -> Result<(), AllocError>
    ensures { Appends result out.old.items out.new.items (line_text (whole (status_line status))) }
{
    match status {
        PlanStatus::Optimal => push_fixed(b"STATUS OPTIMAL", out),
        PlanStatus::Infeasible => push_fixed(b"STATUS INFEASIBLE", out),
        PlanStatus::Undecided => push_fixed(b"STATUS UNDECIDED", out),
    }
}

/// Appends the line of the cost.
fn push_cost(cost: u128, out: &mut Vec<u8>) -> Result<(), AllocError>
    ensures { Appends result out.old.items out.new.items (line_text (whole (cost_line (Some cost)))) }
{
    out.extend_from_slice(b"COST ")?;
    write_grains(cost, 12, out)?;
    out.push(b'\n')?;
    Ok(())
}

/// Appends a bound.
fn push_signed(bound: i128, out: &mut Vec<u8>) -> Result<(), AllocError>
    ensures text { Appends result out.old.items out.new.items (signed_text bound) }
    ensures fields { OnOk result (IsBoundField bound) }
{
    if bound < 0 {
        out.push(b'-')?;
    }
    write_grains(bound.unsigned_abs(), 12, out)
}

/// Appends the line of the bound.
fn push_bound_line(bound: Option<i128>, out: &mut Vec<u8>) -> Result<(), AllocError>
    ensures text { Appends result out.old.items out.new.items (line_text (whole (bound_line bound))) }
    ensures fields { OnOk result (IfSome bound IsBoundField) }
{
    let Some(bound) = bound else {
        return push_fixed(b"BOUND none", out);
    };
    out.extend_from_slice(b"BOUND ")?;
    push_signed(bound, out)?;
    out.push(b'\n')?;
    Ok(())
}

/// The line of the version.
fn header_line(form: Form) -> &'static [u8]
    ensures { result.now ≡ header_line form }
{
    match form {
        Form::First => b"SNDPLAN 1",
        Form::Second => b"SNDPLAN 2",
        Form::Third => b"SNDPLAN 3",
    }
}

/// Whether each direction of a link has a price of its own, as the version tells it.
fn both_text(form: Form, both: bool) -> &'static [u8]
    ensures { result.now ≡ both_text form both }
{
    match form {
        Form::First => b"",
        Form::Second | Form::Third => { if both { b" BOTH" } else { b" ONE" } }
    }
}

/// Appends the line of the sizes.
#[tactic(auto, using(crate::proofs::WrittenPieces::size_pieces))]
fn push_sizes(form: Form, plan: &Plan, out: &mut Vec<u8>) -> Result<(), AllocError>
    ensures { Appends result out.old.items out.new.items
        (line_text (whole (size_line form plan.now.nodes plan.now.links plan.now.demands plan.now.both))) }
{
    let sizes = [
        u128::from(plan.nodes),
        u128::from(plan.links),
        u128::from(plan.demands),
    ];
    out.extend_from_slice(b"SIZE")?;
    push_numbers(&sizes, out)?;
    push_fixed(both_text(form, plan.both), out)
}

/// Appends the five lines that begin each text.
#[tactic(auto, using(crate::proofs::WrittenPieces::head_pieces))]
fn push_head(form: Form, plan: &Plan, out: &mut Vec<u8>) -> Result<(), AllocError>
    ensures text { Appends result out.old.items out.new.items (lines_text (head_lines form plan.now)) }
    ensures fields { OnOk result (plan.now.examined < 2 ^ 32) }
{
    push_fixed(header_line(form), out)?;
    push_sizes(form, plan, out)?;
    push_status(plan.status, out)?;
    push_number_row(b"BUDGET", plan.budget, out)?;
    push_number_row(b"EXAMINED", plan.examined, out)
}

/// Appends the line of a path.
fn push_path(alloc: Global, path: &Path, out: &mut Vec<u8>) -> Result<(), AllocError>
    ensures text { Appends result out.old.items out.new.items (line_text (whole (path_line path.now))) }
    ensures fields { OnOk result (AreArcs path.now) }
{
    let mut numbers = Vec::new(alloc);
    push_arcs(path.as_slice(), &mut numbers)?;
    push_row(b"PATH", numbers.as_slice(), out)
}

/// Appends the lines of the paths.
#[tactic(auto, using(crate::proofs::WrittenPieces::lines_more, crate::proofs::FieldsSoFar::fields_more))]
fn push_paths(alloc: Global, paths: &[Path], out: &mut Vec<u8>) -> Result<(), AllocError>
    ensures text { Appends result out.old.items out.new.items (lines_text (map path_line paths.now)) }
    ensures fields { OnOk result (AllByRecursion AreArcs paths.now) }
{
    for path in paths {
        push_path(alloc, path, out)?;
    }
    Ok(())
}

/// Appends the line of a link's counts of modules.
fn push_modules(alloc: Global, counts: &[u64], out: &mut Vec<u8>) -> Result<(), AllocError>
    ensures text { Appends result out.old.items out.new.items (line_text (whole (modules_line counts.now))) }
    ensures fields { OnOk result (AreWithin 64 counts.now) }
{
    let mut numbers = Vec::new(alloc);
    push_counts(counts, &mut numbers)?;
    push_row(b"MODULES", numbers.as_slice(), out)
}

/// Appends the lines of the counts of modules.
#[tactic(auto, using(crate::proofs::WrittenPieces::lines_more, crate::proofs::FieldsSoFar::fields_more))]
fn push_count_lists(
    alloc: Global,
    lists: &[Items<u64>],
    out: &mut Vec<u8>,
) -> Result<(), AllocError>
    ensures text { Appends result out.old.items out.new.items (lines_text (map modules_line lists.now)) }
    ensures fields { OnOk result (AllByRecursion (AreWithin 64) lists.now) }
{
    for counts in lists {
        push_modules(alloc, counts.as_slice(), out)?;
    }
    Ok(())
}

/// Appends the cost, the paths and the counts of modules of a design.
#[tactic(auto, using(crate::proofs::WrittenPieces::design_pieces))]
fn push_design(
    alloc: Global,
    cost: u128,
    design: &Design,
    out: &mut Vec<u8>,
) -> Result<(), AllocError>
    ensures text { Appends result out.old.items out.new.items (lines_text (design_lines (Some (cost, design.now)))) }
    ensures fields { OnOk result (HasDesignFields cost design.now) }
{
    push_cost(cost, out)?;
    push_paths(alloc, design.paths.as_slice(), out)?;
    push_count_lists(alloc, design.counts.as_slice(), out)
}

/// Appends the cost and the design, or that there is none.
#[tactic(auto, unfolding(crate::specs::Grammar::design_lines))]
fn push_design_lines(alloc: Global, plan: &Plan, out: &mut Vec<u8>) -> Result<(), AllocError>
    ensures text { Appends result out.old.items out.new.items (lines_text (design_lines plan.now.design)) }
    ensures fields { OnOk result (IfSome plan.now.design (λ design. HasDesignFields design.0 design.1)) }
{
    match &plan.design {
        Some((cost, design)) => push_design(alloc, *cost, design, out),
        None => push_fixed(b"COST none", out),
    }
}

/// Appends the bound of an undecided plan.
#[tactic(auto, unfolding(crate::specs::Grammar::bound_lines))]
fn push_bound(plan: &Plan, out: &mut Vec<u8>) -> Result<(), AllocError>
    requires status { FitsStatus plan.now.status plan.now.design plan.now.bound }
    ensures text { Appends result out.old.items out.new.items (lines_text (bound_lines plan.now.status plan.now.bound)) }
    ensures fields { OnOk result (IfSome plan.now.bound IsBoundField) }
{
    match plan.status {
        PlanStatus::Optimal | PlanStatus::Infeasible => Ok(()),
        PlanStatus::Undecided => push_bound_line(plan.bound, out),
    }
}

/// Appends how many nodes of a set there are, and the nodes.
fn push_set(alloc: Global, set: &[bool], numbers: &mut Vec<u128>) -> Result<(), AllocError>
    ensures { Appends result numbers.old.items numbers.new.items (counted (members 0 set.now)) }
{
    let nodes = members(alloc, set)?;
    numbers.push(nodes.len() as u128)?;
    numbers.extend_from_slice(nodes.as_slice())
}

/// Appends the line of a cut of the plan.
fn push_load_cut(alloc: Global, cut: &Cut, out: &mut Vec<u8>) -> Result<(), AllocError>
    ensures text { Appends result out.old.items out.new.items (line_text (whole (cut_line cut.now))) }
    ensures fields { OnOk result (HasCutFields cut.now) }
{
    let mut numbers = Vec::new(alloc);
    numbers.push(u128::from(cut.period))?;
    numbers.push(u128::from(cut.first))?;
    numbers.push(u128::from(cut.counts_installed))?;
    push_set(alloc, cut.nodes.as_slice(), &mut numbers)?;
    push_row(b"C", numbers.as_slice(), out)
}

/// Appends the lines of cuts.
#[tactic(auto, using(crate::proofs::WrittenPieces::lines_more, crate::proofs::FieldsSoFar::fields_more))]
fn push_cut_lines(alloc: Global, cuts: &[Cut], out: &mut Vec<u8>) -> Result<(), AllocError>
    ensures text { Appends result out.old.items out.new.items (lines_text (map cut_line cuts.now)) }
    ensures fields { OnOk result (AllByRecursion HasCutFields cuts.now) }
{
    for cut in cuts {
        push_load_cut(alloc, cut, out)?;
    }
    Ok(())
}

/// Appends how many cuts there are, and their lines, as the third version tells them.
#[tactic(auto, unfolding(crate::specs::Grammar::cut_lines))]
fn push_cuts(alloc: Global, form: Form, cuts: &[Cut], out: &mut Vec<u8>) -> Result<(), AllocError>
    requires told { TellsCuts form cuts.now }
    ensures text { Appends result out.old.items out.new.items (lines_text (cut_lines form cuts.now)) }
    ensures fields { OnOk result (AllByRecursion HasCutFields cuts.now) }
{
    match form {
        Form::First | Form::Second => Ok(()),
        Form::Third => {
            push_row(b"CUTS", &[cuts.len() as u128], out)?;
            push_cut_lines(alloc, cuts, out)
        }
    }
}

/// Appends the line of a cut.
fn push_cut(
    alloc: Global,
    demand: u32,
    reached: &[bool],
    out: &mut Vec<u8>,
) -> Result<(), AllocError>
    ensures { Appends result out.old.items out.new.items
        (line_text (whole (row (codes "CUT") (demand ∷ counted (members 0 reached.now))))) }
{
    let mut numbers = Vec::new(alloc);
    numbers.push(u128::from(demand))?;
    push_set(alloc, reached, &mut numbers)?;
    push_row(b"CUT", numbers.as_slice(), out)
}

/// Appends the line of a price list.
fn push_list(list: &[u128], out: &mut Vec<u8>) -> Result<(), AllocError>
    ensures text { Appends result out.old.items out.new.items (line_text (whole (price_line list.now))) }
    ensures fields { OnOk result (AreWithin 128 list.now) }
{
    push_row(b"P", list, out)
}

/// Appends how many price lists there are, and their lines.
#[tactic(auto, using(crate::proofs::WrittenPieces::lists_more, crate::proofs::WrittenPieces::lists_all, crate::proofs::WrittenPieces::fields_all))]
fn push_lists(lists: &Lists, out: &mut Vec<u8>) -> Result<(), AllocError>
    ensures text { Appends result out.old.items out.new.items
        (lines_text (list_lines (length lists.now) lists.now)) }
    ensures fields { OnOk result (AllByRecursion (AreWithin 128) lists.now) }
{
    push_row(b"PRICES", &[lists.len() as u128], out)?;
    let mut number: usize = 0;
    while let Some(list) = lists.get(number) {
        push_list(list, out)?;
        number += 1;
    }
    Ok(())
}

/// Appends the line of a word and the number of a price list.
fn push_number_of(
    word: &[u8],
    lists: &Lists,
    prices: &[u128],
    out: &mut Vec<u8>,
) -> Result<(), AllocError>
    ensures text { Appends result out.old.items out.new.items
        (line_text (whole (row word.now (number_in lists.now prices.now ∷ [])))) }
    ensures fields { OnOk result (AreWithin 128 (number_in lists.now prices.now ∷ [])) }
{
    push_row(word, &[lists.number_of(prices) as u128], out)
}

/// Appends the line of a leaf.
#[tactic(auto, unfolding(crate::specs::Grammar::leaf_line))]
fn push_leaf(
    alloc: Global,
    lists: &Lists,
    evidence: &Evidence,
    out: &mut Vec<u8>,
) -> Result<(), AllocError>
    ensures text { Appends result out.old.items out.new.items (line_text (whole (leaf_line (leaf_with_number lists.now evidence.now)))) }
    ensures fields { OnOk result (HasLeafFields (leaf_with_number lists.now evidence.now)) }
{
    match evidence {
        Evidence::Bound(prices) => push_number_of(b"PRICED", lists, prices.as_slice(), out),
        Evidence::Routed => push_fixed(b"ROUTED", out),
        Evidence::Overfull { link } => push_number_row(b"OVERFULL", link.0, out),
        Evidence::Cut { demand, reached } => push_cut(alloc, demand.0, reached.as_slice(), out),
        Evidence::Far { demand } => push_number_row(b"FAR", demand.0, out),
        Evidence::Crowd(prices) => push_number_of(b"CROWD", lists, prices.as_slice(), out),
        Evidence::Open(prices) => push_number_of(b"OPEN", lists, prices.as_slice(), out),
    }
}

/// Appends the line of a split.
fn push_split(
    alloc: Global,
    ids: (u32, u32),
    left: &[ArcId],
    right: &[ArcId],
    out: &mut Vec<u8>,
) -> Result<(), AllocError>
    ensures text { Appends result out.old.items out.new.items
        (line_text (whole (row (codes "SPLIT")
        (ids.0 ∷ ids.1 ∷ (counted (arc_numbers left.now) ++ counted (arc_numbers right.now)))))) }
    ensures fields { OnOk result ((ids.0 < 2 ^ 32) × (ids.1 < 2 ^ 32) × AreArcs left.now × AreArcs right.now) }
{
    let mut numbers = Vec::new(alloc);
    numbers.push(u128::from(ids.0))?;
    numbers.push(u128::from(ids.1))?;
    push_arcs(left, &mut numbers)?;
    push_arcs(right, &mut numbers)?;
    push_row(b"SPLIT", numbers.as_slice(), out)
}

/// Appends the line of a load split.
fn push_loads(place: u32, load: u64, out: &mut Vec<u8>) -> Result<(), AllocError>
    ensures text { Appends result out.old.items out.new.items (line_text (whole (row (codes "LOADS") (place ∷ load ∷ [])))) }
    ensures fields { OnOk result ((place < 2 ^ 32) × (load < 2 ^ 64)) }
{
    push_row(b"LOADS", &[u128::from(place), u128::from(load)], out)
}

/// Appends the line of a record.
#[tactic(auto, unfolding(crate::specs::Grammar::record_line))]
fn push_record(
    alloc: Global,
    lists: &Lists,
    node: &TreeNode,
    out: &mut Vec<u8>,
) -> Result<(), AllocError>
    ensures text { Appends result out.old.items out.new.items (line_text (whole (record_line (with_number lists.now node.now)))) }
    ensures fields { OnOk result (HasShownFields lists.now node.now) }
{
    match node {
        TreeNode::Split {
            demand,
            node,
            left,
            right,
        } => push_split(
            alloc,
            (demand.0, node.0),
            left.as_slice(),
            right.as_slice(),
            out,
        ),
        TreeNode::Loads { place, load } => push_loads(*place, *load, out),
        TreeNode::Leaf(evidence) => push_leaf(alloc, lists, evidence, out),
    }
}

/// Appends the lines of the records.
#[tactic(auto, using(crate::proofs::WrittenPieces::lines_more, crate::proofs::FieldsSoFar::fields_more))]
fn push_records(
    alloc: Global,
    lists: &Lists,
    nodes: &[TreeNode],
    out: &mut Vec<u8>,
) -> Result<(), AllocError>
    ensures text { Appends result out.old.items out.new.items (lines_text (numbered_lines lists.now nodes.now)) }
    ensures fields { OnOk result (AllByRecursion (HasShownFields lists.now) nodes.now) }
{
    for node in nodes {
        push_record(alloc, lists, node, out)?;
    }
    Ok(())
}

/// Appends the price lists of a tree, and the tree.
#[tactic(auto, using(crate::proofs::WrittenPieces::tree_pieces, crate::proofs::ListFields::all_fields))]
fn push_tree(alloc: Global, nodes: &[TreeNode], out: &mut Vec<u8>) -> Result<(), AllocError>
    ensures text { Appends result out.old.items out.new.items (lines_text (written_tree nodes.now)) }
    ensures fields { OnOk result (AllByRecursion HasRecordFields nodes.now) }
{
    let lists = lists_of(alloc, nodes)?;
    push_lists(&lists, out)?;
    push_row(b"TREE", &[nodes.len() as u128], out)?;
    push_records(alloc, &lists, nodes, out)
}

/// Writes the text of a plan, in the third version where it has a cut or a load split, else in the second.
///
/// - Takes: a plan whose `fits` holds.
/// - Gives: the lines of the plan, each with its line end; `read_plan` answers this plan for them.
/// - Errors: want of memory alone.
/// - Rule: docs/FORMATS.md, "Plan texts".
/// - Time: linear in the text and in the prices of all records. Each clash of two price lists in their hash adds a
///   comparison of them; the hash has a fixed seed, so a plan can be made for clashes.
#[tactic(auto, using(crate::proofs::TextBound::text_within, crate::proofs::VersionLaws::written_spells))]
pub fn write_plan(alloc: Global, plan: &Plan) -> Result<Vec<u8>, AllocError>
    requires fits { IsSpellable plan.now }
    ensures text { IfOk result (λ text. text.items ≡ written_text plan.now) }
    // It spells the plan.
    ensures spelt { IfOk result (λ text. SpellsPlan text.items plan.now) }
    // It is within the limit.
    ensures within { IfOk result (λ text. length text.items ≤ MAX_PLAN_BYTES) }
{
    whole_text(alloc, plan)
}

/// All lines of a plan.
#[tactic(auto, using(crate::proofs::WrittenPieces::plan_pieces, crate::proofs::VersionLaws::written_tells))]
fn whole_text(alloc: Global, plan: &Plan) -> Result<Vec<u8>, AllocError>
    requires fits { IsSpellable plan.now }
    ensures text { IfOk result (λ text. text.items ≡ written_text plan.now) }
    ensures fields { IfOk result (λ text. HasFields plan.now) }
{
    let nodes = plan.tree.nodes();
    let form = written_form(plan.cuts.as_slice(), nodes);
    let mut out = Vec::new(alloc);
    push_head(form, plan, &mut out)?;
    push_design_lines(alloc, plan, &mut out)?;
    push_bound(plan, &mut out)?;
    push_cuts(alloc, form, plan.cuts.as_slice(), &mut out)?;
    push_tree(alloc, nodes, &mut out)?;
    push_fixed(b"END", &mut out)?;
    Ok(out)
}
