//! Reading a plan text line by line.

ghost use Rattle.std.specs.Prelude.{◌≡◌, ◌≤◌, ◌<◌, ◌+◌, ◌^◌, ℕ, List, [], length, IfOk, IfErr};
ghost use Rattle.proof_tree.specs.declared.plan.Plan.{Plan as AnyPlan};
ghost use Rattle.plan_tokens.specs.Lines.{lines_of};
ghost use Rattle.cert_format.specs.declared.form.Form.TheVariants.{Third};
ghost use Rattle.cert_format.specs.Grammar.{end_line, SpellsPlan};
ghost use Rattle.cert_format.specs.Faults.{IsFault, OnlyPlan, OnlyPlanFault};
ghost use Rattle.cert_format.specs.Lists.{named_from};
ghost use Rattle.cert_format.specs.Bodies.{fixed_of, form_of, number_row, size_row, status_of, cost_of, bound_of, path_of, modules_of, list_row, load_cut_row};
ghost use Rattle.cert_format.specs.Reading.{one, many, head, design_of, design, bound, load_cuts, list_count, entries_of, opening, lists, record_on, records, tree, before_end, last_line, ending, whole_plan, place_of, plan_of};
ghost use Rattle.cert_format.specs.Drafts.{left_open};
ghost use Rattle.cert_format.specs.Answers.{Reads, GivesPlan, seen_value, seen_items, seen_records, seen_tree, seen_draft, drafted, IsCounted};
ghost use Rattle.proof_tree.specs.declared.limits.TheConstants.{MAX_RECORDS, MAX_CUTS};
ghost use Rattle.cert_format.specs.declared.limits.TheConstants.{MAX_PLAN_BYTES};

use crate::bodies::Sizes;
use crate::fault::PlanFault;
use crate::form::{Form, is_asked};
use crate::limits::{MAX_LISTS, MAX_PLAN_BYTES};
use crate::lines::accept;
use crate::lists::Lists;
use crate::numbering::{Ground, named_behind};
use crate::{bodies, load_cuts, records};
use plan_base::{Design, Items, Path, Prices};
use plan_tokens::{Stop, first_line};
use proof_tree::limits::{MAX_BUDGET, MAX_CUTS, MAX_RECORDS};
use proof_tree::{Cut, Plan, PlanStatus, Tree, TreeNode};
use std::alloc::Global;

/// The version, the sizes, the status, the budget and the count of examined nodes.
#[derive(Clone, Copy)]
pub(crate) struct Head {
    pub(crate) form: Form,
    pub(crate) sizes: Sizes,
    pub(crate) status: PlanStatus,
    pub(crate) budget: u32,
    pub(crate) examined: u32,
}

/// What stands before the price lists, with their count.
type Opening = (Head, Option<(u128, Design)>, Option<i128>, Items<Cut>, u32);

/// All that stands before the last line: the records need not be a whole tree, nor name each price list.
#[derive(Drop)]
struct Draft {
    head: Head,
    design: Option<(u128, Design)>,
    bound: Option<i128>,
    cuts: Items<Cut>,
    stated: u32,
    ground: Ground,
    count: u32,
    records: Vec<TreeNode>,
    /// How many price lists the records name.
    named: u32,
}

/// A line of nothing but these bytes.
#[tactic(auto, using(crate::proofs::Accepting::no_first_line, crate::proofs::Accepting::stops_memory))]
fn fixed_line<'a>(line: &[u8], text: &'a [u8]) -> Result<((), &'a [u8]), Stop>
    ensures { Reads seen_value result (one (fixed_of line.now) (lines_of text.now)) }
{
    let (body, rest) = first_line(text)?;
    accept(bodies::fixed(line, body), text, rest)
}

/// A line of a word and a number from low to high.
#[tactic(auto, using(crate::proofs::Accepting::no_first_line, crate::proofs::Accepting::stops_memory))]
fn number_line<'a>(
    alloc: Global,
    word: &[u8],
    low: u32,
    high: u32,
    text: &'a [u8],
) -> Result<(u32, &'a [u8]), Stop>
    ensures { Reads seen_value result (one (number_row word.now low high) (lines_of text.now)) }
{
    let (body, rest) = first_line(text)?;
    accept(
        bodies::number_row(alloc, word, low, high, body)?,
        text,
        rest,
    )
}

/// The line of the version.
#[tactic(auto, using(crate::proofs::Accepting::no_first_line, crate::proofs::Accepting::stops_memory))]
fn form_line(text: &[u8]) -> Result<(Form, &[u8]), Stop>
    ensures { Reads seen_value result (one form_of (lines_of text.now)) }
{
    let (body, rest) = first_line(text)?;
    accept(bodies::form(body), text, rest)
}

/// The line of the sizes.
#[tactic(auto, using(crate::proofs::Accepting::no_first_line, crate::proofs::Accepting::stops_memory))]
fn size_line(alloc: Global, form: Form, text: &[u8]) -> Result<(Sizes, &[u8]), Stop>
    ensures { Reads seen_value result (one (size_row form) (lines_of text.now)) }
{
    let (body, rest) = first_line(text)?;
    accept(bodies::size_row(alloc, form, body)?, text, rest)
}

/// The line of the status.
#[tactic(auto, using(crate::proofs::Accepting::no_first_line, crate::proofs::Accepting::stops_memory))]
fn status_line(text: &[u8]) -> Result<(PlanStatus, &[u8]), Stop>
    ensures { Reads seen_value result (one status_of (lines_of text.now)) }
{
    let (body, rest) = first_line(text)?;
    accept(bodies::status(body), text, rest)
}

/// The line of the cost.
#[tactic(auto, using(crate::proofs::Accepting::no_first_line, crate::proofs::Accepting::stops_memory))]
fn cost_line(alloc: Global, status: PlanStatus, text: &[u8]) -> Result<(Option<u128>, &[u8]), Stop>
    ensures { Reads seen_value result (one (cost_of status) (lines_of text.now)) }
{
    let (body, rest) = first_line(text)?;
    accept(bodies::cost(alloc, status, body)?, text, rest)
}

/// The line of the bound.
#[tactic(auto, using(crate::proofs::Accepting::no_first_line, crate::proofs::Accepting::stops_memory))]
fn bound_line(alloc: Global, text: &[u8]) -> Result<(Option<i128>, &[u8]), Stop>
    ensures { Reads seen_value result (one bound_of (lines_of text.now)) }
{
    let (body, rest) = first_line(text)?;
    accept(bodies::bound(alloc, body)?, text, rest)
}

/// The line of a path.
#[tactic(auto, using(crate::proofs::Accepting::no_first_line, crate::proofs::Accepting::stops_memory))]
fn path_line(alloc: Global, text: &[u8]) -> Result<(Path, &[u8]), Stop>
    ensures { Reads seen_value result (one path_of (lines_of text.now)) }
{
    let (body, rest) = first_line(text)?;
    accept(bodies::path(alloc, body)?, text, rest)
}

/// The line of a link's counts of modules.
#[tactic(auto, using(crate::proofs::Accepting::no_first_line, crate::proofs::Accepting::stops_memory))]
fn modules_line(alloc: Global, text: &[u8]) -> Result<(Items<u64>, &[u8]), Stop>
    ensures { Reads seen_value result (one modules_of (lines_of text.now)) }
{
    let (body, rest) = first_line(text)?;
    accept(bodies::modules(alloc, body)?, text, rest)
}

/// The line of a cut of sets of so many nodes.
#[tactic(auto, using(crate::proofs::Accepting::no_first_line, crate::proofs::Accepting::stops_memory))]
fn load_cut_line(alloc: Global, nodes: u32, text: &[u8]) -> Result<(Cut, &[u8]), Stop>
    ensures { Reads seen_value result (one (load_cut_row nodes) (lines_of text.now)) }
{
    let (body, rest) = first_line(text)?;
    accept(load_cuts::load_cut(alloc, nodes, body)?, text, rest)
}

/// The line of a price list, which is none of those before it.
#[tactic(auto, using(crate::proofs::Accepting::no_first_line, crate::proofs::Accepting::stops_memory))]
fn list_line<'a>(
    alloc: Global,
    entries: usize,
    lists: &Lists,
    text: &'a [u8],
) -> Result<(Prices, &'a [u8]), Stop>
    ensures { Reads seen_value result (one (list_row entries lists.now) (lines_of text.now)) }
{
    let (body, rest) = first_line(text)?;
    accept(bodies::list(alloc, entries, lists, body)?, text, rest)
}

/// The line of a record, where so many price lists are named before it.
#[tactic(auto, using(crate::proofs::Accepting::no_first_line, crate::proofs::Accepting::stops_memory))]
fn record_line<'a>(
    alloc: Global,
    ground: &Ground,
    named: u32,
    text: &'a [u8],
) -> Result<(TreeNode, &'a [u8]), Stop>
    ensures { Reads seen_value result (one (record_on ground.now named) (lines_of text.now)) }
{
    let (body, rest) = first_line(text)?;
    accept(records::record_in(alloc, ground, named, body)?, text, rest)
}

/// The five lines that begin each text.
#[tactic(auto, using(crate::proofs::Accepting::through, crate::proofs::Accepting::stops_memory), unfolding(crate::specs::Reading::head, crate::specs::Reading::bind, crate::specs::Reading::done))]
fn read_head(alloc: Global, text: &[u8]) -> Result<(Head, &[u8]), Stop>
    ensures { Reads seen_value result (head (lines_of text.now)) }
{
    let (form, text) = form_line(text)?;
    let (sizes, text) = size_line(alloc, form, text)?;
    let (status, text) = status_line(text)?;
    let (budget, text) = number_line(alloc, b"BUDGET", 1, MAX_BUDGET, text)?;
    let (examined, text) = number_line(alloc, b"EXAMINED", 0, u32::MAX, text)?;
    let head = Head {
        form,
        sizes,
        status,
        budget,
        examined,
    };
    Ok((head, text))
}

/// So many paths.
#[tactic(auto, using(crate::proofs::Accepting::many_more, crate::proofs::Accepting::many_stop, crate::proofs::Accepting::many_end, crate::proofs::Accepting::front_none, crate::proofs::Accepting::stops_memory))]
fn read_paths(alloc: Global, demands: u32, text: &[u8]) -> Result<(Vec<Path>, &[u8]), Stop>
    ensures { Reads seen_items result (many demands path_of (lines_of text.now)) }
{
    let mut paths = Vec::new(alloc);
    let mut rest = text;
    let mut left = demands;
    while left > 0 {
        let (path, behind) = path_line(alloc, rest)?;
        paths.push(path)?;
        rest = behind;
        left -= 1;
    }
    Ok((paths, rest))
}

/// So many lists of counts.
#[tactic(auto, using(crate::proofs::Accepting::many_more, crate::proofs::Accepting::many_stop, crate::proofs::Accepting::many_end, crate::proofs::Accepting::front_none, crate::proofs::Accepting::stops_memory))]
fn read_counts(alloc: Global, links: u32, text: &[u8]) -> Result<(Vec<Items<u64>>, &[u8]), Stop>
    ensures { Reads seen_items result (many links modules_of (lines_of text.now)) }
{
    let mut counts = Vec::new(alloc);
    let mut rest = text;
    let mut left = links;
    while left > 0 {
        let (list, behind) = modules_line(alloc, rest)?;
        counts.push(list)?;
        rest = behind;
        left -= 1;
    }
    Ok((counts, rest))
}

/// The paths and the counts of modules, where there is a cost.
#[tactic(auto, using(crate::proofs::Accepting::through, crate::proofs::Accepting::stops_memory), unfolding(crate::specs::Reading::design_of, crate::specs::Reading::bind, crate::specs::Reading::done))]
fn read_design_of(
    alloc: Global,
    demands: u32,
    links: u32,
    cost: Option<u128>,
    text: &[u8],
) -> Result<(Option<(u128, Design)>, &[u8]), Stop>
    ensures { Reads seen_value result (design_of demands links cost (lines_of text.now)) }
{
    let Some(cost) = cost else {
        return Ok((None, text));
    };
    let (paths, text) = read_paths(alloc, demands, text)?;
    let (counts, text) = read_counts(alloc, links, text)?;
    let design = Design {
        paths: Items::from_vec(paths),
        counts: Items::from_vec(counts),
    };
    Ok((Some((cost, design)), text))
}

/// The cost, and the design that has it.
#[tactic(auto, using(crate::proofs::Accepting::through, crate::proofs::Accepting::stops_memory), unfolding(crate::specs::Reading::design, crate::specs::Reading::bind, crate::specs::Reading::done))]
fn read_design(
    alloc: Global,
    head: Head,
    text: &[u8],
) -> Result<(Option<(u128, Design)>, &[u8]), Stop>
    ensures { Reads seen_value result (design head (lines_of text.now)) }
{
    let (cost, text) = cost_line(alloc, head.status, text)?;
    read_design_of(alloc, head.sizes.demands, head.sizes.links, cost, text)
}

/// The bound of an undecided plan.
#[tactic(auto, unfolding(crate::specs::Reading::bound, crate::specs::Reading::bind, crate::specs::Reading::done))]
fn read_bound(alloc: Global, status: PlanStatus, text: &[u8]) -> Result<(Option<i128>, &[u8]), Stop>
    ensures { Reads seen_value result (bound status (lines_of text.now)) }
{
    match status {
        PlanStatus::Optimal | PlanStatus::Infeasible => Ok((None, text)),
        PlanStatus::Undecided => bound_line(alloc, text),
    }
}

/// How many trees are left to come behind a record, where so many others were to come.
#[tactic(auto, unfolding(crate::specs::Drafts::left_open))]
fn left_open(node: &TreeNode, others: u32) -> u32
    requires { others < 2 ^ 31 }
    ensures value { result ≡ left_open node.now others }
    ensures within { result ≤ others + 2 }
{
    match node {
        TreeNode::Leaf(_) => others,
        TreeNode::Split { .. } | TreeNode::Loads { .. } => others + 2,
    }
}

/// So many cuts of sets of so many nodes.
#[tactic(auto, using(crate::proofs::Accepting::many_more, crate::proofs::Accepting::many_stop, crate::proofs::Accepting::many_end, crate::proofs::Accepting::front_none, crate::proofs::Accepting::stops_memory))]
fn read_cuts(alloc: Global, nodes: u32, count: u32, text: &[u8]) -> Result<(Vec<Cut>, &[u8]), Stop>
    ensures { Reads seen_items result (many count (load_cut_row nodes) (lines_of text.now)) }
{
    let mut cuts = Vec::new(alloc);
    let mut rest = text;
    let mut left = count;
    while left > 0 {
        let (cut, behind) = load_cut_line(alloc, nodes, rest)?;
        cuts.push(cut)?;
        rest = behind;
        left -= 1;
    }
    Ok((cuts, rest))
}

/// How many cuts there are, and the cuts.
#[tactic(auto, using(crate::proofs::Accepting::through, crate::proofs::Accepting::stops_memory, crate::proofs::Accepting::row_most, crate::proofs::Accepting::cuts_counted), unfolding(crate::specs::Reading::load_cuts, crate::specs::Reading::bind))]
fn read_counted_cuts(alloc: Global, nodes: u32, text: &[u8]) -> Result<(Items<Cut>, &[u8]), Stop>
    ensures reads { Reads seen_value result (load_cuts Third nodes (lines_of text.now)) }
    ensures few { IfOk result (λ x. length x.0 ≤ MAX_CUTS) }
{
    let (count, text) = number_line(alloc, b"CUTS", 0, MAX_CUTS as u32, text)?;
    let (cuts, text) = read_cuts(alloc, nodes, count, text)?;
    Ok((Items::from_vec(cuts), text))
}

/// The cuts, which the third version tells.
#[tactic(auto, unfolding(crate::specs::Reading::load_cuts, crate::specs::Reading::done))]
fn read_load_cuts(
    alloc: Global,
    form: Form,
    nodes: u32,
    text: &[u8],
) -> Result<(Items<Cut>, &[u8]), Stop>
    ensures reads { Reads seen_value result (load_cuts form nodes (lines_of text.now)) }
    ensures few { IfOk result (λ x. length x.0 ≤ MAX_CUTS) }
{
    match form {
        Form::First | Form::Second => Ok((Items::from_vec(Vec::new(alloc)), text)),
        Form::Third => read_counted_cuts(alloc, nodes, text),
    }
}

/// How many price lists are stated.
#[tactic(auto, unfolding(crate::specs::Reading::list_count, crate::specs::Reading::done))]
fn read_list_count(alloc: Global, form: Form, text: &[u8]) -> Result<(u32, &[u8]), Stop>
    ensures { Reads seen_value result (list_count form (lines_of text.now)) }
{
    match form {
        Form::First => Ok((0, text)),
        Form::Second | Form::Third => number_line(alloc, b"PRICES", 0, MAX_LISTS as u32, text),
    }
}

/// All lines before the price lists.
#[tactic(auto, using(crate::proofs::Accepting::through, crate::proofs::Accepting::stops_memory), unfolding(crate::specs::Reading::opening, crate::specs::Reading::bind, crate::specs::Reading::done))]
fn read_opening(alloc: Global, text: &[u8]) -> Result<(Opening, &[u8]), Stop>
    ensures reads { Reads seen_value result (opening (lines_of text.now)) }
    ensures few { IfOk result (λ x. length x.0.3 ≤ MAX_CUTS) }
{
    let (head, text) = read_head(alloc, text)?;
    let (design, text) = read_design(alloc, head, text)?;
    let (bound, text) = read_bound(alloc, head.status, text)?;
    let (cuts, text) = read_load_cuts(alloc, head.form, head.sizes.nodes, text)?;
    let (stated, text) = read_list_count(alloc, head.form, text)?;
    Ok(((head, design, bound, cuts, stated), text))
}

/// So many price lists.
#[tactic(auto, using(crate::proofs::Accepting::lists_more, crate::proofs::Accepting::lists_stop, crate::proofs::Accepting::lists_end, crate::proofs::Accepting::list_fresh, crate::proofs::Accepting::stops_memory))]
fn read_lists(
    alloc: Global,
    entries: usize,
    stated: u32,
    text: &[u8],
) -> Result<(Lists, &[u8]), Stop>
    ensures { Reads seen_value result (lists entries stated [] (lines_of text.now)) }
{
    let mut lists = Lists::new(alloc);
    let mut rest = text;
    let mut left = stated;
    while left > 0 {
        let (list, behind) = list_line(alloc, entries, &lists, rest)?;
        lists.push(list.into_vec())?;
        rest = behind;
        left -= 1;
    }
    Ok((lists, rest))
}

/// The records of a tree, but no more than so many, and how many price lists they name.
#[tactic(auto, using(crate::proofs::Accepting::records_more, crate::proofs::Accepting::records_stop, crate::proofs::Accepting::records_end, crate::proofs::Accepting::front_none, crate::proofs::Accepting::stops_memory, crate::proofs::ListLaws::named_more))]
fn read_records<'a>(
    alloc: Global,
    ground: &Ground,
    count: u32,
    text: &'a [u8],
) -> Result<(Vec<TreeNode>, u32, &'a [u8]), Stop>
    requires { count ≤ MAX_RECORDS }
    ensures reads { Reads seen_records result (records ground.now 0 count 1 (lines_of text.now)) }
    ensures few { IfOk result (λ x. length x.0.items ≤ count) }
    ensures named { IfOk result (λ x. x.1 ≡ named_from ground.now.form ground.now.lists 0 x.0.items) }
{
    let mut records = Vec::new(alloc);
    let mut rest = text;
    let mut left = count;
    let mut trees: u32 = 1;
    let mut named: u32 = 0;
    while left > 0 && trees > 0 {
        let (node, behind) = record_line(alloc, ground, named, rest)?;
        trees = left_open(&node, trees - 1);
        named = named_behind(ground, named, &node);
        records.push(node)?;
        rest = behind;
        left -= 1;
    }
    Ok((records, named, rest))
}

/// How many records are stated, those that were read, and how many price lists they name.
#[tactic(auto, using(crate::proofs::Accepting::through, crate::proofs::Accepting::stops_memory, crate::proofs::Accepting::row_most), unfolding(crate::specs::Reading::tree, crate::specs::Reading::bind, crate::specs::Reading::done))]
fn read_tree<'a>(
    alloc: Global,
    ground: &Ground,
    text: &'a [u8],
) -> Result<(u32, Vec<TreeNode>, u32, &'a [u8]), Stop>
    ensures reads { Reads seen_tree result (tree ground.now (lines_of text.now)) }
    ensures few { IfOk result (λ x. length x.1.items ≤ MAX_RECORDS) }
    ensures named { IfOk result (λ x. x.2 ≡ named_from ground.now.form ground.now.lists 0 x.1.items) }
{
    let (count, text) = number_line(alloc, b"TREE", 1, MAX_RECORDS as u32, text)?;
    let (records, named, text) = read_records(alloc, ground, count, text)?;
    Ok((count, records, named, text))
}

/// How many numbers a price list has, where there are so many cuts.
fn entries_of(head: Head, cuts: &[Cut]) -> usize
    requires { length cuts.now ≤ MAX_CUTS }
    ensures { result ≡ entries_of head cuts.now }
{
    if head.sizes.both {
        2 * head.sizes.links as usize + cuts.len()
    } else {
        head.sizes.links as usize + cuts.len()
    }
}

/// All lines before the last.
#[tactic(auto, using(crate::proofs::Accepting::through, crate::proofs::Accepting::stops_memory), unfolding(crate::specs::Reading::before_end, crate::specs::Reading::bind, crate::specs::Reading::done))]
fn read_before_end(alloc: Global, text: &[u8]) -> Result<(Draft, &[u8]), Stop>
    ensures reads { Reads seen_draft result (before_end (lines_of text.now)) }
    ensures counted { IfOk result (λ x. IsCounted x.0) }
{
    let ((head, design, bound, cuts, stated), text) = read_opening(alloc, text)?;
    let entries = entries_of(head, cuts.as_slice());
    let (lists, text) = read_lists(alloc, entries, stated, text)?;
    let ground = Ground {
        form: head.form,
        lists,
        nodes: head.sizes.nodes,
        entries,
    };
    let (count, records, named, text) = read_tree(alloc, &ground, text)?;
    let draft = Draft {
        head,
        design,
        bound,
        cuts,
        stated,
        ground,
        count,
        records,
        named,
    };
    Ok((draft, text))
}

impl Draft {
    ghost use Rattle.std.specs.Prelude.{◌≡◌};
    ghost use Rattle.cert_format.specs.Bodies.{only_if};
    ghost use Rattle.cert_format.specs.Drafts.{has_counts, is_complete};
    ghost use Rattle.cert_format.specs.Answers.{drafted, IsCounted};

    /// Whether there are as many records as stated, and each price list is named.
    fn has_counts(&self) -> bool
        requires counted { IsCounted self.now }
        ensures { result ≡ has_counts (drafted self.now) }
    {
        self.records.len() == self.count as usize && self.named as usize == self.ground.lists.len()
    }

    /// The plan, where the tree is whole, has as many records as stated, names each price list and asks for the version.
    fn into_plan(self) -> Option<Plan>
        requires counted { IsCounted self }
        ensures { result ≡ only_if (is_complete (drafted self)) (drafted self).plan }
    {
        let cuts = self.cuts.as_slice();
        if !self.has_counts() || !is_asked(self.head.form, cuts, self.records.as_slice()) {
            return None;
        }
        match Tree::from_nodes(self.records) {
            Ok(tree) => Some(Plan {
                nodes: self.head.sizes.nodes,
                links: self.head.sizes.links,
                demands: self.head.sizes.demands,
                both: self.head.sizes.both,
                status: self.head.status,
                budget: self.head.budget,
                examined: self.head.examined,
                design: self.design,
                bound: self.bound,
                cuts: self.cuts,
                tree,
            }),
            Err(_) => None,
        }
    }
}

/// The last line, and nothing behind it.
#[tactic(auto, using(crate::proofs::Accepting::end_read, crate::proofs::Accepting::end_refused, crate::proofs::Accepting::end_stop))]
fn read_end(plan: Plan, text: &[u8]) -> Result<Plan, Stop>
    ensures { Reads (λ plan. plan) result (last_line plan (one (fixed_of end_line) (lines_of text.now))) }
{
    let (_, rest) = fixed_line(b"END", text)?;
    if rest.is_empty() {
        Ok(plan)
    } else {
        Err(Stop::At(rest.len()))
    }
}

/// The last line, which only a whole tree may have that names each price list and asks for the version, and nothing
/// behind it.
fn read_ending(draft: Draft, text: &[u8]) -> Result<Plan, Stop>
    requires counted { IsCounted draft }
    ensures { Reads (λ plan. plan) result (ending (drafted draft, lines_of text.now)) }
{
    match draft.into_plan() {
        Some(plan) => read_end(plan, text),
        None => Err(Stop::At(text.len())),
    }
}

/// The plan of all lines.
#[tactic(auto, using(crate::proofs::Accepting::through, crate::proofs::Accepting::stops_memory), unfolding(crate::specs::Reading::whole_plan, crate::specs::Reading::bind, crate::specs::Reading::done))]
fn whole_plan(alloc: Global, text: &[u8]) -> Result<Plan, Stop>
    ensures { Reads (λ plan. plan) result (whole_plan (lines_of text.now)) }
{
    let (draft, text) = read_before_end(alloc, text)?;
    read_ending(draft, text)
}

/// Reads the plan that a text spells.
///
/// - Takes: a text of at most `MAX_PLAN_BYTES` bytes.
/// - Gives: the plan, from a text of any version; whether it is valid is not asked.
/// - Errors: `Line`, exactly where a line cannot stand where it stands, at the first such line, a last
///   line without its end too; `Ended`, exactly where all lines can stand and a further one must
///   follow; `OutOfMemory` may stand in place of any answer.
/// - Rule: docs/FORMATS.md, "Plan texts".
/// - Time: linear in the text and in the prices of all records, each with a copy of its list, at most 151 MB in all.
///   Each clash of two price lists in their hash adds a comparison of them; the hash has a fixed seed, so a text can
///   be made for clashes.
#[tactic(auto, using(crate::proofs::OneFault::answers_plan, crate::proofs::OneFault::answers_fault, crate::proofs::OneFault::answers_only_plan, crate::proofs::OneFault::answers_only_fault))]
pub fn read_plan(alloc: Global, text: &[u8]) -> Result<Plan, PlanFault>
    requires length { length text.now ≤ MAX_PLAN_BYTES }
    // The text spells this plan.
    ensures value { IfOk result (SpellsPlan text.now) }
    // It spells no other, and what it spells is the answer, unless memory runs out.
    ensures value_only { (plan : AnyPlan) → SpellsPlan text.now plan → OnlyPlan result plan }
    // This is wrong with the text.
    ensures fault { IfErr result (IsFault text.now) }
    // Nothing else is told of a text with this fault, unless memory runs out.
    ensures fault_only { (fault : PlanFault) → IsFault text.now fault → OnlyPlanFault result fault }
{
    plan_or_fault(alloc, text)
}

/// The plan of all lines, or the place where reading stops.
#[tactic(auto, unfolding(crate::specs::Reading::plan_of))]
fn plan_or_fault(alloc: Global, text: &[u8]) -> Result<Plan, PlanFault>
    requires { length text.now ≤ MAX_PLAN_BYTES }
    ensures { GivesPlan result (plan_of text.now) }
{
    match whole_plan(alloc, text) {
        Ok(plan) => Ok(plan),
        Err(Stop::Memory) => Err(PlanFault::OutOfMemory),
        Err(Stop::At(left)) => Err(fault_at(text.len(), left)),
    }
}

/// The fault of a text of this length in which reading stops where so many bytes are left.
#[tactic(auto, using(crate::proofs::Accepting::ended_at, crate::proofs::Accepting::line_at))]
fn fault_at(whole: usize, left: usize) -> PlanFault
    requires { whole ≤ MAX_PLAN_BYTES }
    ensures { (bytes : List ℕ) → left ≡ length bytes → result ≡ place_of whole (lines_of bytes) }
{
    if left == 0 {
        PlanFault::Ended { at: whole as u32 }
    } else {
        PlanFault::Line {
            at: whole.saturating_sub(left) as u32,
        }
    }
}
