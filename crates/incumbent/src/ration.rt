//! When better designs are searched for, and from where.

ghost use Rattle.std.specs.Prelude.{◌≡◌, ◌<◌, ◌≤◌, ◌+◌, ◌-◌, ◌%◌, ◌^◌, ◌↔◌, min, length, slice_set, Some, IfOk, OnOk, OnErr, IfSome, IfNone, IsSomeAnd, IsTrue};
ghost use Rattle.plan_base.specs.Designs.{path_at, cost_of, IsDesign, KeepsLimits, IsGoodDesign};
ghost use Rattle.completions.specs.Completions.{with_paths, ArePaths, HasOverfull};
ghost use Rattle.incumbent.specs.Searches.{IsDue, IsOpening, IsCheaper, IsWorth, HasSearched, HasWaited};

use crate::dealing::{due_of, has_parts_left, place_after, shares_of};
use crate::improving::improve_share;
use crate::laying::lay_all;
use crate::negotiating::negotiated;
use completions::complete;
use demand_routing::{roomy_copies, set_path};
use link_steps::StepTable;
use plan_base::{DemandId, Design, Instance, Items, Path, check_design};
use std::alloc::{AllocError, Global};

/// How many nodes are examined when each search is due.
const DUE: [u32; 7] = [0, 0, 4, 16, 64, 256, 1_024];

/// How many seeds a seat has: one for each of its searches and their parts.
const SEEDS: u32 = 64;

/// A search is spent on a dearer design than another one only where its cost, without one part in so many, is less.
const MARGIN: u128 = 6;

/// While the paths give no design to begin with, demands are laid one by one, and where that gives none their paths are
/// negotiated, at the first asking and at each one so many later.
const LAYING_TURN: u32 = 16;

/// How many demands are tried for another path at most.
const MOST_TRIES: u32 = 64;

/// Paths that a design may have: one simple path for each demand, in order, and the step table of their instance.
#[derive(Clone, Copy)]
struct Candidate<'a> {
    alloc: Global,
    table: &'a StepTable,
    paths: &'a Items<Path>,
}

/// Searches for better designs, each of which takes some tenths of a second: so there are few of them. The first one
/// begins with the paths that it is given, the second one with paths that are laid one by one, where these are not much
/// dearer, and each later one with the cheapest design so far, where one demand has another path.
///
/// Where several search at once, each has a seat of its own, and may learn the cheapest design of all. They share the
/// first search out, in two parts each. The other searches are dealt out: together the seats make each of them once, in
/// four parts. Each part but the first goes on from the cheapest design. So that they go to different designs, searches at
/// different seats draw differently, and the first part of seat 1 begins as the second search does.
#[derive(Debug, Drop)]
pub struct DesignSearch {
    /// The number of the seat.
    seat: u32,
    /// How many seats there are.
    seats: u32,
    /// How often a design was asked for.
    asked: u32,
    /// How many searches there were.
    searches: u32,
    /// The place of the next search among all of them, which tells when it is due.
    place: u32,
    /// The cheapest design that they gave, or that was learnt.
    best: Option<Design>,
}

/// The cheapest design with these paths, where they keep the limits of their demands and the links can carry them.
#[tactic(auto, using(crate::proofs::DesignLaws::good_completion))]
fn completed(from: &Candidate) -> Result<Option<Design>, AllocError>
    requires { ArePaths from.now.table.now from.now.paths.now }
    ensures good { IfOk result (λ found. IfSome found (IsGoodDesign from.now.table.now)) }
    ensures paths { IfOk result (λ found. IfSome found (λ design. design.paths ≡ from.now.paths.now)) }
    ensures none { IfOk result (λ found. IfNone found (KeepsLimits from.now.table.now (with_paths from.now.paths.now) → HasOverfull from.now.table.now from.now.paths.now)) }
{
    let inst = from.table.instance();
    let copy = roomy_copies(from.alloc, inst, from.paths.as_slice())?;
    let Some((_cost, design)) = complete(from.alloc, from.table, Items::from_vec(copy))? else {
        return Ok(None);
    };
    if check_design(inst, &design).is_err() {
        return Ok(None);
    }
    Ok(Some(design))
}

/// The cheapest design with paths that are negotiated, where that finds some.
fn bargained(from: &Candidate) -> Result<Option<Design>, AllocError>
    requires { ArePaths from.now.table.now from.now.paths.now }
    ensures { IfOk result (λ found. IfSome found (IsGoodDesign from.now.table.now)) }
{
    match negotiated(from.alloc, from.table, from.paths)? {
        Some(paths) => completed(&Candidate {
            paths: &paths,
            ..*from
        }),
        None => Ok(None),
    }
}

/// The cheapest design with paths that are laid one by one, where each demand finds one and the design is good; else,
/// where this is asked for, with paths that are negotiated.
fn laid(from: &Candidate, is_turn: bool) -> Result<Option<Design>, AllocError>
    requires { ArePaths from.now.table.now from.now.paths.now }
    ensures { IfOk result (λ found. IfSome found (IsGoodDesign from.now.table.now)) }
{
    if let Some(paths) = lay_all(from.alloc, from.table, from.paths)? {
        let laid = Candidate {
            paths: &paths,
            ..*from
        };
        if let Some(design) = completed(&laid)? {
            return Ok(Some(design));
        }
    }
    if is_turn { bargained(from) } else { Ok(None) }
}

/// The paths of a design, where that of a demand is another one.
#[tactic(auto, using(demand_routing::proofs::ReroutingLaws::paths_set, crate::proofs::DesignLaws::paths_of_design))]
fn exchanged(from: &Candidate, design: &Design, demand: DemandId) -> Result<Items<Path>, AllocError>
    requires design { IsDesign from.now.table.now design.now }
    requires paths { ArePaths from.now.table.now from.now.paths.now }
    requires demand { demand.0 < length from.now.table.now.demands }
    ensures paths { IfOk result (ArePaths from.now.table.now) }
    ensures set { IfOk result (λ paths. paths ≡ slice_set design.now.paths demand.0 (path_at (with_paths from.now.paths.now) demand.0)) }
{
    let mut paths = roomy_copies(from.alloc, from.table.instance(), design.paths.as_slice())?;
    set_path(
        &mut paths,
        demand,
        &from.paths.as_slice()[demand.0 as usize],
    )?;
    Ok(Items::from_vec(paths))
}

/// The cheapest design with the paths of a good one, where that of a demand is the one among these; None where it is
/// the same or above the demand's limit, or the links cannot carry them.
fn completed_with(
    from: &Candidate,
    design: &Design,
    demand: DemandId,
) -> Result<Option<Design>, AllocError>
    requires design { IsDesign from.now.table.now design.now }
    requires paths { ArePaths from.now.table.now from.now.paths.now }
    requires demand { demand.0 < length from.now.table.now.demands }
    ensures { IfOk result (λ found. IfSome found (IsGoodDesign from.now.table.now)) }
{
    let place = demand.0 as usize;
    if design.paths.as_slice()[place] == from.paths.as_slice()[place] {
        return Ok(None);
    }
    let paths = exchanged(from, design, demand)?;
    completed(&Candidate {
        paths: &paths,
        ..*from
    })
}

/// The cheapest design with the paths of a good one, where that of the first demand that differs and can be carried is
/// the one among these.
fn varied(from: &Candidate, design: &Design, first: u32) -> Result<Option<Design>, AllocError>
    requires design { IsDesign from.now.table.now design.now }
    requires paths { ArePaths from.now.table.now from.now.paths.now }
    ensures { IfOk result (λ found. IfSome found (IsGoodDesign from.now.table.now)) }
{
    let demands = from.table.instance().demands();
    for offset in 0..demands.min(MOST_TRIES) {
        let demand = DemandId((first % demands + offset) % demands);
        if let Some(found) = completed_with(from, design, demand)? {
            return Ok(Some(found));
        }
    }
    Ok(None)
}

/// Whether so much is less than what a design costs, where there is one and it is good.
fn is_less(inst: &Instance, cost: u128, best: &Option<Design>) -> bool
    ensures { IsTrue result ↔ IfSome best.now (λ best. IsGoodDesign inst.now best → cost < cost_of inst.now best) }
{
    match best {
        Some(best) => match check_design(inst, best) {
            Ok(other) => cost < other,
            Err(_) => true,
        },
        None => true,
    }
}

/// Whether there is a design, and a search that begins with it is worth its time: where there is another one, and both
/// are good, it may be dearer by the margin, and no more.
fn is_worth(inst: &Instance, design: &Option<Design>, other: &Option<Design>) -> bool
    ensures { IsTrue result ↔ IsWorth inst.now design.now other.now }
{
    let Some(design) = design else {
        return false;
    };
    match check_design(inst, design) {
        Ok(cost) => is_less(inst, cost - cost / MARGIN, other),
        Err(_) => true,
    }
}

/// Whether a design is a good one, and cheaper than another, where there is one and it is good.
fn is_cheaper(inst: &Instance, design: &Design, best: &Option<Design>) -> bool
    ensures { IsTrue result ↔ IsCheaper inst.now design.now best.now }
{
    match check_design(inst, design) {
        Ok(cost) => is_less(inst, cost, best),
        Err(_) => false,
    }
}

impl DesignSearch {
    /// No search yet.
    ///
    /// - Takes: the number of the seat, and how many seats there are: 0 and 1 where nobody else searches. What is
    ///   drawn, which searches are made, and what the first of them begins with depend on them.
    pub fn new(seat: u32, seats: u32) -> DesignSearch
        requires { seat < seats }
        ensures { IsOpening seat seats result }
    {
        DesignSearch {
            seat,
            seats,
            asked: 0,
            searches: 0,
            place: 0,
            best: None,
        }
    }

    /// Whether the next search of this seat is due once so many nodes are examined: each seat's first one at once, and
    /// of those that are dealt out the first one at once too, the others at 4, 16, 64, 256 and 1,024 nodes, where there
    /// are several seats at half as many.
    pub fn is_due(&self, examined: u32) -> bool
        ensures { IsTrue result ↔ IsDue self.now.seats self.now.place examined }
    {
        match DUE.get(self.place as usize) {
            Some(due) => examined >= due_of(self.seats, *due),
            None => false,
        }
    }

    /// Whether demands are laid at this asking, though the paths may give a design by and by.
    fn is_laying_turn(&self) -> bool
        ensures { IsTrue result ↔ (self.now.asked % LAYING_TURN ≡ 1) }
    {
        self.asked % LAYING_TURN == 1
    }

    /// Whether the next search may begin with paths that are laid one by one: the second one of all may, and the first
    /// part of seat 1.
    fn begins_laid(&self) -> bool {
        if self.place == 0 {
            return self.seat == 1 && self.is_laying_turn();
        }
        self.place == 1
    }

    /// A design to begin with: that of these paths and that of paths laid one by one, in this order or the other one.
    /// Paths are negotiated at laying turns alone.
    fn fresh(&self, from: &Candidate, is_laid_first: bool) -> Result<Option<Design>, AllocError>
        requires { ArePaths from.now.table.now from.now.paths.now }
        ensures { IfOk result (λ found. IfSome found (IsGoodDesign from.now.table.now)) }
    {
        if is_laid_first {
            if let Some(found) = laid(from, self.is_laying_turn())? {
                return Ok(Some(found));
            }
            return completed(from);
        }
        if let Some(found) = completed(from)? {
            return Ok(Some(found));
        }
        if !self.is_laying_turn() {
            return Ok(None);
        }
        laid(from, true)
    }

    /// The cheapest design so far, where one demand has another path, one of these.
    fn varied_best(&self, from: &Candidate) -> Result<Option<Design>, AllocError>
        requires { ArePaths from.now.table.now from.now.paths.now }
        ensures { IfOk result (λ found. IfSome found (IsGoodDesign from.now.table.now)) }
    {
        let inst = from.table.instance();
        let Some(best) = &self.best else {
            return Ok(None);
        };
        if check_design(inst, best).is_err() {
            return Ok(None);
        }
        varied(from, best, self.asked)
    }

    /// A design with paths that are laid one by one, where a search from it is worth its time beside another design: in
    /// the first search that of these paths, and later the cheapest one so far. Else that other one, which is varied
    /// where it was searched from.
    fn laid_or_other(&self, from: &Candidate) -> Result<Option<Design>, AllocError>
        requires { ArePaths from.now.table.now from.now.paths.now }
        ensures { IfOk result (λ found. IfSome found (IsGoodDesign from.now.table.now)) }
    {
        let inst = from.table.instance();
        let laid = self.fresh(from, true)?;
        if self.place == 0 {
            let other = completed(from)?;
            return Ok(if is_worth(inst, &laid, &other) {
                laid
            } else {
                other
            });
        }
        if is_worth(inst, &laid, &self.best) {
            return Ok(laid);
        }
        match self.varied_best(from)? {
            Some(varied) => Ok(Some(varied)),
            None => Ok(laid),
        }
    }

    /// A copy of the cheapest design so far, where it is good.
    fn copied_best(&self, inst: &Instance) -> Result<Option<Design>, AllocError>
        ensures { IfOk result (λ found. IfSome found (IsGoodDesign inst.now)) }
    {
        let Some(best) = &self.best else {
            return Ok(None);
        };
        if check_design(inst, best).is_err() {
            return Ok(None);
        }
        Ok(Some(best.copy()?))
    }

    /// The design that the next search begins with.
    fn start(&self, from: &Candidate) -> Result<Option<Design>, AllocError>
        requires { ArePaths from.now.table.now from.now.paths.now }
        ensures { IfOk result (λ found. IfSome found (IsGoodDesign from.now.table.now)) }
    {
        let inst = from.table.instance();
        if self.searches > 0 && has_parts_left(self.seats, self.searches) {
            return self.copied_best(inst);
        }
        if self.place > 1 {
            return self.varied_best(from);
        }
        if self.begins_laid() {
            return self.laid_or_other(from);
        }
        self.fresh(from, false)
    }

    /// Holds a copy of the design, where it is cheaper than the one that is held: the later searches begin with it.
    ///
    /// - Takes: a design that a search gave, or that another seat's gave.
    /// - Errors: want of memory alone.
    pub fn learn(&mut self, inst: &Instance, design: &Design) -> Result<(), AllocError>
        ensures seat { self.new.seat ≡ self.old.seat }
        ensures seats { self.new.seats ≡ self.old.seats }
        ensures asked { self.new.asked ≡ self.old.asked }
        ensures searches { self.new.searches ≡ self.old.searches }
        ensures place { self.new.place ≡ self.old.place }
        ensures learnt { IsCheaper inst.now design.now self.old.best → OnOk result (self.new.best ≡ Some design.now) }
        ensures kept { (IsCheaper inst.now design.now self.old.best → ⊥) → self.new.best ≡ self.old.best }
        ensures no_memory { OnErr result (self.new.best ≡ self.old.best) }
        ensures best { OnOk result (IsGoodDesign inst.now design.now → IsSomeAnd self.new.best (λ best. cost_of inst.now best ≤ cost_of inst.now design.now)) }
    {
        if is_cheaper(inst, design, &self.best) {
            self.best = Some(design.copy()?);
        }
        Ok(())
    }

    /// A design that a search finds, where one is due and there is a design to begin with.
    ///
    /// - Takes: an instance and its step table; one simple path for each demand, in order; how many nodes are examined.
    /// - Errors: want of memory alone.
    pub fn next_design(
        &mut self,
        alloc: Global,
        table: &StepTable,
        paths: &Items<Path>,
        examined: u32,
    ) -> Result<Option<Design>, AllocError>
        requires paths { ArePaths table.now paths.now }
        ensures good { IfOk result (λ found. IfSome found (IsGoodDesign table.now)) }
        ensures made { IfOk result (λ found. IfSome found (λ design. HasSearched self.old examined self.new)) }
        ensures waited { IfOk result (λ found. IfNone found (HasWaited self.old self.new)) }
        ensures best { IfOk result (λ found. IfSome found (λ design. IsSomeAnd self.new.best (λ best. cost_of table.now best ≤ cost_of table.now design))) }
        ensures asked { self.new.asked ≡ min (self.old.asked + 1) (2 ^ 32 - 1) }
        ensures seat { self.new.seat ≡ self.old.seat }
        ensures seats { self.new.seats ≡ self.old.seats }
    {
        self.asked = self.asked.saturating_add(1);
        if !self.is_due(examined) {
            return Ok(None);
        }
        let from = Candidate {
            alloc,
            table,
            paths,
        };
        let Some(start) = self.start(&from)? else {
            return Ok(None);
        };
        let shares = shares_of(self.seats, self.place, self.searches);
        self.searches = self.searches.saturating_add(1);
        self.place = place_after(self.seat, self.seats, self.searches, self.place);
        // No two searches share a seed, whichever seats they are of.
        let seed = self.seat.wrapping_mul(SEEDS).wrapping_add(self.searches);
        let (_cost, design) = improve_share(alloc, table, start, seed, shares)?;
        self.learn(table.instance(), &design)?;
        Ok(Some(design))
    }
}
