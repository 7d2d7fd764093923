//! What the text of a plan claims.

use anyhow::{Context, Result, bail};
use plan_run::Status;
use std::fmt;

/// What the best design costs where there is none.
pub(crate) const NO_DESIGN: i128 = i128::MAX;

/// How many cost grains a unit of cost has.
const GRAINS: i128 = 1_000_000_000_000;

/// How many digits of a cost may stand behind the point.
const PLACES: usize = 12;

/// Between which two costs, in cost grains, that of the best design lies.
#[derive(Clone, Copy)]
pub(crate) struct Range {
    pub(crate) lower: i128,
    pub(crate) upper: i128,
}

/// How many nodes of the search tree are divided, by what.
#[derive(Clone, Copy)]
pub(crate) struct Splits {
    /// By the arcs of a demand.
    pub(crate) arcs: u32,
    /// By the loads of a place.
    pub(crate) loads: u32,
}

/// What is known of a network.
#[derive(Clone, Copy)]
pub(crate) struct Known {
    pub(crate) range: Range,
    /// How many cuts the plan has that tells it.
    pub(crate) cuts: u32,
    /// The splits of that plan.
    pub(crate) splits: Splits,
}

/// What a plan claims.
#[derive(Clone, Copy)]
pub(crate) struct Claim<'a> {
    /// The status as it is written.
    pub(crate) status: &'a str,
    pub(crate) budget: u32,
    /// How many nodes were examined.
    pub(crate) examined: u32,
    /// The cost as it is written, or `none`.
    pub(crate) cost: &'a str,
    pub(crate) known: Known,
}

impl Known {
    /// Whether the plan that tells it has a text of version 3: the earlier ones know neither cuts nor splits of loads.
    pub(crate) fn is_third(self) -> bool {
        self.cuts > 0 || self.splits.loads > 0
    }

    /// The first line of the text of that plan.
    pub(crate) fn first_line(self) -> &'static str {
        if self.is_third() {
            "SNDPLAN 3\n"
        } else {
            "SNDPLAN 2\n"
        }
    }
}

impl Range {
    /// That of which nothing is known.
    pub(crate) fn any() -> Self {
        Range {
            lower: i128::MIN,
            upper: NO_DESIGN,
        }
    }

    /// Whether the cost of the best design is known, or that there is none.
    pub(crate) fn is_decided(self) -> bool {
        self.lower == self.upper
    }
}

impl fmt::Display for Range {
    fn fmt<W: fmt::Write>(&self, f: &mut fmt::Formatter<W>) -> fmt::Result {
        if !self.is_decided() {
            return write!(f, "undecided");
        }
        if self.upper == NO_DESIGN {
            return write!(f, "no design");
        }
        let whole = self.upper / GRAINS;
        let part = self.upper % GRAINS / 1_000_000_000;
        write!(f, "cost {whole}.{part:03}")
    }
}

impl fmt::Display for Splits {
    fn fmt<W: fmt::Write>(&self, f: &mut fmt::Formatter<W>) -> fmt::Result {
        let arcs = self.arcs;
        let loads = self.loads;
        write!(f, "splits of arcs {arcs} and of loads {loads}")
    }
}

impl fmt::Display for Known {
    fn fmt<W: fmt::Write>(&self, f: &mut fmt::Formatter<W>) -> fmt::Result {
        let range = self.range;
        let cuts = self.cuts;
        let splits = self.splits;
        write!(f, "{range}, cuts {cuts}, {splits}")
    }
}

impl Claim<'_> {
    /// How the run ends that writes the plan.
    pub(crate) fn ends_with(&self) -> Result<Status> {
        match self.status {
            "OPTIMAL" => Ok(Status::Good),
            "INFEASIBLE" => Ok(Status::Infeasible),
            "UNDECIDED" => Ok(Status::Undecided),
            other => bail!("no status: {other}"),
        }
    }

    /// Whether as many nodes were examined as a plan of this status may have.
    pub(crate) fn keeps_budget(&self) -> bool {
        if self.status == "UNDECIDED" {
            self.examined == self.budget
        } else {
            self.examined <= self.budget
        }
    }
}

/// What stands behind this word, at the head of its line.
fn value_of<'a>(plan: &'a str, word: &str) -> Result<&'a str> {
    for line in plan.lines() {
        if let Some(value) = line.strip_prefix(word) {
            return Ok(value);
        }
    }
    bail!("no line {word}")
}

/// The number behind this word.
fn number_of(plan: &str, word: &str) -> Result<u32> {
    let number = value_of(plan, word)?
        .parse::<u32>()
        .context(format_args!("no number: {word}"))?;
    Ok(number)
}

/// The cost grains of a decimal without a sign.
fn grains_of(text: &str) -> Option<i128> {
    let (whole, part) = text.split_once('.').unwrap_or((text, "0"));
    let places = PLACES.checked_sub(part.len())?;
    let scale = 10i128.checked_pow(u32::try_from(places).ok()?)?;
    let whole = i128::from(whole.parse::<u64>().ok()?);
    let part = i128::from(part.parse::<u64>().ok()?);
    whole
        .checked_mul(GRAINS)?
        .checked_add(part.checked_mul(scale)?)
}

/// The cost grains of a cost or a bound, and `NO_DESIGN` where it is `none`.
fn amount_of(text: &str) -> Result<i128> {
    if text == "none" {
        return Ok(NO_DESIGN);
    }
    let (negative, digits) = match text.strip_prefix('-') {
        Some(digits) => (true, digits),
        None => (false, text),
    };
    let grains = grains_of(digits).context(format_args!("no decimal: {text}"))?;
    Ok(if negative {
        grains.wrapping_neg()
    } else {
        grains
    })
}

/// What this plan claims of the cost of the best design.
fn range_of(plan: &str, status: &str, cost: &str) -> Result<Range> {
    let upper = amount_of(cost)?;
    let lower = match status {
        "UNDECIDED" => amount_of(value_of(plan, "BOUND ")?)?,
        _ => upper,
    };
    Ok(Range { lower, upper })
}

/// How many cuts this plan has. Only texts of version 3 tell.
fn cuts_of(plan: &str) -> Result<u32> {
    if plan.starts_with("SNDPLAN 3\n") {
        number_of(plan, "CUTS ")
    } else {
        Ok(0)
    }
}

/// The splits of this plan.
fn splits_of(plan: &str) -> Splits {
    let mut splits = Splits { arcs: 0, loads: 0 };
    for line in plan.lines() {
        if line.starts_with("SPLIT ") {
            splits.arcs = splits.arcs.saturating_add(1);
        } else if line.starts_with("LOADS ") {
            splits.loads = splits.loads.saturating_add(1);
        }
    }
    splits
}

/// What the plan of this text claims.
pub(crate) fn claim_of(plan: &str) -> Result<Claim<'_>> {
    let status = value_of(plan, "STATUS ")?;
    let cost = value_of(plan, "COST ")?;
    Ok(Claim {
        status,
        budget: number_of(plan, "BUDGET ")?,
        examined: number_of(plan, "EXAMINED ")?,
        cost,
        known: Known {
            range: range_of(plan, status, cost)?,
            cuts: cuts_of(plan)?,
            splits: splits_of(plan),
        },
    })
}
