//! The texts of a network and of its model.

use crate::network::{Demand, Extra, Kind, Link, Network};
use std::alloc::{AllocError, Global};
use std::fmt;

const HEADER: &str = "?SNDlib native format; type: network; version: 1.0\n";

const MODEL_HEADER: &str = "?SNDlib native format; type: model; version: 1.0\n";

/// The rows of a model that are the same for all networks.
const MODEL_ROWS: &str =
    "FIXED_CHARGE_MODEL = NO\nROUTING_MODEL = SINGLE_PATH\nADMISSIBLE_PATH_MODEL = ALL\nSURVIVABILITY_MODEL = NO\n";

/// Tenths, written as a decimal.
#[derive(Clone, Copy)]
struct Tenths(u32);

/// Hundredths, written as a decimal.
#[derive(Clone, Copy)]
struct Hundredths(u32);

impl fmt::Display for Tenths {
    fn fmt<W: fmt::Write>(&self, f: &mut fmt::Formatter<W>) -> fmt::Result {
        let whole = self.0 / 10;
        let part = self.0 % 10;
        if part == 0 {
            write!(f, "{whole}")
        } else {
            write!(f, "{whole}.{part}")
        }
    }
}

impl fmt::Display for Hundredths {
    fn fmt<W: fmt::Write>(&self, f: &mut fmt::Formatter<W>) -> fmt::Result {
        let whole = self.0 / 100;
        let part = self.0 % 100;
        if part == 0 {
            write!(f, "{whole}")
        } else {
            write!(f, "{whole}.{part:02}")
        }
    }
}

/// A network and its model, as texts.
#[derive(Drop)]
pub(crate) struct Texts {
    pub(crate) network: String,
    pub(crate) model: String,
    /// Whether both ways of a link share its capacity, so that plans without cuts, `LOADS` and `FAR` have a text of version 1.
    pub(crate) has_first_text: bool,
}

impl Texts {
    /// The texts of this network.
    pub(crate) fn of(alloc: Global, network: &Network) -> Result<Texts, AllocError> {
        Ok(Texts {
            network: network_text(alloc, network)?,
            model: model_text(alloc, network.kind, network.extra)?,
            has_first_text: network.kind != Kind::Bidirected,
        })
    }
}

/// Adds a link.
fn push_link(text: &mut String, number: usize, link: &Link) -> Result<(), AllocError> {
    let ends = link.ends;
    let pre = Tenths(link.pre);
    let routing = Hundredths(link.routing);
    write!(text, "  l{number} {ends} {pre} 0 {routing} 0 (")?;
    for module in link.modules.iter() {
        let capacity = Tenths(module.capacity);
        let cost = Hundredths(module.cost);
        write!(text, " {capacity} {cost}")?;
    }
    text.push_str(" )\n")
}

/// Adds a demand.
fn push_demand(text: &mut String, number: usize, demand: Demand) -> Result<(), AllocError> {
    let ends = demand.ends;
    let unit = demand.unit;
    let value = Tenths(demand.value);
    write!(text, "  d{number} {ends} {unit} {value} ")?;
    match demand.hops {
        Some(hops) => write!(text, "{hops}\n"),
        None => text.push_str("UNLIMITED\n"),
    }
}

/// The text of a network.
fn network_text(alloc: Global, network: &Network) -> Result<String, AllocError> {
    let mut text = String::from_str(alloc, HEADER)?;
    text.push_str("NODES (\n")?;
    for node in 0..network.nodes {
        write!(text, "  n{node}\n")?;
    }
    text.push_str(")\nLINKS (\n")?;
    for (number, link) in network.links.iter().enumerate() {
        push_link(&mut text, number, link)?;
    }
    text.push_str(")\nDEMANDS (\n")?;
    for (number, demand) in network.demands.iter().enumerate() {
        push_demand(&mut text, number, *demand)?;
    }
    text.push_str(")\n")?;
    Ok(text)
}

/// The text of the model of networks of this kind, which ask for this besides.
fn model_text(alloc: Global, kind: Kind, extra: Extra) -> Result<String, AllocError> {
    let (demands, links) = match kind {
        Kind::Directed => ("DIRECTED", "DIRECTED"),
        Kind::Undirected => ("UNDIRECTED", "UNDIRECTED"),
        Kind::Bidirected => ("DIRECTED", "BIDIRECTED"),
    };
    let (capacities, limits) = match extra {
        Extra::Nothing => ("MODULAR", "NO"),
        Extra::Limits => ("MODULAR", "YES"),
        Extra::Explicit => ("EXPLICIT", "NO"),
    };
    let mut text = String::from_str(alloc, MODEL_HEADER)?;
    write!(
        text,
        "DEMAND_MODEL = {demands}\nLINK_MODEL = {links}\nLINK_CAPACITY_MODEL = {capacities}\nHOP_LIMIT_MODEL = {limits}\n"
    )?;
    text.push_str(MODEL_ROWS)?;
    Ok(text)
}
