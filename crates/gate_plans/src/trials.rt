//! Runs of `plan`, each with runs of `verify` and `upgrade` on what it wrote.

use crate::choices::Tried;
use crate::claims::{Claim, Known, claim_of};
use crate::texts::Texts;
use crate::versions::first_text;
use anyhow::{Context, Result, ensure};
use plan_io::{MemSink, NoGate, SureShelf};
use plan_run::{Status, run};
use std::alloc::{AllocError, Global};
use std::sync::Wait;
use std::thread::Threads;

/// How many bytes a plan may have here.
const PLAN_ROOM: usize = 4_000_000;

/// How many bytes a line may have.
const LINE_ROOM: usize = 1_000;

/// The words of a line.
fn words_of(alloc: Global, line: &str) -> Result<Vec<String>, AllocError> {
    line.split(' ')
        .map(|word| String::from_str(alloc, word))
        .try_collect(alloc)
}

/// The line of `verify` on a plan that claims this and is accepted.
fn accepting_line(alloc: Global, claim: &Claim<'_>) -> Result<String, AllocError> {
    let status = claim.status;
    let cost = claim.cost;
    if cost == "none" {
        format!(in alloc; "ACCEPTED {status}\n")
    } else {
        format!(in alloc; "ACCEPTED {status} {cost}\n")
    }
}

/// A network that is planned: what runs over its texts start threads with, the texts, and what its designs cost.
#[derive_where(Clone, Copy)]
pub(crate) struct Trial<'a, R> {
    pub(crate) rt: &'a R,
    pub(crate) alloc: Global,
    pub(crate) texts: &'a Texts,
    pub(crate) tried: Tried,
}

impl<R: Threads + Wait + Sync> Trial<'_, R> {
    /// How a run of this line's words over texts with names ends, and what it writes.
    fn ends(
        &self,
        line: &str,
        named: &[(&str, &[u8])],
        room: usize,
    ) -> Result<(Status, MemSink), AllocError> {
        let words = words_of(self.alloc, line)?;
        let mut shelf = SureShelf::new(self.alloc, named)?;
        let mut out = MemSink::new(self.alloc, room, &[])?;
        let status = run(
            self.rt,
            self.alloc,
            words.as_slice(),
            &mut shelf,
            &mut out,
            &NoGate,
        );
        Ok((status, out))
    }

    /// Has `verify` look at the text of this plan, which claims this.
    fn verify_plan(&self, plan: &str, claim: &Claim<'_>) -> Result<()> {
        let named = [
            ("net", self.texts.network.as_bytes()),
            ("model", self.texts.model.as_bytes()),
            ("plan", plan.as_bytes()),
        ];
        let (status, line) = self.ends("verify net model plan", &named, LINE_ROOM)?;
        let written = str::from_utf8(line.bytes())?;
        ensure!(status == Status::Good, "verify: {written}");
        let wanted = accepting_line(self.alloc, claim)?;
        ensure!(written == wanted.as_str(), "verify: {written}");
        Ok(())
    }

    /// Has `upgrade` write this text of a plan anew: it must write that one.
    fn upgrade_plan(&self, plan: &str, wanted: &str) -> Result<()> {
        let named = [("plan", plan.as_bytes())];
        let (status, out) = self.ends("upgrade plan", &named, PLAN_ROOM)?;
        ensure!(status == Status::Good, "upgrade: {}", status as u8);
        ensure!(out.bytes() == wanted.as_bytes(), "upgrade: another text");
        Ok(())
    }

    /// Has `verify` and `upgrade` look at the text of this plan, and at its text of version 1 where it has one.
    fn read_plan_again(&self, plan: &str, claim: &Claim<'_>) -> Result<()> {
        self.verify_plan(plan, claim)?;
        self.upgrade_plan(plan, plan)?;
        if self.texts.has_first_text && !claim.known.is_third() && !plan.contains("\nFAR ") {
            let first = first_text(self.alloc, plan)?;
            self.verify_plan(first.as_str(), claim)
                .context("version 1")?;
            self.upgrade_plan(first.as_str(), plan)
                .context("version 1")?;
        }
        Ok(())
    }

    /// Has a plan verified that a run with this budget wrote, which ended so. Gives what the plan tells.
    fn known_of(&self, budget: u32, status: Status, plan: &[u8]) -> Result<Known> {
        let plan = str::from_utf8(plan)?;
        let claim = claim_of(plan)?;
        ensure!(status == claim.ends_with()?, "another status");
        ensure!(claim.budget == budget, "another budget");
        ensure!(claim.keeps_budget(), "examined: {}", claim.examined);
        ensure!(
            plan.starts_with(claim.known.first_line()),
            "another version"
        );
        self.read_plan_again(plan, &claim)?;
        Ok(claim.known)
    }

    /// Plans a network with so many workers and this budget, and has the plan verified. Gives what the plan tells.
    pub(crate) fn plan_within(&self, workers: u32, budget: u32) -> Result<Known> {
        let named = [
            ("net", self.texts.network.as_bytes()),
            ("model", self.texts.model.as_bytes()),
        ];
        let line = format!(in self.alloc; "plan net model --workers {workers} --nodes {budget}")?;
        let (status, out) = self.ends(line.as_str(), &named, PLAN_ROOM)?;
        self.known_of(budget, status, out.bytes())
    }
}
