//! How the texts of a command come in.

ghost use Rattle.std.specs.Prelude.{◌≡◌, ◌≤◌, ◌<◌, ◌^◌, IfOk, IfErr};
ghost use Rattle.plan_io.specs.Causes.{Rose};
ghost use Rattle.command_texts.specs.Texts.{Begun, most_bytes, alone, two, three, IsRead, AreRead};
ghost use Rattle.command_texts.specs.Stops.{IsUnread, IsReadStop, TookMore};
ghost use Rattle.command_texts.specs.Shelf.{BeginsOrStopsOn};

use crate::stop::{Stop, stop_of_reading};
use cert_format::limits::MAX_PLAN_BYTES;
use plan_io::{Shelf, read_whole};
use plan_report::FileKind;
use std::alloc::Global;

/// The most bytes of a network or model text.
pub const MAX_TEXT_BYTES: u64 = 8_388_608;

/// The most bytes of a text.
fn most_bytes(file: FileKind) -> u64
    ensures value { result ≡ most_bytes file }
    ensures within { result < 2 ^ 63 }
{
    match file {
        FileKind::Network | FileKind::Model => MAX_TEXT_BYTES,
        FileKind::Plan => MAX_PLAN_BYTES as u64,
    }
}

/// The text of this name.
#[tactic(auto, using(crate::proofs::Begins::one_begun, crate::proofs::Begins::long_stop))]
fn read_text<S: Shelf>(
    alloc: Global,
    shelf: &mut S,
    name: &str,
    file: FileKind,
) -> Result<Vec<u8>, Stop>
    ensures read { IfOk result (λ text. IsRead (S.text shelf.old) file name.now text.items) }
    ensures stop { IfErr result (IsUnread (S.text shelf.old) name.now file) }
    ensures read_fault { IfErr result (λ stop. IsReadStop stop → Rose (S.faults shelf.old) (S.faults shelf.new)) }
    ensures too_long { IfErr result (TookMore (S.taken shelf.new)) }
    ensures later { S.faults shelf.old ≤ S.faults shelf.new }
    ensures begun { Begun 1 (S.begins shelf.old) (S.begins shelf.new) }
    ensures texts { S.text shelf.new ≡ S.text shelf.old }
{
    match read_whole(alloc, shelf, name, most_bytes(file)) {
        Ok(text) => Ok(text),
        Err(fault) => Err(stop_of_reading(file, fault)),
    }
}

/// The plan text of this name, which is read by itself.
#[tactic(auto, using(crate::proofs::Begins::all_begun, crate::proofs::Begins::stopped, crate::proofs::Begins::alone_unread))]
pub fn read_alone<S: Shelf>(alloc: Global, shelf: &mut S, plan: &str) -> Result<Vec<u8>, Stop>
    ensures read { IfOk result (λ text. AreRead (S.text shelf.old) (alone plan.now) 1 (alone text.items)) }
    ensures stops { BeginsOrStopsOn S.Shelf (alone plan.now) shelf.old shelf.new result }
{
    read_text(alloc, shelf, plan, FileKind::Plan)
}

/// A network text and a model text.
#[derive(Drop)]
pub struct TwoTexts {
    pub network: Vec<u8>,
    pub model: Vec<u8>,
}

/// The texts of these names.
#[tactic(auto, using(crate::proofs::Begins::stopped, crate::proofs::Begins::network_unread))]
pub fn read_two<S: Shelf>(
    alloc: Global,
    shelf: &mut S,
    network: &str,
    model: &str,
) -> Result<TwoTexts, Stop>
    ensures read { IfOk result (λ read. AreRead (S.text shelf.old) (two network.now model.now) 2
        (two read.network.items read.model.items)) }
    ensures stops { BeginsOrStopsOn S.Shelf (two network.now model.now) shelf.old shelf.new result }
{
    let network = read_text(alloc, shelf, network, FileKind::Network)?;
    let model = read_text(alloc, shelf, model, FileKind::Model)?;
    Ok(TwoTexts { network, model })
}

/// A network text, a model text and a plan text.
#[derive(Drop)]
pub struct ThreeTexts {
    pub network: Vec<u8>,
    pub model: Vec<u8>,
    pub plan: Vec<u8>,
}

/// The texts of these names.
#[tactic(auto, using(crate::proofs::Begins::stopped, crate::proofs::Begins::network_unread))]
pub fn read_three<S: Shelf>(
    alloc: Global,
    shelf: &mut S,
    network: &str,
    model: &str,
    plan: &str,
) -> Result<ThreeTexts, Stop>
    ensures read { IfOk result (λ read. AreRead (S.text shelf.old) (three network.now model.now plan.now) 3
        (three read.network.items read.model.items read.plan.items)) }
    ensures stops { BeginsOrStopsOn S.Shelf (three network.now model.now plan.now) shelf.old shelf.new result }
{
    let network = read_text(alloc, shelf, network, FileKind::Network)?;
    let model = read_text(alloc, shelf, model, FileKind::Model)?;
    let plan = read_text(alloc, shelf, plan, FileKind::Plan)?;
    Ok(ThreeTexts {
        network,
        model,
        plan,
    })
}
