//! A restriction: a row of bits, one for each arc, of each demand to which arcs are forbidden.

ghost use Rattle.std.specs.Prelude.{◌≡◌, ◌≤◌, ◌<◌, ◌+◌, ◌-◌, ◌*◌, ◌/◌, ◌%◌, ◌==◌, ◌∷◌, ◌↔◌, [], not, slice_index, IfOk, IsTrue, All, vec_len, vec_capacity};
ghost use Rattle.std.specs.Int.{bit_at};
ghost use Rattle.plan_base.specs.declared.limits.TheConstants.{MAX_DEMANDS};
ghost use Rattle.arc_restrict.specs.Rows.{row_len, place_of, forbids, HasSizeOf, IsKept};
ghost use Rattle.arc_restrict.specs.Restrictions.{none_forbidden, with_forbidden, IsPermitted};

use plan_base::{ArcId, DemandId, Instance, Path};
use std::alloc::{AllocError, Global};
use std::marker::Model;

/// Bits in a word.
const WORD_BITS: u32 = 64;

/// How many words a row of this many arcs has.
fn row_len(arcs: u32) -> usize
    ensures { result ≡ row_len arcs }
{
    arcs.div_ceil(WORD_BITS) as usize
}

/// The place among all words of the one that has the arc's bit in the row behind so many others.
fn place_of(arcs: u32, before: u32, arc: ArcId) -> usize
    requires { before ≤ MAX_DEMANDS }
    ensures { result ≡ place_of arcs before arc }
{
    before as usize * row_len(arcs) + (arc.0 / WORD_BITS) as usize
}

/// Whether the word has the arc's bit.
fn has_bit(word: u64, arc: ArcId) -> bool
    ensures { result ≡ (bit_at word (arc.0 % 64) == 1) }
{
    (word >> (arc.0 % WORD_BITS)) & 1 == 1
}

/// For each demand a set of forbidden arcs.
#[derive(Debug, Drop)]
pub struct Restriction {
    demands: u32,
    arcs: u32,
    /// The number of each demand's row, from 1 on, or 0 where it has none.
    row_of: Vec<u32>,
    /// How many rows there are.
    rows: u32,
    /// The rows, one after the other, with room for one of each demand.
    words: Vec<u64>,
}

impl Model for Restriction {
    ghost use Rattle.std.specs.Prelude.{vec_capacity};
    ghost use Rattle.arc_restrict.specs.Rows.{Rows, IsKept};

    ghost Value = { Rows };

    ghost view = { λ a. record { demands = a.demands; arcs = a.arcs; row_of = a.row_of.items; words = a.words.items } };

    ghost invariant = { λ a. IsKept (record { demands = a.demands; arcs = a.arcs; row_of = a.row_of.items; words = a.words.items }) a.rows (vec_capacity a.words) };
}

/// Room for a row of each demand, which the system gives only as rows are written.
fn room_for_rows(alloc: Global, demands: u32, arcs: u32) -> Result<Vec<u64>, AllocError>
    requires demands { demands ≤ MAX_DEMANDS }
    ensures empty { IfOk result (λ words. words.items ≡ []) }
    ensures len { IfOk result (λ words. vec_len words ≡ 0) }
    ensures room { IfOk result (λ words. vec_capacity words ≡ demands * row_len arcs) }
{
    Vec::with_capacity(alloc, demands as usize * row_len(arcs))
}

impl Restriction {
    /// The restriction that forbids nothing, for an instance of this size.
    ///
    /// - Errors: want of memory.
    /// - Rule: docs/DEFINITIONS.md, "Restrictions".
    /// - Time: demands.
    pub fn none(alloc: Global, inst: &Instance) -> Result<Restriction, AllocError>
        ensures empty { IfOk result (λ r. forbids r ≡ none_forbidden) }
        ensures size { IfOk result (λ r. HasSizeOf inst.now r) }
    {
        let demands = inst.demands();
        let arcs = 2 * inst.links();
        let row_of = vec![in alloc; 0; demands as usize]?;
        let words = room_for_rows(alloc, demands, arcs)?;
        Ok(Restriction {
            demands,
            arcs,
            row_of,
            rows: 0,
            words,
        })
    }

    /// The same restriction.
    ///
    /// - Errors: want of memory.
    /// - Time: demands, and arcs for each demand to which arcs are forbidden, in words of 64 bits.
    pub fn copy(&self) -> Result<Restriction, AllocError>
        ensures { IfOk result (λ r. r ≡ self.now) }
    {
        let row_of = self.row_of.clone()?;
        let mut words = room_for_rows(*self.words.allocator(), self.demands, self.arcs)?;
        words.extend_from_slice(&self.words)?;
        Ok(Restriction {
            demands: self.demands,
            arcs: self.arcs,
            row_of,
            rows: self.rows,
            words,
        })
    }

    /// The number of the demand's row, from 1 on, or 0 where it has none.
    fn row_of(&self, demand: DemandId) -> u32
        requires demand { demand.0 < self.now.demands }
        ensures number { result ≡ slice_index self.now.row_of demand.0 }
        ensures within { result ≤ MAX_DEMANDS }
    {
        self.row_of[demand.0 as usize]
    }

    /// Gives a demand that has no row one that forbids nothing. It takes no memory, since there is room for all rows.
    fn add_row(&mut self, demand: DemandId)
        requires demand { demand.0 < self.old.demands }
        requires wanting { slice_index self.old.row_of demand.0 ≡ 0 }
        ensures value { forbids self.new ≡ forbids self.old }
        ensures demands { self.new.demands ≡ self.old.demands }
        ensures arcs { self.new.arcs ≡ self.old.arcs }
        ensures has_row { 0 < slice_index self.new.row_of demand.0 }
    {
        self.words
            .resize(self.words.len() + row_len(self.arcs), 0)
            .unwrap();
        self.rows += 1;
        self.row_of[demand.0 as usize] = self.rows;
    }

    /// Sees that the demand has a row.
    fn have_row(&mut self, demand: DemandId)
        requires demand { demand.0 < self.old.demands }
        ensures value { forbids self.new ≡ forbids self.old }
        ensures demands { self.new.demands ≡ self.old.demands }
        ensures arcs { self.new.arcs ≡ self.old.arcs }
        ensures has_row { 0 < slice_index self.new.row_of demand.0 }
    {
        if self.row_of(demand) == 0 {
            self.add_row(demand);
        }
    }

    /// Forbids one arc to a demand that has a row, beside what is forbidden already.
    fn set_bit(&mut self, demand: DemandId, arc: ArcId)
        requires demand { demand.0 < self.old.demands }
        requires has_row { 0 < slice_index self.old.row_of demand.0 }
        requires arc { arc.0 < self.old.arcs }
        ensures value { forbids self.new ≡ with_forbidden (forbids self.old) demand (arc ∷ []) }
        ensures demands { self.new.demands ≡ self.old.demands }
        ensures arcs { self.new.arcs ≡ self.old.arcs }
    {
        let place = place_of(self.arcs, self.row_of(demand) - 1, arc);
        self.words[place] |= 1 << (arc.0 % WORD_BITS);
    }

    /// Forbids one arc to the demand, beside what is forbidden already.
    fn forbid_one(&mut self, demand: DemandId, arc: ArcId)
        requires demand { demand.0 < self.old.demands }
        requires arc { arc.0 < self.old.arcs }
        ensures value { forbids self.new ≡ with_forbidden (forbids self.old) demand (arc ∷ []) }
        ensures demands { self.new.demands ≡ self.old.demands }
        ensures arcs { self.new.arcs ≡ self.old.arcs }
    {
        self.have_row(demand);
        self.set_bit(demand, arc);
    }

    /// Forbids the arcs to the demand, beside what is forbidden already.
    ///
    /// - Takes: a demand and arcs of the instance that the restriction was made for.
    /// - Rule: docs/DEFINITIONS.md, "Restrictions".
    pub fn forbid(&mut self, demand: DemandId, arcs: &[ArcId])
        requires demand { demand.0 < self.old.demands }
        requires arcs { All (λ a. a.0 < self.old.arcs) arcs.now }
        ensures value { forbids self.new ≡ with_forbidden (forbids self.old) demand arcs.now }
        ensures demands { self.new.demands ≡ self.old.demands }
        ensures arcs { self.new.arcs ≡ self.old.arcs }
    {
        for arc in arcs {
            self.forbid_one(demand, *arc);
        }
    }

    /// Whether the arc is not forbidden to the demand.
    ///
    /// - Gives: `true` also for a demand or an arc that the restriction does not have.
    /// - Rule: docs/DEFINITIONS.md, "Restrictions".
    pub fn allows(&self, demand: DemandId, arc: ArcId) -> bool
        ensures { result ≡ not (forbids self.now demand.0 arc) }
    {
        if demand.0 >= self.demands || arc.0 >= self.arcs {
            return true;
        }
        match self.row_of(demand) {
            0 => true,
            number => !has_bit(self.words[place_of(self.arcs, number - 1, arc)], arc),
        }
    }

    /// Whether no arc of the path is forbidden to the demand.
    ///
    /// - Rule: docs/DEFINITIONS.md, "Restrictions".
    pub fn permits(&self, demand: DemandId, path: &Path) -> bool
        ensures { IsTrue result ↔ IsPermitted (forbids self.now) demand.0 path.now }
    {
        path.as_slice().iter().all(|arc| self.allows(demand, *arc))
    }

    /// Whether the restriction has the instance's demands and arcs.
    ///
    /// - Rule: docs/DEFINITIONS.md, "Restrictions".
    pub fn fits(&self, inst: &Instance) -> bool
        ensures { IsTrue result ↔ HasSizeOf inst.now self.now }
    {
        self.demands == inst.demands() && self.arcs == 2 * inst.links()
    }
}
