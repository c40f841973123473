//! Tables of faces.
ghost use Rattle.std.specs.Prelude.{◌≡◌, ◌↔◌, ◌==◌, ℕ, ◌<◌, ◌≤◌, [], length, count_by, IsTrue, IfOk, MatchOption};
ghost use Rattle.bit_pool.specs.Bits.{IsSubset, words_for};
ghost use Rattle.bit_pool.specs.declared.limits.TheConstants.{MOST_WIDTH};
ghost use Rattle.incidence.specs.Incidences.{IsHeld};
ghost use Rattle.face_poset.specs.Faces.{face_at, IsTopRank};
ghost use Rattle.face_poset.specs.Builds.{IsBuilt};

use crate::fill::fill;
use crate::list::FaceList;
use bit_pool::{Generation, MOST_WIDTH, NoMemory, RowPool, Stale, is_within};
use face_closing::{MOST_FACES, RowTable};
use incidence::Incidence;
use std::alloc::Global;
use std::marker::Model;

/// Why a table wasn't built.
#[derive(Clone, Copy, Debug, PartialEq, Eq)]
pub enum BuildFault {
    /// The pool lacks a row of the incidence: the first one is told.
    Stale(Stale),
    /// There are more faces than a table may have: the limit and one.
    FaceLimit(u32),
}

/// A table of at most 4,096 faces. Contracts see the numbers of members and functions for which it was opened, which fix how many words a set has,
/// and the faces in order, each with the words of its members, those of the functions of its dual face, and its rank.
#[derive(Drop)]
pub struct FaceTable {
    members: u32,
    functions: u32,
    list: FaceList,
    rows: Generation,
    found: RowTable,
    sorted: RowTable,
    order: Vec<u16>,
    ranks: Vec<u16>,
    space: Vec<u64>,
    dual: Vec<u64>,
}

impl Model for FaceTable {
    ghost use Rattle.std.specs.Prelude.{length, vec_capacity};
    ghost use Rattle.face_poset.specs.Faces.{TableState};
    ghost use Rattle.face_poset.specs.TableSteps.{IsKeptTable};

    ghost Value = { TableState };

    ghost view = { λ t. record { members = t.members; functions = t.functions; faces = t.list.faces } };

    ghost invariant = { λ t. IsKeptTable t.members t.functions t.list t.rows t.found t.sorted (vec_capacity t.order) (vec_capacity t.ranks)
        (length t.space.items) (length t.dual.items) };
}

/// So many words, all 0.
fn zeros(alloc: Global, count: usize) -> Result<Vec<u64>, NoMemory>
    ensures { IfOk result (λ v. length v.items ≡ count) }
{
    let mut words = Vec::with_capacity(alloc, count)?;
    words.resize(count, 0)?;
    Ok(words)
}

impl FaceTable {
    /// An empty table for relations of at most so many members and functions, 1 to 4,096 of each. `NoMemory` comes where there is no memory for
    /// 4,096 faces.
    pub fn open(alloc: Global, members: u32, functions: u32) -> Result<FaceTable, NoMemory>
        requires some_members { 1 ≤ members }
        requires most_members { members ≤ MOST_WIDTH }
        requires some_functions { 1 ≤ functions }
        requires most_functions { functions ≤ MOST_WIDTH }
        ensures members { IfOk result (λ t. t.members ≡ members) }
        ensures functions { IfOk result (λ t. t.functions ≡ functions) }
        ensures empty { IfOk result (λ t. t.faces ≡ []) }
    {
        let member_words = (members as usize + 63) / 64;
        let function_words = (functions as usize + 63) / 64;
        Ok(FaceTable {
            members,
            functions,
            list: FaceList::open(alloc, member_words, function_words)?,
            rows: Generation::open(alloc, 0, member_words, MOST_WIDTH)?,
            found: RowTable::open(alloc, member_words)?,
            sorted: RowTable::open(alloc, member_words)?,
            order: Vec::with_capacity(alloc, MOST_FACES)?,
            ranks: Vec::with_capacity(alloc, MOST_FACES)?,
            space: zeros(alloc, member_words)?,
            dual: zeros(alloc, function_words)?,
        })
    }

    /// Finds the faces of the relation that an incidence's rows in a pool tell: exactly the faces, in order. All rows are asked for, the members'
    /// before the functions': `Stale` comes exactly where the pool lacks one of them, and tells the first. `FaceLimit` comes exactly where it has
    /// them all and there are more than 4,096 faces, and tells 4,097. After an error the table is empty. It may be built again and again.
    pub fn build(&mut self, table: &Incidence, pool: &RowPool) -> Result<(), BuildFault>
        requires members { table.now.members ≤ self.old.members }
        requires functions { table.now.functions ≤ self.old.functions }
        requires held { IsHeld pool.now table.now }
        ensures members { self.new.members ≡ self.old.members }
        ensures functions { self.new.functions ≡ self.old.functions }
        ensures built { IsBuilt pool.now table.now self.new result }
    {
        fill(
            &mut self.list,
            &mut self.rows,
            &mut self.found,
            &mut self.sorted,
            &mut self.order,
            &mut self.ranks,
            &mut self.space,
            &mut self.dual,
            table,
            pool,
        )
    }

    /// For how many members it was opened, 1 to 4,096.
    pub fn members(&self) -> u32
        ensures value { result ≡ self.now.members }
        ensures least { 1 ≤ result }
        ensures most { result ≤ MOST_WIDTH }
    {
        self.members
    }

    /// For how many functions it was opened, 1 to 4,096.
    pub fn functions(&self) -> u32
        ensures value { result ≡ self.now.functions }
        ensures least { 1 ≤ result }
        ensures most { result ≤ MOST_WIDTH }
    {
        self.functions
    }

    /// Takes all faces away.
    pub fn clear(&mut self)
        ensures members { self.new.members ≡ self.old.members }
        ensures functions { self.new.functions ≡ self.old.functions }
        ensures empty { self.new.faces ≡ [] }
    {
        self.list.clear();
    }

    /// How many faces there are, at most 4,096.
    pub fn len(&self) -> u32
        ensures value { result ≡ length self.now.faces }
        ensures few { result ≤ MOST_FACES }
    {
        self.list.len() as u32
    }

    /// Whether the table has no faces: it was never built, or not after the last error.
    pub fn is_empty(&self) -> bool
        ensures { IsTrue result ↔ (length self.now.faces ≡ 0) }
    {
        self.list.len() == 0
    }

    /// The rank of a face.
    pub fn rank(&self, face: u32) -> u32
        requires { face < length self.now.faces }
        ensures { result ≡ (face_at self.now.faces face).rank }
    {
        self.list.rank(face as usize) as u32
    }

    /// The largest rank of a face, in a table that was built.
    pub fn top_rank(&self) -> u32
        requires { 1 ≤ length self.now.faces }
        ensures { IsTopRank self.now.faces result }
    {
        self.list.rank(self.list.len() - 1) as u32
    }

    /// Whether one face is within another one, or is the other one.
    pub fn below(&self, a: u32, b: u32) -> bool
        requires a { a < length self.now.faces }
        requires b { b < length self.now.faces }
        ensures { IsTrue result ↔ IsSubset (face_at self.now.faces a).members (face_at self.now.faces b).members }
    {
        is_within(
            self.list.members_of(a as usize),
            self.list.members_of(b as usize),
        )
    }

    /// The words of a face's members.
    pub fn members_of(&self, face: u32) -> &[u64]
        requires { face < length self.now.faces }
        ensures { result.now ≡ (face_at self.now.faces face).members }
    {
        self.list.members_of(face as usize)
    }

    /// The words of the functions of a face's dual face.
    pub fn functions_of(&self, face: u32) -> &[u64]
        requires { face < length self.now.faces }
        ensures { result.now ≡ (face_at self.now.faces face).functions }
    {
        self.list.functions_of(face as usize)
    }

    /// How many faces have a rank.
    pub fn counts(&self, rank: u32) -> u32
        ensures value { result ≡ count_by (λ face. face.rank == rank) self.now.faces }
        ensures few { length self.now.faces ≤ MOST_FACES }
    {
        let mut count = 0;
        for face in 0..self.list.len() {
            if self.list.rank(face) as u32 == rank {
                count += 1;
            }
        }
        count
    }

    /// The number of the face with these members, as words as long as the table's. `None` comes exactly where no face has them.
    pub fn find(&self, members: &[u64]) -> Option<u32>
        ensures few { length self.now.faces ≤ MOST_FACES }
        ensures found { MatchOption result ((k : ℕ) → k < length self.now.faces → (face_at self.now.faces k).members ≡ members.now → ⊥)
            (λ k. (k < length self.now.faces) × ((face_at self.now.faces k).members ≡ members.now)) }
    {
        match self.list.find(members) {
            Some(face) => Some(face as u32),
            None => None,
        }
    }

    /// The number of the face whose dual face has these functions, as words as long as the table's. `None` comes exactly where no dual face has
    /// them.
    pub fn find_functions(&self, functions: &[u64]) -> Option<u32>
        ensures few { length self.now.faces ≤ MOST_FACES }
        ensures found { MatchOption result ((k : ℕ) → k < length self.now.faces → (face_at self.now.faces k).functions ≡ functions.now → ⊥)
            (λ k. (k < length self.now.faces) × ((face_at self.now.faces k).functions ≡ functions.now)) }
    {
        match self.list.find_functions(functions) {
            Some(face) => Some(face as u32),
            None => None,
        }
    }
}
