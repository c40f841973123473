//! A list of faces, in which a face is found by its set or by its dual face.
ghost use Rattle.std.specs.Prelude.{◌≡◌, ℕ, ◌^◌, ◌<◌, ◌≤◌, [], ◌∷◌, ◌++◌, length, IfOk, MatchOption};
ghost use Rattle.std.specs.List.{All};
ghost use Rattle.face_closing.specs.declared.limits.TheConstants.{MOST_FACES};
ghost use Rattle.face_poset.specs.Faces.{face_at};

use bit_pool::NoMemory;
use face_closing::{MOST_FACES, RowTable};
use std::alloc::Global;
use std::marker::Model;

/// Faces, each with the words of its set, those of its dual face, and its rank. All memory is taken when the list is opened.
#[derive(Drop)]
pub(crate) struct FaceList {
    sets: RowTable,
    duals: RowTable,
    ranks: Vec<u16>,
}

impl Model for FaceList {
    ghost use Rattle.std.specs.Prelude.{length, vec_capacity};
    ghost use Rattle.face_poset.specs.ListSteps.{ListState, faces_of, IsKeptList};

    ghost Value = { ListState };

    ghost view = { λ l. record {
      member_words = l.sets.row_words;
      function_words = l.duals.row_words;
      faces = faces_of l.sets.rows l.duals.rows l.ranks.items;
    } };

    ghost invariant = { λ l. IsKeptList (length l.sets.rows) (length l.duals.rows) (length l.ranks.items) (vec_capacity l.ranks) };
}

impl FaceList {
    /// An empty list of faces whose sets and dual faces have so many words.
    pub(crate) fn open(
        alloc: Global,
        member_words: usize,
        function_words: usize,
    ) -> Result<FaceList, NoMemory>
        requires some_members { 1 ≤ member_words }
        requires most_members { member_words ≤ 64 }
        requires some_functions { 1 ≤ function_words }
        requires most_functions { function_words ≤ 64 }
        ensures member_words { IfOk result (λ l. l.member_words ≡ member_words) }
        ensures function_words { IfOk result (λ l. l.function_words ≡ function_words) }
        ensures empty { IfOk result (λ l. l.faces ≡ []) }
    {
        Ok(FaceList {
            sets: RowTable::open(alloc, member_words)?,
            duals: RowTable::open(alloc, function_words)?,
            ranks: Vec::with_capacity(alloc, MOST_FACES)?,
        })
    }

    /// How many faces there are, at most 4,096.
    pub(crate) fn len(&self) -> usize
        ensures value { result ≡ length self.now.faces }
        ensures few { result ≤ MOST_FACES }
    {
        self.sets.len()
    }

    /// The words of a face's members.
    pub(crate) fn members_of(&self, face: usize) -> &[u64]
        requires { face < length self.now.faces }
        ensures value { result.now ≡ (face_at self.now.faces face).members }
        ensures words { length result.now ≡ self.now.member_words }
    {
        self.sets.row(face)
    }

    /// The words of the functions of a face's dual face.
    pub(crate) fn functions_of(&self, face: usize) -> &[u64]
        requires { face < length self.now.faces }
        ensures { result.now ≡ (face_at self.now.faces face).functions }
    {
        self.duals.row(face)
    }

    /// A face's rank.
    pub(crate) fn rank(&self, face: usize) -> u16
        requires { face < length self.now.faces }
        ensures { result ≡ (face_at self.now.faces face).rank }
    {
        self.ranks[face]
    }

    /// The number of a face with these members, or `None` where there is none.
    pub(crate) fn find(&self, members: &[u64]) -> Option<usize>
        ensures few { length self.now.faces ≤ MOST_FACES }
        ensures found { MatchOption result ((k : ℕ) → k < length self.now.faces → (face_at self.now.faces k).members ≡ members.now → ⊥)
            (λ k. (k < length self.now.faces) × ((face_at self.now.faces k).members ≡ members.now)) }
    {
        self.sets.find(members)
    }

    /// The number of a face with this dual face, or `None` where there is none.
    pub(crate) fn find_functions(&self, functions: &[u64]) -> Option<usize>
        ensures few { length self.now.faces ≤ MOST_FACES }
        ensures found { MatchOption result ((k : ℕ) → k < length self.now.faces → (face_at self.now.faces k).functions ≡ functions.now → ⊥)
            (λ k. (k < length self.now.faces) × ((face_at self.now.faces k).functions ≡ functions.now)) }
    {
        self.duals.find(functions)
    }

    /// One face more, for which there is room.
    pub(crate) fn push(&mut self, members: &[u64], functions: &[u64], rank: u16)
        requires members { length members.now ≡ self.old.member_words }
        requires functions { length functions.now ≡ self.old.function_words }
        requires room { length self.old.faces < MOST_FACES }
        ensures member_words { self.new.member_words ≡ self.old.member_words }
        ensures function_words { self.new.function_words ≡ self.old.function_words }
        ensures small { All (λ w. w < 2 ^ 64) functions.now }
        ensures faces { self.new.faces ≡ self.old.faces ++ record { members = members.now; functions = functions.now; rank = rank } ∷ [] }
    {
        if self.ranks.push(rank).is_err() {
            unreachable!();
        }
        self.sets.push(members);
        self.duals.push(functions);
    }

    /// Takes all faces away.
    pub(crate) fn clear(&mut self)
        ensures member_words { self.new.member_words ≡ self.old.member_words }
        ensures function_words { self.new.function_words ≡ self.old.function_words }
        ensures empty { self.new.faces ≡ [] }
    {
        self.sets.clear();
        self.duals.clear();
        self.ranks.clear();
    }
}
