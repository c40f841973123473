//! Walks through lists of numbers, place by place, in lexicographic order: a guide says which numbers are tried behind a beginning, which
//! beginnings are given up, and which lists are kept. The crate knows nothing of what is sought, stands on `lattice_theory` for orders and whole
//! lists, and computes nothing. Its central theorem: the walk of a guide that loses none lists all that is sought, each once, in order. The law
//! states it for what a test tells; the lemma in proofs/Walks.antt holds for anything.
#![tactic(auto)]

ghost use Rattle.std.specs.Prelude.{◌≡◌, [], ◌∷◌};
ghost use Rattle.walk_theory.specs.Walks.{walk};
ghost use Rattle.walk_theory.specs.Laws.{WalkListsSought};
ghost use Rattle.walk_theory.specs.Examples.{short_steps};

/// A law, and no work: the walk of a guide that loses none lists all that is sought, each once, in order.
pub fn walk_lists_sought()
    ensures { WalkListsSought }
{}

/// An example, and no work: the guide tries 0, 1 and 2, and behind each number itself and the next one. It gives up the beginning 1 and doesn't
/// keep 0 1. So two places are walked through by 0 0, 2 2 and 2 3.
pub fn short_steps_are_an_example()
    ensures { walk short_steps 2 [] ≡ (0 ∷ 0 ∷ []) ∷ (2 ∷ 2 ∷ []) ∷ (2 ∷ 3 ∷ []) ∷ [] }
{}
