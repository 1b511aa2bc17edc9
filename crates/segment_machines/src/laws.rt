//! Laws of the definitions. Each is a function without a body, whose clause is the law.
ghost use Rattle.std.specs.Prelude.{◌≡◌, ◌↔◌, ◌≤◌, ◌++◌, ℕ, ℤ, pos, negsuc, false, [], drop, length};
ghost use Rattle.sv_word.specs.Words.{IsWord};
ghost use Rattle.sv_terms.specs.Language.{Word as AnyWord};
ghost use Rattle.sv_terms.specs.Replacement.{occurs, IsFirst};
ghost use Rattle.sv_terms.specs.declared.transducer.Transducer.{Transducer as AnyTransducer};
ghost use Rattle.segment_machines.specs.Alternatives.{IndexByMachines, IndexByWords, IndexCaseEmpty, IsExactly, SubstrByMachines, SubstrByWords};
ghost use Rattle.segment_machines.specs.Marked.{marked, picked, IsMark, IsMarkAbsent, IsMarkEnd, IsMarkFound, IsMarked, IsPhased, IsPicked};
ghost use Rattle.segment_machines.specs.Substrings.{index_of, substr, Index, Substring};

/// What `substr` computes is the part as a definition in words has it, and no other word; and the five
/// alternatives tell it.
pub fn substrings_are_cases()
    ensures word { (w : AnyWord) (m n : ℤ) → IsWord w → IsWord (substr w m n) }
    ensures words { (w : AnyWord) (m n : ℤ) (v : AnyWord) → (v ≡ substr w m n) ↔ Substring w m n v }
    ensures cases { (w : AnyWord) (m n : ℤ) (v : AnyWord) → (v ≡ substr w m n) ↔ SubstrByWords w m n v }
{}

/// What `index_of` computes is the least place as a definition in words has it, and no other number; and
/// the alternatives tell it, four of them, or three for the empty pattern. `found` and `missing` say it by
/// `IsFirst` and `occurs`, which are what a search by places answers.
pub fn indexes_are_cases()
    ensures words { (w p : AnyWord) (i j : ℤ) → (j ≡ index_of w p i) ↔ Index w p i j }
    ensures cases { (w p : AnyWord) (i j : ℤ) → (p ≡ [] → ⊥) → (j ≡ index_of w p i) ↔ IndexByWords w p i j }
    ensures found { (w p : AnyWord) (i k : ℕ) → IsFirst w p i k → index_of w p (pos i) ≡ pos k }
    ensures missing { (w p : AnyWord) (i : ℕ) → i ≤ length w → occurs p (drop i w) ≡ false → index_of w p (pos i) ≡ negsuc 0 }
    ensures cases_empty { (w : AnyWord) (i j : ℤ) → (j ≡ index_of w [] i) ↔ IndexCaseEmpty w i j }
{}

/// A marked word, whose phases never fall, is made of the words of its phases, one after another, and these
/// are what is picked from it.
pub fn marked_words_are_parts()
    ensures parts { (w z : AnyWord) → IsMarked 0 w z ↔ ((a b c : AnyWord) × (w ≡ a ++ (b ++ c)) × (z ≡ marked a b c)) }
    ensures phased { (a b c : AnyWord) → IsPhased (marked a b c) }
    ensures first { (a b c : AnyWord) → picked 0 (marked a b c) ≡ a }
    ensures second { (a b c : AnyWord) → picked 1 (marked a b c) ≡ b }
    ensures third { (a b c : AnyWord) → picked 2 (marked a b c) ≡ c }
{}

/// By transducers that mark and pick, whichever they are, the alternatives tell `substr` and `index_of` of
/// words.
pub fn machines_tell_segments()
    ensures substr { (mark end before part : AnyTransducer) → IsExactly IsMark mark → IsExactly IsMarkEnd end → IsExactly (IsPicked 0) before → IsExactly (IsPicked 1) part → (w : AnyWord) (m n : ℤ) (v : AnyWord) → IsWord w → (v ≡ substr w m n) ↔ SubstrByMachines mark end before part w m n v }
    ensures index_of { (p : AnyWord) (found absent before part : AnyTransducer) → IsExactly (IsMarkFound p) found → IsExactly (IsMarkAbsent p) absent → IsExactly (IsPicked 0) before → IsExactly (IsPicked 1) part → (p ≡ [] → ⊥) → (w : AnyWord) (i j : ℤ) → IsWord w → (j ≡ index_of w p i) ↔ IndexByMachines found absent before part w p i j }
{}
