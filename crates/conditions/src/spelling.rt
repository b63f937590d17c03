//! Laws of the grammar, for atoms of any kind.
ghost use Rattle.conditions.specs.Laws.{SpellAtMostOne, SpellMapped, SpellUnmapped};
ghost use Rattle.conditions.specs.Canonical.{CanonicalSpell, CanonicalMapped};

/// Signs spell at most one formula.
pub fn spell_at_most_one<A>()
    ensures { SpellAtMostOne A }
{}

/// Other atoms, by any function, neither gain nor lose formulas.
pub fn spell_the_same_with_other_atoms<A, B>()
    ensures gains { SpellMapped A B }
    ensures loses { SpellUnmapped A B }
{}

/// The canonical signs of a formula spell it.
pub fn canonical_signs_spell<A>()
    ensures { CanonicalSpell A }
{}

/// A formula with other atoms has its canonical signs with other atoms.
pub fn canonical_signs_with_other_atoms<A, B>()
    ensures { CanonicalMapped A B }
{}
