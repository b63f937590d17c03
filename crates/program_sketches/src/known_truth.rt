//! What is known of truths, and of those that are made of them.
ghost use Rattle.std.specs.Prelude.{◌≡◌, false, not};
ghost use Rattle.program_sketches.specs.KnownTruths.{joined};

/// What is known of a truth. Both are known of a sketch in which no write may be a location's last.
#[derive(Clone, Copy)]
pub struct Knowledge {
    pub is_true: bool,
    pub is_false: bool,
}

/// What is known of a left operand whose right one is being read.
#[derive(Clone, Copy)]
pub enum Left {
    OfAnd(Knowledge),
    OfOr(Knowledge),
}

/// What is known of a truth that is settled.
pub fn settled(truth: bool) -> Knowledge
    ensures { result ≡ record { is_true = truth; is_false = not truth } }
{
    Knowledge {
        is_true: truth,
        is_false: !truth,
    }
}

/// Nothing is known.
pub fn unsettled() -> Knowledge
    ensures { result ≡ record { is_true = false; is_false = false } }
{
    Knowledge {
        is_true: false,
        is_false: false,
    }
}

/// What is known of the negation.
pub fn negated(value: Knowledge) -> Knowledge
    ensures { result ≡ record { is_true = value.is_false; is_false = value.is_true } }
{
    Knowledge {
        is_true: value.is_false,
        is_false: value.is_true,
    }
}

/// What is known of a conjunction or a disjunction.
pub fn joined(left: Left, right: Knowledge) -> Knowledge
    ensures { result ≡ joined left right }
{
    match left {
        Left::OfAnd(left) => Knowledge {
            is_true: left.is_true && right.is_true,
            is_false: left.is_false || right.is_false,
        },
        Left::OfOr(left) => Knowledge {
            is_true: left.is_true || right.is_true,
            is_false: left.is_false && right.is_false,
        },
    }
}
