//! What functions do: one table, from which everything else that is asked of a function comes.
ghost use Rattle.std.specs.Prelude.{◌≡◌};
ghost use Rattle.literal_forms.specs.Roles.{role_of};

use sv_terms::Op;

/// How two terms of sort Int are ordered.
#[derive(Clone, Copy)]
pub enum IntOrder {
    AtMost,
    Below,
    AtLeast,
    Above,
}

/// What joins the forms of a function's arguments, from the left.
#[derive(Clone, Copy)]
pub enum Joint {
    Sum,
    Difference,
    Product,
}

/// What a function builds a string term of.
#[derive(Clone, Copy)]
pub enum Build {
    /// Pieces.
    Concat,
    /// A word with a literal for the first occurrence of another.
    First,
    /// The same for each occurrence.
    All,
}

/// What a function tells of one string term, or of one by another.
#[derive(Clone, Copy)]
pub enum Test {
    Prefix,
    Suffix,
    Contains,
    Digit,
}

/// What a function does.
#[derive(Clone, Copy)]
pub enum Role {
    /// It makes a formula of formulas, whatever their sort.
    Connective,
    Equality,
    Distinct,
    Order(IntOrder),
    Joined(Joint),
    Length,
    Built(Build),
    Test(Test),
}

/// What a function does. Constant time.
pub fn role_of(op: Op) -> Role
    ensures { result ≡ role_of op }
{
    match op {
        Op::Not | Op::And | Op::Or | Op::Xor | Op::Implies | Op::IfThenElse => Role::Connective,
        Op::Equal => Role::Equality,
        Op::Distinct => Role::Distinct,
        Op::LessEqual => Role::Order(IntOrder::AtMost),
        Op::Less => Role::Order(IntOrder::Below),
        Op::GreaterEqual => Role::Order(IntOrder::AtLeast),
        Op::Greater => Role::Order(IntOrder::Above),
        Op::Add => Role::Joined(Joint::Sum),
        Op::Subtract => Role::Joined(Joint::Difference),
        Op::Multiply => Role::Joined(Joint::Product),
        Op::Length => Role::Length,
        Op::Concat => Role::Built(Build::Concat),
        Op::Replace => Role::Built(Build::First),
        Op::ReplaceAll => Role::Built(Build::All),
        Op::PrefixOf => Role::Test(Test::Prefix),
        Op::SuffixOf => Role::Test(Test::Suffix),
        Op::Contains => Role::Test(Test::Contains),
        Op::IsDigit => Role::Test(Test::Digit),
    }
}
