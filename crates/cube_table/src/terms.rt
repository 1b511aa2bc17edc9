//! Terms and literals of cubes as text.
use crate::text::Text;
use literal_forms::Literal;
use std::alloc::{AllocError, Global};
use sv_terms::{Op, Term};

// The function's name in SMT-LIB 2.6.
fn name(op: Op) -> &'static str {
    match op {
        Op::Not => "not",
        Op::And => "and",
        Op::Or => "or",
        Op::Xor => "xor",
        Op::Implies => "=>",
        Op::Equal => "=",
        Op::Distinct => "distinct",
        Op::IfThenElse => "ite",
        Op::LessEqual => "<=",
        Op::Less => "<",
        Op::GreaterEqual => ">=",
        Op::Greater => ">",
        Op::Add => "+",
        Op::Subtract => "-",
        Op::Multiply => "*",
        Op::Length => "str.len",
        Op::Concat => "str.++",
        Op::Replace => "str.replace",
        Op::ReplaceAll => "str.replace_all",
        Op::PrefixOf => "str.prefixof",
        Op::SuffixOf => "str.suffixof",
        Op::Contains => "str.contains",
        Op::IsDigit => "str.is_digit",
    }
}

impl Text {
    #[cycle(terms)]
    pub fn term(&mut self, alloc: Global, term: &Term) -> Result<(), AllocError> {
        match term {
            Term::Truth(value) => self.add(if *value { "true" } else { "false" }),
            Term::Number(number) => self.number(*number),
            Term::Text(word) => self.literal(alloc, word),
            Term::Constant(name, _) => self.add_bytes(name.as_bytes()),
            Term::Apply(op, terms) => self.put_applied(alloc, name(*op), terms.as_slice()),
            Term::InRe(term, regex) => {
                self.add("(str.in_re ")?;
                self.term(alloc, term.get())?;
                self.add(" ")?;
                self.regex(alloc, regex)?;
                self.add(")")
            }
            Term::Related(_, read, written) => {
                self.add("(transducer ")?;
                self.term(alloc, read.get())?;
                self.add(" ")?;
                self.term(alloc, written.get())?;
                self.add(")")
            }
            Term::Opaque(_) => self.add("opaque"),
        }
    }

    // A function at its arguments.
    #[cycle(terms)]
    fn put_applied(&mut self, alloc: Global, name: &str, terms: &[Term]) -> Result<(), AllocError> {
        self.add("(")?;
        self.add(name)?;
        for term in terms {
            self.add(" ")?;
            self.term(alloc, term)?;
        }
        self.add(")")
    }

    pub fn literal_of_cube(&mut self, alloc: Global, literal: &Literal) -> Result<(), AllocError> {
        if literal.positive {
            return self.term(alloc, &literal.atom);
        }
        self.add("(not ")?;
        self.term(alloc, &literal.atom)?;
        self.add(")")
    }
}
