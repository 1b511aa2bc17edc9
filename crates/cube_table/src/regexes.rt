//! Regular expressions as text.
use crate::text::Text;
use std::alloc::{AllocError, Global};
use sv_terms::Regex;

impl Text {
    #[cycle(regexes)]
    pub fn regex(&mut self, alloc: Global, regex: &Regex) -> Result<(), AllocError> {
        match regex {
            Regex::Empty => self.add("re.none"),
            Regex::All => self.add("re.all"),
            Regex::AnyChar => self.add("re.allchar"),
            Regex::Text(word) => {
                self.add("(str.to_re ")?;
                self.literal(alloc, word)?;
                self.add(")")
            }
            Regex::Range(least, greatest) => self.range(*least, *greatest),
            Regex::Concat(parts) => self.put_joined(alloc, "re.++", parts.as_slice()),
            Regex::Union(parts) => self.put_joined(alloc, "re.union", parts.as_slice()),
            Regex::Inter(parts) => self.put_joined(alloc, "re.inter", parts.as_slice()),
            Regex::Diff(parts) => self.put_joined(alloc, "re.diff", parts.as_slice()),
            Regex::Star(part) => self.of_one(alloc, "re.*", part.get()),
            Regex::Plus(part) => self.of_one(alloc, "re.+", part.get()),
            Regex::Opt(part) => self.of_one(alloc, "re.opt", part.get()),
            Regex::Comp(part) => self.of_one(alloc, "re.comp", part.get()),
            Regex::Loop(part, least, greatest) => {
                self.add("((_ re.loop")?;
                self.numbers(&[*least, *greatest])?;
                self.add(") ")?;
                self.regex(alloc, part.get())?;
                self.add(")")
            }
        }
    }

    #[cycle(regexes)]
    fn put_joined(&mut self, alloc: Global, name: &str, parts: &[Regex]) -> Result<(), AllocError> {
        self.add("(")?;
        self.add(name)?;
        for part in parts {
            self.add(" ")?;
            self.regex(alloc, part)?;
        }
        self.add(")")
    }

    #[cycle(regexes)]
    fn of_one(&mut self, alloc: Global, name: &str, part: &Regex) -> Result<(), AllocError> {
        self.add("(")?;
        self.add(name)?;
        self.add(" ")?;
        self.regex(alloc, part)?;
        self.add(")")
    }

    // The characters by their numbers.
    fn range(&mut self, least: u32, greatest: u32) -> Result<(), AllocError> {
        self.add("(re.range")?;
        self.numbers(&[least, greatest])?;
        self.add(")")
    }
}
