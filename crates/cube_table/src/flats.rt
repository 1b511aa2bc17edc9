//! Flat cubes and their numbers as text, a line for each thing that is said.
use crate::text::Text;
use cube_bounds::Numbers;
use flat_cubes::{By, Definition, Flat, FlatFault, Own, Variable};
use std::alloc::{AllocError, Global};
use sv_linear::{Row, RowKind};
use sv_terms::Name;
use sv_word::Word;

impl Text {
    pub fn flat(&mut self, alloc: Global, flat: &Flat) -> Result<(), AllocError> {
        for i in 0..flat.variables.len() {
            self.variable(alloc, i, &flat.variables.as_slice()[i])?;
        }
        for definition in flat.definitions.as_slice() {
            self.definition(alloc, definition)?;
        }
        self.registers(flat.registers.as_slice())?;
        for row in flat.rows.as_slice() {
            self.row(flat.integers.as_slice(), row)?;
        }
        self.truths(flat.truths.as_slice())?;
        if flat.broken {
            self.add("  broken\n")?;
        }
        Ok(())
    }

    // The constants that are this variable, and what is said of its word alone.
    fn variable(
        &mut self,
        alloc: Global,
        number: usize,
        variable: &Variable,
    ) -> Result<(), AllocError> {
        self.add("  variable ")?;
        self.number(number)?;
        for name in variable.names.as_slice() {
            self.add(" ")?;
            self.add_bytes(name.as_bytes())?;
        }
        let parts = variable.parts.as_slice();
        for i in 0..parts.len() {
            let (own, holds) = &parts[i];
            self.separate(i)?;
            self.add(if *holds { "" } else { "not " })?;
            self.own(alloc, own)?;
        }
        self.add("\n")
    }

    fn own(&mut self, alloc: Global, own: &Own) -> Result<(), AllocError> {
        match own {
            Own::Word(word) => self.put_worded(alloc, "is ", word),
            Own::InRe(regex) => {
                self.add("in ")?;
                self.regex(alloc, regex)
            }
            Own::Prefix(word) => self.put_worded(alloc, "begins with ", word),
            Own::Suffix(word) => self.put_worded(alloc, "ends with ", word),
            Own::Contains(word) => self.put_worded(alloc, "contains ", word),
            Own::Digit => self.add("is a digit"),
        }
    }

    fn put_worded(&mut self, alloc: Global, what: &str, word: &Word) -> Result<(), AllocError> {
        self.add(what)?;
        self.literal(alloc, word)
    }

    fn definition(&mut self, alloc: Global, definition: &Definition) -> Result<(), AllocError> {
        self.add("  definition ")?;
        self.number(definition.variable)?;
        match &definition.by {
            By::Concat(_) => self.add(": (str.++")?,
            By::First(_, _, _) => self.add(": (str.replace")?,
            By::All(_, _, _) => self.add(": (str.replace_all")?,
            By::Through(_, _) => self.add(": (transducer")?,
        }
        self.numbers(definition.by.uses())?;
        if let By::First(pattern, replacement, _)
        | By::All(pattern, replacement, _) = &definition.by
        {
            self.put_worded(alloc, " ", pattern)?;
            self.put_worded(alloc, " ", replacement)?;
        }
        self.add(")\n")
    }

    // The variables whose lengths the registers are.
    fn registers(&mut self, registers: &[u32]) -> Result<(), AllocError> {
        if registers.is_empty() {
            return Ok(());
        }
        self.add("  registers")?;
        for i in 0..registers.len() {
            self.separate(i)?;
            self.number(registers[i])?;
        }
        self.add("\n")
    }

    // The form of a row. Its first unknowns are the integer constants, and behind them stand the registers.
    fn row(&mut self, integers: &[Name], row: &Row) -> Result<(), AllocError> {
        self.add("  row: ")?;
        for (unknown, coefficient) in row.form.coefficients.as_slice() {
            self.number(*coefficient)?;
            match integers.get(*unknown as usize) {
                Some(name) => {
                    self.add(" ")?;
                    self.add_bytes(name.as_bytes())?;
                }
                None => {
                    self.add(" register ")?;
                    self.number((*unknown as usize).saturating_sub(integers.len()))?;
                }
            }
            self.add(" + ")?;
        }
        self.number(row.form.constant)?;
        match row.kind {
            RowKind::Le => self.add(" <= 0\n"),
            RowKind::Eq => self.add(" = 0\n"),
        }
    }

    fn truths(&mut self, truths: &[(Name, bool)]) -> Result<(), AllocError> {
        if truths.is_empty() {
            return Ok(());
        }
        self.add("  truths")?;
        for i in 0..truths.len() {
            let (name, value) = &truths[i];
            self.separate(i)?;
            self.add_bytes(name.as_bytes())?;
            self.add(if *value { " true" } else { " false" })?;
        }
        self.add("\n")
    }

    /// The sides are those of the registers, and behind them those of the integer constants.
    pub fn measures(&mut self, numbers: &Numbers) -> Result<(), AllocError> {
        self.count("  states ", numbers.states)?;
        self.count(", splits ", numbers.splits)?;
        self.count(", sources ", numbers.sources)?;
        self.count(", growth ", numbers.growth)?;
        self.add(", reach ")?;
        self.number(numbers.reach)?;
        match numbers.points {
            Some(points) => self.count(", points ", points)?,
            None => self.add(", points none")?,
        }
        self.add(if numbers.small {
            ", small\n"
        } else {
            ", not small\n"
        })?;
        self.sides(numbers.sides.as_slice())
    }

    // A number that stands for all larger ones too is marked.
    fn count(&mut self, what: &str, number: u64) -> Result<(), AllocError> {
        self.add(what)?;
        self.number(number)?;
        if number == u64::MAX {
            self.add(" or more")?;
        }
        Ok(())
    }

    fn sides(&mut self, sides: &[Option<(i128, i128)>]) -> Result<(), AllocError> {
        if sides.is_empty() {
            return Ok(());
        }
        self.add("  sides")?;
        for i in 0..sides.len() {
            self.separate(i)?;
            match sides[i] {
                Some((least, greatest)) => {
                    self.number(least)?;
                    self.add("..")?;
                    self.number(greatest)?;
                }
                None => self.add("none")?,
            }
        }
        self.add("\n")
    }

    /// Why a cube isn't straight.
    pub fn flat_fault(&mut self, alloc: Global, fault: FlatFault) -> Result<(), AllocError> {
        match fault {
            FlatFault::Outside(literal) => {
                self.add("  outside ")?;
                self.literal_of_cube(alloc, &literal)?;
            }
            FlatFault::Twice(variable) => {
                self.add("  twice ")?;
                self.number(variable)?;
            }
            FlatFault::Cycle(variables) => {
                self.add("  cycle")?;
                self.numbers(variables.as_slice())?;
            }
            FlatFault::Wide(number) => {
                self.add("  wide ")?;
                self.number(number)?;
            }
            FlatFault::Memory(error) => return Err(error),
        }
        self.add("\n")
    }
}
