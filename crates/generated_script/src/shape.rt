ghost use Rattle.std.specs.Prelude.{◌≡◌, ◌≤◌, ◌++◌, OnOk};
ghost use Rattle.generated_script.specs.Blocks.{assertions, block_text, length_line, line, numbered, shape_of};

use itoa::Buffer;
use std::alloc::AllocError;

type Text = Vec<u8>;

/// What a block asks, in which it has a number from 1 to 50.
#[derive(Clone, Copy)]
pub enum Shape {
    /// A power of `"ab"` that has its own length: `sat`.
    Power,
    /// A word of even length that has an odd one: `unsat`.
    Odd,
    /// A word twice, of the number's length: `sat` exactly where it is even.
    Halves,
    /// A word in which each `<` was escaped, and which has one: `unsat`.
    Escaped,
}

// Adds a line.
fn push_line(text: &mut Text, sentence: &[u8]) -> Result<(), AllocError>
    ensures { OnOk result (text.new.items ≡ text.old.items ++ line sentence.now) }
{
    text.extend_from_slice(sentence)?;
    text.push(b'\n')?;
    Ok(())
}

// Adds a line with a number.
fn push_numbered(
    text: &mut Text,
    before: &[u8],
    number: u32,
    after: &[u8],
) -> Result<(), AllocError>
    ensures { OnOk result (text.new.items ≡ text.old.items ++ numbered before.now number after.now) }
{
    let mut digits = Buffer::new();
    text.extend_from_slice(before)?;
    text.extend_from_slice(digits.format(number).as_bytes())?;
    text.extend_from_slice(after)?;
    text.push(b'\n')?;
    Ok(())
}

// Adds that the word has this length.
fn push_length(text: &mut Text, length: u32) -> Result<(), AllocError>
    ensures { OnOk result (text.new.items ≡ text.old.items ++ length_line length) }
{
    push_numbered(text, b"(assert (= (str.len x) ", length, b"))")?;
    Ok(())
}

fn push_power(text: &mut Text, number: u32) -> Result<(), AllocError>
    requires { number ≤ 50 }
    ensures { OnOk result (text.new.items ≡ text.old.items ++ assertions Shape.Power number) }
{
    push_numbered(
        text,
        b"(assert (str.in_re x ((_ re.^ ",
        number,
        b") (str.to_re \"ab\"))))",
    )?;
    push_length(text, 2 * number)?;
    Ok(())
}

fn push_odd(text: &mut Text, number: u32) -> Result<(), AllocError>
    requires { number ≤ 50 }
    ensures { OnOk result (text.new.items ≡ text.old.items ++ assertions Shape.Odd number) }
{
    push_line(text, b"(assert (str.in_re x (re.* (str.to_re \"aa\"))))")?;
    push_length(text, 2 * number + 1)?;
    Ok(())
}

fn push_halves(text: &mut Text, number: u32) -> Result<(), AllocError>
    ensures { OnOk result (text.new.items ≡ text.old.items ++ assertions Shape.Halves number) }
{
    push_line(text, b"(assert (= x (str.++ y y)))")?;
    push_length(text, number)?;
    Ok(())
}

fn push_escaped(text: &mut Text) -> Result<(), AllocError>
    ensures { OnOk result (text.new.items ≡ text.old.items ++ assertions Shape.Escaped 0) }
{
    push_line(text, b"(assert (= x (str.replace_all y \"<\" \"&lt;\")))")?;
    push_line(text, b"(assert (str.contains x \"<\"))")?;
    Ok(())
}

impl Shape {
    /// The shape that a drawn number below 4 stands for.
    pub(crate) fn of(drawn: u32) -> Shape
        ensures { result ≡ shape_of drawn }
    {
        match drawn {
            0 => Shape::Power,
            1 => Shape::Odd,
            2 => Shape::Halves,
            _ => Shape::Escaped,
        }
    }

    // Adds its two assertions.
    fn push_assertions(self, text: &mut Text, number: u32) -> Result<(), AllocError>
        requires { number ≤ 50 }
        ensures { OnOk result (text.new.items ≡ text.old.items ++ assertions self number) }
    {
        match self {
            Shape::Power => push_power(text, number)?,
            Shape::Odd => push_odd(text, number)?,
            Shape::Halves => push_halves(text, number)?,
            Shape::Escaped => push_escaped(text)?,
        }
        Ok(())
    }

    /// Adds the block with this number, at most 50.
    pub(crate) fn push_block(self, text: &mut Text, number: u32) -> Result<(), AllocError>
        requires { number ≤ 50 }
        ensures { OnOk result (text.new.items ≡ text.old.items ++ block_text self number) }
    {
        push_line(text, b"(push 1)")?;
        push_line(text, b"(declare-const x String)")?;
        push_line(text, b"(declare-const y String)")?;
        self.push_assertions(text, number)?;
        push_line(text, b"(check-sat)")?;
        push_line(text, b"(pop 1)")?;
        Ok(())
    }
}
