//! Patterns as lists of instructions.
ghost use Rattle.std.specs.Prelude.{◌≡◌, ◌+◌, length, IfOk, OnOk, ◌++◌, ◌∷◌, []};
ghost use Rattle.pass_pattern.specs.Patterns.{shape_of, atoms};
ghost use Rattle.pass_pattern.specs.Codes.{HasCode, IsCode, IsGrown, edges_in};

use crate::pattern::{EdgeTest, Pattern};
use pass_entry::Text;
use std::alloc::{AllocError, Global};

/// What a search does at a place of the code.
#[derive(Drop)]
pub(crate) enum Instruction {
    /// A path of the shape ends here.
    Found,
    /// Goes along each edge that passes the test, where there is a name to a node whose object a record gave it, and on at
    /// the next place.
    Along {
        edge: EdgeTest,
        name: Option<Text>,
        next: usize,
    },
    /// Goes on at both places.
    Both(usize, usize),
}

/// The code of a pattern.
#[derive(Drop)]
pub(crate) struct Code {
    pub(crate) instructions: Vec<Instruction>,
    /// Where a path begins.
    pub(crate) start: usize,
}

/// Where a path ends.
pub(crate) const END: usize = 0;

/// The code of the pattern.
pub(crate) fn compile(alloc: Global, pattern: &Pattern) -> Result<Code, AllocError>
    ensures { IfOk result (λ c. IsCode c.instructions.items (shape_of pattern.now) c.start) }
{
    let mut instructions = Vec::new(alloc);
    instructions.push(Instruction::Found)?;
    let start = emit(&mut instructions, pattern, END)?;
    Ok(Code {
        instructions,
        start,
    })
}

// The name once more, which shares its bytes.
fn copy_name(name: &Option<Text>) -> Result<Option<Text>, AllocError>
    ensures { IfOk result (λ copy. copy ≡ name.now) }
{
    match name {
        Some(name) => Ok(Some(name.clone()?)),
        None => Ok(None),
    }
}

// Adds an instruction, and gives its place.
fn put(code: &mut Vec<Instruction>, instruction: Instruction) -> Result<usize, AllocError>
    ensures place { IfOk result (λ place. place ≡ length code.old.items) }
    ensures code { OnOk result (code.new.items ≡ code.old.items ++ instruction ∷ []) }
{
    let end = code.len();
    code.push(instruction)?;
    Ok(end)
}

// Adds the code of the pattern, behind which a path goes on at the next place, and gives the place where it begins.
fn emit(code: &mut Vec<Instruction>, pattern: &Pattern, next: usize) -> Result<usize, AllocError>
    ensures grown { OnOk result (IsGrown code.old.items code.new.items) }
    ensures code { IfOk result (λ start. HasCode code.new.items (length code.old.items) (shape_of pattern.now) start next) }
    ensures edges { OnOk result (edges_in code.new.items ≡ edges_in code.old.items + atoms (shape_of pattern.now)) }
{
    match pattern {
        Pattern::One { edge, name } => {
            let name = copy_name(name)?;
            put(
                code,
                Instruction::Along {
                    edge: *edge,
                    name,
                    next,
                },
            )
        }
        Pattern::Then(first, second) => {
            let middle = emit(code, second, next)?;
            emit(code, first, middle)
        }
        Pattern::Or(first, second) => {
            let one = emit(code, first, next)?;
            let other = emit(code, second, next)?;
            put(code, Instruction::Both(one, other))
        }
        Pattern::Many(inner) => {
            let place = put(code, Instruction::Both(next, next))?;
            let start = emit(code, inner, place)?;
            code[place] = Instruction::Both(start, next);
            Ok(place)
        }
    }
}
