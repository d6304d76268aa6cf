//! Reading the text of a pattern byte by byte, with no recursion.
ghost use Rattle.std.specs.Prelude.{◌≡◌, ◌++◌, ◌∷◌, [], IfOk, OnOk, option_map};
ghost use Rattle.pass_pattern.specs.Marks.{mark_of};
ghost use Rattle.pass_pattern.specs.Patterns.{shape_of};
ghost use Rattle.pass_pattern.specs.Patterns.Shape.{Many};
ghost use Rattle.pass_pattern.specs.Reading.{joined_shape, whole_shape, fresh, state, level_of, levels_of, state_of, closed, behind_letter, behind_atom, behind_step, in_name, IsNext, IsBegun, IsNamed, IsReadOn, IsFinished};
ghost use Rattle.pass_pattern.specs.Reading.Last.{Nothing};

use crate::pattern::{EdgeTest, Pattern};
use pass_entry::{Text, TextFault};
use std::alloc::{AllocError, Global};

/// How many parentheses may be open.
const DEPTH_LIMIT: usize = 64;

/// What a byte means outside a name.
#[derive(Clone, Copy, PartialEq, Eq)]
pub(crate) enum Mark {
    Letter(EdgeTest),
    Brace,
    Star,
    Slash,
    Bar,
    Open,
    Close,
    Other,
}

/// Why reading ends early.
#[derive(Clone, Copy, PartialEq, Eq, Drop)]
pub(crate) enum Refusal {
    /// No pattern goes on so.
    Bad,
    /// Too many parentheses are open.
    Deep,
    /// Memory was refused.
    NoMemory,
}

impl From<AllocError> for Refusal {
    ghost use Rattle.pass_pattern.specs.declared.reader.Refusal.TheVariants.{NoMemory};
    ghost use Rattle.std.specs.Prelude.{◌≡◌};

    ghost from_gives = { λ _ refusal. refusal ≡ NoMemory };

    fn from(_refused: AllocError) -> Refusal {
        Refusal::NoMemory
    }
}

/// What stands between a parenthesis and the place to which it was read.
#[derive(Drop)]
pub(crate) struct Frame {
    /// The alternatives that were closed by a bar.
    alternatives: Option<Pattern>,
    /// The steps that were closed by a slash, in the alternative that is open.
    steps: Option<Pattern>,
}

/// What was read last.
#[derive(Drop)]
pub(crate) enum Place {
    /// Nothing of the next step.
    Start,
    /// The letter of a step.
    Letter(EdgeTest),
    /// The letter of a step, a brace, and these bytes of the name.
    Name(EdgeTest, Vec<u8>),
    /// A whole step without a star.
    Atom(Pattern),
    /// A whole step with its star.
    Starred(Pattern),
}

/// What was read of a text.
#[derive(Drop)]
pub(crate) struct Reader {
    place: Place,
    frame: Frame,
    /// The frames outside the open parentheses, the outermost first.
    outer: Vec<Frame>,
}

fn mark_of(byte: u8) -> Mark
    ensures { result ≡ mark_of byte }
{
    match byte {
        b'i' => Mark::Letter(EdgeTest::Other),
        b'v' => Mark::Letter(EdgeTest::Same),
        b'e' => Mark::Letter(EdgeTest::Any),
        b'{' => Mark::Brace,
        b'*' => Mark::Star,
        b'/' => Mark::Slash,
        b'|' => Mark::Bar,
        b'(' => Mark::Open,
        b')' => Mark::Close,
        _ => Mark::Other,
    }
}

// The step behind those before it.
fn joined(alloc: Global, steps: Option<Pattern>, step: Pattern) -> Result<Pattern, AllocError>
    ensures { IfOk result (λ p. shape_of p ≡ joined_shape (option_map shape_of steps) (shape_of step)) }
{
    match steps {
        Some(steps) => Ok(Pattern::Then(Box::new(alloc, steps)?, Box::new(alloc, step)?)),
        None => Ok(step),
    }
}

impl Frame {
    fn new() -> Frame
        ensures { level_of result ≡ fresh }
    {
        Frame {
            alternatives: None,
            steps: None,
        }
    }

    // All of the frame, of which the step is the last.
    fn whole(self, alloc: Global, step: Pattern) -> Result<Pattern, AllocError>
        ensures { IfOk result (λ p. shape_of p ≡ whole_shape (level_of self) (shape_of step)) }
    {
        let Frame {
            alternatives,
            steps,
        } = self;
        let last = joined(alloc, steps, step)?;
        match alternatives {
            Some(alternatives) => Ok(Pattern::Or(
                Box::new(alloc, alternatives)?,
                Box::new(alloc, last)?,
            )),
            None => Ok(last),
        }
    }
}

impl Reader {
    /// Nothing was read.
    pub(crate) fn new(alloc: Global) -> Reader
        ensures { state_of result ≡ state Nothing fresh [] }
    {
        Reader {
            place: Place::Start,
            frame: Frame::new(),
            outer: Vec::new(alloc),
        }
    }

    /// Reads one more byte.
    pub(crate) fn read(self, alloc: Global, byte: u8) -> Result<Reader, Refusal>
        ensures { IsReadOn (state_of self) byte result }
    {
        let Reader {
            place,
            frame,
            outer,
        } = self;
        match place {
            Place::Start => begin(frame, outer, mark_of(byte)),
            Place::Letter(edge) => behind_letter(alloc, edge, frame, outer, mark_of(byte)),
            Place::Name(edge, name) => in_name(alloc, edge, name, frame, outer, byte),
            Place::Atom(atom) => behind_atom(alloc, atom, frame, outer, mark_of(byte)),
            Place::Starred(step) => behind_step(alloc, step, frame, outer, mark_of(byte)),
        }
    }

    /// The pattern whose text was read.
    pub(crate) fn finish(self, alloc: Global) -> Result<Pattern, Refusal>
        ensures { IsFinished (state_of self) result }
    {
        let Reader {
            place,
            frame,
            outer,
        } = self;
        if !outer.is_empty() {
            return Err(Refusal::Bad);
        }
        match place {
            Place::Letter(edge) => Ok(frame.whole(alloc, Pattern::One { edge, name: None })?),
            Place::Atom(step) | Place::Starred(step) => Ok(frame.whole(alloc, step)?),
            Place::Start | Place::Name(_, _) => Err(Refusal::Bad),
        }
    }
}

// One more frame is outside.
fn push_frame(outer: &mut Vec<Frame>, frame: Frame) -> Result<(), AllocError>
    ensures { OnOk result (levels_of outer.new.items ≡ level_of frame ∷ levels_of outer.old.items) }
{
    outer.push(frame)?;
    Ok(())
}

// One more byte of a name.
fn push_byte(name: &mut Vec<u8>, byte: u8) -> Result<(), AllocError>
    ensures { OnOk result (name.new.items ≡ name.old.items ++ byte ∷ []) }
{
    name.push(byte)?;
    Ok(())
}

// The step with its star.
fn starred(alloc: Global, step: Pattern) -> Result<Pattern, AllocError>
    ensures { IfOk result (λ p. shape_of p ≡ Many (shape_of step)) }
{
    Ok(Pattern::Many(Box::new(alloc, step)?))
}

// Where a step must come.
fn begin(frame: Frame, mut outer: Vec<Frame>, mark: Mark) -> Result<Reader, Refusal>
    ensures { IsBegun (level_of frame) (levels_of outer.items) mark result }
{
    match mark {
        Mark::Letter(edge) => Ok(Reader {
            place: Place::Letter(edge),
            frame,
            outer,
        }),
        Mark::Open => {
            if outer.len() >= DEPTH_LIMIT {
                return Err(Refusal::Deep);
            }
            push_frame(&mut outer, frame)?;
            Ok(Reader {
                place: Place::Start,
                frame: Frame::new(),
                outer,
            })
        }
        _ => Err(Refusal::Bad),
    }
}

// Behind the letter of a step.
fn behind_letter(
    alloc: Global,
    edge: EdgeTest,
    frame: Frame,
    outer: Vec<Frame>,
    mark: Mark,
) -> Result<Reader, Refusal>
    ensures { IsNext (behind_letter edge (level_of frame) (levels_of outer.items) mark) result }
{
    match mark {
        Mark::Brace => Ok(Reader {
            place: Place::Name(edge, Vec::new(alloc)),
            frame,
            outer,
        }),
        _ => behind_atom(alloc, Pattern::One { edge, name: None }, frame, outer, mark),
    }
}

// In a name, which a brace ends.
fn in_name(
    alloc: Global,
    edge: EdgeTest,
    mut name: Vec<u8>,
    frame: Frame,
    outer: Vec<Frame>,
    byte: u8,
) -> Result<Reader, Refusal>
    ensures { IsNext (in_name edge name.items (level_of frame) (levels_of outer.items) byte) result }
{
    if byte == b'}' {
        let name = whole_name(alloc, &name)?;
        return Ok(Reader {
            place: Place::Atom(Pattern::One {
                edge,
                name: Some(name),
            }),
            frame,
            outer,
        });
    }
    if byte < b'!' || byte > b'~' {
        return Err(Refusal::Bad);
    }
    push_byte(&mut name, byte)?;
    Ok(Reader {
        place: Place::Name(edge, name),
        frame,
        outer,
    })
}

// The name of these bytes.
fn whole_name(alloc: Global, name: &[u8]) -> Result<Text, Refusal>
    ensures { IsNamed name.now result }
{
    match Text::name(alloc, name) {
        Ok(name) => Ok(name),
        Err(TextFault::NoMemory) => Err(Refusal::NoMemory),
        Err(TextFault::BadLength) => Err(Refusal::Bad),
        Err(TextFault::BadByte) => Err(Refusal::Bad),
    }
}

// Behind a step to which a star may come.
fn behind_atom(
    alloc: Global,
    atom: Pattern,
    frame: Frame,
    outer: Vec<Frame>,
    mark: Mark,
) -> Result<Reader, Refusal>
    ensures { IsNext (behind_atom (shape_of atom) (level_of frame) (levels_of outer.items) mark) result }
{
    match mark {
        Mark::Star => Ok(Reader {
            place: Place::Starred(starred(alloc, atom)?),
            frame,
            outer,
        }),
        _ => behind_step(alloc, atom, frame, outer, mark),
    }
}

// Behind a step to which no star may come.
fn behind_step(
    alloc: Global,
    step: Pattern,
    frame: Frame,
    outer: Vec<Frame>,
    mark: Mark,
) -> Result<Reader, Refusal>
    ensures { IsNext (behind_step (shape_of step) (level_of frame) (levels_of outer.items) mark) result }
{
    match mark {
        Mark::Slash => {
            let Frame {
                alternatives,
                steps,
            } = frame;
            let steps = Some(joined(alloc, steps, step)?);
            Ok(Reader {
                place: Place::Start,
                frame: Frame {
                    alternatives,
                    steps,
                },
                outer,
            })
        }
        Mark::Bar => {
            let alternatives = Some(frame.whole(alloc, step)?);
            Ok(Reader {
                place: Place::Start,
                frame: Frame {
                    alternatives,
                    steps: None,
                },
                outer,
            })
        }
        Mark::Close => close(alloc, step, frame, outer),
        _ => Err(Refusal::Bad),
    }
}

// Behind the parenthesis that closes the frame, of which the step is the last.
fn close(
    alloc: Global,
    step: Pattern,
    frame: Frame,
    mut outer: Vec<Frame>,
) -> Result<Reader, Refusal>
    ensures { IsNext (closed (levels_of outer.items) (whole_shape (level_of frame) (shape_of step))) result }
{
    match outer.pop() {
        Some(above) => {
            let group = frame.whole(alloc, step)?;
            Ok(Reader {
                place: Place::Atom(group),
                frame: above,
                outer,
            })
        }
        None => Err(Refusal::Bad),
    }
}
