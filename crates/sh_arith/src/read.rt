// Reading tokens into steps.
ghost use Rattle.std.specs.Prelude.{◌≡◌, ◌++◌, ◌∷◌, [], OnOk, IfOk, IfErr};
ghost use Rattle.sh_arith.specs.Expression.{Expression};
ghost use Rattle.sh_arith.specs.Grammar.{operator_level, Is};
ghost use Rattle.sh_arith.specs.Reading.{frame_level, at_least, ending, ended, left, Turned, turns, begins, loads, is_open, may_assign, assigned_loads, assigns, closes, shuts, joins, otherwise, finishes, goes, turn};
ghost use Rattle.sh_arith.specs.Steps.{steps as steps_before};
ghost use Rattle.sh_arith.specs.Told.{Refuses};
ghost use Rattle.sh_arith.specs.declared.frame.Frame.TheVariants as frame;
ghost use Rattle.sh_arith.specs.declared.frame.Reader.TheVariants as reader;

use crate::lex::next_token;
use crate::row::Row;
use crate::token::is_end;
use crate::{ArithErr, Frame, Instruction, Operator, Reader, Sign, Token};
use rk_base::{Bytes, NoMemory};
use std::alloc::Global;
use std::marker::Model;

fn operator_level(operator: Operator) -> u8
    ensures { result ≡ operator_level operator }
{
    match operator {
        Operator::Times | Operator::Over | Operator::Remainder => 11,
        Operator::Plus | Operator::Minus => 10,
        Operator::ShiftLeft | Operator::ShiftRight => 9,
        Operator::Less | Operator::AtMost | Operator::Greater | Operator::AtLeast => 8,
        Operator::Equal | Operator::Differs => 7,
        Operator::And => 6,
        Operator::ExclusiveOr => 5,
        Operator::Or => 4,
    }
}

fn frame_level(frame: &Frame) -> Option<u8>
    ensures { result ≡ frame_level frame.now }
{
    match frame {
        Frame::Signed(_) => Some(12),
        Frame::Applied(operator) => Some(operator_level(*operator)),
        Frame::Both => Some(3),
        Frame::Either => Some(2),
        Frame::Colon => Some(1),
        Frame::Assign(_, _) => Some(0),
        Frame::Question => None,
        Frame::Open => None,
    }
}

fn is_ended(level: u8, frame: &Frame) -> bool
    ensures { result ≡ at_least level (frame_level frame.now) }
{
    match frame_level(frame) {
        None => false,
        Some(l) => level <= l,
    }
}

fn put_store(
    name: Bytes,
    operator: Option<Operator>,
    steps: &mut Vec<Instruction>,
) -> Result<(), NoMemory>
    ensures { OnOk result (steps.new.items ≡ steps.old.items ++ ending (frame.Assign name operator)) }
{
    match operator {
        None => steps.push(Instruction::Store(name))?,
        Some(operator) => {
            steps.push(Instruction::Applied(operator))?;
            steps.push(Instruction::Store(name))?;
        }
    }
    Ok(())
}

fn put_ending(frame: Frame, steps: &mut Vec<Instruction>) -> Result<(), NoMemory>
    ensures { OnOk result (steps.new.items ≡ steps.old.items ++ ending frame) }
{
    match frame {
        Frame::Signed(sign) => steps.push(Instruction::Signed(sign))?,
        Frame::Applied(operator) => steps.push(Instruction::Applied(operator))?,
        Frame::Both => {
            steps.push(Instruction::Truth)?;
            steps.push(Instruction::Joined)?;
        }
        Frame::Either => {
            steps.push(Instruction::Truth)?;
            steps.push(Instruction::Joined)?;
        }
        Frame::Colon => steps.push(Instruction::Joined)?,
        Frame::Assign(name, operator) => put_store(name, operator, steps)?,
        Frame::Question => {}
        Frame::Open => {}
    }
    Ok(())
}

// The frames that end before an operator of this level, and the steps that end them.
fn end_frames(
    level: u8,
    frames: &mut Row<Frame>,
    steps: &mut Vec<Instruction>,
) -> Result<(), NoMemory>
    ensures gives { OnOk result (steps.new.items ≡ steps.old.items ++ ended level frames.old) }
    ensures leaves { OnOk result (frames.new ≡ left level frames.old) }
{
    'ends: while let Some(frame) = frames.pop() {
        if !is_ended(level, &frame) {
            frames.push(frame)?;
            return Ok(());
        }
        put_ending(frame, steps)?;
    }
    Ok(())
}

fn assigns_within(frame: &Frame) -> bool
    ensures { result ≡ may_assign (frame.now ∷ []) }
{
    matches!(frame, Frame::Open | Frame::Question | Frame::Assign(_, _))
}

fn is_open(frame: &Frame) -> bool
    ensures { result ≡ is_open frame.now }
{
    matches!(frame, Frame::Open)
}

/// What was read: the steps so far, the frames that wait, and what stands before the next token.
#[derive(Drop)]
pub(crate) struct Reading {
    alloc: Global,
    steps: Vec<Instruction>,
    frames: Row<Frame>,
    reader: Reader,
}

impl Model for Reading {
    ghost use Rattle.sh_arith.specs.Reading.{State};

    ghost Value = { State };

    ghost view = { λ r. record { given = r.steps.items; frames = r.frames; reader = r.reader } };
}

impl Reading {
    pub(crate) fn new(alloc: Global) -> Reading
        ensures { result ≡ record { given = []; frames = []; reader = reader.Wants } }
    {
        Reading {
            alloc,
            steps: Vec::new(alloc),
            frames: Row::new(alloc),
            reader: Reader::Wants,
        }
    }

    pub(crate) fn into_steps(self) -> Vec<Instruction>
        ensures { result.items ≡ self.given }
    {
        let Reading {
            alloc: _,
            steps,
            frames: _,
            reader: _,
        } = self;
        steps
    }

    // A name that stands there is loaded.
    fn load(&mut self) -> Result<(), NoMemory>
        ensures { OnOk result (self.new ≡ record { given = self.old.given ++ loads self.old.reader; frames = self.old.frames; reader = reader.Has }) }
    {
        match std::mem::replace(&mut self.reader, Reader::Has) {
            Reader::Named(name) => self.steps.push(Instruction::Load(name))?,
            Reader::Has => {}
            Reader::Wants => {}
        }
        Ok(())
    }

    // The frames that end before an operator of this level.
    #[tactic(auto, using(crate::proofs::Joining::then_ended))]
    fn end(&mut self, level: u8) -> Result<(), NoMemory>
        ensures { OnOk result (self.new ≡ record { given = self.old.given ++ (loads self.old.reader ++ ended level self.old.frames); frames = left level self.old.frames; reader = reader.Has }) }
    {
        self.load()?;
        end_frames(level, &mut self.frames, &mut self.steps)
    }

    fn wants(&mut self, frame: Frame) -> Result<bool, NoMemory>
        ensures { Turned result self.old self.new (turns [] (frame ∷ self.old.frames) reader.Wants) }
    {
        self.frames.push(frame)?;
        self.reader = Reader::Wants;
        Ok(true)
    }

    // A token where an operand is wanted; whether an expression goes on with it.
    fn begin(&mut self, token: Token) -> Result<bool, NoMemory>
        ensures { Turned result self.old self.new (begins token self.old.frames) }
    {
        match token {
            Token::Constant(n) => {
                self.steps.push(Instruction::Constant(n))?;
                self.reader = Reader::Has;
                Ok(true)
            }
            Token::Name(name) => {
                self.reader = Reader::Named(name);
                Ok(true)
            }
            Token::Open => self.wants(Frame::Open),
            Token::Complement => self.wants(Frame::Signed(Sign::Complement)),
            Token::Not => self.wants(Frame::Signed(Sign::Not)),
            Token::Operator(Operator::Plus) => self.wants(Frame::Signed(Sign::Plus)),
            Token::Operator(Operator::Minus) => self.wants(Frame::Signed(Sign::Minus)),
            Token::Operator(_)
            | Token::Both
            | Token::Either
            | Token::Question
            | Token::Colon
            | Token::Assign(_)
            | Token::Close
            | Token::End
            | Token::Odd => Ok(false),
        }
    }

    // Whether an assignment may stand here.
    fn may_assign(&mut self) -> Result<bool, NoMemory>
        ensures value { IfOk result (λ b. b ≡ may_assign self.old.frames) }
        ensures keeps { OnOk result (self.new ≡ self.old) }
    {
        match self.frames.pop() {
            None => Ok(true),
            Some(frame) => {
                let may = assigns_within(&frame);
                self.frames.push(frame)?;
                Ok(may)
            }
        }
    }

    // An operator that assigns reads the name before its right side.
    fn load_assigned(&mut self, name: &Bytes, operator: Option<Operator>) -> Result<(), NoMemory>
        ensures { OnOk result (self.new ≡ record { given = self.old.given ++ assigned_loads name.now operator; frames = self.old.frames; reader = self.old.reader }) }
    {
        if operator.is_some() {
            let name = name.copy()?;
            self.steps.push(Instruction::Load(name))?;
        }
        Ok(())
    }

    fn assign(&mut self, operator: Option<Operator>) -> Result<bool, NoMemory>
        ensures { Turned result self.old self.new (assigns self.old.reader operator self.old.frames) }
    {
        if !self.may_assign()? {
            return Ok(false);
        }
        match std::mem::replace(&mut self.reader, Reader::Has) {
            Reader::Named(name) => {
                self.load_assigned(&name, operator)?;
                self.wants(Frame::Assign(name, operator))
            }
            Reader::Has => Ok(false),
            Reader::Wants => Ok(false),
        }
    }

    // Where all that may has ended, an open parenthesis is closed.
    fn close_ended(&mut self) -> Result<bool, NoMemory>
        ensures { Turned result self.old self.new (closes (loads self.old.reader ++ ended 0 self.old.frames) (left 0 self.old.frames)) }
    {
        self.end(0)?;
        match self.frames.pop() {
            Some(frame) => Ok(is_open(&frame)),
            None => Ok(false),
        }
    }

    fn close(&mut self) -> Result<bool, NoMemory>
        ensures { Turned result self.old self.new (shuts self.old.reader self.old.frames) }
    {
        match self.frames.pop() {
            Some(Frame::Open) => return Ok(true),
            Some(frame) => self.frames.push(frame)?,
            None => {}
        }
        self.close_ended()
    }

    // An operator between operands.
    fn join(&mut self, level: u8, frame: Frame) -> Result<bool, NoMemory>
        ensures { Turned result self.old self.new (joins self.old.reader level [] frame self.old.frames) }
    {
        self.end(level)?;
        self.wants(frame)
    }

    // One that may skip an operand.
    fn branch(&mut self, level: u8, step: Instruction, frame: Frame) -> Result<bool, NoMemory>
        ensures { Turned result self.old self.new (joins self.old.reader level (step ∷ []) frame self.old.frames) }
    {
        self.end(level)?;
        self.steps.push(step)?;
        self.wants(frame)
    }

    fn otherwise(&mut self) -> Result<bool, NoMemory>
        ensures { Turned result self.old self.new (otherwise (loads self.old.reader ++ ended 0 self.old.frames) (left 0 self.old.frames)) }
    {
        self.end(0)?;
        match self.frames.pop() {
            Some(Frame::Question) => {
                self.steps.push(Instruction::Otherwise)?;
                self.wants(Frame::Colon)
            }
            Some(_) => Ok(false),
            None => Ok(false),
        }
    }

    fn finish(&mut self) -> Result<bool, NoMemory>
        ensures { Turned result self.old self.new (finishes (loads self.old.reader ++ ended 0 self.old.frames) (left 0 self.old.frames)) }
    {
        self.end(0)?;
        match self.frames.pop() {
            Some(_) => Ok(false),
            None => Ok(true),
        }
    }

    // A token behind an operand; whether an expression goes on with it.
    fn go_on(&mut self, token: Token) -> Result<bool, NoMemory>
        ensures { Turned result self.old self.new (goes self.old.reader token self.old.frames) }
    {
        match token {
            Token::Operator(operator) => self.join(
                operator_level(operator),
                Frame::Applied(operator),
            ),
            Token::Both => self.branch(3, Instruction::And, Frame::Both),
            Token::Either => self.branch(2, Instruction::Or, Frame::Either),
            Token::Question => self.branch(2, Instruction::Choose, Frame::Question),
            Token::Colon => self.otherwise(),
            Token::Assign(operator) => self.assign(operator),
            Token::Close => self.close(),
            Token::End => self.finish(),
            Token::Constant(_)
            | Token::Name(_)
            | Token::Complement
            | Token::Not
            | Token::Open
            | Token::Odd => Ok(false),
        }
    }

    /// Reads a token; whether an expression goes on with it.
    pub(crate) fn read(&mut self, token: Token) -> Result<bool, NoMemory>
        ensures { Turned result self.old self.new (turn self.old.reader token self.old.frames) }
    {
        match &self.reader {
            Reader::Wants => self.begin(token),
            Reader::Has => self.go_on(token),
            Reader::Named(_) => self.go_on(token),
        }
    }
}

/// The steps of the expression that a text is.
pub(crate) fn steps_of(alloc: Global, text: &[u8]) -> Result<Vec<Instruction>, ArithErr>
    ensures ok { IfOk result (λ v. (x : Expression) × Is text.now x × (v.items ≡ steps_before x [])) }
    ensures err { IfErr result (Refuses text.now) }
{
    let mut reading = Reading::new(alloc);
    let mut at = 0;
    let mut rest = text;
    'tokens: loop {
        let Ok(next) = next_token(alloc, rest) else {
            return Err(ArithErr::NoMemory);
        };
        let last = is_end(&next.token);
        let Ok(goes_on) = reading.read(next.token) else {
            return Err(ArithErr::NoMemory);
        };
        if !goes_on {
            return Err(ArithErr::Syntax(at + next.start));
        }
        if last {
            return Ok(reading.into_steps());
        }
        at += next.end;
        rest = rest.split_at(next.end).1;
    }
}
