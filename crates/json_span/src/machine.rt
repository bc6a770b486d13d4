//! Reading a text of JSON byte by byte (RFC 8259).

ghost use Rattle.std.specs.Prelude.{◌≡◌, ◌≤◌, List, ℕ, Some, length, take};
ghost use Rattle.json_span.specs.Grammar.{open_of, close_of};
ghost use Rattle.json_span.specs.Steps.{state_of, stepped, gone_to, AllStay};
ghost use Rattle.json_span.specs.declared.state.Kind.{Kind as KindValue};
ghost use Rattle.json_span.specs.Machine.{start, push, value_begin, part_begin, fresh_step, after_step, step, text_step, literal_step, begin_step, is_done, within, number_goes, go_to};
ghost use Rattle.json_span.specs.Nest.{is_deep};
ghost use Rattle.json_span.specs.Bare.{awaits_name};

use crate::bytes::{digit, escape, exponent_letter, hex, plain, sign, space};
use crate::front::{digit_front, plain_front, space_front};
use crate::marks::Within;
use crate::nest::Nest;
use crate::state::{At, Kind, LiteralAt, NumberAt, Role, StringAt};

/// What comes next, and the brackets that are open.
#[derive(Drop)]
pub struct Machine {
    at: At,
    nest: Nest,
}

/// The byte that opens a list.
fn opening(kind: Kind) -> u8
    ensures { result ≡ open_of kind }
{
    match kind {
        Kind::Array => b'[',
        Kind::Object => b'{',
    }
}

/// The byte that closes a list.
fn closing(kind: Kind) -> u8
    ensures { result ≡ close_of kind }
{
    match kind {
        Kind::Array => b']',
        Kind::Object => b'}',
    }
}

/// A string's state behind one more hexadecimal digit.
fn hex_step(next: StringAt, b: u8) -> Option<StringAt>
    ensures { result ≡ Rattle.json_span.specs.Machine.hex_step next b }
{
    if hex(b) { Some(next) } else { None }
}

/// A string's state behind a byte that does not end it.
#[tactic(auto, unfolding(crate::specs::Machine::string_step))]
fn string_step(at: StringAt, b: u8) -> Option<StringAt>
    ensures { result ≡ Rattle.json_span.specs.Machine.string_step at b }
{
    match at {
        StringAt::Plain => {
            if b == b'\\' {
                Some(StringAt::Escaped)
            } else if plain(b) {
                Some(StringAt::Plain)
            } else {
                None
            }
        }
        StringAt::Escaped => {
            if b == b'u' {
                Some(StringAt::Four)
            } else if escape(b) {
                Some(StringAt::Plain)
            } else {
                None
            }
        }
        StringAt::Four => hex_step(StringAt::Three, b),
        StringAt::Three => hex_step(StringAt::Two, b),
        StringAt::Two => hex_step(StringAt::One, b),
        StringAt::One => hex_step(StringAt::Plain, b),
    }
}

/// Whether a byte ends a string.
fn ends_string(at: StringAt, b: u8) -> bool
    ensures { result ≡ Rattle.json_span.specs.Machine.ends_string at b }
{
    match at {
        StringAt::Plain => b == b'"',
        _ => false,
    }
}

/// What comes behind a string.
fn behind(role: Role) -> At
    ensures { result ≡ Rattle.json_span.specs.Machine.behind role }
{
    match role {
        Role::Key => At::Colon,
        Role::Item => At::After,
    }
}

/// A number's state behind the first byte that follows its integer or its fraction.
fn exponent_begin(b: u8) -> Option<NumberAt>
    ensures { result ≡ Rattle.json_span.specs.Machine.exponent_begin b }
{
    if exponent_letter(b) {
        Some(NumberAt::AfterE)
    } else {
        None
    }
}

/// A number's state behind the first byte that follows its integer.
fn fraction_begin(b: u8) -> Option<NumberAt>
    ensures { result ≡ Rattle.json_span.specs.Machine.fraction_begin b }
{
    if b == b'.' {
        Some(NumberAt::AfterPoint)
    } else {
        exponent_begin(b)
    }
}

/// A number's state behind a digit, where the byte is one.
fn digit_step(next: NumberAt, b: u8) -> Option<NumberAt>
    ensures { result ≡ Rattle.json_span.specs.Machine.digit_step next b }
{
    if digit(b) { Some(next) } else { None }
}

/// A number's state behind a byte that belongs to it.
#[tactic(auto, unfolding(crate::specs::Machine::number_step))]
fn number_step(at: NumberAt, b: u8) -> Option<NumberAt>
    ensures { result ≡ Rattle.json_span.specs.Machine.number_step at b }
{
    match at {
        NumberAt::AfterMinus => {
            if b == b'0' {
                Some(NumberAt::AfterZero)
            } else {
                digit_step(NumberAt::InInteger, b)
            }
        }
        NumberAt::AfterZero => fraction_begin(b),
        NumberAt::InInteger => {
            if digit(b) {
                Some(NumberAt::InInteger)
            } else {
                fraction_begin(b)
            }
        }
        NumberAt::AfterPoint => digit_step(NumberAt::InFraction, b),
        NumberAt::InFraction => {
            if digit(b) {
                Some(NumberAt::InFraction)
            } else {
                exponent_begin(b)
            }
        }
        NumberAt::AfterE => {
            if sign(b) {
                Some(NumberAt::AfterSign)
            } else {
                digit_step(NumberAt::InExponent, b)
            }
        }
        NumberAt::AfterSign => digit_step(NumberAt::InExponent, b),
        NumberAt::InExponent => digit_step(NumberAt::InExponent, b),
    }
}

/// Whether a number may end here.
fn may_end(at: NumberAt) -> bool
    ensures { result ≡ Rattle.json_span.specs.Machine.may_end at }
{
    match at {
        NumberAt::AfterZero | NumberAt::InInteger | NumberAt::InFraction | NumberAt::InExponent =>
            true,
        _ => false,
    }
}

/// The letter of a literal that comes next.
fn letter(at: LiteralAt) -> u8
    ensures { result ≡ Rattle.json_span.specs.Machine.letter at }
{
    match at {
        LiteralAt::Rue => b'r',
        LiteralAt::Ue => b'u',
        LiteralAt::Alse => b'a',
        LiteralAt::Lse => b'l',
        LiteralAt::Se => b's',
        LiteralAt::E => b'e',
        LiteralAt::Ull => b'u',
        LiteralAt::Ll => b'l',
        LiteralAt::L => b'l',
    }
}

/// The letters behind the one that comes next.
fn next_letters(at: LiteralAt) -> Option<LiteralAt>
    ensures { result ≡ Rattle.json_span.specs.Machine.next_letters at }
{
    match at {
        LiteralAt::Rue => Some(LiteralAt::Ue),
        LiteralAt::Ue => Some(LiteralAt::E),
        LiteralAt::Alse => Some(LiteralAt::Lse),
        LiteralAt::Lse => Some(LiteralAt::Se),
        LiteralAt::Se => Some(LiteralAt::E),
        LiteralAt::E => None,
        LiteralAt::Ull => Some(LiteralAt::Ll),
        LiteralAt::Ll => Some(LiteralAt::L),
        LiteralAt::L => None,
    }
}

/// The state behind the first byte of a value that is no list.
#[tactic(auto, unfolding(crate::specs::Machine::scalar_begin))]
fn scalar_begin(b: u8) -> Option<At>
    ensures { result ≡ Rattle.json_span.specs.Machine.scalar_begin b }
{
    match b {
        b'"' => Some(At::Text(Role::Item, StringAt::Plain)),
        b'-' => Some(At::Number(NumberAt::AfterMinus)),
        b'0' => Some(At::Number(NumberAt::AfterZero)),
        b't' => Some(At::Literal(LiteralAt::Rue)),
        b'f' => Some(At::Literal(LiteralAt::Alse)),
        b'n' => Some(At::Literal(LiteralAt::Ull)),
        _ => {
            if digit(b) {
                Some(At::Number(NumberAt::InInteger))
            } else {
                None
            }
        }
    }
}

/// What comes behind a byte of a string.
fn in_text(role: Role, at: StringAt, b: u8) -> Option<At>
    ensures { (kinds : List KindValue) (room : ℕ)
        → gone_to result kinds room ≡ text_step role at kinds room b }
{
    if ends_string(at, b) {
        return Some(behind(role));
    }
    match string_step(at, b) {
        Some(next) => Some(At::Text(role, next)),
        None => None,
    }
}

/// What comes behind a letter of a literal.
fn in_literal(at: LiteralAt, b: u8) -> Option<At>
    ensures { (kinds : List KindValue) (room : ℕ)
        → gone_to result kinds room ≡ literal_step at kinds room b }
{
    if b != letter(at) {
        return None;
    }
    match next_letters(at) {
        Some(next) => Some(At::Literal(next)),
        None => Some(At::After),
    }
}

impl Machine {
    /// Before a text.
    pub fn new(kind: Kind) -> Machine
        ensures { state_of result ≡ start kind }
    {
        Machine {
            at: At::Begin(kind),
            nest: Nest::new(),
        }
    }

    /// Goes where the text goes on, with the same brackets open.
    fn go(&mut self, at: Option<At>) -> bool
        ensures { stepped result self.new
            ≡ gone_to at self.old.nest.0 self.old.nest.1 }
    {
        match at {
            Some(at) => {
                self.at = at;
                true
            }
            None => false,
        }
    }

    /// Behind a bracket that opens a list.
    #[tactic(auto, unfolding(crate::specs::Machine::push))]
    fn open_list(&mut self, kind: Kind) -> bool
        ensures { stepped result self.new ≡ push kind self.old.nest.0 self.old.nest.1 }
    {
        if !self.nest.open(kind) {
            return false;
        }
        self.at = At::Fresh;
        true
    }

    /// Behind a bracket that closes the innermost list.
    fn close_list(&mut self) -> bool
        ensures { stepped result self.new
            ≡ Rattle.json_span.specs.Machine.close_list self.old.nest.0 self.old.nest.1 }
    {
        if !self.nest.close() {
            return false;
        }
        self.at = At::After;
        true
    }

    /// Behind the first byte of a value.
    #[tactic(auto, unfolding(crate::specs::Machine::value_begin))]
    fn value_begin(&mut self, b: u8) -> bool
        ensures { stepped result self.new ≡ value_begin self.old.nest.0 self.old.nest.1 b }
    {
        match b {
            b'[' => self.open_list(Kind::Array),
            b'{' => self.open_list(Kind::Object),
            _ => self.go(scalar_begin(b)),
        }
    }

    /// Behind the first byte of a part.
    #[tactic(auto, unfolding(crate::specs::Machine::part_begin))]
    fn part_begin(&mut self, b: u8) -> bool
        ensures { stepped result self.new ≡ part_begin self.old.nest.0 self.old.nest.1 b }
    {
        match self.nest.innermost() {
            None => false,
            Some(Kind::Array) => self.value_begin(b),
            Some(Kind::Object) => {
                if b != b'"' {
                    return false;
                }
                self.at = At::Text(Role::Key, StringAt::Plain);
                true
            }
        }
    }

    /// Behind the first byte of a list that is no white space.
    #[tactic(auto, unfolding(crate::specs::Machine::fresh_step))]
    fn fresh_step(&mut self, b: u8) -> bool
        ensures { stepped result self.new ≡ fresh_step self.old.nest.0 self.old.nest.1 b }
    {
        match self.nest.innermost() {
            None => false,
            Some(kind) => {
                if b == closing(kind) {
                    self.close_list()
                } else {
                    self.part_begin(b)
                }
            }
        }
    }

    /// Behind a byte that follows a value.
    #[tactic(auto, unfolding(crate::specs::Machine::after_step))]
    fn after_step(&mut self, b: u8) -> bool
        ensures { stepped result self.new ≡ after_step self.old.nest.0 self.old.nest.1 b }
    {
        if space(b) {
            self.at = At::After;
            return true;
        }
        match self.nest.innermost() {
            None => false,
            Some(kind) => {
                if b == b',' {
                    self.at = At::Part;
                    true
                } else if b == closing(kind) {
                    self.close_list()
                } else {
                    false
                }
            }
        }
    }

    /// Behind a byte that follows a number's first.
    fn in_number(&mut self, at: NumberAt, b: u8) -> bool
        ensures { stepped result self.new
            ≡ number_goes at self.old.nest.0 self.old.nest.1 b
            (Rattle.json_span.specs.Machine.number_step at b) }
    {
        match number_step(at, b) {
            Some(next) => {
                self.at = At::Number(next);
                true
            }
            None => {
                if may_end(at) {
                    self.after_step(b)
                } else {
                    false
                }
            }
        }
    }

    /// Behind a byte that is no white space, before a part or a list.
    #[tactic(auto, unfolding(crate::specs::Machine::begin_step))]
    fn begin_step(&mut self, at: At, b: u8) -> bool
        ensures { stepped result self.new ≡ begin_step at self.old.nest.0 self.old.nest.1 b }
    {
        match at {
            At::Begin(kind) => {
                if b == opening(kind) {
                    self.open_list(kind)
                } else {
                    false
                }
            }
            At::Fresh => self.fresh_step(b),
            At::Part => self.part_begin(b),
            At::Colon => {
                if b == b':' {
                    self.at = At::Value;
                    true
                } else {
                    false
                }
            }
            At::Value => self.value_begin(b),
            _ => false,
        }
    }

    /// One byte further, where some text with a split goes on with it. Where none does, nothing is said
    /// of the machine.
    #[tactic(auto, unfolding(crate::specs::Machine::step))]
    pub fn step(&mut self, b: u8) -> bool
        ensures { stepped result self.new ≡ step self.old.at self.old.nest.0 self.old.nest.1 b }
    {
        let at = self.at;
        match at {
            At::After => self.after_step(b),
            At::Text(role, string) => self.go(in_text(role, string, b)),
            At::Number(number) => self.in_number(number, b),
            At::Literal(literal) => self.go(in_literal(literal, b)),
            _ => {
                if space(b) {
                    true
                } else {
                    self.begin_step(at, b)
                }
            }
        }
    }

    /// How many bytes at the front of a text leave the state as it is: the inside of a string, digits,
    /// white space.
    pub fn passed(&self, text: &[u8]) -> usize
        ensures within { result ≤ length text.now }
        ensures same { AllStay (state_of self.now) (take result text.now) }
    {
        match self.at {
            At::Text(_, StringAt::Plain) => plain_front(text),
            At::Number(NumberAt::InInteger) => digit_front(text),
            At::Number(NumberAt::InFraction) => digit_front(text),
            At::Number(NumberAt::InExponent) => digit_front(text),
            At::Text(_, _) | At::Number(_) | At::Literal(_) => 0,
            _ => space_front(text),
        }
    }

    /// The part of the outermost list in which the state is.
    pub fn within(&self) -> Within
        ensures { result ≡ within self.now.at self.now.nest.0 }
    {
        if self.nest.is_deep() {
            return Within::InValue;
        }
        match self.at {
            At::Text(Role::Key, _) => Within::InName,
            At::Text(Role::Item, _) | At::Literal(_) => Within::InValue,
            At::Number(_) => Within::InNumber,
            _ => Within::Outside,
        }
    }

    /// An object's member may begin here.
    pub fn awaits_name(&self) -> bool
        ensures { result ≡ awaits_name self.now.at self.now.nest.0 }
    {
        match (self.at, self.nest.innermost()) {
            (At::Fresh, Some(Kind::Object)) => true,
            (At::Part, Some(Kind::Object)) => true,
            _ => false,
        }
    }

    /// More lists are open than the outermost.
    pub fn is_deep(&self) -> bool
        ensures { result ≡ is_deep self.now.nest.0 }
    {
        self.nest.is_deep()
    }

    /// Goes on from another place, with the same brackets open.
    pub fn stand(&mut self, at: At)
        ensures { Some (state_of self.new) ≡ go_to at self.old.nest.0 self.old.nest.1 }
    {
        self.at = at;
    }

    /// The outermost list is closed.
    pub fn is_done(&self) -> bool
        ensures { result ≡ is_done self.now.at self.now.nest.0 }
    {
        match (self.at, self.nest.innermost()) {
            (At::After, None) => true,
            _ => false,
        }
    }
}
