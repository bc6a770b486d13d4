//! The parts of an object's or an array's text.

ghost use Rattle.std.specs.Prelude.{◌≡◌, List, IfOk, IfErr, MatchResult, Some, All, map};
ghost use Rattle.std.specs.Option.{option_map};
ghost use Rattle.json_span.specs.Grammar.{IsObject, IsArray, CutsMember, CutsValue, cut_of};
ghost use Rattle.json_span.specs.Parts.{members_of, member_of, elements_of, RefusesMembers, RefusesElements};
ghost use Rattle.json_span.specs.Machine.{split_of};
ghost use Rattle.json_span.specs.Stops.{Stops};
ghost use Rattle.json_span.specs.declared.Member.{Member as MemberValue};
ghost use Rattle.json_span.specs.declared.Span.{Span as SpanValue};
ghost use Rattle.json_span.specs.declared.SpanFault.TheVariants.{Memory};

use crate::bare::bare_member;
use crate::machine::Machine;
use crate::marks::Marks;
use crate::state::Kind;
use crate::{Member, Span, SpanFault};
use std::alloc::Global;

// How many parts a list has room for at first: most objects have no more members.
const ROOM: usize = 8;

/// What a list keeps of each part.
trait Kept: Drop {
    ghost kept: { MemberValue → Self };

    /// What is kept of a part with this name and value.
    fn keep(member: Member) -> Self
        ensures { result ≡ kept member };
}

impl Kept for Member {
    ghost kept = { λ m. m };

    fn keep(member: Member) -> Member {
        member
    }
}

impl Kept for Span {
    ghost kept = { λ m. m.value };

    fn keep(member: Member) -> Span {
        member.value
    }
}

/// The parts of a text of a kind: one pass, which keeps each part as soon as it is whole.
fn split<P: Kept>(alloc: Global, kind: Kind, text: &[u8]) -> Result<Vec<P>, SpanFault>
    ensures found { IfOk result (λ v. option_map (map P.kept) (split_of kind text.now)
        ≡ Some v.items) }
    ensures refused { IfErr result (Stops kind text.now) }
{
    let mut parts = Vec::with_capacity(alloc, ROOM)?;
    let mut machine = Machine::new(kind);
    let mut marks = Marks::new();
    let mut place = machine.passed(text);
    'bytes: while place < text.len() {
        if machine.awaits_name() {
            if let Some(bare) = bare_member(text, place) {
                if !machine.is_deep() {
                    if bare.is_whole() {
                        parts.push(P::keep(bare.member))?;
                        marks = Marks::new();
                    } else {
                        marks = Marks::of_value(bare.member.name, bare.member.value.at);
                    }
                }
                machine.stand(bare.at);
                place = bare.end;
                continue;
            }
        }
        let before = machine.within();
        if !machine.step(text[place]) {
            return Err(SpanFault::NotSplit(place));
        }
        let after = machine.within();
        if let Some(member) = marks.finished(place, before, after) {
            parts.push(P::keep(member))?;
        }
        marks = marks.marked(place, before, after);
        place += 1;
        place += machine.passed(&text[place..]);
    }
    if machine.is_done() {
        Ok(parts)
    } else {
        Err(SpanFault::NotSplit(text.len()))
    }
}

/// Where the members of an object's text lie, in their order: each name with its quotes, each value
/// with no white space at its ends. The text is an object of RFC 8259 with white space round it; each
/// value has at most `MOST_BRACKETS` brackets that are open at one place. Bytes of a string need not be UTF-8.
/// Any other text is `NotSplit`, with the length of its longest front with which such a text begins.
/// The time is linear in the text, and memory is taken for the list of spans alone.
pub fn members(alloc: Global, text: &[u8]) -> Result<Vec<Member>, SpanFault>
    ensures found { IfOk result (λ v. IsObject text.now v.items) }
    ensures only { (all : List MemberValue) → IsObject text.now all
        → MatchResult result (λ v. v.items ≡ all) (λ e. e ≡ Memory) }
    ensures cuts { IfOk result (λ v. All (CutsMember text.now) v.items) }
    ensures parts { IfOk result
        (λ v. members_of text.now ≡ Some (map (member_of text.now) v.items)) }
    ensures refused { IfErr result (RefusesMembers text.now) }
{
    split(alloc, Kind::Object, text)
}

/// Where the elements of an array's text lie, in their order, with no white space at their ends. The
/// text is an array of RFC 8259 with white space round it; each element has at most `MOST_BRACKETS` brackets that
/// are open at one place. Bytes of a string need not be UTF-8. Any other text is `NotSplit`, with the
/// length of its longest front with which such a text begins. The time is linear in the text, and
/// memory is taken for the list of spans alone.
pub fn elements(alloc: Global, text: &[u8]) -> Result<Vec<Span>, SpanFault>
    ensures found { IfOk result (λ v. IsArray text.now v.items) }
    ensures only { (all : List SpanValue) → IsArray text.now all
        → MatchResult result (λ v. v.items ≡ all) (λ e. e ≡ Memory) }
    ensures cuts { IfOk result (λ v. All (CutsValue text.now) v.items) }
    ensures parts { IfOk result (λ v. elements_of text.now ≡ Some (map (cut_of text.now) v.items)) }
    ensures refused { IfErr result (RefusesElements text.now) }
{
    split(alloc, Kind::Array, text)
}
