ghost use Rattle.std.specs.Prelude.{◌≡◌, ◌⊎◌, ◌↔◌, ◌<◌, ◌≤◌, ◌+◌, ℕ, length, drop, if◌then◌else◌, Some, Err, IfOk, IfErr, false};
ghost use Rattle.formula_parse.specs.Lexing.{begun_len};
ghost use Rattle.std.specs.Str.{chars};
ghost use Rattle.formula_parse.specs.Faults.{IsFormula, IsShort, IsTooDeep, IsSyntaxFault, IsRangeFault, IsNumberFault};
ghost use Rattle.formula_parse.specs.ReaderMachine.{read_text, read_token, at_end, tree_at_end, gap_len, minuses_in, is_too_deep, Answer, Onward};
ghost use Rattle.formula_parse.specs.Parsing.{formula_of, is_too_long, parse_result};
ghost use Rattle.formula_parse.specs.Turns.{IsReadUpTo};

use super::faults::ParseFault;
use super::lexing::{begun_len, stands_at, token_at};
use super::limits::LONGEST_FORMULA;
use super::nodes::Node;
use super::reader::Reader;
use super::trees::Tree;
use std::alloc::Global;

/// The tree of the formula that the text is.
#[tactic(auto, unfolding(crate::specs::Parsing::parse_result))]
pub fn parse(alloc: Global, text: &str) -> Result<Tree, ParseFault>
    ensures ok { IfOk result (λ tree. IsFormula text.now tree) }
    ensures read { IfOk result (λ tree. formula_of text.now ≡ Some tree) }
    ensures too_long { (result ≡ Err ParseFault.TooLong)
        ↔ (LONGEST_FORMULA < length (chars text.now)) }
    ensures too_deep { result ≡ Err ParseFault.TooDeep → IsShort text.now × IsTooDeep text.now }
    ensures syntax { (place : ℕ) → result ≡ Err (ParseFault.Syntax place)
        → IsSyntaxFault text.now place }
    ensures bad_range { result ≡ Err ParseFault.BadRange → IsRangeFault text.now }
    ensures number_too_large { result ≡ Err ParseFault.NumberTooLarge → IsNumberFault text.now }

    // Which of these it is, unless memory runs out.
    ensures exact { (result ≡ Err ParseFault.Memory) ⊎ (result ≡ parse_result text.now) }
{
    if has_too_many_characters(text) {
        return Err(ParseFault::TooLong);
    }
    read_formula(alloc, text)
}

fn has_too_many_characters(text: &str) -> bool
    ensures { result ≡ is_too_long text.now }
{
    text.chars().count() > LONGEST_FORMULA
}

/// The tree of the formula, whatever its length in characters.
fn read_formula(alloc: Global, text: &str) -> Result<Tree, ParseFault>
    requires { IsShort text.now }
    ensures { (result ≡ Err ParseFault.Memory) ⊎ (result ≡ read_text text.now) }
{
    if !stands_at(text.as_bytes(), 0, b'=') {
        return Err(ParseFault::Syntax(0));
    }
    let mut reader = Reader::new(alloc)?;
    let mut place = 1;
    for _ in 0..text.len() {
        let start = gap_end(text, place);
        if start == text.len() {
            let root = read_end(alloc, reader, start)?;
            return Ok(Tree::new(alloc, root)?);
        }
        place = read_token(alloc, text, &mut reader, start)?;
    }
    Err(ParseFault::Syntax(place))
}

/// Lets the reader take the token at a place; the place where the token ends.
fn read_token(
    alloc: Global,
    text: &str,
    reader: &mut Reader,
    place: usize,
) -> Result<usize, ParseFault>
    requires short { length text.now ≤ 32768 }
    requires within { place < length text.now }
    requires few { minuses_in reader.old.phase ≤ place }
    requires shallow { is_too_deep reader.old.frames ≡ false }
    ensures ok { IfOk result (λ end. Onward reader.new end (drop end text.now)
        ≡ read_token reader.old place (drop place text.now)) }
    ensures on { IfOk result (λ end. IsReadUpTo text.now end reader.new) }
    ensures err { IfErr result (λ fault. (fault ≡ ParseFault.Memory)
        ⊎ (Answer (Err fault) ≡ read_token reader.old place (drop place text.now))) }
{
    let awaits_operand = reader.awaits_operand();
    let Some((token, len)) = token_at(alloc, text, place)? else {
        return Err(fault_at(awaits_operand, text, place));
    };
    if !reader.take(alloc, token)? {
        Err(fault_at(awaits_operand, text, place))
    } else if reader.is_too_deep() {
        Err(ParseFault::TooDeep)
    } else {
        Ok(place + len)
    }
}

/// The fault at a place where no formula goes on, which an operand may have begun.
fn fault_at(awaits_operand: bool, text: &str, place: usize) -> ParseFault
    requires { place ≤ length text.now }
    ensures { result ≡ ParseFault.Syntax (place +
        (if awaits_operand then begun_len (drop place text.now) else 0)) }
{
    let begun = if awaits_operand {
        begun_len(&text.as_bytes()[place..])
    } else {
        0
    };
    ParseFault::Syntax(place + begun)
}

/// The formula that ends at a place, or its fault.
fn read_end(alloc: Global, reader: Reader, place: usize) -> Result<Node, ParseFault>
    ensures { (result ≡ Err ParseFault.Memory)
        ⊎ (result ≡ at_end reader place (tree_at_end reader.phase reader.frames)) }
{
    let has_wide_area = reader.has_wide_area;
    let has_large_number = reader.has_large_number;
    match reader.ended(alloc)? {
        None => Err(ParseFault::Syntax(place)),
        Some(_) if has_wide_area => Err(ParseFault::BadRange),
        Some(_) if has_large_number => Err(ParseFault::NumberTooLarge),
        Some(root) => Ok(root),
    }
}

/// Where the spaces at a place end.
fn gap_end(text: &str, place: usize) -> usize
    requires { place ≤ length text.now }
    ensures value { result ≡ place + gap_len (drop place text.now) }
    ensures within { result ≤ length text.now }
{
    place + gap_len(&text.as_bytes()[place..])
}

/// How many spaces a text begins with.
fn gap_len(text: &[u8]) -> usize
    ensures value { result ≡ gap_len text.now }
    ensures within { result ≤ length text.now }
{
    text.iter().take_while(|byte| **byte == b' ').count()
}
