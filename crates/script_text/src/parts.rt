//! The parts behind the name that an expression begins with.
ghost use Rattle.std.specs.Prelude.{◌≡◌, ◌+◌, ◌*◌, ◌<◌, ◌≤◌, List, [], ◌∷◌, ◌++◌, length, MatchOption, None, Some};
ghost use Rattle.elem.specs.declared.lexing.Lexeme.{Lexeme as AnyLexeme};
ghost use Rattle.script_text.specs.Stages.{grown};
ghost use Rattle.script_text.specs.Trees.{Call, part_of};
ghost use Rattle.script_text.specs.Calls.{calls_from, add_args, last_count, AreParts};
ghost use Rattle.script_text.specs.declared.lines.Slice.{Slice as AnySlice};

use crate::lines::{Part, Slice};
use crate::stages::{Stage, Turn, may_end, opens, turn_of};
use arrayvec::ArrayVec;
use elem::{Ahead, Lexeme, Word, next_lexeme};

fn without_arguments(word: Word) -> Part
    ensures { result ≡ part_of (record { word = word; args = [] }) }
{
    Part {
        word,
        count: 0,
        args: [Slice { start: 0, end: 0 }; 3],
    }
}

fn with_argument(part: Part, place: Slice) -> Part
    requires { part.count < 65535 }
    ensures count { result.count ≡ part.count + 1 }
    ensures part { (call : Call AnySlice) → part ≡ part_of call → result ≡ part_of (record { word = call.word; args = call.args ++ place ∷ [] }) }
{
    let mut part = part;
    let count = part.count as usize;
    if count < 3 {
        part.args[count] = place;
    }
    part.count += 1;
    part
}

/// Gives the last part one more argument.
fn add_argument(parts: &mut ArrayVec<Part, 512>, place: Slice)
    requires count { last_count parts.old.items < 65535 }
    requires room { length parts.old.items ≤ 512 }
    ensures parts { (calls : List (Call AnySlice)) → AreParts parts.old.items calls → AreParts parts.new.items (add_args calls (place ∷ [])) }
    ensures len { length parts.new.items ≡ length parts.old.items }
    ensures count { last_count parts.new.items ≤ last_count parts.old.items + 1 }
{
    if let Some(part) = parts.pop() {
        parts.push(with_argument(part, place));
    }
}

/// The place of the argument so far, with one more token.
fn grown(stage: Stage, place: Slice, token: &Lexeme) -> Slice
    requires start { token.now.start ≤ 1024 }
    requires end { token.now.end ≤ 1024 }
    ensures { result ≡ grown stage place token.now }
{
    Slice {
        start: if opens(stage) {
            token.start as u16
        } else {
            place.start
        },
        end: token.end as u16,
    }
}

/// Reads the parts that the tokens from a place on are, where they are parts, in the place of those that were read before.
pub fn read_parts(line: &[u8], from: usize, parts: &mut ArrayVec<Part, 512>) -> Option<()>
    requires short { length line.now ≤ 1024 }
    requires within { from ≤ length line.now }
    ensures { MatchOption result (calls_from line.now from ≡ None) (λ u. (calls : List (Call AnySlice)) × (calls_from line.now from ≡ Some calls) × AreParts parts.new.items calls) }
{
    parts.clear();
    let mut stage = Stage::Ended;
    let mut place = Slice { start: 0, end: 0 };
    let mut at = from;
    loop {
        let token = match next_lexeme(line, at) {
            Ahead::Nothing => break,
            Ahead::Fault => return None,
            Ahead::Next(token) => token,
        };
        let more = grown(stage, place, &token);
        match turn_of(stage, &token.token)? {
            Turn::To(next) => stage = next,
            Turn::Part(word) => {
                parts.push(without_arguments(word));
                stage = Stage::Called;
            }
            Turn::Argument(next) => {
                add_argument(parts, place);
                stage = next;
            }
        }
        place = more;
        at = token.end;
    }
    if may_end(stage) { Some(()) } else { None }
}
