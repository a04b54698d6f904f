// What a line says.
ghost use Rattle.std.specs.Prelude.{true, codes, IfOk};
ghost use Rattle.script.specs.Lines.{StateWritten, Directs, Reads, Says};
ghost use Rattle.script.specs.Unread.{unread};

use crate::estimators::*;
use crate::records::*;
use crate::words::*;
use std::alloc::{AllocError, Global};
use task::state::State;

// What a block asks of the library. `Later` stands for a directive that is known and not served yet, and `Malformed` for a line
// that says nothing, by its number.
#[derive(Drop)]
pub enum Directive {
    Accept,
    Check(Vec<u32>),
    Est(Asked, State),
    Grounds(u64, State),
    Later,
    Malformed(u64),
}

#[derive(Drop)]
pub enum Line {
    Blank,
    Fill(Record),
    Ask(Directive),
    End,
}

// What the line with a number says, where `LMCUT` says whether LM-cut is served.
pub fn read_line<const LMCUT: bool>(
    heap: Global,
    number: u64,
    bytes: &[u8],
) -> Result<Line, AllocError>
    ensures { IfOk result (λ line. Says LMCUT number bytes.now line) }
{
    read_bytes::<LMCUT>(heap, bytes).or_else(|fault| match fault {
        LineFault::Malformed => Ok(Line::Ask(Directive::Malformed(number))),
        LineFault::NoMemory(error) => Err(error),
    })
}

fn read_bytes<const LMCUT: bool>(heap: Global, bytes: &[u8]) -> Result<Line, LineFault>
    ensures { IfOk result (λ line. Reads LMCUT bytes.now line) }
{
    let text = std::str::from_utf8(bytes).map_err(|_| LineFault::Malformed)?;
    read_text::<LMCUT>(heap, text)
}

// What a text says, by its first word. A `match`: the words are few and fixed, and a table of functions would hand pointers out.
fn read_text<const LMCUT: bool>(heap: Global, text: &str) -> Result<Line, LineFault>
    ensures { IfOk result (λ line. Reads LMCUT text.now line) }
{
    let mut words = Words::new(text);
    let Some(name) = words.word() else {
        return Ok(Line::Blank);
    };
    match name {
        "head" => Ok(Line::Fill(read_head(words)?)),
        "q" => Ok(Line::Fill(read_quantity(words)?)),
        "c" => Ok(Line::Fill(read_condition(words)?)),
        "m" => Ok(Line::Fill(read_move(words)?)),
        "l" => Ok(Line::Fill(read_link(words)?)),
        "end" => {
            words.finish()?;
            Ok(Line::End)
        }
        _ => Ok(Line::Ask(read_directive::<LMCUT>(heap, name, words)?)),
    }
}

// The directive of a name, with the words that follow it.
fn read_directive<const LMCUT: bool>(
    heap: Global,
    name: &str,
    words: Words,
) -> Result<Directive, LineFault>
    ensures { IfOk result (λ d. Directs LMCUT name.now (unread words.entry) d) }
{
    match name {
        "accept" => {
            words.finish()?;
            Ok(Directive::Accept)
        }
        "check" => Ok(Directive::Check(words.numbers(heap)?)),
        "est" => read_est::<LMCUT>(words),
        "grounds" if LMCUT => read_grounds(words),
        "grounds" => Ok(Directive::Later),
        "open" | "advance" | "bound" | "plan" | "rows" | "lines" => Ok(Directive::Later),
        _ => Err(LineFault::Malformed),
    }
}

// `est E FACTS V1 .. V16`.
fn read_est<const LMCUT: bool>(mut words: Words) -> Result<Directive, LineFault>
    ensures { IfOk result (λ d. Directs LMCUT (codes "est") (unread words.entry) d) }
{
    let asked: Asked = words.number()?;
    let state = read_state(words)?;
    if asked.needs_lmcut() && !LMCUT {
        return Ok(Directive::Later);
    }
    Ok(Directive::Est(asked, state))
}

// `grounds LEN FACTS V1 .. V16`.
fn read_grounds(mut words: Words) -> Result<Directive, LineFault>
    ensures { IfOk result (λ d. Directs true (codes "grounds") (unread words.entry) d) }
{
    let room = words.number()?;
    Ok(Directive::Grounds(room, read_state(words)?))
}

// The rest of the words as a record: the word of facts and sixteen values.
fn read_state(mut words: Words) -> Result<State, LineFault>
    ensures { IfOk result (λ state. StateWritten (unread words.entry) state) }
{
    let facts = words.number()?;
    let mut values = [0; 16];
    for value in values.iter_mut() {
        *value = words.number()?;
    }
    words.finish()?;
    Ok(State { facts, values })
}
