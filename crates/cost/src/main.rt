// What one sound test costs, beside one copy of the tables, and what GETMAIN's search costs without a sound test. The
// word after the program's name says what is repeated by its first letter; each further letter is a factor of ten.
// - c: copies; any other than those below: sound tests. `time crates/cost/out/cost ssssss` against `.. cccccc` tells
//   the multiple.
// - g: GETMAIN's body; l: its search alone; e: the search of every multiple of 8. Two words more tell by their first
//   letters how many areas there are (1: one, 3: 32, any other: 127) and how they lie (p: packed, s: scattered,
//   t: every page is taken, any other: the region is filled). `time crates/cost/out/cost llllll m t` against
//   `.. eee m t`.
#![tactic(auto)]

ghost use Rattle.cost.specs.Searches.{Searched};

mod every;
mod full;
mod layouts;
mod numbers;
mod searches;

use kinds::Address;
use std::rt::Env;
use tables::AllTables;

// The longest word that is read, in letters.
const LETTERS: usize = 8;

// Ten turns, and ten times as many for each further letter.
fn rounds(letters: usize) -> u32 {
    match letters {
        2..=8 => 10u32.pow(letters as u32),
        _ => 10,
    }
}

// The first letter of a word, or 0 where there is none.
fn letter(rt: HostRuntime, word: usize) -> u8 {
    let mut text = [0u8; LETTERS];
    let _ = rt.arg(word, &mut text);
    text[0]
}

fn say(rt: HostRuntime, hits: u32, all: u32) {
    let _ = print!(rt; "{hits} of {all}");
}

fn say_place(rt: HostRuntime, place: Option<Address>) {
    let _ = match place {
        Some(Address(at)) => print!(rt; " at {at}"),
        None => print!(rt; " nowhere"),
    };
}

fn search<F: Fn(&AllTables, u32, u32) -> Option<Address>>(rt: HostRuntime, search: F, all: u32)
    requires { (t : _) (turn bytes : _) → Searched t.now bytes → F.pre search t turn bytes }
{
    let n = layouts::number_of(letter(rt, 2));
    let layout = layouts::layout_of(letter(rt, 3), n);
    let t = tables::put_storage(tables::over_with(0), layouts::laid(n, layout));
    let answers = searches::repeated(search, all, &t, layout.bytes);
    say(rt, answers.found, all);
    say_place(rt, answers.last);
}

fn main(rt: HostRuntime) {
    let mut word = [0u8; LETTERS];
    // a word that is longer counts as one of no letters
    let n = rt.arg(1, &mut word).unwrap_or(0);
    let all = rounds(n);
    match word[0] {
        b'c' => say(rt, full::copies(all), all),
        b'g' => search(rt, searches::by_body, all),
        b'l' => search(rt, searches::by_lowest, all),
        b'e' => search(rt, searches::by_every, all),
        _ => say(rt, full::tests(all), all),
    }
    let _ = println!(rt);
}
