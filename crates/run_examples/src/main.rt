// Runs each case of standard input and prints it. A case is five parts and a byte. A part is its length in two bytes,
// low byte first, and so many bytes: the name, the table, the list, the registers, the memory (these two in words,
// low byte first). The byte is the room for observations.
//
// The files stdin and stdout beside src/ are made by the second implementation, tests/second/src/bin/run_examples.rs:
// the cases, and what its own machine does with them.
#![tactic(auto)]

mod case;
mod show;

use case::Case;

// The words of a part, low byte first, at the start of the space. None where the part has more words than there is
// space for, or half a word.
fn words<'a>(part: &[u8], space: &'a mut [u32]) -> Option<&'a mut [u32]> {
    let (words, half) = part.as_chunks();
    if !half.is_empty() {
        return None;
    }
    let space = space.get_mut(..words.len())?;
    for (to, word) in space.iter_mut().zip(words) {
        *to = u32::from_le_bytes(*word);
    }
    Some(space)
}

// False where a case has more than there is space for here, or half a word.
fn run(case: &Case) -> bool {
    let mut registers = [0; 16];
    let mut memory = [0; 512];
    let mut observations = [255; 64];
    show::name(case.name);
    let (Some(registers), Some(memory), Some(observations)) = (
        words(case.registers, &mut registers),
        words(case.memory, &mut memory),
        observations.get_mut(..usize::from(case.room)),
    ) else {
        return false;
    };
    show::run(case.table, case.list, registers, memory, observations);
    true
}

fn cases(mut s: &[u8]) {
    while !s.is_empty() {
        let Some((case, rest)) = Case::first(s) else {
            return show::no_case();
        };
        if !run(&case) {
            return show::no_case();
        }
        s = rest;
    }
}

fn main() {
    let mut input = [0; 262144];
    let n = io::read_full(0, &mut input);
    if n < input.len() {
        cases(&input[..n]);
    } else {
        show::no_case();
    }
}
