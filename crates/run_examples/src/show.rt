// Prints a run: what is lent to it, how it ends, what it leaves. All numbers are decimal. Each piece is a write of its
// own; one that fails is passed over, and the next is tried.
use machine::Outcome;

fn spaced(n: u64) {
    io::write_all(1, b" ");
    io::print_decimal(1, n);
}

fn labelled(label: &[u8], n: u64) {
    io::write_all(1, label);
    spaced(n);
}

fn ended() {
    io::write_all(1, b"\n");
}

// The line that starts a case.
pub(crate) fn name(name: &[u8]) {
    io::write_all(1, name);
    ended();
}

pub(crate) fn no_case() {
    io::write_all(1, b"no whole case, or one too large\n");
}

fn numbers<N: Copy + Into<u64>>(label: &[u8], each: &[N]) {
    io::write_all(1, label);
    for n in each {
        spaced((*n).into());
    }
    ended();
}

// As numbers, but only the length of more than 200.
fn bytes(label: &[u8], each: &[u8]) {
    if each.len() <= 200 {
        numbers(label, each);
    } else {
        labelled(label, each.len() as u64);
        io::write_all(1, b" bytes\n");
    }
}

fn state(when: &[u8], registers: &[u32], memory: &[u32], observations: &[u8]) {
    io::write_all(1, b"registers ");
    numbers(when, registers);
    io::write_all(1, b"memory ");
    numbers(when, memory);
    io::write_all(1, b"observations ");
    bytes(when, observations);
}

fn ending(o: Outcome) {
    match o {
        Ok(end) => {
            labelled(b"stop", u64::from(u8::from(end.stop)));
            labelled(b" at", end.place as u64);
            labelled(b" after", end.steps as u64);
            labelled(b" steps, misspeculating", u64::from(end.mis));
            labelled(b", masked", u64::from(end.masked));
        }
        Err(refusal) => {
            labelled(b"refused", u64::from(u8::from(refusal.fault)));
            labelled(b" at", refusal.place as u64);
        }
    }
    ended();
}

pub(crate) fn run(
    table: &[u8],
    list: &[u8],
    registers: &mut [u32],
    memory: &mut [u32],
    observations: &mut [u8],
) {
    bytes(b"table", table);
    bytes(b"directives", list);
    state(b"before", registers, memory, observations);
    ending(machine::run(table, registers, memory, list, observations));
    state(b"after", registers, memory, observations);
    ended();
}
